// The columns of an algebra's plan: one for each visible variable, and in mode each the graph's name behind them. Of two algebras
// the columns of the right one stand behind those of the left one.
ghost use Rattle.std.specs.Prelude.{◌≡◌, ◌+◌, ◌≤◌, [], ◌∷◌, length, nat_eq, IfOk};
ghost use Rattle.std.specs.List.{position_or_len};
ghost use Rattle.vkg_expr.specs.Expr.{Coalesce, Col, exprs};
ghost use Rattle.vkg_expr.specs.Seen.{expr_seen};
ghost use Rattle.vkg_algebra.specs.Visible.{has};
ghost use Rattle.vkg_unfolded.specs.Unfolded.{columns_in, merged, null_term, right_column, visible_column};

use std::alloc::Global;
use vkg_algebra::Var;
use vkg_base::{Box, Items, Memory};
use vkg_cells::{Cell, SqlType};
use vkg_expr::Expr;
use vkg_unfolded::Mode;

/// Whether a variable is there.
pub(crate) fn has(variables: &[Var], variable: Var) -> bool
    ensures { result ≡ has variables.now variable }
{
    variables.iter().any(|v| variable == *v)
}

/// Where a variable first stands; behind the last one where it is not there.
pub(crate) fn place(variables: &[Var], variable: Var) -> usize
    ensures value { result ≡ position_or_len (nat_eq variable) variables.now }
    ensures within { result ≤ length variables.now }
{
    variables.iter().take_while(|v| variable != **v).count()
}

/// The number of columns in a mode.
pub(crate) fn columns_in(mode: &Mode, variables: &[Var]) -> usize
    ensures { result ≡ columns_in mode.now variables.now }
{
    match mode {
        Mode::Default => variables.len(),
        Mode::InGraph(_) => variables.len(),
        Mode::Each => variables.len() + 1,
    }
}

pub(crate) fn null_term() -> Expr
    ensures { expr_seen result ≡ null_term }
{
    Expr::Const(Cell::Null, SqlType::Term)
}

/// A variable of one algebra: NULL where it is not visible.
pub(crate) fn visible_column(variables: &[Var], variable: Var) -> Expr
    ensures { expr_seen result ≡ visible_column variables.now variable }
{
    if has(variables, variable) {
        Expr::Col(place(variables, variable))
    } else {
        null_term()
    }
}

/// A variable of two: where both have it the left one's, or else the right one's.
pub(crate) fn merged(
    alloc: Global,
    mode: &Mode,
    left: &[Var],
    right: &[Var],
    variable: Var,
) -> Result<Expr, Memory>
    ensures { IfOk result (λ e. expr_seen e ≡ merged mode.now left.now right.now variable) }
{
    match (has(left, variable), has(right, variable)) {
        (true, true) => either(
            alloc,
            place(left, variable),
            right_place(mode, left, right, variable),
        ),
        (true, false) => Ok(Expr::Col(place(left, variable))),
        (false, true) => Ok(Expr::Col(right_place(mode, left, right, variable))),
        (false, false) => Ok(null_term()),
    }
}

/// Where the column of a variable of the right one stands.
pub(crate) fn right_place(mode: &Mode, left: &[Var], right: &[Var], variable: Var) -> usize
    ensures { Col result ≡ right_column mode.now left.now right.now variable }
{
    columns_in(mode, left) + place(right, variable)
}

/// The first of two columns that is not NULL.
fn either(alloc: Global, first: usize, second: usize) -> Result<Expr, Memory>
    ensures { IfOk result (λ e. expr_seen e ≡ Coalesce (exprs (Col first ∷ Col second ∷ []))) }
{
    let mut both = Items::new(alloc);
    both.push(Expr::Col(first))?;
    both.push(Expr::Col(second))?;
    Ok(Expr::Coalesce(both))
}
