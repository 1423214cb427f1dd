// Expressions that are made of strict forms alone: NULL where a part is.
ghost use Rattle.std.specs.Prelude.{◌≡◌, map};
ghost use Rattle.vkg_expr.specs.Expr.{exprs};
ghost use Rattle.vkg_schema.specs.Rows.{is_null as is_null_cell};
ghost use Rattle.vkg_expr.specs.Seen.{expr_seen};
ghost use Rattle.vkg_expr.specs.Strict.{any_names_column as any_column, are_strict as all_strict, is_strict as strict, names_column as has_column, nulls_on_null as null_with_column};

use crate::expr::Expr;
use vkg_cells::Cell;

/// Whether the expression is made of strict forms alone, whose value is NULL where that of a part is, and names a column.
pub fn nulls_on_null(e: &Expr) -> bool
    ensures { result ≡ null_with_column (expr_seen e.now) }
{
    is_strict(e) && names_column(e)
}

#[cycle(strict)]
fn is_strict(e: &Expr) -> bool
    ensures { result ≡ strict (expr_seen e.now) }
{
    match e {
        Expr::Col(_) => true,
        Expr::Const(cell, _) => !is_null(cell),
        Expr::MakeIri(e) => is_strict(e),
        Expr::IriOf(_, e) => is_strict(e),
        Expr::MakeBlank(e) => is_strict(e),
        Expr::MakeLit(e, _) => is_strict(e),
        Expr::Lex(e) => is_strict(e),
        Expr::IriSafe(e) => is_strict(e),
        Expr::Concat(list) => are_strict(list.as_slice()),
        Expr::Same(_, _) => false,
        Expr::IsNull(_) => false,
        Expr::Not(_) => false,
        Expr::And(_) => false,
        Expr::Or(_) => false,
        Expr::Coalesce(_) => false,
        Expr::Sparql(_, _) => false,
        Expr::Ebv(_) => false,
    }
}

#[cycle(strict)]
fn are_strict(list: &[Expr]) -> bool
    ensures { result ≡ all_strict (exprs (map expr_seen list.now)) }
{
    for e in list {
        if !is_strict(e) {
            return false;
        }
    }
    true
}

#[cycle(names)]
fn names_column(e: &Expr) -> bool
    ensures { result ≡ has_column (expr_seen e.now) }
{
    match e {
        Expr::Col(_) => true,
        Expr::Const(_, _) => false,
        Expr::MakeIri(e) => names_column(e),
        Expr::IriOf(_, e) => names_column(e),
        Expr::MakeBlank(e) => names_column(e),
        Expr::MakeLit(e, _) => names_column(e),
        Expr::Lex(e) => names_column(e),
        Expr::IriSafe(e) => names_column(e),
        Expr::IsNull(e) => names_column(e),
        Expr::Not(e) => names_column(e),
        Expr::Ebv(e) => names_column(e),
        Expr::Same(a, b) => names_column(a) || names_column(b),
        Expr::Concat(list) => any_names_column(list.as_slice()),
        Expr::And(list) => any_names_column(list.as_slice()),
        Expr::Or(list) => any_names_column(list.as_slice()),
        Expr::Coalesce(list) => any_names_column(list.as_slice()),
        Expr::Sparql(_, list) => any_names_column(list.as_slice()),
    }
}

#[cycle(names)]
fn any_names_column(list: &[Expr]) -> bool
    ensures { result ≡ any_column (exprs (map expr_seen list.now)) }
{
    for e in list {
        if names_column(e) {
            return true;
        }
    }
    false
}

/// Whether the cell is NULL.
pub fn is_null(cell: &Cell) -> bool
    ensures { result ≡ is_null_cell cell.now }
{
    matches!(cell, Cell::Null)
}
