// Conjuncts that tie columns.
ghost use Rattle.std.specs.Prelude.{◌≡◌, ◌+◌, ◌&&◌, map};
ghost use Rattle.std.specs.List.{list_any};
ghost use Rattle.vkg_expr.specs.Seen.{expr_seen};
ghost use Rattle.vkg_keys.specs.Ties.{are_tied as condition_ties, is_column as a_column, ties as ties_columns};

use vkg_expr::Expr;

/// Whether a conjunct of the condition says that two columns are equal, either way round: the pair's first behind `first` others, and
/// its second behind `second`.
#[tactic(auto, using(vkg_columns::proofs::Lists::conjunct_lists))]
pub fn are_tied(c: &Expr, first: usize, second: usize, pair: (usize, usize)) -> bool
    ensures { result ≡ condition_ties (expr_seen c.now) (first + pair.0) (second + pair.1) }
{
    match c {
        Expr::And(list) => any_ties(list.as_slice(), first, second, pair),
        _ => ties(c, first, second, pair),
    }
}

fn any_ties(list: &[Expr], first: usize, second: usize, pair: (usize, usize)) -> bool
    ensures { result ≡ list_any (ties_columns (first + pair.0) (second + pair.1)) (map expr_seen list.now) }
{
    for c in list {
        if ties(c, first, second, pair) {
            return true;
        }
    }
    false
}

fn ties(c: &Expr, first: usize, second: usize, pair: (usize, usize)) -> bool
    ensures { result ≡ ties_columns (first + pair.0) (second + pair.1) (expr_seen c.now) }
{
    match c {
        Expr::Same(a, b) => {
            are_columns(a, b, first, second, pair) || are_columns(b, a, first, second, pair)
        }
        _ => false,
    }
}

/// Whether these are the two columns of the pair.
fn are_columns(a: &Expr, b: &Expr, first: usize, second: usize, pair: (usize, usize)) -> bool
    ensures { result ≡ (a_column (first + pair.0) (expr_seen a.now) && a_column (second + pair.1) (expr_seen b.now)) }
{
    is_column(a, first, pair.0) && is_column(b, second, pair.1)
}

/// Whether the expression is a column: the one at this place of those behind n others.
#[tactic(auto, using(crate::proofs::ColumnBehind::column_behind))]
pub fn is_column(e: &Expr, n: usize, at: usize) -> bool
    ensures { result ≡ a_column (n + at) (expr_seen e.now) }
{
    match e {
        Expr::Col(column) => n <= *column && *column - n == at,
        _ => false,
    }
}
