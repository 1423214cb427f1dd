// Expressions of SPARQL's operators that are NULL where columns behind the first n are.
ghost use Rattle.std.specs.Prelude.{◌≡◌, map};
ghost use Rattle.vkg_expr.specs.Expr.{exprs};
ghost use Rattle.vkg_expr.specs.Seen.{expr_seen};
ghost use Rattle.vkg_moves.specs.Unknown.{is_unknown_behind as unknown_behind, one_unknown_behind};

use crate::columns::is_null_behind;
use vkg_expr::Expr;

/// Whether the expression is NULL on each row that has NULLs behind its first n cells: it is strict and names a column there, or it is an operator,
/// an effective boolean value or a negation of something that is NULL there.
#[cycle(unknown)]
pub fn is_unknown_behind(e: &Expr, n: usize) -> bool
    ensures { result ≡ unknown_behind n (expr_seen e.now) }
{
    match e {
        Expr::Sparql(_, list) => any_unknown_behind(list.as_slice(), n),
        Expr::Ebv(e) => is_unknown_behind(e, n),
        Expr::Not(e) => is_unknown_behind(e, n),
        _ => is_null_behind(e, n),
    }
}

#[cycle(unknown)]
fn any_unknown_behind(list: &[Expr], n: usize) -> bool
    ensures { result ≡ one_unknown_behind n (exprs (map expr_seen list.now)) }
{
    for e in list {
        if is_unknown_behind(e, n) {
            return true;
        }
    }
    false
}
