// Columns behind the first n.
ghost use Rattle.std.specs.Prelude.{◌≡◌, map, nat_le};
ghost use Rattle.std.specs.List.{list_any};
ghost use Rattle.vkg_expr.specs.Expr.{exprs};
ghost use Rattle.vkg_expr.specs.Seen.{expr_seen};
ghost use Rattle.vkg_expr.specs.Strict.{columns_each};
ghost use Rattle.vkg_moves.specs.Columns.{is_null_behind as null_behind, names_behind as some_behind};

use vkg_expr::{Expr, nulls_on_null};

/// Whether the expression is NULL on each row that has NULLs behind its first n cells: it is strict and names a column there.
pub fn is_null_behind(e: &Expr, n: usize) -> bool
    ensures { result ≡ null_behind n (expr_seen e.now) }
{
    nulls_on_null(e) && names_behind(e, n)
}

/// Whether the expression names a column behind the first n.
#[cycle(behind)]
#[tactic(auto, using(crate::proofs::Behind::behind_lists))]
pub fn names_behind(e: &Expr, n: usize) -> bool
    ensures { result ≡ some_behind n (expr_seen e.now) }
{
    match e {
        Expr::Col(at) => n <= *at,
        Expr::Const(_, _) => false,
        Expr::MakeIri(e) => names_behind(e, n),
        Expr::IriOf(_, e) => names_behind(e, n),
        Expr::MakeBlank(e) => names_behind(e, n),
        Expr::MakeLit(e, _) => names_behind(e, n),
        Expr::Lex(e) => names_behind(e, n),
        Expr::IriSafe(e) => names_behind(e, n),
        Expr::IsNull(e) => names_behind(e, n),
        Expr::Not(e) => names_behind(e, n),
        Expr::Ebv(e) => names_behind(e, n),
        Expr::Same(a, b) => names_behind(a, n) || names_behind(b, n),
        Expr::Concat(list) => any_names_behind(list.as_slice(), n),
        Expr::And(list) => any_names_behind(list.as_slice(), n),
        Expr::Or(list) => any_names_behind(list.as_slice(), n),
        Expr::Coalesce(list) => any_names_behind(list.as_slice(), n),
        Expr::Sparql(_, list) => any_names_behind(list.as_slice(), n),
    }
}

#[cycle(behind)]
#[tactic(auto, using(crate::proofs::Behind::behind_lists))]
fn any_names_behind(list: &[Expr], n: usize) -> bool
    ensures { result ≡ list_any (nat_le n) (columns_each (exprs (map expr_seen list.now))) }
{
    for e in list {
        if names_behind(e, n) {
            return true;
        }
    }
    false
}
