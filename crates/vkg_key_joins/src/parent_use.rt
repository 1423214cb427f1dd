// What a join uses of the table that a foreign key refers to.
ghost use Rattle.std.specs.Prelude.{◌≡◌, map, nat_eq};
ghost use Rattle.std.specs.List.{list_all, list_any};
ghost use Rattle.vkg_expr.specs.Expr.{exprs};
ghost use Rattle.vkg_expr.specs.Seen.{expr_seen};
ghost use Rattle.vkg_expr.specs.Strict.{columns_each};
ghost use Rattle.vkg_keys.specs.Keys.{is_of_one_kind as one_kind_pair};
ghost use Rattle.vkg_keys.specs.Ties.{all_tied};
ghost use Rattle.vkg_key_joins.specs.ParentJoin.{is_given as column_given, names_given as given_alone};

use vkg_expr::{Expr, same_kind};
use vkg_keys::are_tied;
use vkg_schema::Column;

/// Whether the condition ties each pair: its first column behind the first ones and its second behind the second ones.
pub fn are_all_tied(c: &Expr, first: usize, second: usize, pairs: &[(usize, usize)]) -> bool
    ensures { result ≡ all_tied (expr_seen c.now) first second pairs.now }
{
    pairs.iter().all(|pair| are_tied(c, first, second, *pair))
}

/// Whether the columns of each pair are there and of one kind.
pub fn are_of_one_kind(child: &[Column], parent: &[Column], pairs: &[(usize, usize)]) -> bool
    ensures { result ≡ list_all (one_kind_pair child.now parent.now) pairs.now }
{
    pairs
        .iter()
        .all(|pair| is_of_one_kind(child, parent, *pair))
}

fn is_of_one_kind(child: &[Column], parent: &[Column], pair: (usize, usize)) -> bool
    ensures { result ≡ one_kind_pair child.now parent.now pair }
{
    match (child.get(pair.0), parent.get(pair.1)) {
        (Some(c), Some(d)) => same_kind(c.kind, d.kind),
        _ => false,
    }
}

/// Whether of the n columns behind the first ones each expression names those alone that are second in the pairs.
pub fn all_name_given(es: &[Expr], first: usize, n: usize, pairs: &[(usize, usize)]) -> bool
    ensures { result ≡ list_all (given_alone first n pairs.now) (map expr_seen es.now) }
{
    for e in es {
        if !names_given(e, first, n, pairs) {
            return false;
        }
    }
    true
}

#[cycle(given)]
#[tactic(auto, using(crate::proofs::GivenLists::given_lists))]
pub fn names_given(e: &Expr, first: usize, n: usize, pairs: &[(usize, usize)]) -> bool
    ensures { result ≡ given_alone first n pairs.now (expr_seen e.now) }
{
    match e {
        Expr::Col(at) => is_given(*at, first, n, pairs),
        Expr::Const(_, _) => true,
        Expr::MakeIri(e) => names_given(e, first, n, pairs),
        Expr::IriOf(_, e) => names_given(e, first, n, pairs),
        Expr::MakeBlank(e) => names_given(e, first, n, pairs),
        Expr::MakeLit(e, _) => names_given(e, first, n, pairs),
        Expr::Lex(e) => names_given(e, first, n, pairs),
        Expr::IriSafe(e) => names_given(e, first, n, pairs),
        Expr::IsNull(e) => names_given(e, first, n, pairs),
        Expr::Not(e) => names_given(e, first, n, pairs),
        Expr::Ebv(e) => names_given(e, first, n, pairs),
        Expr::Same(a, b) => names_given(a, first, n, pairs) && names_given(b, first, n, pairs),
        Expr::Concat(list) => list_names_given(list.as_slice(), first, n, pairs),
        Expr::And(list) => list_names_given(list.as_slice(), first, n, pairs),
        Expr::Or(list) => list_names_given(list.as_slice(), first, n, pairs),
        Expr::Coalesce(list) => list_names_given(list.as_slice(), first, n, pairs),
        Expr::Sparql(_, list) => list_names_given(list.as_slice(), first, n, pairs),
    }
}

#[cycle(given)]
#[tactic(auto, using(crate::proofs::GivenLists::given_lists))]
fn list_names_given(list: &[Expr], first: usize, n: usize, pairs: &[(usize, usize)]) -> bool
    ensures { result ≡ list_all (column_given first n pairs.now) (columns_each (exprs (map expr_seen list.now))) }
{
    for e in list {
        if !names_given(e, first, n, pairs) {
            return false;
        }
    }
    true
}

/// Whether a column is none of the n behind the first ones, or one that is second in a pair.
fn is_given(at: usize, first: usize, n: usize, pairs: &[(usize, usize)]) -> bool
    ensures { result ≡ column_given first n pairs.now at }
{
    if first <= at {
        n <= at - first || is_second(at - first, pairs)
    } else {
        true
    }
}

fn is_second(y: usize, pairs: &[(usize, usize)]) -> bool
    ensures { result ≡ list_any (λ p. nat_eq p.1 y) pairs.now }
{
    pairs.iter().any(|pair| pair.1 == y)
}
