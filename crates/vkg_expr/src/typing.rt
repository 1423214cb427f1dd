// The kinds of expressions.
ghost use Rattle.std.specs.Bool.{then_some};
ghost use Rattle.std.specs.Prelude.{◌≡◌, ◌&&◌, ◌==◌, IfOk, length, map, option_map, slice_get};
ghost use Rattle.vkg_lists.specs.Options.{with_first};
ghost use Rattle.vkg_expr.specs.Expr.{each, exprs};
ghost use Rattle.vkg_expr.specs.Seen.{expr_seen};
ghost use Rattle.vkg_expr.specs.Typing.{are_all, arity as arity_of, common, equality_kind, is_column as is_column_expr, is_one, kind_of, kinds_of, lexical_kind, no_column as no_column_in, result_kind as result_kind_of};

use crate::expr::{Expr, Operator};
use crate::kinds::{fits, is_kind, same_family, same_kind};
use std::alloc::Global;
use vkg_base::{Items, Memory, at};
use vkg_cells::SqlType;

/// The kind of an expression over columns of these kinds; none exactly where it is ill typed.
#[tactic(auto, using(crate::proofs::KindLists::kind_lists))]
#[cycle(typed)]
pub fn typed(e: &Expr, kinds: &[SqlType]) -> Option<SqlType>
    ensures { result ≡ kind_of (expr_seen e.now) kinds.now }
{
    match e {
        Expr::Col(at) => kind_at(kinds, *at),
        Expr::Const(cell, kind) => fits(*kind, cell).then_some(*kind),
        Expr::MakeIri(e) => is_typed(e, kinds, SqlType::Text).then_some(SqlType::Term),
        Expr::IriOf(_, e) => is_typed(e, kinds, SqlType::Text).then_some(SqlType::Text),
        Expr::MakeBlank(e) => is_typed(e, kinds, SqlType::Text).then_some(SqlType::Term),
        Expr::MakeLit(e, _) => is_typed(e, kinds, SqlType::Text).then_some(SqlType::Term),
        Expr::Lex(e) => lexical(typed(e, kinds)),
        Expr::IriSafe(e) => is_typed(e, kinds, SqlType::Text).then_some(SqlType::Text),
        Expr::Concat(list) => concatenation(list.as_slice(), kinds),
        Expr::Same(a, b) => equality(typed(a, kinds), typed(b, kinds)),
        Expr::IsNull(e) => null_test(typed(e, kinds)),
        Expr::Not(e) => is_typed(e, kinds, SqlType::Bool).then_some(SqlType::Bool),
        Expr::And(list) => are_typed(list.as_slice(), kinds, SqlType::Bool).then_some(
            SqlType::Bool,
        ),
        Expr::Or(list) => are_typed(list.as_slice(), kinds, SqlType::Bool).then_some(SqlType::Bool),
        Expr::Coalesce(list) => common_kind(list.as_slice(), kinds),
        Expr::Sparql(operator, list) => operation(*operator, list.as_slice(), kinds),
        Expr::Ebv(e) => is_typed(e, kinds, SqlType::Term).then_some(SqlType::Bool),
    }
}

#[cycle(typed)]
fn is_typed(e: &Expr, kinds: &[SqlType], kind: SqlType) -> bool
    ensures { result ≡ is_one kind (kind_of (expr_seen e.now) kinds.now) }
{
    is_kind(kind, typed(e, kinds))
}

/// Whether all are of the kind.
#[tactic(auto, using(crate::proofs::KindLists::kind_lists))]
#[cycle(typed)]
fn are_typed(list: &[Expr], kinds: &[SqlType], kind: SqlType) -> bool
    ensures { result ≡ are_all kind (kinds_of (exprs (map expr_seen list.now)) kinds.now) }
{
    for e in list {
        if !is_typed(e, kinds, kind) {
            return false;
        }
    }
    true
}

#[cycle(typed)]
fn concatenation(list: &[Expr], kinds: &[SqlType]) -> Option<SqlType>
    ensures { result ≡ then_some (no_column_in (exprs (map expr_seen list.now)) && are_all SqlType.Text (kinds_of (exprs (map expr_seen list.now)) kinds.now)) SqlType.Text }
{
    (has_no_column(list) && are_typed(list, kinds, SqlType::Text)).then_some(SqlType::Text)
}

/// The kind that one or more have in common.
#[tactic(auto, using(crate::proofs::KindLists::kind_lists))]
#[cycle(typed)]
fn common_kind(list: &[Expr], kinds: &[SqlType]) -> Option<SqlType>
    ensures { result ≡ common (kinds_of (exprs (map expr_seen list.now)) kinds.now) }
{
    match list {
        [] => None,
        [first, rest @ ..] => common_with(typed(first, kinds), rest, kinds),
    }
}

/// The kind, if all others have it too.
#[tactic(auto, using(crate::proofs::KindLists::kind_lists))]
#[cycle(typed)]
fn common_with(kind: Option<SqlType>, others: &[Expr], kinds: &[SqlType]) -> Option<SqlType>
    ensures { result ≡ common (with_first kind (kinds_of (exprs (map expr_seen others.now)) kinds.now)) }
{
    match kind {
        None => None,
        Some(kind) => are_typed(others, kinds, kind).then_some(kind),
    }
}

#[tactic(auto, using(crate::proofs::KindLists::kind_lists))]
#[cycle(typed)]
fn operation(operator: Operator, list: &[Expr], kinds: &[SqlType]) -> Option<SqlType>
    ensures { result ≡ then_some ((length (each (exprs (map expr_seen list.now))) == arity_of operator) && are_all SqlType.Term (kinds_of (exprs (map expr_seen list.now)) kinds.now)) (result_kind_of operator) }
{
    (list.len() == arity(operator) && are_typed(list, kinds, SqlType::Term)).then_some(result_kind(
        operator,
    ))
}

fn kind_at(kinds: &[SqlType], place: usize) -> Option<SqlType>
    ensures { result ≡ slice_get kinds.now place }
{
    match at(kinds, place) {
        Some(kind) => Some(*kind),
        None => None,
    }
}

fn arity(operator: Operator) -> usize
    ensures { result ≡ arity_of operator }
{
    match operator {
        Operator::Test(_) => 1,
        Operator::Take(_) => 1,
        Operator::Compare(_) => 2,
    }
}

fn result_kind(operator: Operator) -> SqlType
    ensures { result ≡ result_kind_of operator }
{
    match operator {
        Operator::Test(_) => SqlType::Bool,
        Operator::Take(_) => SqlType::Term,
        Operator::Compare(_) => SqlType::Bool,
    }
}

fn lexical(kind: Option<SqlType>) -> Option<SqlType>
    ensures { result ≡ lexical_kind kind }
{
    match kind {
        None => None,
        Some(kind) => (!same_kind(SqlType::Term, kind)).then_some(SqlType::Text),
    }
}

fn equality(a: Option<SqlType>, b: Option<SqlType>) -> Option<SqlType>
    ensures { result ≡ equality_kind a b }
{
    match (a, b) {
        (Some(a), Some(b)) => same_family(a, b).then_some(SqlType::Bool),
        _ => None,
    }
}

fn null_test(kind: Option<SqlType>) -> Option<SqlType>
    ensures { result ≡ option_map (λ k. SqlType.Bool) kind }
{
    match kind {
        None => None,
        Some(_) => Some(SqlType::Bool),
    }
}

fn is_column(e: &Expr) -> bool
    ensures { result ≡ is_column_expr (expr_seen e.now) }
{
    matches!(e, Expr::Col(_))
}

fn has_no_column(list: &[Expr]) -> bool
    ensures { result ≡ no_column_in (exprs (map expr_seen list.now)) }
{
    for e in list {
        if is_column(e) {
            return false;
        }
    }
    true
}

#[tactic(auto, using(crate::proofs::KindLists::kind_lists))]
/// The kinds of some expressions; none exactly where one is ill typed.
pub fn typed_each(
    alloc: Global,
    list: &[Expr],
    kinds: &[SqlType],
) -> Result<Option<Items<SqlType>>, Memory>
    ensures { IfOk result (λ o. o ≡ kinds_of (exprs (map expr_seen list.now)) kinds.now) }
{
    let mut found = Items::new(alloc);
    for e in list {
        let Some(kind) = typed(e, kinds) else {
            return Ok(None);
        };
        found.push(kind)?;
    }
    Ok(Some(found))
}
