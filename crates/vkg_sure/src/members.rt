// Members of a COALESCE that are never its value.
ghost use Rattle.std.specs.Prelude.{◌≡◌, ◌&&◌, ◌++◌, ◌∷◌, [], IfOk, map, not, option_map};
ghost use Rattle.std.specs.List.{list_any};
ghost use Rattle.vkg_equalities.specs.Decided.{makes_term as term_made};
ghost use Rattle.vkg_expr.specs.Seen.{expr_seen};
ghost use Rattle.vkg_lists.specs.Lists.{is_empty as has_none};
ghost use Rattle.vkg_same.specs.SameExpr.{same_expr as one_expr};
ghost use Rattle.vkg_sure.specs.FirstKnown.{adds_nothing as gives_nothing, fewer as without_one, fewer_at, first_alone as alone_of, is_null_constant as constant_null, shorter as made_shorter};
ghost use Rattle.vkg_sure.specs.NeverNull.{is_known as known_by};

use crate::first_value::first_value;
use crate::own_columns::OwnColumns;
use std::alloc::Global;
use vkg_base::{Box, Items, Memory};
use vkg_cells::SqlType;
use vkg_conditions::is_null;
use vkg_expr::{Expr, copy_exprs, same_kind};
use vkg_same::same_expr;

/// The value of the first member alone, if that is never NULL, or else the list without a member that is never its value.
pub fn shorter(
    alloc: Global,
    own: &OwnColumns,
    list: &[Expr],
) -> Result<Option<Items<Expr>>, Memory>
    ensures { IfOk result (λ o. option_map (map expr_seen) o ≡ made_shorter own.now (map expr_seen list.now)) }
{
    match first_alone(alloc, own, list)? {
        Some(one) => Ok(Some(one)),
        None => fewer(alloc, own, list),
    }
}

fn first_alone(
    alloc: Global,
    own: &OwnColumns,
    list: &[Expr],
) -> Result<Option<Items<Expr>>, Memory>
    ensures { IfOk result (λ o. option_map (map expr_seen) o ≡ alone_of own.now (map expr_seen list.now)) }
{
    match list {
        [] => Ok(None),
        [e, ..] => alone(alloc, first_value(alloc, own, e)?),
    }
}

fn alone(alloc: Global, e: Option<Box<Expr>>) -> Result<Option<Items<Expr>>, Memory>
    ensures { IfOk result (λ o. option_map (map expr_seen) o ≡ option_map (λ d. d ∷ []) (option_map expr_seen e)) }
{
    match e {
        None => Ok(None),
        Some(e) => Ok(Some(single(alloc, e)?)),
    }
}

fn single(alloc: Global, e: Box<Expr>) -> Result<Items<Expr>, Memory>
    ensures { IfOk result (λ es. map expr_seen es ≡ expr_seen e ∷ []) }
{
    let mut one = Items::new(alloc);
    one.push(e.into_inner())?;
    Ok(one)
}

/// The list without the first member that adds nothing, or without all behind the first that is never NULL, whichever stands first.
fn fewer(alloc: Global, own: &OwnColumns, list: &[Expr]) -> Result<Option<Items<Expr>>, Memory>
    ensures { IfOk result (λ o. option_map (map expr_seen) o ≡ without_one own.now [] (map expr_seen list.now)) }
{
    for i in 0..list.len() {
        if let Some(d) = at_place(alloc, own, &list[..i], &list[i], &list[i + 1..])? {
            return Ok(Some(d));
        }
    }
    Ok(None)
}

/// A list without one of its members, if that adds nothing, or without all behind it, if it is never NULL.
#[tactic(auto, using(vkg_columns::proofs::Lists::both_seen))]
fn at_place(
    alloc: Global,
    own: &OwnColumns,
    before: &[Expr],
    e: &Expr,
    behind: &[Expr],
) -> Result<Option<Items<Expr>>, Memory>
    ensures { IfOk result (λ o. option_map (map expr_seen) o ≡ fewer_at own.now (map expr_seen before.now) (expr_seen e.now) (map expr_seen behind.now)) }
{
    if adds_nothing(before, e) {
        return Ok(Some(both(alloc, before, behind)?));
    }
    if is_last(alloc, own, e, behind)? {
        return Ok(Some(up_to(alloc, before, e)?));
    }
    Ok(None)
}

fn both(alloc: Global, before: &[Expr], behind: &[Expr]) -> Result<Items<Expr>, Memory>
    ensures { IfOk result (λ es. es ≡ before.now ++ behind.now) }
{
    let mut all = copy_exprs(alloc, before)?;
    all.append(copy_exprs(alloc, behind)?)?;
    Ok(all)
}

fn up_to(alloc: Global, before: &[Expr], e: &Expr) -> Result<Items<Expr>, Memory>
    ensures { IfOk result (λ es. es ≡ before.now ++ e.now ∷ []) }
{
    let mut all = copy_exprs(alloc, before)?;
    all.push(e.copy(alloc)?)?;
    Ok(all)
}

/// Whether the expression is NULL itself, or one of those before it.
fn adds_nothing(before: &[Expr], e: &Expr) -> bool
    ensures { result ≡ gives_nothing (map expr_seen before.now) (expr_seen e.now) }
{
    is_null_constant(e) || is_among(e, before)
}

fn is_null_constant(e: &Expr) -> bool
    ensures { result ≡ constant_null (expr_seen e.now) }
{
    match e {
        Expr::Const(cell, _) => is_null(cell),
        _ => false,
    }
}

fn is_among(e: &Expr, list: &[Expr]) -> bool
    ensures { result ≡ list_any (one_expr (expr_seen e.now)) (map expr_seen list.now) }
{
    for other in list {
        if same_expr(e, other) {
            return true;
        }
    }
    false
}

/// Whether the expression is never NULL, and others stand behind it.
fn is_last(alloc: Global, own: &OwnColumns, e: &Expr, behind: &[Expr]) -> Result<bool, Memory>
    ensures { IfOk result (λ b. b ≡ (known_by own.now (expr_seen e.now) && not (has_none (map expr_seen behind.now)))) }
{
    Ok(own.is_known(alloc, e)? && !is_empty(behind))
}

fn is_empty(list: &[Expr]) -> bool
    ensures { result ≡ has_none (map expr_seen list.now) }
{
    match list {
        [] => true,
        [_, ..] => false,
    }
}

/// Whether one of them makes a term.
pub fn any_makes_term(list: &[Expr]) -> bool
    ensures { result ≡ list_any term_made (map expr_seen list.now) }
{
    for e in list {
        if makes_term(e) {
            return true;
        }
    }
    false
}

fn makes_term(e: &Expr) -> bool
    ensures { result ≡ term_made (expr_seen e.now) }
{
    match e {
        Expr::Const(_, kind) => same_kind(SqlType::Term, *kind),
        Expr::MakeIri(_) => true,
        Expr::MakeBlank(_) => true,
        Expr::MakeLit(_, _) => true,
        _ => false,
    }
}
