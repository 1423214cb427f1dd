// Lists of members without one of them, or with the members of one in its place.
ghost use Rattle.std.specs.Prelude.{◌≡◌, [], IfOk, Some, None, map, option_map, if◌then◌else◌};
ghost use Rattle.std.specs.List.{list_any};
ghost use Rattle.vkg_conditions.specs.Cases.{is_junction};
ghost use Rattle.vkg_conditions.specs.Conditions.{is_truth as truth_known, members, spread as spread_out, without_first, without_repeat as without_second};
ghost use Rattle.vkg_same.specs.SameExpr.{same_expr as one_expr};
ghost use Rattle.vkg_expr.specs.Seen.{expr_seen};

use crate::junctions::{Junction, is_truth, spliced};
use std::alloc::Global;
use vkg_base::{Items, Memory};
use vkg_expr::{Expr, copy_exprs};
use vkg_same::same_expr;

/// The list without the first constant of this truth, if there is one.
pub fn without_truth(
    alloc: Global,
    truth: bool,
    list: &[Expr],
) -> Result<Option<Items<Expr>>, Memory>
    ensures { IfOk result (λ o. option_map (map expr_seen) o ≡ without_first (truth_known truth) (map expr_seen list.now)) }
{
    for i in 0..list.len() {
        if is_truth(truth, &list[i]) {
            return Ok(Some(spliced(alloc, list, i, Items::new(alloc))?));
        }
    }
    Ok(None)
}

/// The list without the first member that is one of those before it, if there is one.
pub fn without_repeat(alloc: Global, list: &[Expr]) -> Result<Option<Items<Expr>>, Memory>
    ensures { IfOk result (λ o. option_map (map expr_seen) o ≡ without_second [] (map expr_seen list.now)) }
{
    for i in 0..list.len() {
        if is_among(&list[i], &list[..i]) {
            return Ok(Some(spliced(alloc, list, i, Items::new(alloc))?));
        }
    }
    Ok(None)
}

fn is_among(e: &Expr, list: &[Expr]) -> bool
    ensures { result ≡ list_any (one_expr (expr_seen e.now)) (map expr_seen list.now) }
{
    for other in list {
        if same_expr(e, other) {
            return true;
        }
    }
    false
}

/// The list with the members of the first nested one of this sort in its place, if there is one.
pub fn spread(alloc: Global, sort: Junction, list: &[Expr]) -> Result<Option<Items<Expr>>, Memory>
    ensures { IfOk result (λ o. option_map (map expr_seen) o ≡ spread_out (is_junction sort) (map expr_seen list.now)) }
{
    for i in 0..list.len() {
        if let Some(inner) = nested(alloc, sort, &list[i])? {
            return Ok(Some(spliced(alloc, list, i, inner)?));
        }
    }
    Ok(None)
}

/// The members of an expression of this sort.
#[tactic(auto, using(crate::proofs::ListLemmas::junctions_seen))]
fn nested(alloc: Global, sort: Junction, e: &Expr) -> Result<Option<Items<Expr>>, Memory>
    ensures { IfOk result (λ o. option_map (map expr_seen) o ≡ (if is_junction sort (expr_seen e.now) then Some (members (expr_seen e.now)) else None)) }
{
    match (sort, e) {
        (Junction::All, Expr::And(list)) => Ok(Some(copy_exprs(alloc, list.as_slice())?)),
        (Junction::Any, Expr::Or(list)) => Ok(Some(copy_exprs(alloc, list.as_slice())?)),
        _ => Ok(None),
    }
}
