// The first conjunct that asks whether something is equal to itself.
ghost use Rattle.std.specs.Prelude.{◌≡◌, IfOk, map, option_map};
ghost use Rattle.vkg_conditions.specs.Conditions.{if_so};
ghost use Rattle.vkg_conditions.specs.SimplifyCondition.{first_conjunct as first_of_conjuncts, in_conjuncts as in_list, same_itself as equal_to_itself};
ghost use Rattle.vkg_expr.specs.Expr.{IsNull, Not};
ghost use Rattle.vkg_expr.specs.Seen.{expr_seen};

use crate::junctions::{Junction, rejoined, single, spliced};
use crate::strict::is_strict;
use std::alloc::Global;
use vkg_base::{Box, Items, Memory};
use vkg_expr::{Expr, Shared, copy_boxed};
use vkg_same::same_expr;

/// The condition with its first conjunct that asks whether a strict expression is equal to itself asking whether it is known.
#[tactic(auto, using(crate::proofs::ListLemmas::junctions_seen))]
pub fn in_conjuncts(alloc: Global, c: &Expr) -> Result<Option<Box<Expr>>, Memory>
    ensures { IfOk result (λ o. option_map expr_seen o ≡ in_list equal_to_itself (expr_seen c.now)) }
{
    match c {
        Expr::And(list) => rejoined(
            alloc,
            Junction::All,
            first_conjunct(alloc, list.as_slice())?,
        ),
        _ => same_itself(alloc, c),
    }
}

fn first_conjunct(alloc: Global, list: &[Expr]) -> Result<Option<Items<Expr>>, Memory>
    ensures { IfOk result (λ o. option_map (map expr_seen) o ≡ first_of_conjuncts equal_to_itself (map expr_seen list.now)) }
{
    for i in 0..list.len() {
        if let Some(d) = same_itself(alloc, &list[i])? {
            return Ok(Some(spliced(alloc, list, i, single(alloc, d)?)?));
        }
    }
    Ok(None)
}

/// What is strict is equal to itself where it is known.
fn same_itself(alloc: Global, e: &Expr) -> Result<Option<Box<Expr>>, Memory>
    ensures { IfOk result (λ o. option_map expr_seen o ≡ equal_to_itself (expr_seen e.now)) }
{
    match e {
        Expr::Same(a, b) => known_if(alloc, same_expr(a, b) && is_strict(a), a),
        _ => Ok(None),
    }
}

fn known_if(alloc: Global, holds: bool, e: &Expr) -> Result<Option<Box<Expr>>, Memory>
    ensures { IfOk result (λ o. option_map expr_seen o ≡ if_so holds (Not (IsNull (expr_seen e.now)))) }
{
    if !holds {
        return Ok(None);
    }
    let null = Shared::new(alloc, Expr::IsNull(copy_boxed(alloc, e)?))?;
    Ok(Some(Box::new(alloc, Expr::Not(null))?))
}
