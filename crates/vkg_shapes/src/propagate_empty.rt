ghost use Rattle.std.specs.Prelude.{◌≡◌, IfOk, Some, option_map, reverse};
ghost use Rattle.vkg_plan.specs.Kinds.{plan_kinds as kinds_of_plan};
ghost use Rattle.vkg_plan.specs.Plan.{UnionAll};
ghost use Rattle.vkg_plan.specs.Seen.{plan_seen};
ghost use Rattle.vkg_rules.specs.declared.rewrite.Fell.TheVariants as weight;
ghost use Rattle.vkg_rules.specs.StepSeen.{plans_seen, step_seen};
ghost use Rattle.vkg_shapes.specs.FlatUnion.{members as members_of};
ghost use Rattle.vkg_shapes.specs.PropagateEmpty.{propagate_empty, is_nothing as nothing, any_nothing as one_is_nothing, dropped_at as dropped_at_of, dropped_from as dropped_from_of, stays as stays_at, stays_among as stays_among_at, united as united_as};
ghost use Rattle.vkg_shapes.specs.PropagateEmptyLaw.{propagate_empty-keeps, propagate_empty-falls};
ghost use Rattle.vkg_shapes.specs.Without.{holds_at, without_at, without_first};

use crate::parts::{emptied, padded};
use crate::without::{is_lone, removed, without};
use std::alloc::Global;
use std::mem;
use vkg_base::{Box, Items, Memory};
use vkg_plan::{Plan, plan_kinds};
use vkg_rules::{Answer, Fell, Rewrite, answered, last_turn, unchanged};
use vkg_schema::Schema;

/// An Empty under a node: the node is Empty too, a left join is its left side with NULLs, and a union has one member less.
#[derive(Drop)]
pub struct PropagateEmpty;

impl Rewrite for PropagateEmpty {
    ghost becomes = { λ r. propagate_empty };

    #[tactic(auto, using(crate::proofs::Seen::seen_shapes))]
    fn apply(
        &self,
        alloc: Global,
        schema: &Schema,
        plan: &Plan,
    ) -> Result<Option<(Plan, Fell)>, Memory> {
        match plan {
            Plan::Select(_, p) => {
                if is_nothing(p) {
                    Ok(emptied(plan_kinds(alloc, plan, schema)?))
                } else {
                    Ok(None)
                }
            }
            Plan::Project(_, p) => {
                if is_nothing(p) {
                    Ok(emptied(plan_kinds(alloc, plan, schema)?))
                } else {
                    Ok(None)
                }
            }
            Plan::Join(ps, _) => {
                if any_nothing(ps.as_slice()) {
                    Ok(emptied(plan_kinds(alloc, plan, schema)?))
                } else {
                    Ok(None)
                }
            }
            Plan::Left(p, q, _) => {
                if is_nothing(p) {
                    Ok(emptied(plan_kinds(alloc, plan, schema)?))
                } else if is_nothing(q) {
                    let first = plan_kinds(alloc, p, schema)?;
                    let second = plan_kinds(alloc, q, schema)?;
                    padded(alloc, first, second, p)
                } else {
                    Ok(None)
                }
            }
            Plan::UnionAll(ps) => {
                let rest = without_nothing(alloc, ps.as_slice())?;
                united(alloc, schema, plan, rest)
            }
            Plan::Distinct(p) => {
                if is_nothing(p) {
                    Ok(emptied(plan_kinds(alloc, plan, schema)?))
                } else {
                    Ok(None)
                }
            }
            _ => Ok(None),
        }
    }

    fn apply_again(
        &self,
        alloc: Global,
        schema: &Schema,
        plan: Box<Plan>,
        place: &[usize],
    ) -> Result<Answer, Memory> {
        if let Some(at) = dropped_at(&plan, place) {
            return without_member(alloc, plan, at);
        }
        if stays(&plan, place) {
            return Ok(unchanged(plan));
        }
        let made = self.apply(alloc, schema, &plan)?;
        answered(alloc, plan, made)
    }

    ghost keeps = { λ r. propagate_empty-keeps };

    ghost falls = { λ r. propagate_empty-falls };
}

/// The member that changed, if it is Empty and not alone.
#[tactic(auto, using(crate::proofs::Seen::seen_shapes))]
fn dropped_at(plan: &Plan, place: &[usize]) -> Option<usize>
    ensures { result ≡ dropped_at_of (reverse place.now) (plan_seen plan.now) }
{
    match plan {
        Plan::UnionAll(ps) => dropped_from(ps.as_slice(), place),
        _ => None,
    }
}

fn dropped_from(ps: &[Plan], place: &[usize]) -> Option<usize>
    ensures { result ≡ dropped_from_of (reverse place.now) (plans_seen ps.now) }
{
    let (at, _) = last_turn(place)?;
    if !is_lone(ps) && is_nothing_at(ps, at) {
        Some(at)
    } else {
        None
    }
}

/// Whether the member that changed is not Empty.
#[tactic(auto, using(crate::proofs::Seen::seen_shapes))]
fn stays(plan: &Plan, place: &[usize]) -> bool
    ensures { result ≡ stays_at (reverse place.now) (plan_seen plan.now) }
{
    match plan {
        Plan::UnionAll(ps) => stays_among(ps.as_slice(), place),
        _ => false,
    }
}

fn stays_among(ps: &[Plan], place: &[usize]) -> bool
    ensures { result ≡ stays_among_at (reverse place.now) (plans_seen ps.now) }
{
    match last_turn(place) {
        None => false,
        Some((at, _)) => !is_nothing_at(ps, at),
    }
}

/// Whether the plan at a place is Empty.
#[tactic(auto, using(crate::proofs::Told::holds_past, crate::proofs::Told::holds_here))]
fn is_nothing_at(ps: &[Plan], at: usize) -> bool
    ensures { result ≡ holds_at nothing at (plans_seen ps.now) }
{
    if ps.len() <= at {
        return false;
    }
    is_nothing(&ps[at])
}

/// A union without a member.
#[tactic(auto, using(crate::proofs::Seen::seen_shapes))]
fn without_member(alloc: Global, plan: Box<Plan>, at: usize) -> Result<Answer, Memory>
    ensures plan { IfOk result (λ x. plan_seen x.plan ≡ UnionAll (without_at at (members_of (plan_seen plan)))) }
    ensures fell { IfOk result (λ x. x.fell ≡ Some weight.Weight) }
    ensures dropped { IfOk result (λ x. x.dropped ≡ Some at) }
{
    let rest = removed(members(alloc, plan.into_inner()), at);
    let plan = Box::new(alloc, Plan::UnionAll(rest))?;
    Ok(Answer {
        plan,
        fell: Some(Fell::Weight),
        dropped: Some(at),
    })
}

/// The members of a union.
#[tactic(auto, using(crate::proofs::Seen::seen_shapes))]
fn members(alloc: Global, plan: Plan) -> Items<Plan>
    ensures { plans_seen result ≡ members_of (plan_seen plan) }
{
    match plan {
        Plan::UnionAll(ps) => ps,
        _ => {
            mem::drop(plan);
            Items::new(alloc)
        }
    }
}

/// Whether a plan is an Empty.
pub fn is_nothing(p: &Plan) -> bool
    ensures { result ≡ nothing (plan_seen p.now) }
{
    matches!(p, Plan::Empty(_))
}

fn any_nothing(ps: &[Plan]) -> bool
    ensures { result ≡ one_is_nothing (plans_seen ps.now) }
{
    for p in ps {
        if is_nothing(p) {
            return true;
        }
    }
    false
}

/// The plans without the first Empty, if there is one.
fn without_nothing(alloc: Global, ps: &[Plan]) -> Result<Option<Items<Plan>>, Memory>
    ensures { IfOk result (λ o. option_map plans_seen o ≡ without_first nothing (plans_seen ps.now)) }
{
    for i in 0..ps.len() {
        if is_nothing(&ps[i]) {
            return Ok(Some(without(alloc, ps, i)?));
        }
    }
    Ok(None)
}

/// What is left of the members of a union, whose kinds are the plan's.
#[tactic(auto, using(crate::proofs::Seen::seen_shapes))]
fn united(
    alloc: Global,
    schema: &Schema,
    plan: &Plan,
    rest: Option<Items<Plan>>,
) -> Result<Option<(Plan, Fell)>, Memory>
    ensures { IfOk result (λ o. option_map step_seen o ≡ united_as (kinds_of_plan schema.now (plan_seen plan.now)) (option_map plans_seen rest)) }
{
    match rest {
        None => Ok(None),
        Some(rest) => {
            if rest.len() == 0 {
                Ok(emptied(plan_kinds(alloc, plan, schema)?))
            } else {
                Ok(Some((Plan::UnionAll(rest), Fell::Weight)))
            }
        }
    }
}
