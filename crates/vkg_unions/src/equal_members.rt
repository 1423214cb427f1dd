ghost use Rattle.std.specs.Prelude.{◌≡◌, ◌==◌, [], IfOk, option_map, reverse};
ghost use Rattle.std.specs.List.{list_any};
ghost use Rattle.vkg_plan.specs.Seen.{plan_seen};
ghost use Rattle.vkg_rules.specs.StepSeen.{plans_seen, step_seen};
ghost use Rattle.vkg_unions.specs.EqualMembers.{distinct_union, equal_members, is_alone as alone, is_alone_at as alone_at, members_once as once, stays as stays_at, stays_once as stays_once_at, without_repeat as without_first_repeat};
ghost use Rattle.vkg_unions.specs.EqualMembersLaw.{equal_members-keeps, equal_members-falls};
ghost use Rattle.vkg_unions.specs.Key.{keys_of, plan_key};
ghost use Rattle.vkg_unions.specs.SamePlan.{same_plan as same};

use crate::key::keys;
use crate::same::same_plan;
use std::alloc::Global;
use vkg_base::{Box, Items, Memory};
use vkg_plan::Plan;
use vkg_rules::{Answer, Fell, Rewrite, answered, last_turn, unchanged};
use vkg_schema::Schema;
use vkg_shapes::without::without;

/// Below a Distinct the first member of a union that is equal to an earlier one is dropped.
#[derive(Drop)]
pub struct EqualMembers;

impl Rewrite for EqualMembers {
    ghost becomes = { λ r. equal_members };

    fn apply(
        &self,
        alloc: Global,
        _: &Schema,
        plan: &Plan,
    ) -> Result<Option<(Plan, Fell)>, Memory> {
        match plan {
            Plan::Distinct(p) => members_once(alloc, p),
            _ => Ok(None),
        }
    }

    fn apply_again(
        &self,
        alloc: Global,
        schema: &Schema,
        plan: Box<Plan>,
        place: &[usize],
    ) -> Result<Answer, Memory> {
        if stays(&plan, place) {
            return Ok(unchanged(plan));
        }
        let made = self.apply(alloc, schema, &plan)?;
        answered(alloc, plan, made)
    }

    ghost keeps = { λ r. equal_members-keeps };

    ghost falls = { λ r. equal_members-falls };
}

/// Whether the member that changed is equal to no other one.
#[tactic(auto, using(vkg_rules::proofs::Seen::seen_nodes))]
fn stays(plan: &Plan, place: &[usize]) -> bool
    ensures { result ≡ stays_at (reverse place.now) (plan_seen plan.now) }
{
    match plan {
        Plan::Distinct(p) => stays_once(p, place),
        _ => true,
    }
}

#[tactic(auto, using(vkg_rules::proofs::Seen::seen_nodes))]
fn stays_once(plan: &Plan, place: &[usize]) -> bool
    ensures { result ≡ stays_once_at (reverse place.now) (plan_seen plan.now) }
{
    match plan {
        Plan::UnionAll(ps) => is_alone_at(ps.as_slice(), place),
        _ => true,
    }
}

fn is_alone_at(ps: &[Plan], place: &[usize]) -> bool
    ensures { result ≡ alone_at (reverse place.now) (plans_seen ps.now) }
{
    match last_turn(place) {
        None => false,
        Some((at, _)) => is_alone(ps, at),
    }
}

/// Whether no other of the plans is equal to the one at a place.
fn is_alone(ps: &[Plan], at: usize) -> bool
    ensures { result ≡ alone [] at (plans_seen ps.now) }
{
    if ps.len() <= at {
        return true;
    }
    let p = &ps[at];
    !is_among(&ps[..at], p) && !is_ahead(p, &ps[at + 1..])
}

/// Whether this plan is equal to one of those.
fn is_ahead(p: &Plan, plans: &[Plan]) -> bool
    ensures { result ≡ list_any (λ q. same (plan_seen p.now) (plan_seen q)) plans.now }
{
    plans.iter().any(|q| same_plan(p, q))
}

/// The distinct rows of a union with such a member, without it.
fn members_once(alloc: Global, plan: &Plan) -> Result<Option<(Plan, Fell)>, Memory>
    ensures { IfOk result (λ o. option_map step_seen o ≡ once (plan_seen plan.now)) }
{
    match plan {
        Plan::UnionAll(ps) => distinct_rows(alloc, without_repeat(alloc, ps.as_slice())?),
        _ => Ok(None),
    }
}

#[tactic(auto, using(vkg_rules::proofs::Seen::seen_nodes))]
fn distinct_rows(alloc: Global, ps: Option<Items<Plan>>) -> Result<Option<(Plan, Fell)>, Memory>
    ensures { IfOk result (λ o. option_map step_seen o ≡ option_map distinct_union (option_map plans_seen ps)) }
{
    match ps {
        None => Ok(None),
        Some(ps) => {
            let union = Box::new(alloc, Plan::UnionAll(ps))?;
            Ok(Some((Plan::Distinct(union), Fell::Weight)))
        }
    }
}

/// The plans without the first that is equal to an earlier one, if there is one.
fn without_repeat(alloc: Global, ps: &[Plan]) -> Result<Option<Items<Plan>>, Memory>
    ensures { IfOk result (λ o. option_map plans_seen o ≡ without_first_repeat [] (plans_seen ps.now)) }
{
    let all = keys(alloc, ps)?;
    let keys = all.as_slice();
    for i in 0..ps.len() {
        if is_repeated(&ps[..i], &keys[..i], &ps[i], keys[i]) {
            return Ok(Some(without(alloc, ps, i)?));
        }
    }
    Ok(None)
}

/// Whether one of the plans is equal to this one. They are compared only where one has its number.
fn is_repeated(plans: &[Plan], keys: &[u64], p: &Plan, key: u64) -> bool
    requires keys { keys.now ≡ keys_of plans.now }
    requires key { key ≡ plan_key 0 (plan_seen p.now) }
    ensures { result ≡ list_any (λ q. same (plan_seen q) (plan_seen p.now)) plans.now }
{
    has_key(keys, key) && is_among(plans, p)
}

/// Whether the number is one of these.
fn has_key(keys: &[u64], key: u64) -> bool
    ensures { result ≡ list_any (λ k. k == key) keys.now }
{
    keys.iter().any(|k| *k == key)
}

/// Whether one of the plans is equal to this one.
fn is_among(plans: &[Plan], p: &Plan) -> bool
    ensures { result ≡ list_any (λ q. same (plan_seen q) (plan_seen p.now)) plans.now }
{
    plans.iter().any(|q| same_plan(q, p))
}
