ghost use Rattle.std.specs.Prelude.{◌≡◌, ◌∷◌, IfOk, is_none, option_map, reverse};
ghost use Rattle.vkg_plan.specs.Seen.{plan_seen};
ghost use Rattle.vkg_rules.specs.Everywhere.{everywhere, in_members};
ghost use Rattle.vkg_rules.specs.StepSeen.{members_seen, plans_seen, step_seen};
ghost use Rattle.vkg_unions.specs.DistinctDistinct.{distinct_distinct, none_at, none_in, stays as stays_at, without_distinct};
ghost use Rattle.vkg_unions.specs.DistinctDistinctLaw.{distinct_distinct-keeps, distinct_distinct-falls};

use std::alloc::Global;
use std::mem;
use vkg_base::{Box, Items, Memory};
use vkg_plan::Plan;
use vkg_rules::nodes::{
    each_once, projected, rejoined, replaced, reunited, selected, with_against, with_alone,
    with_left, with_right,
};
use vkg_rules::{Answer, Fell, Rewrite, answered, last_turn, unchanged};
use vkg_schema::Schema;

/// A Distinct below another is dropped, the first one in preorder.
#[derive(Drop)]
pub struct DistinctDistinct;

impl Rewrite for DistinctDistinct {
    ghost becomes = { λ r. distinct_distinct };

    fn apply(
        &self,
        alloc: Global,
        _: &Schema,
        plan: &Plan,
    ) -> Result<Option<(Plan, Fell)>, Memory> {
        match plan {
            Plan::Distinct(p) => each_once(alloc, first_dropped(alloc, p)?),
            _ => Ok(None),
        }
    }

    fn apply_again(
        &self,
        alloc: Global,
        schema: &Schema,
        plan: Box<Plan>,
        place: &[usize],
    ) -> Result<Answer, Memory> {
        let same = stays(alloc, &plan, place)?;
        if same {
            return Ok(unchanged(plan));
        }
        let made = self.apply(alloc, schema, &plan)?;
        answered(alloc, plan, made)
    }

    ghost keeps = { λ r. distinct_distinct-keeps };

    ghost falls = { λ r. distinct_distinct-falls };
}

/// Whether the part of the plan that changed has no Distinct.
#[tactic(auto, using(vkg_rules::proofs::Seen::seen_nodes))]
fn stays(alloc: Global, plan: &Plan, place: &[usize]) -> Result<bool, Memory>
    ensures { IfOk result (λ b. b ≡ stays_at (reverse place.now) (plan_seen plan.now)) }
{
    match plan {
        Plan::Distinct(p) => has_none_at(alloc, p, place),
        _ => Ok(true),
    }
}

/// Whether what stands at a place has no Distinct.
#[cycle(at_place)]
fn has_none_at(alloc: Global, plan: &Plan, place: &[usize]) -> Result<bool, Memory>
    ensures { IfOk result (λ b. b ≡ none_at (reverse place.now) (plan_seen plan.now)) }
{
    match last_turn(place) {
        None => has_none(alloc, plan),
        Some((at, below)) => has_none_below(alloc, plan, at, below),
    }
}

#[cycle(at_place)]
fn has_none_below(alloc: Global, plan: &Plan, at: usize, below: &[usize]) -> Result<bool, Memory>
    ensures { IfOk result (λ b. b ≡ none_at (at ∷ reverse below.now) (plan_seen plan.now)) }
{
    match plan {
        Plan::Unit => Ok(true),
        Plan::Empty(_) => Ok(true),
        Plan::Scan(_) => Ok(true),
        Plan::Select(_, p) => has_none_below(alloc, p, at, below),
        Plan::Project(_, p) => has_none_below(alloc, p, at, below),
        Plan::Join(ps, _) => member_has_none(alloc, ps.as_slice(), at, below),
        Plan::Left(p, q, _) => {
            if at == 0 {
                has_none_at(alloc, p, below)
            } else {
                has_none_at(alloc, q, below)
            }
        }
        Plan::AntiJoin(p, q, _) => {
            if at == 0 {
                has_none_at(alloc, p, below)
            } else {
                has_none_at(alloc, q, below)
            }
        }
        Plan::UnionAll(ps) => member_has_none(alloc, ps.as_slice(), at, below),
        Plan::Distinct(_) => Ok(false),
    }
}

#[cycle(at_place)]
fn member_has_none(alloc: Global, ps: &[Plan], at: usize, place: &[usize]) -> Result<bool, Memory>
    ensures { IfOk result (λ b. b ≡ none_in at (reverse place.now) (plans_seen ps.now)) }
{
    if ps.len() <= at {
        return Ok(true);
    }
    has_none_at(alloc, &ps[at], place)
}

/// Whether a plan has no Distinct.
#[tactic(auto, using(crate::proofs::Told::none_mapped))]
fn has_none(alloc: Global, plan: &Plan) -> Result<bool, Memory>
    ensures { IfOk result (λ b. b ≡ is_none (everywhere without_distinct (plan_seen plan.now))) }
{
    let found = first_dropped(alloc, plan)?;
    let none = found.is_none();
    mem::drop(found);
    Ok(none)
}

/// The plan without its first Distinct, if it has one.
#[cycle(below)]
fn first_dropped(alloc: Global, plan: &Plan) -> Result<Option<(Plan, Fell)>, Memory>
    ensures { IfOk result (λ o. option_map step_seen o ≡ everywhere without_distinct (plan_seen plan.now)) }
{
    match plan {
        Plan::Unit => Ok(None),
        Plan::Empty(_) => Ok(None),
        Plan::Scan(_) => Ok(None),
        Plan::Select(c, p) => selected(alloc, c, first_dropped(alloc, p)?),
        Plan::Project(es, p) => projected(alloc, es.as_slice(), first_dropped(alloc, p)?),
        Plan::Join(ps, c) => rejoined(alloc, dropped_in_list(alloc, ps.as_slice())?, c),
        Plan::Left(p, q, c) => match with_left(alloc, first_dropped(alloc, p)?, q, c)? {
            Some(x) => Ok(Some(x)),
            None => with_right(alloc, p, first_dropped(alloc, q)?, c),
        },
        Plan::AntiJoin(p, q, c) => match with_alone(alloc, first_dropped(alloc, p)?, q, c)? {
            Some(x) => Ok(Some(x)),
            None => with_against(alloc, p, first_dropped(alloc, q)?, c),
        },
        Plan::UnionAll(ps) => Ok(reunited(dropped_in_list(alloc, ps.as_slice())?)),
        Plan::Distinct(p) => Ok(Some((p.copy(alloc)?, Fell::Weight))),
    }
}

/// The plans without the first Distinct in them, if there is one.
#[cycle(below)]
fn dropped_in_list(alloc: Global, ps: &[Plan]) -> Result<Option<(Items<Plan>, Fell)>, Memory>
    ensures { IfOk result (λ o. option_map members_seen o ≡ in_members without_distinct (plans_seen ps.now)) }
{
    for i in 0..ps.len() {
        if let Some((q, fell)) = first_dropped(alloc, &ps[i])? {
            return Ok(Some((replaced(alloc, ps, i, q)?, fell)));
        }
    }
    Ok(None)
}
