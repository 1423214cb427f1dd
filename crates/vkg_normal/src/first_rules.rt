// The rules that are taken to their end first, as one.
ghost use Rattle.std.specs.Prelude.{◌≡◌};
ghost use Rattle.vkg_plan.specs.Seen.{plan_seen};
ghost use Rattle.vkg_normal.specs.NormalForm.{first_rules as first_of_all, first_rules-fall, first_rules-keep};
ghost use Rattle.vkg_normal.specs.Resting.{is_left as a_left, may_rest as resting};

use crate::order::first_rules;
use std::alloc::Global;
use vkg_base::{Box, Memory};
use vkg_equalities::may_decide;
use vkg_plan::Plan;
use vkg_rules::{Answer, Fell, Rewrite};
use vkg_schema::Schema;
use vkg_steps::Resting;

/// The rules that are taken to their end first, in their order: the first that applies to a plan is taken.
#[derive(Drop)]
pub struct FirstRules;

impl Rewrite for FirstRules {
    ghost becomes = { λ r. first_of_all };

    fn apply(
        &self,
        alloc: Global,
        schema: &Schema,
        plan: &Plan,
    ) -> Result<Option<(Plan, Fell)>, Memory> {
        let rules = first_rules();
        rules.apply(alloc, schema, plan)
    }

    fn apply_again(
        &self,
        alloc: Global,
        schema: &Schema,
        plan: Box<Plan>,
        place: &[usize],
    ) -> Result<Answer, Memory> {
        let rules = first_rules();
        rules.apply_again(alloc, schema, plan, place)
    }

    ghost keeps = { λ r. first_rules-keep };

    ghost falls = { λ r. first_rules-fall };
}

impl Resting for FirstRules {
    fn rests(&self, _: &Schema, plan: &Plan) -> bool {
        may_rest(plan)
    }
}

/// Whether the plan is a node over a left join, of which its first levels tell that none of these rules comes to apply to it by steps on the left of that.
#[tactic(auto, using(vkg_rules::proofs::Seen::seen_nodes))]
fn may_rest(plan: &Plan) -> bool
    ensures { result ≡ resting (plan_seen plan.now) }
{
    match plan {
        Plan::Left(p, _, c) => is_left(p) && !may_decide(c),
        Plan::Project(_, p) => is_left(p),
        _ => false,
    }
}

#[tactic(auto, using(vkg_rules::proofs::Seen::seen_nodes))]
fn is_left(p: &Plan) -> bool
    ensures { result ≡ a_left (plan_seen p.now) }
{
    matches!(p, Plan::Left(_, _, _))
}
