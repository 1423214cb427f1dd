ghost use Rattle.std.specs.Prelude.{◌≡◌, IfOk, option_map};
ghost use Rattle.std.specs.Bool.{then_some};
ghost use Rattle.vkg_plan.specs.Seen.{plan_seen};
ghost use Rattle.vkg_rules.specs.declared.rewrite.Fell.TheVariants as weight;
ghost use Rattle.vkg_rules.specs.StepSeen.{step_seen};
ghost use Rattle.vkg_unique.specs.DistinctUnique.{distinct_unique};
ghost use Rattle.vkg_unique.specs.DistinctUniqueLaw.{distinct_unique-keeps, distinct_unique-falls};
ghost use Rattle.vkg_unique.specs.Unique.{is_unique as unique};

use crate::unique::is_unique;
use std::alloc::Global;
use vkg_base::Memory;
use vkg_plan::Plan;
use vkg_rules::{Fell, Rewrite};
use vkg_schema::Schema;

/// A distinct over a plan no two of whose rows are equal is that plan.
#[derive(Drop)]
pub struct DistinctUnique;

impl Rewrite for DistinctUnique {
    ghost becomes = { λ r. distinct_unique };

    #[tactic(auto, using(vkg_rules::proofs::Seen::seen_nodes))]
    fn apply(
        &self,
        alloc: Global,
        schema: &Schema,
        plan: &Plan,
    ) -> Result<Option<(Plan, Fell)>, Memory> {
        match plan {
            Plan::Distinct(p) => if_unique(alloc, schema, p),
            _ => Ok(None),
        }
    }

    ghost keeps = { λ r. distinct_unique-keeps };

    ghost falls = { λ r. distinct_unique-falls };
}

/// The plan, if no two of its rows are equal.
fn if_unique(alloc: Global, schema: &Schema, p: &Plan) -> Result<Option<(Plan, Fell)>, Memory>
    ensures { IfOk result (λ o. option_map step_seen o ≡ then_some (unique schema.now (plan_seen p.now)) (plan_seen p.now, weight.Weight)) }
{
    if !is_unique(alloc, schema, p)? {
        return Ok(None);
    }
    Ok(Some((p.copy(alloc)?, Fell::Weight)))
}
