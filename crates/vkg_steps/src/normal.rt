ghost use Rattle.std.specs.Prelude.{◌≡◌, IfOk};
ghost use Rattle.vkg_plan.specs.Seen.{plan_seen};
ghost use Rattle.vkg_rules.specs.Steps.{IsTyped, Keeps};
ghost use Rattle.vkg_chains.specs.Ends.{IsEndOf, Settled, end_of};

use crate::in_place::Stepped;
use crate::resting::Resting;
use crate::spine::step_within;
use std::alloc::Global;
use vkg_base::{Box, Items, Memory};
use vkg_plan::Plan;
use vkg_schema::Schema;

/// The plan with the rule taken at the first subplan that it changes, again and again until it changes none. It has the
/// plan's columns, and its bag of rows over every database that meets the schema. After a change the next one is looked for
/// where that was made, and in what stands around it, not from the beginning.
pub fn normalise<R: Resting>(
    rule: &R,
    alloc: Global,
    schema: &Schema,
    plan: Box<Plan>,
) -> Result<Box<Plan>, Memory>
    requires { IsTyped schema.now (plan_seen plan) }
    ensures value { IfOk result (λ q. plan_seen q ≡ end_of (R.becomes rule.now) schema.now (plan_seen plan)) }
    ensures end { IfOk result (λ q. IsEndOf (R.becomes rule.now) schema.now (plan_seen plan) (plan_seen q)) }
    ensures settled { IfOk result (λ q. Settled (R.becomes rule.now schema.now) (plan_seen q)) }
    ensures keeps { IfOk result (λ q. Keeps schema.now (plan_seen plan) (plan_seen q)) }
{
    let _over = schema.tables();
    let mut around = Items::new(alloc);
    let mut current = plan;
    let mut place = Items::new(alloc);
    loop {
        let Stepped {
            plan: next,
            fell,
            place: there,
        } = step_within(rule, alloc, schema, &mut around, current, place.as_slice())?;
        let Some(_) = fell else {
            return Ok(next);
        };
        current = next;
        place = there;
    }
}
