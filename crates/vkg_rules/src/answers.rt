// What a rule gives that is asked again.
ghost use Rattle.std.specs.Prelude.{◌≡◌, IfOk, Some, None, option_map};
ghost use Rattle.vkg_plan.specs.Seen.{plan_seen};
ghost use Rattle.vkg_rules.specs.Places.{outcome};
ghost use Rattle.vkg_rules.specs.StepSeen.{step_seen};

use crate::rewrite::Fell;
use std::alloc::Global;
use vkg_base::{Box, Memory};
use vkg_plan::Plan;

/// A plan after a rule was asked.
#[derive(Drop)]
pub struct Answer {
    /// The plan that the rule makes, or the plan as it was.
    pub plan: Box<Plan>,
    /// What is less, if the rule applied.
    pub fell: Option<Fell>,
    /// Where all that the rule did was to drop a member of a list of plans: the place of it, at which those behind it follow.
    pub dropped: Option<usize>,
}

/// What a rule made of a plan, or the plan itself.
pub fn answered(
    alloc: Global,
    plan: Box<Plan>,
    made: Option<(Plan, Fell)>,
) -> Result<Answer, Memory>
    ensures value { IfOk result (λ x. (plan_seen x.plan, x.fell) ≡ outcome (plan_seen plan) (option_map step_seen made)) }
    ensures dropped { IfOk result (λ x. x.dropped ≡ None) }
{
    match made {
        Some((q, fell)) => changed(alloc, q, fell),
        None => Ok(unchanged(plan)),
    }
}

/// A plan that a rule made.
fn changed(alloc: Global, plan: Plan, fell: Fell) -> Result<Answer, Memory>
    ensures plan { IfOk result (λ x. plan_seen x.plan ≡ plan_seen plan) }
    ensures fell { IfOk result (λ x. x.fell ≡ Some fell) }
    ensures dropped { IfOk result (λ x. x.dropped ≡ None) }
{
    let plan = Box::new(alloc, plan)?;
    Ok(Answer {
        plan,
        fell: Some(fell),
        dropped: None,
    })
}

/// A plan to which a rule did not apply.
pub fn unchanged(plan: Box<Plan>) -> Answer
    ensures plan { result.plan ≡ plan }
    ensures fell { result.fell ≡ None }
    ensures dropped { result.dropped ≡ None }
{
    Answer {
        plan,
        fell: None,
        dropped: None,
    }
}
