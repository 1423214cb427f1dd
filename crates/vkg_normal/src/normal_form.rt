ghost use Rattle.std.specs.Prelude.{◌≡◌, IfOk};
ghost use Rattle.vkg_plan.specs.Seen.{plan_seen};
ghost use Rattle.vkg_rules.specs.Steps.{IsTyped, Keeps};
ghost use Rattle.vkg_normal.specs.NormalForm.{IsNormal, IsNormalFormOf, normal_form};

use crate::all_rules::AllRules;
use crate::first_rules::FirstRules;
use std::alloc::Global;
use vkg_base::{Box, Memory};
use vkg_plan::Plan;
use vkg_schema::Schema;

/// The plan's normal form: what the rules lead to, our own once none of the others applies, where none of them applies any more. It has the
/// plan's columns, and its bag of rows over every database that meets the schema.
#[tactic(auto, unfolding(crate::specs::NormalForm::normal_form))]
pub fn normalise(alloc: Global, schema: &Schema, plan: Box<Plan>) -> Result<Box<Plan>, Memory>
    requires { IsTyped schema.now (plan_seen plan) }
    ensures value { IfOk result (λ q. plan_seen q ≡ normal_form schema.now (plan_seen plan)) }
    ensures end { IfOk result (λ q. IsNormalFormOf schema.now (plan_seen plan) (plan_seen q)) }
    ensures settled { IfOk result (λ q. IsNormal schema.now (plan_seen q)) }
    ensures typed { IfOk result (λ q. IsTyped schema.now (plan_seen q)) }
    ensures keeps { IfOk result (λ q. Keeps schema.now (plan_seen plan) (plan_seen q)) }
{
    let between = vkg_steps::normalise(&FirstRules, alloc, schema, plan)?;
    let end = vkg_steps::normalise(&AllRules, alloc, schema, between)?;
    Ok(end)
}
