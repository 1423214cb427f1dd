ghost use Rattle.std.specs.Prelude.{◌≡◌, IfOk, option_and_then, option_map};
ghost use Rattle.vkg_conditions.specs.NodeCondition.{condition_of};
ghost use Rattle.vkg_expr.specs.Places.{first_place as at_first_place};
ghost use Rattle.vkg_expr.specs.Seen.{expr_seen};
ghost use Rattle.vkg_plan.specs.Seen.{plan_seen};
ghost use Rattle.vkg_sure.specs.KnownMember.{known_member, known_member_of};
ghost use Rattle.vkg_sure.specs.KnownMemberLaw.{known_member-keeps, known_member-falls};

use crate::told_members::told_members;
use std::alloc::Global;
use vkg_base::{Box, Memory};
use vkg_conditions::node_condition::{condition, conditioned, has_condition};
use vkg_conditions::{Change, first_place, in_own};
use vkg_expr::Expr;
use vkg_plan::Plan;
use vkg_rules::{Answer, Fell, Rewrite, answered};
use vkg_schema::Schema;

/// In the first And of a plan's own expressions that says of a column that it is not NULL and tests it for NULL in another member, that test is false.
#[derive(Drop)]
pub struct KnownMember;

impl Rewrite for KnownMember {
    ghost becomes = { λ r. known_member };

    #[tactic(auto, unfolding(crate::specs::KnownMember::known_member))]
    fn apply(
        &self,
        alloc: Global,
        _: &Schema,
        plan: &Plan,
    ) -> Result<Option<(Plan, Fell)>, Memory> {
        in_own(alloc, &OfTold, plan)
    }

    // What is below a condition stays in memory once.
    fn apply_again(
        &self,
        alloc: Global,
        schema: &Schema,
        plan: Box<Plan>,
        _: &[usize],
    ) -> Result<Answer, Memory> {
        if has_condition(&plan) {
            let c = told_condition(alloc, &plan)?;
            return conditioned(alloc, plan, c, Fell::Size);
        }
        let made = self.apply(alloc, schema, &plan)?;
        answered(alloc, plan, made)
    }

    ghost keeps = { λ r. known_member-keeps };

    ghost falls = { λ r. known_member-falls };
}

/// The condition of the plan's first node with the first such And in it changed, if there is one.
fn told_condition(alloc: Global, plan: &Plan) -> Result<Option<Box<Expr>>, Memory>
    ensures { IfOk result (λ o. option_map expr_seen o ≡ option_and_then (at_first_place known_member_of) (condition_of (plan_seen plan.now))) }
{
    match condition(plan) {
        None => Ok(None),
        Some(c) => first_place(alloc, &OfTold, c),
    }
}

/// Of an And that says of a column that it is not NULL the test of that column in another member is false.
#[derive(Drop)]
struct OfTold;

impl Change for OfTold {
    ghost becomes = { λ c. known_member_of };

    fn apply(&self, alloc: Global, e: &Expr) -> Result<Option<Box<Expr>>, Memory> {
        told_members(alloc, e)
    }
}
