ghost use Rattle.std.specs.Prelude.{◌≡◌, IfOk, option_and_then, option_map};
ghost use Rattle.std.specs.Option.{option_or};
ghost use Rattle.vkg_conditions.specs.NodeCondition.{condition_of};
ghost use Rattle.vkg_expr.specs.Places.{first_place as at_first_place};
ghost use Rattle.vkg_expr.specs.Seen.{expr_seen};
ghost use Rattle.vkg_nulls.specs.KnownColumns.{own_known as own_flags};
ghost use Rattle.vkg_nulls.specs.NullTests.{known_column, of_constant, of_strict};
ghost use Rattle.vkg_nulls.specs.SimplifyNull.{changed_by, null_in, simplify_null};
ghost use Rattle.vkg_nulls.specs.SimplifyNullLaw.{simplify_null-keeps, simplify_null-falls};
ghost use Rattle.vkg_plan.specs.Seen.{plan_seen};
ghost use Rattle.vkg_rules.specs.StepSeen.{step_seen};

use crate::known_columns::own_known;
use crate::null_tests::{OfConstant, OfKnown, OfStrict};
use std::alloc::Global;
use vkg_base::{Box, Memory};
use vkg_conditions::node_condition::{condition, conditioned, has_condition};
use vkg_conditions::{first_place, in_own};
use vkg_expr::Expr;
use vkg_plan::Plan;
use vkg_rules::{Answer, Fell, Rewrite, answered};
use vkg_schema::Schema;

/// Tests for NULL in a plan's own expressions become tests of single columns that may be NULL, one step at a time: the first
/// case that applies anywhere in them, at its first place.
#[derive(Drop)]
pub struct SimplifyNull;

impl Rewrite for SimplifyNull {
    ghost becomes = { λ r. simplify_null };

    #[tactic(auto, unfolding(crate::specs::SimplifyNull::simplify_null))]
    fn apply(
        &self,
        alloc: Global,
        schema: &Schema,
        plan: &Plan,
    ) -> Result<Option<(Plan, Fell)>, Memory> {
        match of_known(alloc, schema, plan)? {
            Some(x) => Ok(Some(x)),
            None => of_others(alloc, plan),
        }
    }

    // What is below a condition stays in memory once.
    #[tactic(auto, using(crate::proofs::InCondition::null_is))]
    fn apply_again(
        &self,
        alloc: Global,
        schema: &Schema,
        plan: Box<Plan>,
        _: &[usize],
    ) -> Result<Answer, Memory> {
        if has_condition(&plan) {
            let c = simpler_condition(alloc, schema, &plan)?;
            return conditioned(alloc, plan, c, Fell::Size);
        }
        let made = self.apply(alloc, schema, &plan)?;
        answered(alloc, plan, made)
    }

    ghost keeps = { λ r. simplify_null-keeps };

    ghost falls = { λ r. simplify_null-falls };
}

// ---- the condition alone, where the plan has one

/// The condition of the plan's first node after the first case that applies in it, if one does.
fn simpler_condition(
    alloc: Global,
    schema: &Schema,
    plan: &Plan,
) -> Result<Option<Box<Expr>>, Memory>
    ensures { IfOk result (λ o. option_map expr_seen o ≡ option_and_then (null_in (own_flags schema.now (plan_seen plan.now))) (condition_of (plan_seen plan.now))) }
{
    match condition(plan) {
        None => Ok(None),
        Some(c) => simpler_in(alloc, schema, plan, c),
    }
}

fn simpler_in(
    alloc: Global,
    schema: &Schema,
    plan: &Plan,
    c: &Expr,
) -> Result<Option<Box<Expr>>, Memory>
    ensures { IfOk result (λ o. option_map expr_seen o ≡ null_in (own_flags schema.now (plan_seen plan.now)) (expr_seen c.now)) }
{
    match known_in(alloc, schema, plan, c)? {
        Some(d) => Ok(Some(d)),
        None => others_in(alloc, c),
    }
}

/// A condition on the columns of a plan's first node with its first test of a column that is never NULL false.
fn known_in(
    alloc: Global,
    schema: &Schema,
    plan: &Plan,
    c: &Expr,
) -> Result<Option<Box<Expr>>, Memory>
    ensures { IfOk result (λ o. option_map expr_seen o ≡ at_first_place (known_column (own_flags schema.now (plan_seen plan.now))) (expr_seen c.now)) }
{
    let known = OfKnown {
        flags: own_known(alloc, schema, plan)?,
    };
    first_place(alloc, &known, c)
}

/// A condition after the first other case that applies in it.
fn others_in(alloc: Global, c: &Expr) -> Result<Option<Box<Expr>>, Memory>
    ensures { IfOk result (λ o. option_map expr_seen o ≡ option_or (at_first_place of_constant (expr_seen c.now)) (at_first_place of_strict (expr_seen c.now))) }
{
    match first_place(alloc, &OfConstant, c)? {
        Some(d) => Ok(Some(d)),
        None => first_place(alloc, &OfStrict, c),
    }
}

// ---- all of its own expressions

/// The first test of a column that is never NULL is false.
fn of_known(alloc: Global, schema: &Schema, plan: &Plan) -> Result<Option<(Plan, Fell)>, Memory>
    ensures { IfOk result (λ o. option_map step_seen o ≡ changed_by (known_column (own_flags schema.now (plan_seen plan.now))) (plan_seen plan.now)) }
{
    let known = OfKnown {
        flags: own_known(alloc, schema, plan)?,
    };
    in_own(alloc, &known, plan)
}

/// The first test of a constant is a truth, else the first of what is strict becomes the tests of its columns.
fn of_others(alloc: Global, plan: &Plan) -> Result<Option<(Plan, Fell)>, Memory>
    ensures { IfOk result (λ o. option_map step_seen o ≡ option_or (changed_by of_constant (plan_seen plan.now)) (changed_by of_strict (plan_seen plan.now))) }
{
    match in_own(alloc, &OfConstant, plan)? {
        Some(x) => Ok(Some(x)),
        None => in_own(alloc, &OfStrict, plan),
    }
}
