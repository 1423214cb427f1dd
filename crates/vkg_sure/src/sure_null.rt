ghost use Rattle.std.specs.Prelude.{◌≡◌, IfOk, option_and_then, option_map};
ghost use Rattle.vkg_conditions.specs.NodeCondition.{condition_of};
ghost use Rattle.vkg_expr.specs.Expr.{IsNull};
ghost use Rattle.vkg_expr.specs.Places.{first_place as at_first_place};
ghost use Rattle.vkg_expr.specs.Seen.{expr_seen};
ghost use Rattle.vkg_nulls.specs.NullTests.{known_column};
ghost use Rattle.vkg_plan.specs.Seen.{plan_seen};
ghost use Rattle.vkg_sure.specs.NeverNull.{own_never_null as own_flags};
ghost use Rattle.vkg_sure.specs.SureNull.{sure_null};
ghost use Rattle.vkg_sure.specs.SureNullLaw.{sure_null-keeps, sure_null-falls};

use crate::own_columns::OwnColumns;
use std::alloc::Global;
use vkg_base::{Box, Memory};
use vkg_conditions::junctions::truth_if;
use vkg_conditions::node_condition::{condition, conditioned, has_condition};
use vkg_conditions::{Change, first_place, in_own};
use vkg_expr::Expr;
use vkg_plan::Plan;
use vkg_rules::{Answer, Fell, Rewrite, answered};
use vkg_schema::Schema;

/// The first test for NULL in a plan's own expressions of a column in which no row has NULL is false.
#[derive(Drop)]
pub struct SureNull;

impl Rewrite for SureNull {
    ghost becomes = { λ r. sure_null };

    #[tactic(auto, unfolding(crate::specs::SureNull::sure_null))]
    fn apply(
        &self,
        alloc: Global,
        schema: &Schema,
        plan: &Plan,
    ) -> Result<Option<(Plan, Fell)>, Memory> {
        let own = OwnColumns::of(schema, plan);
        in_own(alloc, &OfSure { own }, plan)
    }

    // What is below a condition stays in memory once.
    fn apply_again(
        &self,
        alloc: Global,
        schema: &Schema,
        plan: Box<Plan>,
        _: &[usize],
    ) -> Result<Answer, Memory> {
        if has_condition(&plan) {
            let c = sure_condition(alloc, schema, &plan)?;
            return conditioned(alloc, plan, c, Fell::Size);
        }
        let made = self.apply(alloc, schema, &plan)?;
        answered(alloc, plan, made)
    }

    ghost keeps = { λ r. sure_null-keeps };

    ghost falls = { λ r. sure_null-falls };
}

/// The condition of the plan's first node with its first such test false, if there is one.
fn sure_condition(alloc: Global, schema: &Schema, plan: &Plan) -> Result<Option<Box<Expr>>, Memory>
    ensures { IfOk result (λ o. option_map expr_seen o ≡ option_and_then (at_first_place (known_column (own_flags schema.now (plan_seen plan.now)))) (condition_of (plan_seen plan.now))) }
{
    match condition(plan) {
        None => Ok(None),
        Some(c) => sure_in(alloc, schema, plan, c),
    }
}

fn sure_in(
    alloc: Global,
    schema: &Schema,
    plan: &Plan,
    c: &Expr,
) -> Result<Option<Box<Expr>>, Memory>
    ensures { IfOk result (λ o. option_map expr_seen o ≡ at_first_place (known_column (own_flags schema.now (plan_seen plan.now))) (expr_seen c.now)) }
{
    let own = OwnColumns::of(schema, plan);
    first_place(alloc, &OfSure { own }, c)
}

/// The test of a column that is never NULL is false.
#[derive(Drop)]
struct OfSure<'a> {
    own: OwnColumns<'a>,
}

impl<'a> Change for OfSure<'a> {
    ghost becomes = { λ c. known_column c.own };

    fn apply(&self, alloc: Global, e: &Expr) -> Result<Option<Box<Expr>>, Memory> {
        match e {
            Expr::IsNull(tested) => of_sure(alloc, &self.own, tested),
            _ => Ok(None),
        }
    }
}

fn of_sure(alloc: Global, own: &OwnColumns, tested: &Expr) -> Result<Option<Box<Expr>>, Memory>
    ensures { IfOk result (λ o. option_map expr_seen o ≡ known_column own.now (IsNull (expr_seen tested.now))) }
{
    match tested {
        Expr::Col(column) => truth_if(alloc, own.is_never_null(alloc, *column)?, false),
        _ => Ok(None),
    }
}
