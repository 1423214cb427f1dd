ghost use Rattle.std.specs.Prelude.{◌≡◌, IfOk, option_and_then, option_map};
ghost use Rattle.vkg_conditions.specs.NodeCondition.{condition_of};
ghost use Rattle.vkg_expr.specs.Seen.{expr_seen};
ghost use Rattle.vkg_plan.specs.Seen.{plan_seen};
ghost use Rattle.vkg_sure.specs.TermComparison.{node_compared, term_comparison};
ghost use Rattle.vkg_sure.specs.TermComparisonLaw.{term_comparison-keeps, term_comparison-falls};

use crate::comparing::{compared_in, may_compare};
use std::alloc::Global;
use vkg_base::{Box, Memory};
use vkg_conditions::node_condition::{condition, conditioned, with_condition};
use vkg_equalities::{condition_columns, condition_kinds};
use vkg_expr::Expr;
use vkg_plan::{Plan, copy_plan_box};
use vkg_rules::{Answer, Fell, Rewrite};
use vkg_schema::Schema;

/// The first conjunct of a condition that compares two terms over columns of tables, of which one is no literal, becomes the verdict on them,
/// where that is smaller: equalities of columns, forms or texts that are all true on the same rows, or false.
#[derive(Drop)]
pub struct TermComparison;

impl Rewrite for TermComparison {
    ghost becomes = { λ r. term_comparison };

    fn apply(
        &self,
        alloc: Global,
        schema: &Schema,
        plan: &Plan,
    ) -> Result<Option<(Plan, Fell)>, Memory> {
        match compared(alloc, schema, plan)? {
            None => Ok(None),
            Some(c) => {
                let changed = with_condition(alloc, copy_plan_box(alloc, plan)?, c)?;
                Ok(Some((changed.into_inner(), Fell::Size)))
            }
        }
    }

    // What is below the condition stays in memory once.
    fn apply_again(
        &self,
        alloc: Global,
        schema: &Schema,
        plan: Box<Plan>,
        _: &[usize],
    ) -> Result<Answer, Memory> {
        let c = compared(alloc, schema, &plan)?;
        conditioned(alloc, plan, c, Fell::Size)
    }

    ghost keeps = { λ r. term_comparison-keeps };

    ghost falls = { λ r. term_comparison-falls };
}

/// The condition of a plan's first node, if it has one, with a conjunct compared, if there is one.
fn compared(alloc: Global, schema: &Schema, plan: &Plan) -> Result<Option<Box<Expr>>, Memory>
    ensures { IfOk result (λ o. option_map expr_seen o ≡ option_and_then (node_compared schema.now (plan_seen plan.now)) (condition_of (plan_seen plan.now))) }
{
    match condition(plan) {
        None => Ok(None),
        Some(c) => of_node(alloc, schema, plan, c),
    }
}

/// The condition of a plan's first node with a conjunct compared, if there is one. The plan is walked only where a conjunct may be.
#[tactic(auto, using(crate::proofs::Comparisons::none_compared))]
fn of_node(
    alloc: Global,
    schema: &Schema,
    plan: &Plan,
    c: &Expr,
) -> Result<Option<Box<Expr>>, Memory>
    ensures { IfOk result (λ o. option_map expr_seen o ≡ node_compared schema.now (plan_seen plan.now) (expr_seen c.now)) }
{
    if !may_compare(c) {
        return Ok(None);
    }
    let Some(kinds) = condition_kinds(alloc, schema, plan)? else {
        return Ok(None);
    };
    let flags = condition_columns(alloc, schema, plan)?;
    compared_in(alloc, flags.as_slice(), kinds.as_slice(), c)
}
