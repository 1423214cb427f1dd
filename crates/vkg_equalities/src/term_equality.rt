ghost use Rattle.std.specs.Prelude.{◌≡◌, IfOk, option_and_then, option_map};
ghost use Rattle.vkg_lists.specs.Options.{joined};
ghost use Rattle.vkg_expr.specs.Seen.{expr_seen};
ghost use Rattle.vkg_plan.specs.Kinds.{plan_kinds as kinds_of_plan};
ghost use Rattle.vkg_plan.specs.Seen.{plan_seen};
ghost use Rattle.vkg_conditions.specs.NodeCondition.{condition_of};
ghost use Rattle.vkg_equalities.specs.TermEquality.{condition_columns as columns_of_condition, condition_kinds as kinds_of_condition, node_decided, term_equality};
ghost use Rattle.vkg_equalities.specs.TermEqualityLaw.{term_equality-keeps, term_equality-falls};

use crate::conditions::may_decide;
use crate::deciding::decided_in;
use crate::table_columns::are_table_columns;
use std::alloc::Global;
use vkg_base::{Box, Items, Memory};
use vkg_cells::SqlType;
use vkg_conditions::node_condition::{condition, conditioned, with_condition};
use vkg_expr::Expr;
use vkg_plan::{Plan, copy_plan_box, plan_kinds};
use vkg_rules::{Answer, Fell, Rewrite};
use vkg_schema::Schema;

/// The first conjunct of a condition that asks two terms over columns of tables to be the same becomes equalities of columns,
/// forms or texts that are all true on the same rows, or false.
#[derive(Drop)]
pub struct TermEquality;

impl Rewrite for TermEquality {
    ghost becomes = { λ r. term_equality };

    #[tactic(auto, using(crate::proofs::InCondition::equality_is))]
    fn apply(
        &self,
        alloc: Global,
        schema: &Schema,
        plan: &Plan,
    ) -> Result<Option<(Plan, Fell)>, Memory> {
        match decided(alloc, schema, plan)? {
            None => Ok(None),
            Some(c) => {
                let changed = with_condition(alloc, copy_plan_box(alloc, plan)?, c)?;
                Ok(Some((changed.into_inner(), Fell::Equalities)))
            }
        }
    }

    // What is below the condition stays in memory once.
    #[tactic(auto, using(crate::proofs::InCondition::equality_is))]
    fn apply_again(
        &self,
        alloc: Global,
        schema: &Schema,
        plan: Box<Plan>,
        _: &[usize],
    ) -> Result<Answer, Memory> {
        let c = decided(alloc, schema, &plan)?;
        conditioned(alloc, plan, c, Fell::Equalities)
    }

    ghost keeps = { λ r. term_equality-keeps };

    ghost falls = { λ r. term_equality-falls };
}

/// The condition of a plan's first node, if it has one, with a conjunct decided, if there is one.
fn decided(alloc: Global, schema: &Schema, plan: &Plan) -> Result<Option<Box<Expr>>, Memory>
    ensures { IfOk result (λ o. option_map expr_seen o ≡ option_and_then (node_decided schema.now (plan_seen plan.now)) (condition_of (plan_seen plan.now))) }
{
    match condition(plan) {
        None => Ok(None),
        Some(c) => of_node(alloc, schema, plan, c),
    }
}

/// The condition of a plan's first node with a conjunct decided, if there is one. The plan is walked only where a conjunct may be.
#[tactic(auto, using(crate::proofs::Conjuncts::none_asked))]
fn of_node(
    alloc: Global,
    schema: &Schema,
    plan: &Plan,
    c: &Expr,
) -> Result<Option<Box<Expr>>, Memory>
    ensures { IfOk result (λ o. option_map expr_seen o ≡ node_decided schema.now (plan_seen plan.now) (expr_seen c.now)) }
{
    if !may_decide(c) {
        return Ok(None);
    }
    let Some(kinds) = condition_kinds(alloc, schema, plan)? else {
        return Ok(None);
    };
    let flags = condition_columns(alloc, schema, plan)?;
    decided_in(alloc, flags.as_slice(), kinds.as_slice(), c)
}

/// The kinds of the columns over which the condition of a plan's first node is: the plan's own, and of an anti join those of both
/// its sides.
#[tactic(auto, using(vkg_rules::proofs::Seen::seen_nodes))]
pub fn condition_kinds(
    alloc: Global,
    schema: &Schema,
    plan: &Plan,
) -> Result<Option<Items<SqlType>>, Memory>
    ensures { IfOk result (λ o. o ≡ kinds_of_condition schema.now (plan_seen plan.now)) }
{
    match plan {
        Plan::AntiJoin(p, q, _) => kinds_of_both(alloc, schema, p, q),
        _ => plan_kinds(alloc, plan, schema),
    }
}

fn kinds_of_both(
    alloc: Global,
    schema: &Schema,
    p: &Plan,
    q: &Plan,
) -> Result<Option<Items<SqlType>>, Memory>
    ensures { IfOk result (λ o. o ≡ joined (kinds_of_plan schema.now (plan_seen p.now)) (kinds_of_plan schema.now (plan_seen q.now))) }
{
    let Some(mut kinds) = plan_kinds(alloc, p, schema)? else {
        return Ok(None);
    };
    let Some(more) = plan_kinds(alloc, q, schema)? else {
        return Ok(None);
    };
    kinds.append(more)?;
    Ok(Some(kinds))
}

/// Of each of these columns whether all its cells are cells of tables' columns, or NULL.
#[tactic(auto, using(vkg_rules::proofs::Seen::seen_nodes))]
pub fn condition_columns(alloc: Global, schema: &Schema, plan: &Plan) -> Result<Items<bool>, Memory>
    ensures { IfOk result (λ fs. fs ≡ columns_of_condition schema.now (plan_seen plan.now)) }
{
    match plan {
        Plan::AntiJoin(p, q, _) => {
            let mut flags = are_table_columns(alloc, schema, p)?;
            flags.append(are_table_columns(alloc, schema, q)?)?;
            Ok(flags)
        }
        _ => are_table_columns(alloc, schema, plan),
    }
}
