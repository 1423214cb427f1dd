// The plan of a query.
ghost use Rattle.std.specs.Prelude.{◌≡◌, IfOk, IsTrue};
ghost use Rattle.vkg_plan.specs.Kinds.{is_well_typed};
ghost use Rattle.vkg_plan.specs.Seen.{plan_seen};
ghost use Rattle.vkg_sparql.specs.Seen.{query_seen};
ghost use Rattle.vkg_row_rules.specs.RowRules.{row_rules as rules_over_rows};
ghost use Rattle.vkg_maps.specs.Within.{IsWithin};
ghost use Rattle.vkg_unfolded.specs.FittingRules.{FitJoins};
ghost use Rattle.vkg_unfolded.specs.Unfolded.{start_plan as plan_of_query};
ghost use Rattle.vkg_rules.specs.Steps.{IsTyped};
ghost use Rattle.vkg_normal.specs.NormalForm.{IsNormal, IsNormalFormOf, normal_form};
ghost use Rattle.vkg_rewrite.specs.Rewritten.{HasSolutions, rewritten};

use std::alloc::Global;
use vkg_algebra::translate;
use vkg_base::{Box, Items, Memory};
use vkg_maps::Mapping;
use vkg_normal::normalise;
use vkg_plan::{CheckedPlan, Plan};
use vkg_quads::rules;
use vkg_row_rules::{RowRule, row_rules};
use vkg_schema::Schema;
use vkg_sparql::Query;
use vkg_unfold::start_plan;

/// The plan of a query over a mapping of the schema: where the rewrite rules lead from its start plan, each change at the first
/// subplan that one changes, and none changes a subplan of it. It reads no table. Over every database of the schema without a data
/// error its rows are the solutions of the query over the dataset of the mapping, where the query is one that `read_query` answers.
pub fn rewrite(
    alloc: Global,
    schema: &Schema,
    mapping: &Mapping,
    query: &Query,
) -> Result<CheckedPlan, Memory>
    requires { IsWithin schema.now mapping.now }
    ensures plan { IfOk result (λ p. plan_seen p ≡ rewritten schema.now mapping.now (query_seen query.now)) }
    ensures typed { IfOk result (λ p. IsTrue (is_well_typed schema.now (plan_seen p))) }
    ensures end { IfOk result (λ p. IsNormalFormOf schema.now (plan_of_query schema.now (rules_over_rows schema.now mapping.now) (query_seen query.now)) (plan_seen p)) }
    ensures settled { IfOk result (λ p. IsNormal schema.now (plan_seen p)) }
    ensures solutions { IfOk result (λ p. HasSolutions schema.now mapping.now (query_seen query.now) (plan_seen p)) }
{
    let _tables = schema.tables();
    let rules = rules_of(alloc, schema, mapping)?;
    let start = plan_of(alloc, schema, rules.as_slice(), query)?;
    let plan = normal_plan(alloc, schema, start)?;
    Ok(plan)
}

/// The normal form of a plan, which is well typed as the plan is.
fn normal_plan(alloc: Global, schema: &Schema, start: Box<Plan>) -> Result<CheckedPlan, Memory>
    requires { IsTyped schema.now (plan_seen start) }
    ensures { IfOk result (λ p. plan_seen p ≡ normal_form schema.now (plan_seen start)) }
{
    let end = normalise(alloc, schema, start)?;
    Ok(CheckedPlan::new(end.into_inner(), schema))
}

/// The rules of the mapping over rows.
fn rules_of(alloc: Global, schema: &Schema, mapping: &Mapping) -> Result<Items<RowRule>, Memory>
    requires { IsWithin schema.now mapping.now }
    ensures { IfOk result (λ rs. rs ≡ rules_over_rows schema.now mapping.now) }
{
    let rules = rules(alloc, mapping)?;
    row_rules(alloc, schema.tables(), &mapping.base, rules.as_slice())
}

/// The plan of the query's algebra.
fn plan_of(
    alloc: Global,
    schema: &Schema,
    rules: &[RowRule],
    query: &Query,
) -> Result<Box<Plan>, Memory>
    requires { FitJoins schema.now rules.now }
    ensures { IfOk result (λ p. plan_seen p ≡ plan_of_query schema.now rules.now (query_seen query.now)) }
{
    let algebra = translate(alloc, query)?;
    Box::new(
        alloc,
        start_plan(alloc, schema.tables(), rules, query, &algebra)?,
    )
}
