// The texts of plans.
ghost use Rattle.std.specs.Prelude.{◌≡◌, IfOk, IsTrue, map, string_bytes};
ghost use Rattle.vkg_plan.specs.Kinds.{is_well_typed};
ghost use Rattle.vkg_plan.specs.Plan.{plans};
ghost use Rattle.vkg_plan.specs.Seen.{plan_seen};
ghost use Rattle.vkg_sqltext.specs.Text.{sql_text as text_of_plan, sql_texts as texts_of_plans};

use crate::nodes::{
    anti_text, distinct_text, empty_text, join_text, left_text, project_text, select_text,
    table_text, union_text,
};
use std::alloc::Global;
use vkg_base::{Items, Memory, Text};
use vkg_plan::{CheckedPlan, Plan};
use vkg_schema::Schema;

/// The text of a plan, which is asked to be well typed over the schema.
pub fn sql_text(alloc: Global, plan: &CheckedPlan, schema: &Schema) -> Result<String, Memory>
    requires { IsTrue (is_well_typed schema.now (plan_seen plan.now)) }
    ensures { IfOk result (λ s. string_bytes s ≡ text_of_plan schema.now (plan_seen plan.now)) }
{
    Ok(plan_text(alloc, plan.plan(), schema)?.into_string())
}

#[cycle(plan_text)]
fn plan_text(alloc: Global, plan: &Plan, schema: &Schema) -> Result<Text, Memory>
    ensures { IfOk result (λ t. t ≡ text_of_plan schema.now (plan_seen plan.now)) }
{
    match plan {
        Plan::Unit => Text::new(alloc, "VALUES ()"),
        Plan::Empty(kinds) => empty_text(alloc, kinds.as_slice()),
        Plan::Scan(table) => table_text(alloc, schema, *table),
        Plan::Select(c, p) => select_text(alloc, plan_text(alloc, p, schema), c),
        Plan::Project(es, p) => project_text(alloc, es.as_slice(), plan_text(alloc, p, schema)),
        Plan::Join(ps, c) => join_text(alloc, plan_texts(alloc, ps.as_slice(), schema), c),
        Plan::Left(p, q, c) => {
            left_text(
                alloc,
                plan_text(alloc, p, schema),
                plan_text(alloc, q, schema),
                c,
            )
        }
        Plan::AntiJoin(p, q, c) => {
            anti_text(
                alloc,
                plan_text(alloc, p, schema),
                plan_text(alloc, q, schema),
                c,
            )
        }
        Plan::UnionAll(ps) => union_text(alloc, plan_texts(alloc, ps.as_slice(), schema)),
        Plan::Distinct(p) => distinct_text(alloc, plan_text(alloc, p, schema)),
    }
}

#[cycle(plan_text)]
fn plan_texts(alloc: Global, ps: &[Plan], schema: &Schema) -> Result<Items<Text>, Memory>
    ensures { IfOk result (λ ts. ts ≡ texts_of_plans schema.now (plans (map plan_seen ps.now))) }
{
    let mut texts = Items::new(alloc);
    for p in ps {
        texts.push(plan_text(alloc, p, schema)?)?;
    }
    Ok(texts)
}
