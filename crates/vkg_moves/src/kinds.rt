// The columns of a plan: how many, and their kinds. They are asked at each step of a query's rewriting, so no condition is looked at.
ghost use Rattle.std.specs.Prelude.{◌≡◌, IfOk};
ghost use Rattle.vkg_plan.specs.Kinds.{width as width_of};
ghost use Rattle.vkg_plan.specs.Seen.{plan_seen};
ghost use Rattle.vkg_rules.specs.Measure.{kinds_or_none};
ghost use Rattle.vkg_rules.specs.Steps.{IsTyped};

use std::alloc::Global;
use vkg_base::{Items, Memory};
use vkg_cells::SqlType;
use vkg_plan::{Plan, given_kinds};
use vkg_schema::Schema;

/// How many columns a plan has.
#[tactic(auto, using(crate::proofs::FirstSelect::kinds_wide))]
pub fn width(alloc: Global, schema: &Schema, p: &Plan) -> Result<usize, Memory>
    requires { IsTyped schema.now (plan_seen p.now) }
    ensures { IfOk result (λ n. n ≡ width_of schema.now (plan_seen p.now)) }
{
    let kinds = kinds(alloc, schema, p)?;
    Ok(kinds.len())
}

/// The kinds of a plan's columns.
pub fn kinds(alloc: Global, schema: &Schema, p: &Plan) -> Result<Items<SqlType>, Memory>
    requires { IsTyped schema.now (plan_seen p.now) }
    ensures { IfOk result (λ ks. ks ≡ kinds_or_none schema.now (plan_seen p.now)) }
{
    given_kinds(alloc, p, schema)
}
