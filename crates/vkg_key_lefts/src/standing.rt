// Scans whose columns stand in each row of a plan.
ghost use Rattle.std.specs.Prelude.{◌≡◌, IfOk, length, map};
ghost use Rattle.vkg_plan.specs.Kinds.{width};
ghost use Rattle.vkg_plan.specs.Plan.{plans};
ghost use Rattle.vkg_plan.specs.Seen.{plan_seen};
ghost use Rattle.vkg_rules.specs.Measure.{kinds_or_none};
ghost use Rattle.vkg_key_lefts.specs.Standing.{one_standing as one_behind, standing as standing_in, standing_beside as all_standing};

use std::alloc::Global;
use vkg_base::{Items, Memory};
use vkg_cells::SqlType;
use vkg_plan::{Plan, plan_kinds};
use vkg_schema::Schema;

/// A Scan of a table, behind columns of some kinds.
#[derive(Drop)]
pub struct StandingScan {
    pub before: Items<SqlType>,
    pub table: usize,
}

/// The Scans whose columns stand in each row of the plan, behind columns of these kinds.
#[cycle(standing)]
#[tactic(auto, using(vkg_rules::proofs::Seen::seen_nodes))]
pub fn standing(
    alloc: Global,
    schema: &Schema,
    before: &[SqlType],
    plan: &Plan,
) -> Result<Items<StandingScan>, Memory>
    ensures { IfOk result (λ xs. xs ≡ standing_in schema.now before.now (plan_seen plan.now)) }
{
    match plan {
        Plan::Scan(table) => one(alloc, before, *table),
        Plan::Select(_, p) => standing(alloc, schema, before, p),
        Plan::Join(ps, _) => standing_beside(alloc, schema, before, ps.as_slice()),
        Plan::Left(p, _, _) => standing(alloc, schema, before, p),
        _ => Ok(Items::new(alloc)),
    }
}

#[cycle(standing)]
fn standing_beside(
    alloc: Global,
    schema: &Schema,
    before: &[SqlType],
    ps: &[Plan],
) -> Result<Items<StandingScan>, Memory>
    ensures { IfOk result (λ xs. xs ≡ all_standing schema.now before.now (plans (map plan_seen ps.now))) }
{
    let mut all = Items::new(alloc);
    let mut first = Items::from_slice(alloc, before)?;
    for p in ps {
        all.append(standing(alloc, schema, first.as_slice(), p)?)?;
        first.append(kinds(alloc, schema, p)?)?;
    }
    Ok(all)
}

fn one(alloc: Global, before: &[SqlType], table: usize) -> Result<Items<StandingScan>, Memory>
    ensures { IfOk result (λ xs. xs ≡ one_behind before.now table) }
{
    let mut all = Items::new(alloc);
    all.push(StandingScan {
        before: Items::from_slice(alloc, before)?,
        table,
    })?;
    Ok(all)
}

/// The kinds of a plan's columns.
pub fn kinds(alloc: Global, schema: &Schema, p: &Plan) -> Result<Items<SqlType>, Memory>
    ensures value { IfOk result (λ ks. ks ≡ kinds_or_none schema.now (plan_seen p.now)) }
    ensures wide { IfOk result (λ ks. length ks ≡ width schema.now (plan_seen p.now)) }
{
    match plan_kinds(alloc, p, schema)? {
        Some(kinds) => Ok(kinds),
        None => Ok(Items::new(alloc)),
    }
}
