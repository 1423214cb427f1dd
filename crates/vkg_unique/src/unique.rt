// Plans no two of whose rows are equal.
ghost use Rattle.std.specs.Prelude.{◌≡◌, ◌&&◌, IfOk, map};
ghost use Rattle.std.specs.List.{list_any};
ghost use Rattle.vkg_plan.specs.Plan.{plans};
ghost use Rattle.vkg_plan.specs.Seen.{plan_seen};
ghost use Rattle.vkg_keys.specs.Keys.{is_full as full};
ghost use Rattle.vkg_unique.specs.Unique.{are_all_apart, are_unique as all_unique, has_full_key as full_key_of, is_unique as unique};
ghost use Rattle.vkg_unique.specs.Earlier.{is_apart_from_each as apart_from_each};

use crate::apart::are_apart;
use crate::recovered::is_recovered;
use std::alloc::Global;
use vkg_base::{Memory, at};
use vkg_keys::is_full;
use vkg_plan::Plan;
use vkg_schema::{Key, Schema, Table};

/// Whether no two rows of the plan are equal, over any database that meets the schema, as far as the keys of its tables and the
/// terms that it makes tell.
#[cycle(unique)]
pub fn is_unique(alloc: Global, schema: &Schema, plan: &Plan) -> Result<bool, Memory>
    ensures { IfOk result (λ b. b ≡ unique schema.now (plan_seen plan.now)) }
{
    match plan {
        Plan::Unit => Ok(true),
        Plan::Empty(_) => Ok(true),
        Plan::Scan(table) => Ok(has_full_key(schema, *table)),
        Plan::Select(_, p) => is_unique(alloc, schema, p),
        Plan::Project(es, p) => is_recovered(alloc, schema, es.as_slice(), p),
        Plan::Join(ps, _) => are_unique(alloc, schema, ps.as_slice()),
        Plan::Left(p, q, _) => {
            if !is_unique(alloc, schema, p)? {
                return Ok(false);
            }
            is_unique(alloc, schema, q)
        }
        Plan::AntiJoin(p, _, _) => is_unique(alloc, schema, p),
        Plan::UnionAll(ps) => are_unique_apart(alloc, schema, ps.as_slice()),
        Plan::Distinct(_) => Ok(true),
    }
}

#[cycle(unique)]
fn are_unique(alloc: Global, schema: &Schema, ps: &[Plan]) -> Result<bool, Memory>
    ensures { IfOk result (λ b. b ≡ all_unique schema.now (plans (map plan_seen ps.now))) }
{
    for p in ps {
        if !is_unique(alloc, schema, p)? {
            return Ok(false);
        }
    }
    Ok(true)
}

/// Whether each plan is such, and no two have a row in common. Each is compared with those before it, since plans that may have rows
/// in common mostly stand close together.
#[cycle(unique)]
fn are_unique_apart(alloc: Global, schema: &Schema, ps: &[Plan]) -> Result<bool, Memory>
    ensures { IfOk result (λ b. b ≡ (all_unique schema.now (plans (map plan_seen ps.now)) && are_all_apart schema.now (plans (map plan_seen ps.now)))) }
{
    let mut earlier = 0;
    for p in ps {
        let fine = is_unique(alloc, schema, p)?;
        if !fine {
            return Ok(false);
        }
        let apart = is_apart_from_each(alloc, schema, &ps[..earlier], p)?;
        if !apart {
            return Ok(false);
        }
        earlier += 1;
    }
    Ok(true)
}

/// Whether the plan has no row in common with any of those before it.
fn is_apart_from_each(
    alloc: Global,
    schema: &Schema,
    earlier: &[Plan],
    p: &Plan,
) -> Result<bool, Memory>
    ensures { IfOk result (λ b. b ≡ apart_from_each schema.now (plans (map plan_seen earlier.now)) (plan_seen p.now)) }
{
    for q in earlier {
        if !are_apart(alloc, schema, q, p)? {
            return Ok(false);
        }
    }
    Ok(true)
}

/// Whether the table has a key no column of which is NULL.
fn has_full_key(schema: &Schema, table: usize) -> bool
    ensures { result ≡ full_key_of schema.now table }
{
    match at(schema.tables(), table) {
        None => false,
        Some(table) => is_any_full(table, table.keys.as_slice()),
    }
}

fn is_any_full(table: &Table, keys: &[Key]) -> bool
    ensures { result ≡ list_any (full table.now) keys.now }
{
    for key in keys {
        if is_full(table, key) {
            return true;
        }
    }
    false
}
