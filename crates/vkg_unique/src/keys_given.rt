// A key without NULL of each table, among the flagged columns of a plan.
ghost use Rattle.std.specs.Prelude.{◌≡◌, IfOk, map};
ghost use Rattle.std.specs.List.{list_any};
ghost use Rattle.std.specs.Option.{option_map_or};
ghost use Rattle.vkg_plan.specs.Plan.{Scan, plans};
ghost use Rattle.vkg_plan.specs.Seen.{plan_seen};
ghost use Rattle.vkg_unique.specs.Recovered.{are_keys_given as keys_given, are_keys_given_in as keys_given_in, is_key_given as key_given};
ghost use Rattle.vkg_unique.specs.Scans.{has_scans_alone as scans_alone, have_scans_alone as all_scans_alone};

use crate::flags::{all_flagged, behind};
use crate::kinds::width;
use std::alloc::Global;
use vkg_base::{Memory, at};
use vkg_keys::is_full;
use vkg_plan::Plan;
use vkg_schema::{Key, Schema, Table};

/// Whether the plan has Scans alone below selections and joins, and of each a key without NULL whose columns are flagged.
#[cycle(given)]
pub fn are_keys_given(
    alloc: Global,
    schema: &Schema,
    flags: &[bool],
    plan: &Plan,
) -> Result<bool, Memory>
    ensures { IfOk result (λ b. b ≡ keys_given schema.now flags.now (plan_seen plan.now)) }
{
    match plan {
        Plan::Scan(table) => Ok(is_scan_given(schema, flags, *table)),
        Plan::Select(_, p) => are_keys_given(alloc, schema, flags, p),
        Plan::Join(ps, _) => are_keys_given_in(alloc, schema, flags, ps.as_slice()),
        _ => Ok(false),
    }
}

#[cycle(given)]
fn are_keys_given_in(
    alloc: Global,
    schema: &Schema,
    flags: &[bool],
    ps: &[Plan],
) -> Result<bool, Memory>
    ensures { IfOk result (λ b. b ≡ keys_given_in schema.now flags.now (plans (map plan_seen ps.now))) }
{
    let mut left = flags;
    for p in ps {
        if !are_keys_given(alloc, schema, left, p)? {
            return Ok(false);
        }
        left = behind(left, width(alloc, schema, p)?);
    }
    Ok(true)
}

fn is_scan_given(schema: &Schema, flags: &[bool], table: usize) -> bool
    ensures { result ≡ keys_given schema.now flags.now (Scan table) }
{
    match at(schema.tables(), table) {
        None => false,
        Some(table) => has_key_given(flags, table, table.keys.as_slice()),
    }
}

fn has_key_given(flags: &[bool], table: &Table, keys: &[Key]) -> bool
    ensures { result ≡ list_any (key_given flags.now table.now) keys.now }
{
    for key in keys {
        if is_key_given(flags, table, key) {
            return true;
        }
    }
    false
}

fn is_key_given(flags: &[bool], table: &Table, key: &Key) -> bool
    ensures { result ≡ key_given flags.now table.now key.now }
{
    is_full(table, key) && all_flagged(flags, key.columns.as_slice())
}

/// Whether the plan has Scans alone below selections and joins.
#[cycle(scans)]
pub fn has_scans_alone(plan: &Plan) -> bool
    ensures { result ≡ scans_alone (plan_seen plan.now) }
{
    match plan {
        Plan::Scan(_) => true,
        Plan::Select(_, p) => has_scans_alone(p),
        Plan::Join(ps, _) => have_scans_alone(ps.as_slice()),
        _ => false,
    }
}

#[cycle(scans)]
fn have_scans_alone(ps: &[Plan]) -> bool
    ensures { result ≡ all_scans_alone (plans (map plan_seen ps.now)) }
{
    for p in ps {
        if !has_scans_alone(p) {
            return false;
        }
    }
    true
}
