// The columns of a plan: how many, and their kinds.
ghost use Rattle.std.specs.Prelude.{◌≡◌, ◌++◌, IfOk};
ghost use Rattle.vkg_plan.specs.Kinds.{width as width_of};
ghost use Rattle.vkg_plan.specs.Seen.{plan_seen};
ghost use Rattle.vkg_rules.specs.Measure.{kinds_or_none};

use std::alloc::Global;
use vkg_base::{Items, Memory};
use vkg_cells::SqlType;
use vkg_plan::{Plan, plan_kinds};
use vkg_schema::Schema;

/// How many columns a plan has.
pub fn width(alloc: Global, schema: &Schema, p: &Plan) -> Result<usize, Memory>
    ensures { IfOk result (λ n. n ≡ width_of schema.now (plan_seen p.now)) }
{
    match plan_kinds(alloc, p, schema)? {
        Some(kinds) => Ok(kinds.len()),
        None => Ok(0),
    }
}

/// The kinds of a plan's columns.
pub fn kinds(alloc: Global, schema: &Schema, p: &Plan) -> Result<Items<SqlType>, Memory>
    ensures { IfOk result (λ ks. ks ≡ kinds_or_none schema.now (plan_seen p.now)) }
{
    match plan_kinds(alloc, p, schema)? {
        Some(kinds) => Ok(kinds),
        None => Ok(Items::new(alloc)),
    }
}

/// The kinds of some columns, and those of others behind them.
pub fn kinds_beside(
    alloc: Global,
    first: &[SqlType],
    second: &[SqlType],
) -> Result<Items<SqlType>, Memory>
    ensures { IfOk result (λ ks. ks ≡ first.now ++ second.now) }
{
    let mut all = Items::from_slice(alloc, first)?;
    all.append(Items::from_slice(alloc, second)?)?;
    Ok(all)
}
