// The number of a plan's columns.
ghost use Rattle.std.specs.Prelude.{◌≡◌, IfOk, IsTrue};
ghost use Rattle.vkg_plan.specs.Kinds.{is_well_typed, width as columns_of};
ghost use Rattle.vkg_plan.specs.Seen.{plan_seen};

use std::alloc::Global;
use vkg_base::Memory;
use vkg_plan::{Plan, plan_kinds};
use vkg_schema::Schema;

pub fn width(alloc: Global, plan: &Plan, schema: &Schema) -> Result<usize, Memory>
    requires { IsTrue (is_well_typed schema.now (plan_seen plan.now)) }
    ensures { IfOk result (λ n. n ≡ columns_of schema.now (plan_seen plan.now)) }
{
    match plan_kinds(alloc, plan, schema)? {
        Some(kinds) => Ok(kinds.len()),
        None => unreachable!(),
    }
}
