// The kinds of the columns of a plan that is well typed, which only the nodes that give them are asked for.
ghost use Rattle.std.specs.Prelude.{◌≡◌, IfOk, map};
ghost use Rattle.vkg_plan.specs.GivenKinds.{given_beside as given_by_all, given_kinds as given_by, or_no_kinds as given_or_none};
ghost use Rattle.vkg_plan.specs.Plan.{UnionAll, plans};
ghost use Rattle.vkg_plan.specs.Seen.{plan_seen};

use crate::columns::table_kinds;
use crate::plan::Plan;
use std::alloc::Global;
use vkg_base::{Items, Memory};
use vkg_cells::SqlType;
use vkg_expr::typed_each;
use vkg_schema::Schema;

/// The kinds of a plan's columns, if it is well typed: no condition is looked at, and of a union its first member alone.
#[cycle(given)]
pub fn given_kinds(alloc: Global, plan: &Plan, schema: &Schema) -> Result<Items<SqlType>, Memory>
    ensures { IfOk result (λ ks. ks ≡ given_by schema.now (plan_seen plan.now)) }
{
    match plan {
        Plan::Unit => Ok(Items::new(alloc)),
        Plan::Empty(kinds) => Items::from_slice(alloc, kinds.as_slice()),
        Plan::Scan(table) => Ok(or_no_kinds(alloc, table_kinds(alloc, schema, *table)?)),
        Plan::Select(_, p) => given_kinds(alloc, p, schema),
        Plan::Project(es, p) => {
            let below = given_kinds(alloc, p, schema)?;
            Ok(or_no_kinds(alloc, typed_each(alloc, es.as_slice(), below.as_slice())?))
        }
        Plan::Join(ps, _) => given_beside(alloc, ps.as_slice(), schema),
        Plan::Left(p, q, _) => {
            let mut kinds = given_kinds(alloc, p, schema)?;
            kinds.append(given_kinds(alloc, q, schema)?)?;
            Ok(kinds)
        }
        Plan::AntiJoin(p, _, _) => given_kinds(alloc, p, schema),
        Plan::UnionAll(ps) => given_by_first(alloc, ps.as_slice(), schema),
        Plan::Distinct(p) => given_kinds(alloc, p, schema),
    }
}

/// Of plans one after another.
#[cycle(given)]
fn given_beside(alloc: Global, ps: &[Plan], schema: &Schema) -> Result<Items<SqlType>, Memory>
    ensures { IfOk result (λ ks. ks ≡ given_by_all schema.now (plans (map plan_seen ps.now))) }
{
    let mut kinds = Items::new(alloc);
    for p in ps {
        kinds.append(given_kinds(alloc, p, schema)?)?;
    }
    Ok(kinds)
}

/// Of a union, by its first member.
#[cycle(given)]
fn given_by_first(alloc: Global, ps: &[Plan], schema: &Schema) -> Result<Items<SqlType>, Memory>
    ensures { IfOk result (λ ks. ks ≡ given_by schema.now (UnionAll (plans (map plan_seen ps.now)))) }
{
    match ps {
        [] => Ok(Items::new(alloc)),
        [p, ..] => given_kinds(alloc, p, schema),
    }
}

fn or_no_kinds(alloc: Global, kinds: Option<Items<SqlType>>) -> Items<SqlType>
    ensures { result ≡ given_or_none kinds }
{
    match kinds {
        Some(kinds) => kinds,
        None => Items::new(alloc),
    }
}
