// The kinds of the columns of plans.
ghost use Rattle.std.specs.Prelude.{◌≡◌, IfOk, IfSome, is_some, map, option_map};
ghost use Rattle.vkg_lists.specs.Options.{with_first};
ghost use Rattle.vkg_plan.specs.Kinds.{alike, are_alike as all_alike_to, beside_all, is_well_typed, side_by_side, kinds_of_each, plan_kinds as kinds_of_plan};
ghost use Rattle.vkg_plan.specs.Laws.{HasRowsOf};
ghost use Rattle.vkg_plan.specs.Plan.{plans};
ghost use Rattle.vkg_plan.specs.Seen.{plan_seen};

use crate::columns::{
    checked, first_checked, is_alike, kept, left_checked, projected, table_kinds,
};
use crate::plan::Plan;
use std::alloc::Global;
use vkg_base::{Items, Memory};
use vkg_cells::SqlType;
use vkg_schema::Schema;

/// Whether a plan is well typed over a schema.
pub fn well_typed(alloc: Global, plan: &Plan, schema: &Schema) -> Result<bool, Memory>
    ensures { IfOk result (λ b. b ≡ is_well_typed schema.now (plan_seen plan.now)) }
{
    Ok(plan_kinds(alloc, plan, schema)?.is_some())
}

/// The kinds of a plan's columns; none exactly where it is ill typed. Over a database whose tables have the kinds of their
/// columns, each row of the plan has a cell for each column, NULL or of its kind.
#[tactic(auto, using(crate::proofs::RowsFit::fitting_rows))]
pub fn plan_kinds(
    alloc: Global,
    plan: &Plan,
    schema: &Schema,
) -> Result<Option<Items<SqlType>>, Memory>
    ensures kinds { IfOk result (λ o. o ≡ kinds_of_plan schema.now (plan_seen plan.now)) }
    ensures rows { IfOk result (λ o. IfSome o (HasRowsOf schema.now (plan_seen plan.now))) }
{
    kinds_of(alloc, plan, schema)
}

#[cycle(kinds)]
fn kinds_of(alloc: Global, plan: &Plan, schema: &Schema) -> Result<Option<Items<SqlType>>, Memory>
    ensures { IfOk result (λ o. o ≡ kinds_of_plan schema.now (plan_seen plan.now)) }
{
    match plan {
        Plan::Unit => Ok(Some(Items::new(alloc))),
        Plan::Empty(kinds) => Ok(Some(Items::from_slice(alloc, kinds.as_slice())?)),
        Plan::Scan(table) => table_kinds(alloc, schema, *table),
        Plan::Select(c, p) => Ok(checked(c, kinds_of(alloc, p, schema)?)),
        Plan::Project(es, p) => projected(alloc, es.as_slice(), kinds_of(alloc, p, schema)?),
        Plan::Join(ps, c) => Ok(checked(c, join_kinds(alloc, ps.as_slice(), schema)?)),
        Plan::Left(p, q, c) => left_checked(
            c,
            kinds_of(alloc, p, schema),
            kinds_of(alloc, q, schema),
        ),
        Plan::AntiJoin(p, q, c) => first_checked(
            alloc,
            c,
            kinds_of(alloc, p, schema),
            kinds_of(alloc, q, schema),
        ),
        Plan::UnionAll(ps) => union_kinds(alloc, ps.as_slice(), schema),
        Plan::Distinct(p) => kinds_of(alloc, p, schema),
    }
}

/// The kinds of one or more after each other.
#[tactic(auto, using(crate::proofs::KindLists::plan_lists))]
#[cycle(kinds)]
fn join_kinds(alloc: Global, ps: &[Plan], schema: &Schema) -> Result<Option<Items<SqlType>>, Memory>
    ensures { IfOk result (λ o. o ≡ beside_all (kinds_of_each schema.now (plans (map plan_seen ps.now)))) }
{
    match ps {
        [] => Ok(None),
        [_, ..] => all_kinds(alloc, ps, schema),
    }
}

/// The kinds of all after each other.
#[tactic(auto, using(crate::proofs::KindLists::plan_lists))]
#[cycle(kinds)]
fn all_kinds(alloc: Global, ps: &[Plan], schema: &Schema) -> Result<Option<Items<SqlType>>, Memory>
    ensures { IfOk result (λ o. o ≡ option_map side_by_side (kinds_of_each schema.now (plans (map plan_seen ps.now)))) }
{
    let mut all = Items::new(alloc);
    for p in ps {
        let Some(more) = kinds_of(alloc, p, schema)? else {
            return Ok(None);
        };
        all.append(more)?;
    }
    Ok(Some(all))
}

/// The kinds that one or more have alike.
#[tactic(auto, using(crate::proofs::KindLists::plan_lists))]
#[cycle(kinds)]
fn union_kinds(
    alloc: Global,
    ps: &[Plan],
    schema: &Schema,
) -> Result<Option<Items<SqlType>>, Memory>
    ensures { IfOk result (λ o. o ≡ alike (kinds_of_each schema.now (plans (map plan_seen ps.now)))) }
{
    match ps {
        [] => Ok(None),
        [first, rest @ ..] => {
            let kinds = kinds_of(alloc, first, schema)?;
            alike_to(alloc, kinds, rest, schema)
        }
    }
}

/// The kinds, if each of the plans has them too.
#[tactic(auto, using(crate::proofs::KindLists::plan_lists))]
#[cycle(kinds)]
fn alike_to(
    alloc: Global,
    kinds: Option<Items<SqlType>>,
    others: &[Plan],
    schema: &Schema,
) -> Result<Option<Items<SqlType>>, Memory>
    ensures { IfOk result (λ o. o ≡ alike (with_first kinds (kinds_of_each schema.now (plans (map plan_seen others.now))))) }
{
    let Some(kinds) = kinds else {
        return Ok(None);
    };
    let alike = are_alike(alloc, kinds.as_slice(), others, schema)?;
    Ok(kept(kinds, alike))
}

/// Whether each plan has these kinds.
#[tactic(auto, using(crate::proofs::KindLists::plan_lists))]
#[cycle(kinds)]
fn are_alike(alloc: Global, kinds: &[SqlType], ps: &[Plan], schema: &Schema) -> Result<bool, Memory>
    ensures { IfOk result (λ b. b ≡ all_alike_to kinds.now (kinds_of_each schema.now (plans (map plan_seen ps.now)))) }
{
    for p in ps {
        let found = kinds_of(alloc, p, schema)?;
        if !is_alike(kinds, &found) {
            return Ok(false);
        }
    }
    Ok(true)
}
