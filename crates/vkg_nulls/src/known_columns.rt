// Which columns of a plan are never NULL, since their tables say so.
ghost use Rattle.std.specs.Prelude.{◌≡◌, IfOk, map};
ghost use Rattle.vkg_expr.specs.Seen.{expr_seen};
ghost use Rattle.vkg_plan.specs.Plan.{UnionAll, plans};
ghost use Rattle.vkg_plan.specs.Seen.{plan_seen};
ghost use Rattle.vkg_schema.specs.Kinds.{columns_of};
ghost use Rattle.vkg_nulls.specs.KnownColumns.{known_beside as flags_beside, known_columns as flags_of, own_known as own_flags, unsaid as no_flags};

use std::alloc::Global;
use vkg_base::{Items, Memory, at};
use vkg_expr::Expr;
use vkg_plan::Plan;
use vkg_schema::{Column, Schema};

/// Of each column over which a plan's own expressions are whether it is never NULL.
pub fn own_known(alloc: Global, schema: &Schema, plan: &Plan) -> Result<Items<bool>, Memory>
    ensures { IfOk result (λ fs. fs ≡ own_flags schema.now (plan_seen plan.now)) }
{
    match plan {
        Plan::Select(_, p) => known_columns(alloc, schema, p),
        Plan::Project(_, p) => known_columns(alloc, schema, p),
        Plan::Join(ps, _) => known_beside(alloc, schema, ps.as_slice()),
        Plan::Left(p, q, _) => {
            let mut flags = known_columns(alloc, schema, p)?;
            flags.append(known_columns(alloc, schema, q)?)?;
            Ok(flags)
        }
        Plan::AntiJoin(p, q, _) => {
            let mut flags = known_columns(alloc, schema, p)?;
            flags.append(known_columns(alloc, schema, q)?)?;
            Ok(flags)
        }
        _ => Ok(Items::new(alloc)),
    }
}

/// Of each column of a plan whether it is a NOT NULL column of a table that is scanned below selections and joins alone.
#[cycle(known)]
fn known_columns(alloc: Global, schema: &Schema, plan: &Plan) -> Result<Items<bool>, Memory>
    ensures { IfOk result (λ fs. fs ≡ flags_of schema.now (plan_seen plan.now)) }
{
    match plan {
        Plan::Unit => Ok(Items::new(alloc)),
        Plan::Empty(kinds) => unsaid(alloc, kinds.as_slice()),
        Plan::Scan(table) => not_null_columns(alloc, columns_at(schema, *table)),
        Plan::Select(_, p) => known_columns(alloc, schema, p),
        Plan::Project(es, _) => unsaid_exprs(alloc, es.as_slice()),
        Plan::Join(ps, _) => known_beside(alloc, schema, ps.as_slice()),
        Plan::Left(p, q, _) => {
            let mut flags = known_columns(alloc, schema, p)?;
            flags.append(known_columns(alloc, schema, q)?)?;
            none_known(alloc, flags)
        }
        Plan::AntiJoin(p, _, _) => none_known(alloc, known_columns(alloc, schema, p)?),
        Plan::UnionAll(ps) => unsaid_of_first(alloc, schema, ps.as_slice()),
        Plan::Distinct(p) => none_known(alloc, known_columns(alloc, schema, p)?),
    }
}

/// Of the columns of plans one after another.
#[cycle(known)]
fn known_beside(alloc: Global, schema: &Schema, ps: &[Plan]) -> Result<Items<bool>, Memory>
    ensures { IfOk result (λ fs. fs ≡ flags_beside schema.now (plans (map plan_seen ps.now))) }
{
    let mut flags = Items::new(alloc);
    for p in ps {
        flags.append(known_columns(alloc, schema, p)?)?;
    }
    Ok(flags)
}

/// As many columns as a union's first member has, of which it is not said.
#[cycle(known)]
fn unsaid_of_first(alloc: Global, schema: &Schema, ps: &[Plan]) -> Result<Items<bool>, Memory>
    ensures { IfOk result (λ fs. fs ≡ flags_of schema.now (UnionAll (plans (map plan_seen ps.now)))) }
{
    match ps {
        [] => Ok(Items::new(alloc)),
        [p, ..] => none_known(alloc, known_columns(alloc, schema, p)?),
    }
}

/// As many columns of which it is not said.
fn none_known(alloc: Global, flags: Items<bool>) -> Result<Items<bool>, Memory>
    ensures { IfOk result (λ fs. fs ≡ no_flags flags) }
{
    unsaid(alloc, flags.as_slice())
}

/// A false for each expression.
fn unsaid_exprs(alloc: Global, es: &[Expr]) -> Result<Items<bool>, Memory>
    ensures { IfOk result (λ fs. fs ≡ no_flags (map expr_seen es.now)) }
{
    unsaid(alloc, es)
}

/// A false for each item.
fn unsaid<T>(alloc: Global, items: &[T]) -> Result<Items<bool>, Memory>
    ensures { IfOk result (λ fs. fs ≡ no_flags items.now) }
{
    let mut flags = Items::new(alloc);
    for _ in items {
        flags.push(false)?;
    }
    Ok(flags)
}

/// Of each column of a table whether it is NOT NULL.
fn not_null_columns(alloc: Global, columns: &[Column]) -> Result<Items<bool>, Memory>
    ensures { IfOk result (λ fs. fs ≡ map (λ c. c.not_null) columns.now) }
{
    let mut flags = Items::new(alloc);
    for column in columns {
        flags.push(column.not_null)?;
    }
    Ok(flags)
}

/// The columns of a table, none where the schema does not have it.
fn columns_at<'a>(schema: &'a Schema, table: usize) -> &'a [Column]
    ensures { result.now ≡ columns_of schema.now table }
{
    match at(schema.tables(), table) {
        None => &[],
        Some(table) => table.columns.as_slice(),
    }
}
