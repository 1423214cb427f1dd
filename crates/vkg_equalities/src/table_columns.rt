// Which columns of a plan are columns of a table.
ghost use Rattle.std.specs.Prelude.{◌≡◌, true, IfOk, fold, map};
ghost use Rattle.vkg_expr.specs.Seen.{expr_seen};
ghost use Rattle.vkg_plan.specs.Plan.{plans};
ghost use Rattle.vkg_plan.specs.Seen.{plan_seen};
ghost use Rattle.vkg_schema.specs.Kinds.{columns_of};
ghost use Rattle.vkg_equalities.specs.TableColumns.{both_flags as flags_of_both, carries as carries_column, columns_of_each as columns_of_all, common_flags, flag_at as flag_of, flags_beside, table_columns};

use std::alloc::Global;
use vkg_base::{Items, Memory, at};
use vkg_cells::Cell;
use vkg_expr::Expr;
use vkg_plan::Plan;
use vkg_schema::{Column, Schema};

/// Of each column of a plan whether all its cells are cells of tables' columns, or NULL.
#[cycle(flags)]
pub fn are_table_columns(alloc: Global, schema: &Schema, plan: &Plan) -> Result<Items<bool>, Memory>
    ensures { IfOk result (λ fs. fs ≡ table_columns schema.now (plan_seen plan.now)) }
{
    match plan {
        Plan::Unit => Ok(Items::new(alloc)),
        Plan::Empty(kinds) => all_true(alloc, kinds.as_slice()),
        Plan::Scan(table) => all_true(alloc, columns_at(schema, *table)),
        Plan::Select(_, p) => are_table_columns(alloc, schema, p),
        Plan::Project(es, p) => carried(alloc, are_table_columns(alloc, schema, p)?, es.as_slice()),
        Plan::Join(ps, _) => columns_beside(alloc, schema, ps.as_slice()),
        Plan::Left(p, q, _) => {
            let mut flags = are_table_columns(alloc, schema, p)?;
            flags.append(are_table_columns(alloc, schema, q)?)?;
            Ok(flags)
        }
        Plan::AntiJoin(p, _, _) => are_table_columns(alloc, schema, p),
        Plan::UnionAll(ps) => in_common(alloc, columns_of_each(alloc, schema, ps.as_slice())?),
        Plan::Distinct(p) => are_table_columns(alloc, schema, p),
    }
}

/// The columns of plans one after another.
#[cycle(flags)]
fn columns_beside(alloc: Global, schema: &Schema, ps: &[Plan]) -> Result<Items<bool>, Memory>
    ensures { IfOk result (λ fs. fs ≡ flags_beside (columns_of_all schema.now (plans (map plan_seen ps.now)))) }
{
    let mut all = Items::new(alloc);
    for p in ps {
        all.append(are_table_columns(alloc, schema, p)?)?;
    }
    Ok(all)
}

/// The columns of each of the plans.
#[cycle(flags)]
fn columns_of_each(
    alloc: Global,
    schema: &Schema,
    ps: &[Plan],
) -> Result<Items<Items<bool>>, Memory>
    ensures { IfOk result (λ fss. fss ≡ columns_of_all schema.now (plans (map plan_seen ps.now))) }
{
    let mut each = Items::new(alloc);
    for p in ps {
        each.push(are_table_columns(alloc, schema, p)?)?;
    }
    Ok(each)
}

/// The columns that are such in each of the lists.
fn in_common(alloc: Global, each: Items<Items<bool>>) -> Result<Items<bool>, Memory>
    ensures { IfOk result (λ fs. fs ≡ common_flags each) }
{
    match each.as_slice() {
        [] => Ok(Items::new(alloc)),
        [first, rest @ ..] => common_with(alloc, first.as_slice(), rest),
    }
}

/// The columns that are such in the first list and in each of the rest.
fn common_with(alloc: Global, first: &[bool], rest: &[Items<bool>]) -> Result<Items<bool>, Memory>
    ensures { IfOk result (λ fs. fs ≡ fold flags_of_both first.now rest.now) }
{
    let mut all = Items::from_slice(alloc, first)?;
    for more in rest {
        all = both_flags(alloc, all.as_slice(), more.as_slice())?;
    }
    Ok(all)
}

/// The columns that are such in both lists.
fn both_flags(alloc: Global, a: &[bool], b: &[bool]) -> Result<Items<bool>, Memory>
    ensures { IfOk result (λ fs. fs ≡ flags_of_both a.now b.now) }
{
    let mut both = Items::new(alloc);
    let mut left = a;
    let mut right = b;
    loop {
        match (left, right) {
            ([x, xs @ ..], [y, ys @ ..]) => {
                both.push(*x && *y)?;
                left = xs;
                right = ys;
            }
            ([], _) => return Ok(both),
            ([_, ..], []) => return Ok(both),
        }
    }
}

/// A true for each item.
fn all_true<T>(alloc: Global, items: &[T]) -> Result<Items<bool>, Memory>
    ensures { IfOk result (λ fs. fs ≡ map (λ x. true) items.now) }
{
    let mut flags = Items::new(alloc);
    for _ in items {
        flags.push(true)?;
    }
    Ok(flags)
}

/// The columns of a table, none where the schema does not have it.
fn columns_at<'a>(schema: &'a Schema, table: usize) -> &'a [Column]
    ensures { result.now ≡ columns_of schema.now table }
{
    match at(schema.tables(), table) {
        None => &[],
        Some(table) => table.columns.as_slice(),
    }
}

/// Of each expression whether it is such a column, or NULL.
fn carried(alloc: Global, flags: Items<bool>, es: &[Expr]) -> Result<Items<bool>, Memory>
    ensures { IfOk result (λ fs. fs ≡ map (carries_column flags) (map expr_seen es.now)) }
{
    let mut found = Items::new(alloc);
    for e in es {
        found.push(carries(flags.as_slice(), e))?;
    }
    Ok(found)
}

fn carries(flags: &[bool], e: &Expr) -> bool
    ensures { result ≡ carries_column flags.now (expr_seen e.now) }
{
    match e {
        Expr::Col(column) => flag_at(flags, *column),
        Expr::Const(Cell::Null, _) => true,
        _ => false,
    }
}

/// The flag of a column, false past the last one.
pub fn flag_at(flags: &[bool], column: usize) -> bool
    ensures { result ≡ flag_of flags.now column }
{
    match at(flags, column) {
        None => false,
        Some(flag) => *flag,
    }
}
