// The columns of the members of a join.
ghost use Rattle.std.specs.Prelude.{◌≡◌, ◌+◌, IfOk, length, map};
ghost use Rattle.std.specs.Option.{option_map_or};
ghost use Rattle.vkg_columns.specs.Columns.{columns_from};
ghost use Rattle.vkg_expr.specs.Seen.{expr_seen};
ghost use Rattle.vkg_plan.specs.Kinds.{width};
ghost use Rattle.vkg_plan.specs.Plan.{Scan};
ghost use Rattle.vkg_plan.specs.Seen.{plan_seen};
ghost use Rattle.vkg_keys.specs.Members.{renamed as renamed_columns, widths as widths_of};

use std::alloc::Global;
use vkg_base::{Items, Memory, at};
use vkg_cells::SqlType;
use vkg_expr::Expr;
use vkg_plan::{Plan, column_kinds, plan_kinds};
use vkg_schema::Schema;

/// How many columns all of the plans have.
pub fn widths(alloc: Global, schema: &Schema, ps: &[Plan]) -> Result<usize, Memory>
    ensures { IfOk result (λ n. n ≡ widths_of schema.now (map plan_seen ps.now)) }
{
    let all = kinds(alloc, schema, ps)?;
    Ok(all.len())
}

/// The columns of plans of which one is gone, with these expressions in the place of its own.
#[tactic(auto, using(vkg_columns::proofs::Lists::both_seen))]
pub fn renamed(
    alloc: Global,
    schema: &Schema,
    before: &[Plan],
    own: Items<Expr>,
    after: &[Plan],
) -> Result<Items<Expr>, Memory>
    ensures { IfOk result (λ es. map expr_seen es ≡ renamed_columns (widths_of schema.now (map plan_seen before.now)) (map expr_seen own) (widths_of schema.now (map plan_seen after.now))) }
{
    let first = kinds(alloc, schema, before)?;
    let last = kinds(alloc, schema, after)?;
    let mut rest = own;
    rest.append(columns_behind(alloc, first.as_slice(), last.as_slice())?)?;
    let mut all = columns_behind(alloc, &[], first.as_slice())?;
    all.append(rest)?;
    Ok(all)
}

/// The columns of a table that stand behind columns of these kinds.
pub fn scan_columns(
    alloc: Global,
    schema: &Schema,
    first: &[SqlType],
    table: usize,
) -> Result<Items<Expr>, Memory>
    ensures { IfOk result (λ es. map expr_seen es ≡ columns_from (length first.now) (width schema.now (Scan table))) }
{
    let own = own_kinds(alloc, schema, table)?;
    columns_behind(alloc, first, own.as_slice())
}

/// The kinds of the columns of a table, and none where there is no such table.
fn own_kinds(alloc: Global, schema: &Schema, table: usize) -> Result<Items<SqlType>, Memory>
    ensures { IfOk result (λ ks. length ks ≡ width schema.now (Scan table)) }
{
    match at(schema.tables(), table) {
        Some(table) => Ok(column_kinds(alloc, table.columns.as_slice())?),
        None => Ok(Items::new(alloc)),
    }
}

/// One kind for each column that the plans have together. No more is said of them: columns are counted by it, in a number that fits.
pub fn kinds(alloc: Global, schema: &Schema, ps: &[Plan]) -> Result<Items<SqlType>, Memory>
    ensures { IfOk result (λ ks. length ks ≡ widths_of schema.now (map plan_seen ps.now)) }
{
    let mut all = Items::new(alloc);
    for i in 0..ps.len() {
        all.append(or_none(alloc, plan_kinds(alloc, &ps[i], schema)?))?;
    }
    Ok(all)
}

/// The kinds that there are, and none where there are none.
fn or_none(alloc: Global, kinds: Option<Items<SqlType>>) -> Items<SqlType>
    ensures { length result ≡ option_map_or length kinds 0 }
{
    match kinds {
        Some(kinds) => kinds,
        None => Items::new(alloc),
    }
}

/// As many columns as there are own kinds, behind as many as there are others.
fn columns_behind(alloc: Global, first: &[SqlType], own: &[SqlType]) -> Result<Items<Expr>, Memory>
    ensures { IfOk result (λ es. map expr_seen es ≡ columns_from (length first.now) (length own.now)) }
{
    let mut columns = Items::new(alloc);
    for i in 0..own.len() {
        columns.push(Expr::Col(first.len() + i))?;
    }
    Ok(columns)
}
