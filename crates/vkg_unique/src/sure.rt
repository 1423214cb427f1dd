// Which columns of a plan are never NULL, since their tables or its conditions say so.
ghost use Rattle.std.specs.Prelude.{◌≡◌, IfOk, fold, map, if◌then◌else◌};
ghost use Rattle.vkg_expr.specs.Seen.{expr_seen};
ghost use Rattle.vkg_expr.specs.Strict.{columns as columns_named, nulls_on_null as null_with_column};
ghost use Rattle.vkg_plan.specs.Plan.{plans};
ghost use Rattle.vkg_plan.specs.Seen.{plan_seen};
ghost use Rattle.vkg_rules.specs.Measure.{kinds_or_none};
ghost use Rattle.vkg_schema.specs.Kinds.{columns_of};
ghost use Rattle.vkg_unique.specs.Sure.{is_sure as all_sure, sure_beside as sure_in_all, sure_columns as sure_in, unset as none_set, with_condition as by_condition, with_conjunct as by_conjunct, with_flags as all_set, with_tested as by_test};

use crate::columns::named_columns;
use crate::flags::{all_flagged, unset, with_flags};
use crate::kinds::kinds;
use std::alloc::Global;
use vkg_base::{Items, Memory, at};
use vkg_expr::{Expr, nulls_on_null};
use vkg_plan::Plan;
use vkg_schema::{Column, Schema};

/// Of each column of a plan whether it is a NOT NULL column of a table that is scanned below selections and joins alone, or a
/// condition of these says that it is not NULL.
#[cycle(sure)]
pub fn sure_columns(alloc: Global, schema: &Schema, plan: &Plan) -> Result<Items<bool>, Memory>
    ensures { IfOk result (λ fs. fs ≡ sure_in schema.now (plan_seen plan.now)) }
{
    match plan {
        Plan::Scan(table) => not_null_columns(alloc, columns_at(schema, *table)),
        Plan::Select(c, p) => with_condition(alloc, sure_columns(alloc, schema, p)?, c),
        Plan::Join(ps, c) => with_condition(alloc, sure_beside(alloc, schema, ps.as_slice())?, c),
        _ => none_sure(alloc, schema, plan),
    }
}

/// Of the columns of plans one after another.
#[cycle(sure)]
fn sure_beside(alloc: Global, schema: &Schema, ps: &[Plan]) -> Result<Items<bool>, Memory>
    ensures { IfOk result (λ fs. fs ≡ sure_in_all schema.now (plans (map plan_seen ps.now))) }
{
    let mut flags = Items::new(alloc);
    for p in ps {
        flags.append(sure_columns(alloc, schema, p)?)?;
    }
    Ok(flags)
}

/// As many columns as the plan has, of which it is not said.
fn none_sure(alloc: Global, schema: &Schema, plan: &Plan) -> Result<Items<bool>, Memory>
    ensures { IfOk result (λ fs. fs ≡ none_set (kinds_or_none schema.now (plan_seen plan.now))) }
{
    let all = kinds(alloc, schema, plan)?;
    unset(alloc, all.as_slice())
}

/// The flags with those of the columns set of which a condition says that they are not NULL.
#[tactic(auto, using(vkg_columns::proofs::Lists::conjunct_lists))]
fn with_condition(alloc: Global, flags: Items<bool>, c: &Expr) -> Result<Items<bool>, Memory>
    ensures { IfOk result (λ fs. fs ≡ by_condition flags (expr_seen c.now)) }
{
    match c {
        Expr::And(list) => with_conjuncts(alloc, flags, list.as_slice()),
        _ => with_conjunct(alloc, flags, c),
    }
}

fn with_conjuncts(alloc: Global, flags: Items<bool>, list: &[Expr]) -> Result<Items<bool>, Memory>
    ensures { IfOk result (λ fs. fs ≡ fold by_conjunct flags (map expr_seen list.now)) }
{
    let mut flags = flags;
    for c in list {
        flags = with_conjunct(alloc, flags, c)?;
    }
    Ok(flags)
}

fn with_conjunct(alloc: Global, flags: Items<bool>, c: &Expr) -> Result<Items<bool>, Memory>
    ensures { IfOk result (λ fs. fs ≡ by_conjunct flags (expr_seen c.now)) }
{
    match c {
        Expr::Not(e) => with_tested(alloc, flags, e),
        _ => Ok(flags),
    }
}

fn with_tested(alloc: Global, flags: Items<bool>, e: &Expr) -> Result<Items<bool>, Memory>
    ensures { IfOk result (λ fs. fs ≡ by_test flags (expr_seen e.now)) }
{
    match e {
        Expr::IsNull(e) => with_columns(alloc, flags, e),
        _ => Ok(flags),
    }
}

/// The flags with those of the columns of an expression set, if it is NULL where one of them is.
fn with_columns(alloc: Global, flags: Items<bool>, e: &Expr) -> Result<Items<bool>, Memory>
    ensures { IfOk result (λ fs. fs ≡ (if null_with_column (expr_seen e.now) then all_set flags (columns_named (expr_seen e.now)) else flags)) }
{
    if !nulls_on_null(e) {
        return Ok(flags);
    }
    let columns = named_columns(alloc, e)?;
    Ok(with_flags(flags, columns.as_slice()))
}

/// Of each column of a table whether it is NOT NULL.
fn not_null_columns(alloc: Global, columns: &[Column]) -> Result<Items<bool>, Memory>
    ensures { IfOk result (λ fs. fs ≡ map (λ c. c.not_null) columns.now) }
{
    let mut flags = Items::new(alloc);
    for column in columns {
        flags.push(column.not_null)?;
    }
    Ok(flags)
}

/// The columns of a table, none where the schema does not have it.
fn columns_at<'a>(schema: &'a Schema, table: usize) -> &'a [Column]
    ensures { result.now ≡ columns_of schema.now table }
{
    match at(schema.tables(), table) {
        None => &[],
        Some(table) => table.columns.as_slice(),
    }
}

/// Whether each column that an expression names is flagged.
pub fn is_sure(alloc: Global, flags: &[bool], e: &Expr) -> Result<bool, Memory>
    ensures { IfOk result (λ b. b ≡ all_sure flags.now (expr_seen e.now)) }
{
    let columns = named_columns(alloc, e)?;
    Ok(all_flagged(flags, columns.as_slice()))
}
