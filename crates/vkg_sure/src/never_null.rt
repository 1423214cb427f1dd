// Whether a column of a plan is NULL in none of its rows. It is told of one column at a time, where it is asked: down the plan, along the
// nodes that have the column.
ghost use Rattle.std.specs.Prelude.{◌≡◌, ◌++◌, IfOk, map};
ghost use Rattle.std.specs.List.{list_all};
ghost use Rattle.vkg_equalities.specs.TableColumns.{flags_beside};
ghost use Rattle.vkg_expr.specs.Seen.{expr_seen};
ghost use Rattle.vkg_plan.specs.Plan.{plans};
ghost use Rattle.vkg_plan.specs.Seen.{plan_seen};
ghost use Rattle.vkg_sure.specs.NeverNull.{common, is_known as known_by, never_null as flags_of, never_null_each as flags_of_each, own_never_null as own_flags, with_all_told};
ghost use Rattle.vkg_sure.specs.ToldAt.{is_set as flag_told, told_at};
ghost use Rattle.vkg_unique.specs.Sure.{unset};

use crate::columns::named_columns;
use crate::placed::{of_none, of_table, placed};
use crate::told::{Told, is_set, with_condition};
use std::alloc::Global;
use vkg_base::{Memory, at};
use vkg_conditions::is_strict;
use vkg_expr::Expr;
use vkg_plan::Plan;
use vkg_schema::Schema;

/// What is told of a column by those over which a plan's own expressions are.
pub fn own_told(alloc: Global, schema: &Schema, plan: &Plan, column: usize) -> Result<Told, Memory>
    ensures { IfOk result (λ t. t ≡ told_at (own_flags schema.now (plan_seen plan.now)) column) }
{
    match plan {
        Plan::Select(_, p) => never_null(alloc, schema, p, column),
        Plan::Project(_, p) => never_null(alloc, schema, p, column),
        Plan::Join(ps, _) => beside(alloc, schema, ps.as_slice(), column),
        Plan::Left(p, q, _) => of_two(alloc, schema, p, q, column),
        Plan::AntiJoin(p, q, _) => of_two(alloc, schema, p, q, column),
        _ => Ok(Told::Behind(column)),
    }
}

#[tactic(auto, using(crate::proofs::Places::append_here, crate::proofs::Places::append_past))]
fn of_two(alloc: Global, schema: &Schema, p: &Plan, q: &Plan, column: usize) -> Result<Told, Memory>
    ensures { IfOk result (λ t. t ≡ told_at (flags_of schema.now (plan_seen p.now) ++ flags_of schema.now (plan_seen q.now)) column) }
{
    match never_null(alloc, schema, p, column)? {
        Told::Here(set) => Ok(Told::Here(set)),
        Told::Behind(at) => never_null(alloc, schema, q, at),
    }
}

/// What a plan's columns tell of one.
#[cycle(never)]
fn never_null(alloc: Global, schema: &Schema, plan: &Plan, column: usize) -> Result<Told, Memory>
    ensures { IfOk result (λ t. t ≡ told_at (flags_of schema.now (plan_seen plan.now)) column) }
{
    match plan {
        Plan::Unit => Ok(Told::Behind(column)),
        Plan::Empty(kinds) => Ok(of_none(kinds.as_slice(), column)),
        Plan::Scan(table) => Ok(of_table(schema, *table, column)),
        Plan::Select(c, p) => selected(alloc, schema, p, c, column),
        Plan::Project(es, p) => projected(alloc, schema, p, es.as_slice(), column),
        Plan::Join(ps, c) => joined(alloc, schema, ps.as_slice(), c, column),
        Plan::Left(p, q, _) => left_joined(alloc, schema, p, q, column),
        Plan::AntiJoin(p, _, _) => never_null(alloc, schema, p, column),
        Plan::UnionAll(ps) => in_common(alloc, schema, ps.as_slice(), column),
        Plan::Distinct(p) => never_null(alloc, schema, p, column),
    }
}

/// By the columns of a plan, or by a condition on them.
#[cycle(never)]
#[tactic(auto, using(crate::proofs::Places::told_condition))]
fn selected(
    alloc: Global,
    schema: &Schema,
    p: &Plan,
    c: &Expr,
    column: usize,
) -> Result<Told, Memory>
    ensures { IfOk result (λ t. t ≡ told_at (with_all_told (flags_of schema.now (plan_seen p.now)) (expr_seen c.now)) column) }
{
    let told = never_null(alloc, schema, p, column)?;
    with_condition(alloc, told, c, column)
}

#[cycle(never)]
#[tactic(auto, using(crate::proofs::Places::told_condition))]
fn joined(
    alloc: Global,
    schema: &Schema,
    ps: &[Plan],
    c: &Expr,
    column: usize,
) -> Result<Told, Memory>
    ensures { IfOk result (λ t. t ≡ told_at (with_all_told (flags_beside (flags_of_each schema.now (plans (map plan_seen ps.now)))) (expr_seen c.now)) column) }
{
    let told = beside(alloc, schema, ps, column)?;
    with_condition(alloc, told, c, column)
}

/// By the columns of the left side; of those of the right one nothing is said.
#[cycle(never)]
#[tactic(auto, using(crate::proofs::Places::append_here, crate::proofs::Places::append_past, crate::proofs::Places::told_unset))]
fn left_joined(
    alloc: Global,
    schema: &Schema,
    p: &Plan,
    q: &Plan,
    column: usize,
) -> Result<Told, Memory>
    ensures { IfOk result (λ t. t ≡ told_at (flags_of schema.now (plan_seen p.now) ++ unset (flags_of schema.now (plan_seen q.now))) column) }
{
    match never_null(alloc, schema, p, column)? {
        Told::Here(set) => Ok(Told::Here(set)),
        Told::Behind(at) => Ok(placed(schema, q, at)),
    }
}

/// By the columns of plans one after another.
#[cycle(never)]
#[tactic(auto, using(crate::proofs::Places::member_here, crate::proofs::Places::member_past))]
fn beside(alloc: Global, schema: &Schema, ps: &[Plan], column: usize) -> Result<Told, Memory>
    ensures { IfOk result (λ t. t ≡ told_at (flags_beside (flags_of_each schema.now (plans (map plan_seen ps.now)))) column) }
{
    let mut left = column;
    for p in ps {
        match never_null(alloc, schema, p, left)? {
            Told::Here(set) => return Ok(Told::Here(set)),
            Told::Behind(at) => left = at,
        }
    }
    Ok(Told::Behind(left))
}

/// By what is common to the columns of plans.
#[cycle(never)]
#[tactic(auto, using(crate::proofs::Places::common_here, crate::proofs::Places::common_past))]
fn in_common(alloc: Global, schema: &Schema, ps: &[Plan], column: usize) -> Result<Told, Memory>
    ensures { IfOk result (λ t. t ≡ told_at (common (flags_of_each schema.now (plans (map plan_seen ps.now)))) column) }
{
    match ps {
        [] => Ok(Told::Behind(column)),
        [first, ..] => match placed(schema, first, column) {
            Told::Here(_) => Ok(Told::Here(in_all(alloc, schema, ps, column)?)),
            Told::Behind(at) => Ok(Told::Behind(at)),
        },
    }
}

/// Whether it is never NULL in each of the plans.
#[cycle(never)]
fn in_all(alloc: Global, schema: &Schema, ps: &[Plan], column: usize) -> Result<bool, Memory>
    ensures { IfOk result (λ b. b ≡ list_all (λ fs. flag_told (told_at fs column)) (flags_of_each schema.now (plans (map plan_seen ps.now)))) }
{
    for p in ps {
        if !is_set(never_null(alloc, schema, p, column)?) {
            return Ok(false);
        }
    }
    Ok(true)
}

/// By what is projected.
#[cycle(never)]
#[tactic(auto, using(crate::proofs::Places::expr_here, crate::proofs::Places::expr_behind))]
fn projected(
    alloc: Global,
    schema: &Schema,
    p: &Plan,
    es: &[Expr],
    column: usize,
) -> Result<Told, Memory>
    ensures { IfOk result (λ t. t ≡ told_at (map (known_by (flags_of schema.now (plan_seen p.now))) (map expr_seen es.now)) column) }
{
    match at(es, column) {
        Some(e) => Ok(Told::Here(is_known(alloc, schema, p, e)?)),
        None => Ok(Told::Behind(column.saturating_sub(es.len()))),
    }
}

/// Whether an expression over a plan is strict, and names columns alone that are never NULL.
#[cycle(never)]
#[tactic(auto, using(crate::proofs::Places::known_told))]
fn is_known(alloc: Global, schema: &Schema, p: &Plan, e: &Expr) -> Result<bool, Memory>
    ensures { IfOk result (λ b. b ≡ known_by (flags_of schema.now (plan_seen p.now)) (expr_seen e.now)) }
{
    if !is_strict(e) {
        return Ok(false);
    }
    let columns = named_columns(alloc, e)?;
    are_set(alloc, schema, p, columns.as_slice())
}

#[cycle(never)]
fn are_set(alloc: Global, schema: &Schema, p: &Plan, columns: &[usize]) -> Result<bool, Memory>
    ensures { IfOk result (λ b. b ≡ list_all (λ k. flag_told (told_at (flags_of schema.now (plan_seen p.now)) k)) columns.now) }
{
    for column in columns {
        if !is_set(never_null(alloc, schema, p, *column)?) {
            return Ok(false);
        }
    }
    Ok(true)
}
