ghost use Rattle.std.specs.Prelude.{◌≡◌, ◌+◌, ◌++◌, IfOk, None, Some, map, take, drop, option_map};
ghost use Rattle.vkg_columns.specs.Columns.{at_place};
ghost use Rattle.vkg_expr.specs.Seen.{expr_seen};
ghost use Rattle.vkg_expr.specs.Strict.{put as put_in};
ghost use Rattle.vkg_plan.specs.Plan.{Join, plans};
ghost use Rattle.vkg_plan.specs.Seen.{plan_seen};
ghost use Rattle.vkg_rules.specs.declared.rewrite.Fell.TheVariants as fell;
ghost use Rattle.vkg_rules.specs.StepSeen.{plans_seen, step_seen};
ghost use Rattle.vkg_keys.specs.Keys.{with_itself};
ghost use Rattle.vkg_keys.specs.Members.{first_made, first_two};
ghost use Rattle.vkg_keys.specs.ScansSeen.{place_in};
ghost use Rattle.vkg_keys.specs.Ties.{all_tied};
ghost use Rattle.vkg_key_joins.specs.SecondSeen.{step_without};
ghost use Rattle.vkg_key_joins.specs.SelfJoin.{is_again as are_one_row, is_twice as is_table_twice, named_in_first as columns_in_first, over_others as over_all_others, self_join, self_joined as joined_with_itself, ties_key as condition_ties_key};
ghost use Rattle.vkg_key_joins.specs.SelfJoinLaw.{self_join-keeps, self_join-falls};

use crate::tables::keys_of;
use crate::without_scan::over_rest;
use std::alloc::Global;
use vkg_base::{Box, Items, Memory};
use vkg_columns::put;
use vkg_expr::Expr;
use vkg_keys::{
    ScanAt, are_tied, before, behind, kinds, others, renamed, scan_columns, scans, widths,
};
use vkg_plan::Plan;
use vkg_rules::{Answer, Fell, Rewrite, unchanged};
use vkg_schema::Schema;

/// Of two scans of one table in a join whose rows are to agree on a key the later goes, and its columns are named in the first.
#[derive(Drop)]
pub struct SelfJoin;

impl Rewrite for SelfJoin {
    ghost becomes = { λ r. self_join };

    #[tactic(auto, using(vkg_rules::proofs::Seen::seen_nodes, crate::proofs::Listed::each_plans))]
    fn apply(
        &self,
        alloc: Global,
        schema: &Schema,
        plan: &Plan,
    ) -> Result<Option<(Plan, Fell)>, Memory> {
        match plan {
            Plan::Join(ps, c) => joined(alloc, schema, ps.as_slice(), c),
            _ => Ok(None),
        }
    }

    // The other members stay in memory once.
    fn apply_again(
        &self,
        alloc: Global,
        schema: &Schema,
        plan: Box<Plan>,
        _: &[usize],
    ) -> Result<Answer, Memory> {
        match second(alloc, schema, &plan)? {
            None => Ok(unchanged(plan)),
            Some((names, y)) => Ok(lighter(over_rest(alloc, plan.into_inner(), names, y.at)?)),
        }
    }

    ghost keeps = { λ r. self_join-keeps };

    ghost falls = { λ r. self_join-falls };
}

/// A plan of less weight than before.
fn lighter(plan: Box<Plan>) -> Answer
    ensures plan { result.plan ≡ plan }
    ensures fell { result.fell ≡ Some fell.Weight }
    ensures dropped { result.dropped ≡ None }
{
    Answer {
        plan,
        fell: Some(Fell::Weight),
        dropped: None,
    }
}

// ---- the first two scans

#[tactic(auto, using(vkg_rules::proofs::Seen::seen_nodes, crate::proofs::Listed::rest_is))]
fn joined(
    alloc: Global,
    schema: &Schema,
    ps: &[Plan],
    c: &Expr,
) -> Result<Option<(Plan, Fell)>, Memory>
    ensures { IfOk result (λ o. option_map step_seen o ≡ first_two (joined_with_itself schema.now (expr_seen c.now)) (map plan_seen ps.now)) }
{
    match second_in(alloc, schema, ps, c)? {
        None => Ok(None),
        Some((names, y)) => Ok(Some(without_second(alloc, names, ps, y, c)?)),
    }
}

/// Of a join the columns of all members named without the second of the first two scans that are one row, and its place.
#[tactic(auto, using(vkg_rules::proofs::Seen::seen_nodes, crate::proofs::Listed::each_plans))]
fn second(
    alloc: Global,
    schema: &Schema,
    plan: &Plan,
) -> Result<Option<(Items<Expr>, ScanAt)>, Memory>
    ensures { IfOk result (λ o. option_map (step_without (plan_seen plan.now)) o ≡ self_join schema.now (plan_seen plan.now)) }
{
    match plan {
        Plan::Join(ps, c) => second_in(alloc, schema, ps.as_slice(), c),
        _ => Ok(None),
    }
}

fn second_in(
    alloc: Global,
    schema: &Schema,
    ps: &[Plan],
    c: &Expr,
) -> Result<Option<(Items<Expr>, ScanAt)>, Memory>
    ensures { IfOk result (λ o. option_map (step_without (Join (plans_seen ps.now) (expr_seen c.now))) o ≡ first_two (joined_with_itself schema.now (expr_seen c.now)) (map plan_seen ps.now)) }
{
    let found = scans(alloc, ps)?;
    over_scans(alloc, schema, ps, found.as_slice(), c)
}

/// What is told of the first of the scans, with another.
fn over_scans(
    alloc: Global,
    schema: &Schema,
    ps: &[Plan],
    all: &[ScanAt],
    c: &Expr,
) -> Result<Option<(Items<Expr>, ScanAt)>, Memory>
    ensures { IfOk result (λ o. option_map (step_without (Join (plans_seen ps.now) (expr_seen c.now))) o ≡ first_made (λ x. first_made (joined_with_itself schema.now (expr_seen c.now) x) (map (place_in ps.now) all.now)) (map (place_in ps.now) all.now)) }
{
    for x in all {
        if let Some(told) = with_another(alloc, schema, ps, *x, all, c)? {
            return Ok(Some(told));
        }
    }
    Ok(None)
}

/// What is told of a scan and the first other.
fn with_another(
    alloc: Global,
    schema: &Schema,
    ps: &[Plan],
    x: ScanAt,
    all: &[ScanAt],
    c: &Expr,
) -> Result<Option<(Items<Expr>, ScanAt)>, Memory>
    ensures { IfOk result (λ o. option_map (step_without (Join (plans_seen ps.now) (expr_seen c.now))) o ≡ first_made (joined_with_itself schema.now (expr_seen c.now) (place_in ps.now x)) (map (place_in ps.now) all.now)) }
{
    for y in all {
        if let Some(told) = self_joined(alloc, schema, ps, x, *y, c)? {
            return Ok(Some(told));
        }
    }
    Ok(None)
}

/// The columns named without the second, and its place, if rows of the two are to agree on a key.
#[tactic(auto, using(crate::proofs::Listed::rest_is))]
fn self_joined(
    alloc: Global,
    schema: &Schema,
    ps: &[Plan],
    x: ScanAt,
    y: ScanAt,
    c: &Expr,
) -> Result<Option<(Items<Expr>, ScanAt)>, Memory>
    ensures { IfOk result (λ o. option_map (step_without (Join (plans_seen ps.now) (expr_seen c.now))) o ≡ joined_with_itself schema.now (expr_seen c.now) (place_in ps.now x) (place_in ps.now y)) }
{
    if !is_again(alloc, schema, ps, x, y, c)? {
        return Ok(None);
    }
    Ok(Some((named_in_first(alloc, schema, ps, x, y)?, y)))
}

// ---- whether they are one row

/// Whether rows of the two scans are to agree on a key of their one table.
fn is_again(
    alloc: Global,
    schema: &Schema,
    ps: &[Plan],
    x: ScanAt,
    y: ScanAt,
    c: &Expr,
) -> Result<bool, Memory>
    ensures { IfOk result (λ b. b ≡ are_one_row schema.now (expr_seen c.now) (place_in ps.now x) (place_in ps.now y)) }
{
    if !is_twice(ps, x, y) {
        return Ok(false);
    }
    let first = widths(alloc, schema, before(ps, x))?;
    let second = widths(alloc, schema, before(ps, y))?;
    Ok(ties_key(schema, x.table, c, first, second))
}

/// Whether they scan one table, the first before the second.
#[tactic(auto, using(crate::proofs::Listed::before_length))]
fn is_twice(ps: &[Plan], x: ScanAt, y: ScanAt) -> bool
    ensures { result ≡ is_table_twice (place_in ps.now x) (place_in ps.now y) }
{
    !(before(ps, y).len() <= before(ps, x).len()) && x.table == y.table
}

/// Whether the condition ties each column of a key behind the first columns to that behind the second.
fn ties_key(schema: &Schema, table: usize, c: &Expr, first: usize, second: usize) -> bool
    ensures { result ≡ condition_ties_key schema.now table (expr_seen c.now) first second }
{
    keys_of(schema, table).iter().any(|key| ties_columns(c, first, second, key.columns.as_slice()))
}

fn ties_columns(c: &Expr, first: usize, second: usize, columns: &[usize]) -> bool
    ensures { result ≡ all_tied (expr_seen c.now) first second (with_itself columns.now) }
{
    for column in columns {
        if !are_tied(c, first, second, (*column, *column)) {
            return false;
        }
    }
    true
}

// ---- without the second

/// The columns of all members, those of the second scan named in the first.
fn named_in_first(
    alloc: Global,
    schema: &Schema,
    ps: &[Plan],
    x: ScanAt,
    y: ScanAt,
) -> Result<Items<Expr>, Memory>
    ensures { IfOk result (λ es. map expr_seen es ≡ columns_in_first schema.now (place_in ps.now x) (place_in ps.now y)) }
{
    let first = kinds(alloc, schema, before(ps, x))?;
    let own = scan_columns(alloc, schema, first.as_slice(), x.table)?;
    renamed(alloc, schema, before(ps, y), own, behind(ps, y))
}

/// The expressions over the join without a scan, whose condition is over the expressions.
#[tactic(auto, using(vkg_rules::proofs::Seen::seen_nodes))]
fn without_second(
    alloc: Global,
    names: Items<Expr>,
    ps: &[Plan],
    y: ScanAt,
    c: &Expr,
) -> Result<(Plan, Fell), Memory>
    ensures { IfOk result (λ x. step_seen x ≡ over_all_others (map expr_seen names) (map plan_seen (take y.at ps.now) ++ map plan_seen (drop (y.at + 1) ps.now)) (expr_seen c.now)) }
{
    let below = rejoined(alloc, names.as_slice(), ps, y, c)?;
    Ok((Plan::Project(names, below), Fell::Weight))
}

#[tactic(auto, using(vkg_rules::proofs::Seen::seen_nodes, crate::proofs::Listed::both_plans))]
fn rejoined(
    alloc: Global,
    names: &[Expr],
    ps: &[Plan],
    y: ScanAt,
    c: &Expr,
) -> Result<Box<Plan>, Memory>
    ensures { IfOk result (λ p. plan_seen p ≡ Join (plans (map plan_seen (take y.at ps.now) ++ map plan_seen (drop (y.at + 1) ps.now))) (put_in (at_place (map expr_seen names.now)) (expr_seen c.now))) }
{
    let rest = others(alloc, ps, y)?;
    Box::new(alloc, Plan::Join(rest, put(alloc, c, names)?))
}
