ghost use Rattle.std.specs.Prelude.{◌≡◌, ◌&&◌, IfOk, length, map, option_map};
ghost use Rattle.std.specs.List.{list_all, list_any};
ghost use Rattle.vkg_columns.specs.Columns.{at_place};
ghost use Rattle.vkg_expr.specs.Seen.{expr_seen};
ghost use Rattle.vkg_expr.specs.Strict.{put as put_in};
ghost use Rattle.vkg_keys.specs.Keys.{with_itself};
ghost use Rattle.vkg_keys.specs.Members.{first_made};
ghost use Rattle.vkg_keys.specs.Ties.{all_tied};
ghost use Rattle.vkg_plan.specs.Plan.{Project};
ghost use Rattle.vkg_plan.specs.Seen.{plan_seen};
ghost use Rattle.vkg_rules.specs.declared.rewrite.Fell.TheVariants as weight;
ghost use Rattle.vkg_rules.specs.StepSeen.{step_seen};
ghost use Rattle.vkg_key_lefts.specs.SelfLeft.{is_kept as kept_in_left, named_left as all_named_left, over_left as over_left_of, self_left, ties_key as ties_a_key, with_right as with_right_of, without_again as left_without};
ghost use Rattle.vkg_key_lefts.specs.SelfLeftLaw.{self_left-keeps, self_left-falls};

use crate::kept::all_kept;
use crate::names::{put_each, renamed};
use crate::standing::{StandingScan, kinds, standing};
use crate::tables::keys_of;
use std::alloc::Global;
use vkg_base::{Items, Memory};
use vkg_cells::SqlType;
use vkg_columns::put;
use vkg_expr::Expr;
use vkg_keys::{are_tied, scan_columns};
use vkg_plan::{Plan, copy_plan_box};
use vkg_rules::{Fell, Rewrite};
use vkg_schema::{Key, Schema};

/// A left join to a table that stands in its left side already, by a key, that asks for nothing but columns that are not NULL goes.
#[derive(Drop)]
pub struct SelfLeft;

impl Rewrite for SelfLeft {
    ghost becomes = { λ r. self_left };

    #[tactic(auto, using(vkg_rules::proofs::Seen::seen_nodes))]
    fn apply(
        &self,
        alloc: Global,
        schema: &Schema,
        plan: &Plan,
    ) -> Result<Option<(Plan, Fell)>, Memory> {
        match plan {
            Plan::Project(es, p) => over_left(alloc, schema, es.as_slice(), p),
            _ => Ok(None),
        }
    }

    ghost keeps = { λ r. self_left-keeps };

    ghost falls = { λ r. self_left-falls };
}

#[tactic(auto, using(vkg_rules::proofs::Seen::seen_nodes))]
fn over_left(
    alloc: Global,
    schema: &Schema,
    es: &[Expr],
    p: &Plan,
) -> Result<Option<(Plan, Fell)>, Memory>
    ensures { IfOk result (λ o. option_map step_seen o ≡ over_left_of schema.now (map expr_seen es.now) (plan_seen p.now)) }
{
    match p {
        Plan::Left(l, r, c) => with_right(alloc, schema, es, l, c, r),
        _ => Ok(None),
    }
}

#[tactic(auto, using(vkg_rules::proofs::Seen::seen_nodes))]
fn with_right(
    alloc: Global,
    schema: &Schema,
    es: &[Expr],
    l: &Plan,
    c: &Expr,
    r: &Plan,
) -> Result<Option<(Plan, Fell)>, Memory>
    ensures { IfOk result (λ o. option_map step_seen o ≡ with_right_of schema.now (map expr_seen es.now) (plan_seen l.now) (expr_seen c.now) (plan_seen r.now)) }
{
    match r {
        Plan::Scan(table) => {
            let all = standing(alloc, schema, &[], l)?;
            over_standing(alloc, schema, es, l, *table, c, all.as_slice())
        }
        _ => Ok(None),
    }
}

/// What is made with the first of the Scans with which something is.
fn over_standing(
    alloc: Global,
    schema: &Schema,
    es: &[Expr],
    l: &Plan,
    table: usize,
    c: &Expr,
    all: &[StandingScan],
) -> Result<Option<(Plan, Fell)>, Memory>
    ensures { IfOk result (λ o. option_map step_seen o ≡ first_made (left_without schema.now (map expr_seen es.now) (plan_seen l.now) table (expr_seen c.now)) all.now) }
{
    for x in all {
        if let Some(made) = without_again(alloc, schema, es, l, table, c, x)? {
            return Ok(Some(made));
        }
    }
    Ok(None)
}

/// The expressions over the left side, if the right is the table that the Scan is of, by a key, and nothing else of it is used.
fn without_again(
    alloc: Global,
    schema: &Schema,
    es: &[Expr],
    l: &Plan,
    table: usize,
    c: &Expr,
    x: &StandingScan,
) -> Result<Option<(Plan, Fell)>, Memory>
    ensures { IfOk result (λ o. option_map step_seen o ≡ left_without schema.now (map expr_seen es.now) (plan_seen l.now) table (expr_seen c.now) x.now) }
{
    if x.table != table {
        return Ok(None);
    }
    let left = kinds(alloc, schema, l)?;
    let names = named_left(alloc, schema, left.as_slice(), x)?;
    if !is_again(alloc, schema, es, left.len(), c, x, names.as_slice())? {
        return Ok(None);
    }
    Ok(Some(over(alloc, names.as_slice(), es, l)?))
}

/// The left columns, and behind them those of the table as they stand on the left.
fn named_left(
    alloc: Global,
    schema: &Schema,
    left: &[SqlType],
    x: &StandingScan,
) -> Result<Items<Expr>, Memory>
    ensures { IfOk result (λ es. map expr_seen es ≡ all_named_left schema.now (length left.now) x.now) }
{
    let own = scan_columns(alloc, schema, x.before.as_slice(), x.table)?;
    renamed(alloc, left, own, &[])
}

/// The expressions over the plan, with those of a list in the place of their columns.
#[tactic(auto, using(vkg_rules::proofs::Seen::seen_nodes))]
pub fn over(alloc: Global, names: &[Expr], es: &[Expr], p: &Plan) -> Result<(Plan, Fell), Memory>
    ensures { IfOk result (λ x. step_seen x ≡ (Project (map (put_in (at_place (map expr_seen names.now))) (map expr_seen es.now)) (plan_seen p.now), weight.Weight)) }
{
    let p = copy_plan_box(alloc, p)?;
    Ok((Plan::Project(put_each(alloc, es, names)?, p), Fell::Weight))
}

// ---- whether the right row is the row on the left

fn is_again(
    alloc: Global,
    schema: &Schema,
    es: &[Expr],
    n: usize,
    c: &Expr,
    x: &StandingScan,
    names: &[Expr],
) -> Result<bool, Memory>
    ensures { IfOk result (λ b. b ≡ (ties_a_key schema.now n (expr_seen c.now) x.now && list_all (kept_in_left schema.now x.now (map expr_seen names.now) n (expr_seen c.now)) (map expr_seen es.now))) }
{
    if !ties_key(schema, n, c, x) {
        return Ok(false);
    }
    let left = put(alloc, c, names)?;
    all_kept(alloc, schema, x, names, n, &left, es)
}

/// Whether the condition ties each column of a key of the table to that behind n columns.
pub fn ties_key(schema: &Schema, n: usize, c: &Expr, x: &StandingScan) -> bool
    ensures { result ≡ ties_a_key schema.now n (expr_seen c.now) x.now }
{
    let first = x.before.len();
    any_tied(c, first, n, keys_of(schema, x.table))
}

fn any_tied(c: &Expr, first: usize, second: usize, keys: &[Key]) -> bool
    ensures { result ≡ list_any (λ key. all_tied (expr_seen c.now) first second (with_itself key.columns)) keys.now }
{
    keys.iter().any(|key| ties_columns(c, first, second, key.columns.as_slice()))
}

fn ties_columns(c: &Expr, first: usize, second: usize, columns: &[usize]) -> bool
    ensures { result ≡ all_tied (expr_seen c.now) first second (with_itself columns.now) }
{
    for column in columns {
        if !are_tied(c, first, second, (*column, *column)) {
            return false;
        }
    }
    true
}
