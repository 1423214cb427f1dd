ghost use Rattle.std.specs.Prelude.{◌≡◌, ◌+◌, ◌&&◌, ◌||◌, IfOk, map, nat_lt, option_map};
ghost use Rattle.std.specs.Bool.{then_some};
ghost use Rattle.std.specs.List.{list_all, list_any};
ghost use Rattle.vkg_expr.specs.Logic.{conjuncts as conjuncts_of};
ghost use Rattle.vkg_expr.specs.Seen.{expr_seen};
ghost use Rattle.vkg_keys.specs.Ties.{all_valued, is_column as a_column, ties_value as ties_to};
ghost use Rattle.vkg_plan.specs.Kinds.{width as width_of};
ghost use Rattle.vkg_plan.specs.Plan.{Project};
ghost use Rattle.vkg_plan.specs.Seen.{plan_seen};
ghost use Rattle.vkg_rules.specs.declared.rewrite.Fell.TheVariants as weight;
ghost use Rattle.vkg_rules.specs.StepSeen.{step_seen};
ghost use Rattle.vkg_unique.specs.UnusedLeft.{is_over_first as over_first, keys_of as keys_of_table, over_left as over_left_of, ties_key as key_tied, unused_left, without_right as without_right_of};
ghost use Rattle.vkg_unique.specs.UnusedLeftLaw.{unused_left-keeps, unused_left-falls};

use crate::columns::named_columns;
use crate::kinds::width;
use std::alloc::Global;
use vkg_base::{Memory, at};
use vkg_expr::{Expr, copy_exprs};
use vkg_keys::is_column;
use vkg_plan::{Plan, copy_plan_box};
use vkg_rules::{Fell, Rewrite};
use vkg_schema::{Key, Schema};

/// A projection over a left join to a table that uses left columns alone goes over the left side, where the condition ties each column
/// of a key of the table to an expression over the left side.
#[derive(Drop)]
pub struct UnusedLeft;

impl Rewrite for UnusedLeft {
    ghost becomes = { λ r. unused_left };

    #[tactic(auto, using(vkg_rules::proofs::Seen::seen_nodes))]
    fn apply(
        &self,
        alloc: Global,
        schema: &Schema,
        plan: &Plan,
    ) -> Result<Option<(Plan, Fell)>, Memory> {
        match plan {
            Plan::Project(es, p) => over_left(alloc, schema, es.as_slice(), p),
            _ => Ok(None),
        }
    }

    ghost keeps = { λ r. unused_left-keeps };

    ghost falls = { λ r. unused_left-falls };
}

#[tactic(auto, using(vkg_rules::proofs::Seen::seen_nodes))]
fn over_left(
    alloc: Global,
    schema: &Schema,
    es: &[Expr],
    p: &Plan,
) -> Result<Option<(Plan, Fell)>, Memory>
    ensures { IfOk result (λ o. option_map step_seen o ≡ over_left_of schema.now (map expr_seen es.now) (plan_seen p.now)) }
{
    match p {
        Plan::Left(l, r, c) => without_right(alloc, schema, es, l, c, r),
        _ => Ok(None),
    }
}

#[tactic(auto, using(vkg_rules::proofs::Seen::seen_nodes))]
fn without_right(
    alloc: Global,
    schema: &Schema,
    es: &[Expr],
    l: &Plan,
    c: &Expr,
    r: &Plan,
) -> Result<Option<(Plan, Fell)>, Memory>
    ensures { IfOk result (λ o. option_map step_seen o ≡ without_right_of schema.now (map expr_seen es.now) (plan_seen l.now) (expr_seen c.now) (plan_seen r.now)) }
{
    match r {
        Plan::Scan(table) => {
            let keys = keys_of(schema, *table);
            let n = width(alloc, schema, l)?;
            if_unused(alloc, es, l, c, keys, n)
        }
        _ => Ok(None),
    }
}

/// The projection over the left side, if it uses left columns alone and the condition ties a key.
#[tactic(auto, using(vkg_rules::proofs::Seen::seen_nodes))]
fn if_unused(
    alloc: Global,
    es: &[Expr],
    l: &Plan,
    c: &Expr,
    keys: &[Key],
    n: usize,
) -> Result<Option<(Plan, Fell)>, Memory>
    ensures { IfOk result (λ o. option_map step_seen o ≡ then_some (key_tied n (expr_seen c.now) keys.now && list_all (over_first n) (map expr_seen es.now)) (Project (map expr_seen es.now) (plan_seen l.now), weight.Weight)) }
{
    if !ties_key(alloc, c, keys, n)? {
        return Ok(None);
    }
    if !are_over_first(alloc, es, n)? {
        return Ok(None);
    }
    let p = copy_plan_box(alloc, l)?;
    Ok(Some((Plan::Project(copy_exprs(alloc, es)?, p), Fell::Weight)))
}

/// The keys of a table, none where the schema does not have it.
fn keys_of(schema: &Schema, table: usize) -> &[Key]
    ensures { result.now ≡ keys_of_table schema.now table }
{
    match at(schema.tables(), table) {
        None => &[],
        Some(table) => table.keys.as_slice(),
    }
}

/// Whether the condition ties each column of one of the keys, counted from n on, to an expression over the first n columns.
#[tactic(auto, unfolding(crate::specs::UnusedLeft::ties_key))]
fn ties_key(alloc: Global, c: &Expr, keys: &[Key], n: usize) -> Result<bool, Memory>
    ensures { IfOk result (λ b. b ≡ key_tied n (expr_seen c.now) keys.now) }
{
    for key in keys {
        if ties_columns(alloc, c, key.columns.as_slice(), n)? {
            return Ok(true);
        }
    }
    Ok(false)
}

fn ties_columns(alloc: Global, c: &Expr, columns: &[usize], n: usize) -> Result<bool, Memory>
    ensures { IfOk result (λ b. b ≡ all_valued (over_first n) (expr_seen c.now) n columns.now) }
{
    for column in columns {
        if !ties_column(alloc, c, *column, n)? {
            return Ok(false);
        }
    }
    Ok(true)
}

#[tactic(auto, using(vkg_columns::proofs::Lists::conjunct_lists))]
fn ties_column(alloc: Global, c: &Expr, column: usize, n: usize) -> Result<bool, Memory>
    ensures { IfOk result (λ b. b ≡ list_any (ties_to (over_first n) (n + column)) (conjuncts_of (expr_seen c.now))) }
{
    match c {
        Expr::And(list) => any_ties(alloc, list.as_slice(), column, n),
        _ => ties_value(alloc, c, column, n),
    }
}

fn any_ties(alloc: Global, list: &[Expr], column: usize, n: usize) -> Result<bool, Memory>
    ensures { IfOk result (λ b. b ≡ list_any (ties_to (over_first n) (n + column)) (map expr_seen list.now)) }
{
    for c in list {
        if ties_value(alloc, c, column, n)? {
            return Ok(true);
        }
    }
    Ok(false)
}

/// Whether the conjunct says that the column is equal to an expression over the first n columns, either way round.
fn ties_value(alloc: Global, c: &Expr, column: usize, n: usize) -> Result<bool, Memory>
    ensures { IfOk result (λ b. b ≡ ties_to (over_first n) (n + column) (expr_seen c.now)) }
{
    match c {
        Expr::Same(a, b) => {
            if ties_to_value(alloc, a, b, column, n)? {
                return Ok(true);
            }
            ties_to_value(alloc, b, a, column, n)
        }
        _ => Ok(false),
    }
}

fn ties_to_value(alloc: Global, a: &Expr, b: &Expr, column: usize, n: usize) -> Result<bool, Memory>
    ensures { IfOk result (λ t. t ≡ (a_column (n + column) (expr_seen a.now) && over_first n (expr_seen b.now))) }
{
    if !is_column(a, n, column) {
        return Ok(false);
    }
    is_over_first(alloc, b, n)
}

fn are_over_first(alloc: Global, es: &[Expr], n: usize) -> Result<bool, Memory>
    ensures { IfOk result (λ b. b ≡ list_all (over_first n) (map expr_seen es.now)) }
{
    for e in es {
        if !is_over_first(alloc, e, n)? {
            return Ok(false);
        }
    }
    Ok(true)
}

/// Whether each column that the expression names is one of the first n.
#[tactic(auto, unfolding(crate::specs::UnusedLeft::is_over_first))]
fn is_over_first(alloc: Global, e: &Expr, n: usize) -> Result<bool, Memory>
    ensures { IfOk result (λ b. b ≡ over_first n (expr_seen e.now)) }
{
    let columns = named_columns(alloc, e)?;
    Ok(are_below(columns.as_slice(), n))
}

fn are_below(columns: &[usize], n: usize) -> bool
    ensures { result ≡ list_all (λ at. nat_lt at n) columns.now }
{
    for column in columns {
        if !is_below(*column, n) {
            return false;
        }
    }
    true
}

fn is_below(column: usize, n: usize) -> bool
    ensures { result ≡ nat_lt column n }
{
    column < n
}
