ghost use Rattle.std.specs.Prelude.{◌≡◌, ◌+◌, ◌&&◌, ◌∷◌, [], IfOk, length, map, option_map};
ghost use Rattle.std.specs.Bool.{then_some};
ghost use Rattle.std.specs.List.{list_all, list_any};
ghost use Rattle.vkg_expr.specs.Logic.{conjuncts as conjuncts_of};
ghost use Rattle.vkg_expr.specs.Seen.{expr_seen};
ghost use Rattle.vkg_keys.specs.Keys.{is_full_column as is_never_null};
ghost use Rattle.vkg_keys.specs.Ties.{is_column as a_column, ties as ties_columns};
ghost use Rattle.vkg_plan.specs.Kinds.{width as width_of};
ghost use Rattle.vkg_plan.specs.Plan.{Join, Scan, plans};
ghost use Rattle.vkg_plan.specs.Seen.{plan_seen};
ghost use Rattle.vkg_rules.specs.declared.rewrite.Fell.TheVariants as fell;
ghost use Rattle.vkg_rules.specs.StepSeen.{step_seen};
ghost use Rattle.vkg_key_lefts.specs.ReferenceLeft.{is_reference as is_a_reference, reference_left, refers as refers_to, ties_pair as ties_a_pair, with_right as with_right_of};
ghost use Rattle.vkg_key_lefts.specs.ReferenceLeftLaw.{reference_left-keeps, reference_left-falls};
ghost use Rattle.vkg_key_lefts.specs.Tables.{are_full as have_no_null, references_of as references_of_table};

use crate::standing::{StandingScan, kinds, standing};
use crate::tables::{is_full_column, references_of};
use std::alloc::Global;
use vkg_base::{Items, Memory, at};
use vkg_expr::Expr;
use vkg_keys::is_column;
use vkg_plan::Plan;
use vkg_rules::{Fell, Rewrite};
use vkg_schema::{Reference, Schema, Table};

/// A left join to a table by exactly a foreign key of its left side that has no NULL is a join.
#[derive(Drop)]
pub struct ReferenceLeft;

impl Rewrite for ReferenceLeft {
    ghost becomes = { λ r. reference_left };

    #[tactic(auto, using(vkg_rules::proofs::Seen::seen_nodes))]
    fn apply(
        &self,
        alloc: Global,
        schema: &Schema,
        plan: &Plan,
    ) -> Result<Option<(Plan, Fell)>, Memory> {
        match plan {
            Plan::Left(p, q, c) => with_right(alloc, schema, p, c, q),
            _ => Ok(None),
        }
    }

    ghost keeps = { λ r. reference_left-keeps };

    ghost falls = { λ r. reference_left-falls };
}

#[tactic(auto, using(vkg_rules::proofs::Seen::seen_nodes))]
fn with_right(
    alloc: Global,
    schema: &Schema,
    p: &Plan,
    c: &Expr,
    q: &Plan,
) -> Result<Option<(Plan, Fell)>, Memory>
    ensures { IfOk result (λ o. option_map step_seen o ≡ with_right_of schema.now (plan_seen p.now) (expr_seen c.now) (plan_seen q.now)) }
{
    match q {
        Plan::Scan(table) => if_refers(alloc, schema, p, c, *table),
        _ => Ok(None),
    }
}

/// The join, if a Scan of the left side refers to the table.
fn if_refers(
    alloc: Global,
    schema: &Schema,
    p: &Plan,
    c: &Expr,
    table: usize,
) -> Result<Option<(Plan, Fell)>, Memory>
    ensures { IfOk result (λ o. option_map step_seen o ≡ then_some (refers_to schema.now (plan_seen p.now) table (expr_seen c.now)) (Join (plans (plan_seen p.now ∷ Scan table ∷ [])) (expr_seen c.now), fell.Weight)) }
{
    if !refers(alloc, schema, p, table, c)? {
        return Ok(None);
    }
    Ok(Some(joined(alloc, p, table, c)?))
}

#[tactic(auto, using(vkg_rules::proofs::Seen::seen_nodes))]
fn joined(alloc: Global, p: &Plan, table: usize, c: &Expr) -> Result<(Plan, Fell), Memory>
    ensures { IfOk result (λ x. step_seen x ≡ (Join (plans (plan_seen p.now ∷ Scan table ∷ [])) (expr_seen c.now), fell.Weight)) }
{
    let members = both(alloc, p, table)?;
    Ok((Plan::Join(members, c.copy(alloc)?), Fell::Weight))
}

#[tactic(auto, using(vkg_rules::proofs::Seen::seen_nodes))]
fn both(alloc: Global, p: &Plan, table: usize) -> Result<Items<Plan>, Memory>
    ensures { IfOk result (λ ps. map plan_seen ps ≡ plan_seen p.now ∷ Scan table ∷ []) }
{
    let mut members = Items::new(alloc);
    members.push(p.copy(alloc)?)?;
    members.push(Plan::Scan(table))?;
    Ok(members)
}

/// Whether a Scan that stands in the plan has a foreign key to the table that is all that the condition asks for.
fn refers(alloc: Global, schema: &Schema, p: &Plan, table: usize, c: &Expr) -> Result<bool, Memory>
    ensures { IfOk result (λ b. b ≡ refers_to schema.now (plan_seen p.now) table (expr_seen c.now)) }
{
    let all = standing(alloc, schema, &[], p)?;
    any_refers(alloc, schema, p, table, c, all.as_slice())
}

fn any_refers(
    alloc: Global,
    schema: &Schema,
    p: &Plan,
    table: usize,
    c: &Expr,
    all: &[StandingScan],
) -> Result<bool, Memory>
    ensures { IfOk result (λ b. b ≡ list_any (λ x. list_any (is_a_reference schema.now table (width_of schema.now (plan_seen p.now)) (expr_seen c.now) x) (references_of_table schema.now x.table)) all.now) }
{
    for x in all {
        if has_reference(alloc, schema, p, table, c, x)? {
            return Ok(true);
        }
    }
    Ok(false)
}

fn has_reference(
    alloc: Global,
    schema: &Schema,
    p: &Plan,
    table: usize,
    c: &Expr,
    x: &StandingScan,
) -> Result<bool, Memory>
    ensures { IfOk result (λ b. b ≡ list_any (is_a_reference schema.now table (width_of schema.now (plan_seen p.now)) (expr_seen c.now) x.now) (references_of_table schema.now x.now.table)) }
{
    for reference in references_of(schema, x.table) {
        if is_reference(alloc, schema, p, table, c, x, reference)? {
            return Ok(true);
        }
    }
    Ok(false)
}

/// Whether the foreign key is to the table, no column of it is NULL, and it is all that the condition asks for. How many columns the left
/// side has is dear to tell, so it is asked last.
fn is_reference(
    alloc: Global,
    schema: &Schema,
    p: &Plan,
    table: usize,
    c: &Expr,
    x: &StandingScan,
    reference: &Reference,
) -> Result<bool, Memory>
    ensures { IfOk result (λ b. b ≡ is_a_reference schema.now table (width_of schema.now (plan_seen p.now)) (expr_seen c.now) x.now reference.now) }
{
    let pairs = reference.pairs.as_slice();
    if reference.table != table || !are_full(schema, x.table, pairs) {
        return Ok(false);
    }
    let n = kinds(alloc, schema, p)?.len();
    Ok(all_tie(c, x.before.len(), n, pairs))
}

/// Whether the table has the first column of each pair, and none of them is NULL.
fn are_full(schema: &Schema, table: usize, pairs: &[(usize, usize)]) -> bool
    ensures { result ≡ have_no_null schema.now table (map (λ p. p.0) pairs.now) }
{
    match at(schema.tables(), table) {
        Some(table) => are_never_null(table, pairs),
        None => false,
    }
}

fn are_never_null(table: &Table, pairs: &[(usize, usize)]) -> bool
    ensures { result ≡ list_all (is_never_null table.now) (map (λ p. p.0) pairs.now) }
{
    for pair in pairs {
        if !is_full_column(table, pair.0) {
            return false;
        }
    }
    true
}

/// Whether each conjunct says that the columns of one of the pairs are equal.
#[tactic(auto, using(vkg_columns::proofs::Lists::conjunct_lists))]
fn all_tie(c: &Expr, first: usize, second: usize, pairs: &[(usize, usize)]) -> bool
    ensures { result ≡ list_all (ties_a_pair first second pairs.now) (conjuncts_of (expr_seen c.now)) }
{
    match c {
        Expr::And(list) => each_ties(list.as_slice(), first, second, pairs),
        _ => ties_pair(c, first, second, pairs),
    }
}

fn each_ties(list: &[Expr], first: usize, second: usize, pairs: &[(usize, usize)]) -> bool
    ensures { result ≡ list_all (ties_a_pair first second pairs.now) (map expr_seen list.now) }
{
    for c in list {
        if !ties_pair(c, first, second, pairs) {
            return false;
        }
    }
    true
}

pub fn ties_pair(c: &Expr, first: usize, second: usize, pairs: &[(usize, usize)]) -> bool
    ensures { result ≡ ties_a_pair first second pairs.now (expr_seen c.now) }
{
    for pair in pairs {
        if ties(c, first, second, *pair) {
            return true;
        }
    }
    false
}

fn ties(c: &Expr, first: usize, second: usize, pair: (usize, usize)) -> bool
    ensures { result ≡ ties_columns (first + pair.0) (second + pair.1) (expr_seen c.now) }
{
    match c {
        Expr::Same(a, b) => {
            are_columns(a, b, first, second, pair) || are_columns(b, a, first, second, pair)
        }
        _ => false,
    }
}

/// Whether these are the two columns of the pair.
fn are_columns(a: &Expr, b: &Expr, first: usize, second: usize, pair: (usize, usize)) -> bool
    ensures { result ≡ (a_column (first + pair.0) (expr_seen a.now) && a_column (second + pair.1) (expr_seen b.now)) }
{
    is_column(a, first, pair.0) && is_column(b, second, pair.1)
}
