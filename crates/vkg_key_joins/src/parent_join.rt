ghost use Rattle.std.specs.Prelude.{◌≡◌, ◌+◌, ◌-◌, ◌≤◌, ◌&&◌, ◌∷◌, IfOk, length, map, take, drop, nat_eq, nat_le, option_map, if◌then◌else◌};
ghost use Rattle.std.specs.List.{find, list_all, list_any};
ghost use Rattle.std.specs.Option.{option_copied};
ghost use Rattle.vkg_columns.specs.Columns.{at_place};
ghost use Rattle.vkg_expr.specs.Seen.{expr_seen};
ghost use Rattle.vkg_expr.specs.Strict.{put as put_in};
ghost use Rattle.vkg_plan.specs.Kinds.{width};
ghost use Rattle.vkg_plan.specs.Plan.{Join, Scan, plans};
ghost use Rattle.vkg_plan.specs.Seen.{plan_seen};
ghost use Rattle.vkg_rules.specs.StepSeen.{step_seen};
ghost use Rattle.vkg_schema.specs.Kinds.{columns_of as columns_of_table};
ghost use Rattle.vkg_keys.specs.Keys.{is_of_one_kind};
ghost use Rattle.vkg_keys.specs.Members.{first_made, first_two, renamed as renamed_columns, widths as widths_of};
ghost use Rattle.vkg_keys.specs.ScansSeen.{place_in};
ghost use Rattle.vkg_keys.specs.Ties.{all_tied};
ghost use Rattle.vkg_key_joins.specs.ParentJoin.{all_tied_to as names_of_all, child_left as left_of_child, is_unused as unused_by, known_too as all_known_too, left_joined as left_of_join, names_given as given_alone, over_join as over_joined, parent_join, parent_joined as joined_with_parent, without_parent as left_without};
ghost use Rattle.vkg_key_joins.specs.ParentJoinLaw.{parent_join-keeps, parent_join-falls};
ghost use Rattle.vkg_key_joins.specs.Tables.{references_of as references_of_table};

use crate::parent_names::{all_tied_to, known_too, put_each};
use crate::parent_use::{all_name_given, are_all_tied, are_of_one_kind, names_given};
use crate::tables::{columns_of, references_of};
use std::alloc::Global;
use vkg_base::{Box, Items, Memory};
use vkg_columns::put;
use vkg_expr::Expr;
use vkg_keys::{ScanAt, before, behind, kinds, others, renamed, scan_columns, scans, widths};
use vkg_plan::Plan;
use vkg_rules::{Fell, Rewrite};
use vkg_schema::{Reference, Schema};

/// Below a projection the table that a foreign key refers to goes, where nothing else of it is used.
#[derive(Drop)]
pub struct ParentJoin;

impl Rewrite for ParentJoin {
    ghost becomes = { λ r. parent_join };

    #[tactic(auto, using(vkg_rules::proofs::Seen::seen_nodes))]
    fn apply(
        &self,
        alloc: Global,
        schema: &Schema,
        plan: &Plan,
    ) -> Result<Option<(Plan, Fell)>, Memory> {
        match plan {
            Plan::Project(es, p) => over_join(alloc, schema, es.as_slice(), p),
            _ => Ok(None),
        }
    }

    ghost keeps = { λ r. parent_join-keeps };

    ghost falls = { λ r. parent_join-falls };
}

#[tactic(auto, using(vkg_rules::proofs::Seen::seen_nodes, crate::proofs::Listed::each_plans))]
fn over_join(
    alloc: Global,
    schema: &Schema,
    es: &[Expr],
    p: &Plan,
) -> Result<Option<(Plan, Fell)>, Memory>
    ensures { IfOk result (λ o. option_map step_seen o ≡ over_joined schema.now (map expr_seen es.now) (plan_seen p.now)) }
{
    match p {
        Plan::Join(ps, c) => joined(alloc, schema, es, ps.as_slice(), c),
        _ => Ok(None),
    }
}

// ---- the first two scans

fn joined(
    alloc: Global,
    schema: &Schema,
    es: &[Expr],
    ps: &[Plan],
    c: &Expr,
) -> Result<Option<(Plan, Fell)>, Memory>
    ensures { IfOk result (λ o. option_map step_seen o ≡ first_two (joined_with_parent schema.now (map expr_seen es.now) (expr_seen c.now)) (map plan_seen ps.now)) }
{
    let found = scans(alloc, ps)?;
    over_scans(alloc, schema, es, ps, found.as_slice(), c)
}

/// What is made of the first of the scans, with another.
fn over_scans(
    alloc: Global,
    schema: &Schema,
    es: &[Expr],
    ps: &[Plan],
    all: &[ScanAt],
    c: &Expr,
) -> Result<Option<(Plan, Fell)>, Memory>
    ensures { IfOk result (λ o. option_map step_seen o ≡ first_made (λ x. first_made (joined_with_parent schema.now (map expr_seen es.now) (expr_seen c.now) x) (map (place_in ps.now) all.now)) (map (place_in ps.now) all.now)) }
{
    for x in all {
        if let Some(made) = with_another(alloc, schema, es, ps, *x, all, c)? {
            return Ok(Some(made));
        }
    }
    Ok(None)
}

/// What is made of a scan and the first other.
fn with_another(
    alloc: Global,
    schema: &Schema,
    es: &[Expr],
    ps: &[Plan],
    x: ScanAt,
    all: &[ScanAt],
    c: &Expr,
) -> Result<Option<(Plan, Fell)>, Memory>
    ensures { IfOk result (λ o. option_map step_seen o ≡ first_made (joined_with_parent schema.now (map expr_seen es.now) (expr_seen c.now) (place_in ps.now x)) (map (place_in ps.now) all.now)) }
{
    for y in all {
        if let Some(made) = parent_joined(alloc, schema, es, ps, x, *y, c)? {
            return Ok(Some(made));
        }
    }
    Ok(None)
}

/// The projection over the join without the second, if a foreign key of the first refers to it and nothing else of it is used.
#[tactic(auto, using(crate::proofs::Listed::before_length))]
fn parent_joined(
    alloc: Global,
    schema: &Schema,
    es: &[Expr],
    ps: &[Plan],
    x: ScanAt,
    y: ScanAt,
    c: &Expr,
) -> Result<Option<(Plan, Fell)>, Memory>
    ensures { IfOk result (λ o. option_map step_seen o ≡ joined_with_parent schema.now (map expr_seen es.now) (expr_seen c.now) (place_in ps.now x) (place_in ps.now y)) }
{
    if before(ps, x).len() == before(ps, y).len() {
        return Ok(None);
    }
    match unused(alloc, schema, es, ps, x, y, c)? {
        Some(reference) => Ok(Some(without_parent(alloc, schema, es, ps, x, y, c, reference)?)),
        None => Ok(None),
    }
}

// ---- whether the parent is used

/// The first foreign key of the first scan to the second of which nothing else is used. Where none refers to its table no columns are counted.
fn unused<'a>(
    alloc: Global,
    schema: &'a Schema,
    es: &[Expr],
    ps: &[Plan],
    x: ScanAt,
    y: ScanAt,
    c: &Expr,
) -> Result<Option<&'a Reference>, Memory>
    ensures { IfOk result (λ o. option_copied o ≡ find (unused_by schema.now (map expr_seen es.now) (expr_seen c.now) (place_in ps.now x) (place_in ps.now y)) (references_of_table schema.now x.table)) }
{
    let references = references_of(schema, x.table);
    if !any_refers(references, y.table) {
        return Ok(None);
    }
    let first = widths(alloc, schema, before(ps, x))?;
    let second = widths(alloc, schema, before(ps, y))?;
    Ok(first_unused(
        schema,
        es,
        c,
        (x.table, first),
        (y.table, second),
        references,
    ))
}

fn any_refers(references: &[Reference], table: usize) -> bool
    ensures { result ≡ list_any (λ r. nat_eq r.table table) references.now }
{
    references.iter().any(|reference| reference.table == table)
}

/// The first of the foreign keys of a table that is used alone: of both tables, and how many columns stand before theirs.
fn first_unused<'a>(
    schema: &Schema,
    es: &[Expr],
    c: &Expr,
    child: (usize, usize),
    parent: (usize, usize),
    references: &'a [Reference],
) -> Option<&'a Reference>
    ensures { option_copied result ≡ find (λ r. nat_eq r.table parent.0 && (all_tied (expr_seen c.now) child.1 parent.1 r.pairs && (list_all (is_of_one_kind (columns_of_table schema.now child.0) (columns_of_table schema.now parent.0)) r.pairs && list_all (given_alone parent.1 (width schema.now (Scan parent.0)) r.pairs) (expr_seen c.now ∷ map expr_seen es.now)))) references.now }
{
    references.iter().find(|reference| is_unused(schema, es, c, child, parent, *reference))
}

#[tactic(auto, using(crate::proofs::Found::columns_wide))]
fn is_unused(
    schema: &Schema,
    es: &[Expr],
    c: &Expr,
    child: (usize, usize),
    parent: (usize, usize),
    reference: &Reference,
) -> bool
    ensures { result ≡ (nat_eq reference.now.table parent.0 && (all_tied (expr_seen c.now) child.1 parent.1 reference.now.pairs && (list_all (is_of_one_kind (columns_of_table schema.now child.0) (columns_of_table schema.now parent.0)) reference.now.pairs && list_all (given_alone parent.1 (width schema.now (Scan parent.0)) reference.now.pairs) (expr_seen c.now ∷ map expr_seen es.now)))) }
{
    let pairs = reference.pairs.as_slice();
    let columns = columns_of(schema, parent.0);
    reference.table == parent.0
        && are_all_tied(c, child.1, parent.1, pairs)
        && are_of_one_kind(columns_of(schema, child.0), columns, pairs)
        && name_given(c, es, parent.1, columns.len(), pairs)
}

fn name_given(c: &Expr, es: &[Expr], first: usize, n: usize, pairs: &[(usize, usize)]) -> bool
    ensures { result ≡ list_all (given_alone first n pairs.now) (expr_seen c.now ∷ map expr_seen es.now) }
{
    names_given(c, first, n, pairs) && all_name_given(es, first, n, pairs)
}

// ---- without the parent

/// The projection over the join without the second, whose columns are named in the first, and the columns of the foreign key are not NULL.
#[tactic(auto, using(crate::proofs::Listed::both_seen))]
fn without_parent(
    alloc: Global,
    schema: &Schema,
    es: &[Expr],
    ps: &[Plan],
    x: ScanAt,
    y: ScanAt,
    c: &Expr,
    reference: &Reference,
) -> Result<(Plan, Fell), Memory>
    ensures { IfOk result (λ r. step_seen r ≡ left_without schema.now (map expr_seen es.now) (expr_seen c.now) (place_in ps.now x) (place_in ps.now y) reference.now) }
{
    let child = child_left(alloc, schema, ps, x, y)?;
    let names = named_in_child(alloc, schema, ps, child.as_slice(), y, reference)?;
    left_joined(
        alloc,
        names.as_slice(),
        es,
        others(alloc, ps, y)?,
        child.as_slice(),
        c,
        reference,
    )
}

/// The columns of the child when the parent is gone.
#[tactic(auto, using(crate::proofs::Found::columns_wide, crate::proofs::Found::first_columns))]
fn child_left(
    alloc: Global,
    schema: &Schema,
    ps: &[Plan],
    x: ScanAt,
    y: ScanAt,
) -> Result<Items<Expr>, Memory>
    ensures { IfOk result (λ es. map expr_seen es ≡ left_of_child schema.now (place_in ps.now x) (place_in ps.now y)) }
{
    let first = kinds(alloc, schema, before(ps, x))?;
    let gone = columns_of(schema, y.table).len();
    let n = first_left(ps, x, y, first.len(), gone);
    scan_columns(alloc, schema, &first.as_slice()[..n], x.table)
}

/// How many of n columns before the child's stay, where so many of the parent go.
#[tactic(auto, using(crate::proofs::Listed::before_length))]
fn first_left(ps: &[Plan], x: ScanAt, y: ScanAt, n: usize, gone: usize) -> usize
    ensures value { result ≡ (if nat_le (length (place_in ps.now x).before) (length (place_in ps.now y).before) then n else n - gone) }
    ensures most { result ≤ n }
{
    if before(ps, x).len() <= before(ps, y).len() {
        return n;
    }
    if gone <= n { n - gone } else { 0 }
}

/// The columns of all members, those of the parent named in the child's.
#[tactic(auto, using(crate::proofs::Found::columns_wide))]
fn named_in_child(
    alloc: Global,
    schema: &Schema,
    ps: &[Plan],
    child: &[Expr],
    y: ScanAt,
    reference: &Reference,
) -> Result<Items<Expr>, Memory>
    ensures { IfOk result (λ all. map expr_seen all ≡ renamed_columns (widths_of schema.now (map plan_seen (take y.at ps.now))) (names_of_all (map expr_seen child.now) reference.now.pairs 0 (width schema.now (Scan y.table))) (widths_of schema.now (map plan_seen (drop (y.at + 1) ps.now)))) }
{
    let n = columns_of(schema, y.table).len();
    let own = all_tied_to(alloc, child, reference.pairs.as_slice(), n)?;
    renamed(alloc, schema, before(ps, y), own, behind(ps, y))
}

/// The expressions over a join by a condition, with a list of expressions put in, and the child's columns in the pairs are not NULL.
#[tactic(auto, using(vkg_rules::proofs::Seen::seen_nodes))]
fn left_joined(
    alloc: Global,
    names: &[Expr],
    es: &[Expr],
    ps: Items<Plan>,
    child: &[Expr],
    c: &Expr,
    reference: &Reference,
) -> Result<(Plan, Fell), Memory>
    ensures { IfOk result (λ r. step_seen r ≡ left_of_join (map expr_seen names.now) (map expr_seen es.now) (map plan_seen ps) (map expr_seen child.now) (expr_seen c.now) reference.now.pairs) }
{
    let below = left_below(alloc, names, ps, child, c, reference.pairs.as_slice())?;
    Ok((
        Plan::Project(put_each(alloc, es, names)?, below),
        Fell::Weight,
    ))
}

#[tactic(auto, using(vkg_rules::proofs::Seen::seen_nodes))]
fn left_below(
    alloc: Global,
    names: &[Expr],
    ps: Items<Plan>,
    child: &[Expr],
    c: &Expr,
    pairs: &[(usize, usize)],
) -> Result<Box<Plan>, Memory>
    ensures { IfOk result (λ p. plan_seen p ≡ Join (plans (map plan_seen ps)) (all_known_too (map expr_seen child.now) (put_in (at_place (map expr_seen names.now)) (expr_seen c.now)) pairs.now)) }
{
    let over = Box::new(alloc, put(alloc, c, names)?)?;
    let c = known_too(alloc, child, over, pairs)?;
    Box::new(alloc, Plan::Join(ps, c.into_inner()))
}
