ghost use Rattle.std.specs.Prelude.{◌≡◌, ◌+◌, ◌++◌, IfOk, drop, take, length, map, nat_le, nat_lt, option_map, true};
ghost use Rattle.std.specs.Bool.{then_some};
ghost use Rattle.std.specs.List.{list_all, list_any};
ghost use Rattle.vkg_columns.specs.Columns.{columns_from};
ghost use Rattle.vkg_expr.specs.Logic.{truth_const};
ghost use Rattle.vkg_expr.specs.Seen.{expr_seen};
ghost use Rattle.vkg_keys.specs.Members.{first_made, others as other_members, renamed as renamed_columns, widths as widths_of};
ghost use Rattle.vkg_keys.specs.ScansSeen.{place_in};
ghost use Rattle.vkg_plan.specs.Kinds.{width as width_of};
ghost use Rattle.vkg_plan.specs.Plan.{Join, Left, Scan, plans};
ghost use Rattle.vkg_plan.specs.Seen.{plan_seen};
ghost use Rattle.vkg_rules.specs.StepSeen.{step_seen};
ghost use Rattle.vkg_key_lefts.specs.SelfLeftMember.{both_conditions as conditions_of_both, is_between as between, is_kept as kept_beside, is_null_behind as null_behind, over_left as over_left_of, over_others as over_all_others, self_left_member, with_right as with_right_of, without_again as left_without};
ghost use Rattle.vkg_key_lefts.specs.SelfLeftMemberLaw.{self_left_member-keeps, self_left_member-falls};

use crate::columns::named_columns;
use crate::names::{put_each, renamed};
use crate::self_left::ties_key;
use crate::standing::{StandingScan, kinds, standing};
use std::alloc::Global;
use vkg_base::{Box, Items, Memory};
use vkg_cells::{Cell, SqlType};
use vkg_columns::{and_then, put};
use vkg_conditions::is_strict;
use vkg_expr::Expr;
use vkg_key_joins::columns_of;
use vkg_keys::{ScanAt, before, behind, kinds as kinds_of_all, others, scan_columns, scans};
use vkg_plan::{Plan, copy_plan_box};
use vkg_rules::{Fell, Rewrite};
use vkg_schema::Schema;

/// Of a left join to a join the member goes that stands in the left side already, by a key, where the others stay.
#[derive(Drop)]
pub struct SelfLeftMember;

impl Rewrite for SelfLeftMember {
    ghost becomes = { λ r. self_left_member };

    #[tactic(auto, using(vkg_rules::proofs::Seen::seen_nodes))]
    fn apply(
        &self,
        alloc: Global,
        schema: &Schema,
        plan: &Plan,
    ) -> Result<Option<(Plan, Fell)>, Memory> {
        match plan {
            Plan::Project(es, p) => over_left(alloc, schema, es.as_slice(), p),
            _ => Ok(None),
        }
    }

    ghost keeps = { λ r. self_left_member-keeps };

    ghost falls = { λ r. self_left_member-falls };
}

#[tactic(auto, using(vkg_rules::proofs::Seen::seen_nodes))]
fn over_left(
    alloc: Global,
    schema: &Schema,
    es: &[Expr],
    p: &Plan,
) -> Result<Option<(Plan, Fell)>, Memory>
    ensures { IfOk result (λ o. option_map step_seen o ≡ over_left_of schema.now (map expr_seen es.now) (plan_seen p.now)) }
{
    match p {
        Plan::Left(l, r, c) => with_right(alloc, schema, es, l, c, r),
        _ => Ok(None),
    }
}

#[tactic(auto, using(vkg_rules::proofs::Seen::seen_nodes, vkg_key_joins::proofs::Listed::each_plans))]
fn with_right(
    alloc: Global,
    schema: &Schema,
    es: &[Expr],
    l: &Plan,
    c: &Expr,
    r: &Plan,
) -> Result<Option<(Plan, Fell)>, Memory>
    ensures { IfOk result (λ o. option_map step_seen o ≡ with_right_of schema.now (map expr_seen es.now) (plan_seen l.now) (expr_seen c.now) (plan_seen r.now)) }
{
    match r {
        Plan::Join(ps, d) => {
            let found = scans(alloc, ps.as_slice())?;
            let all = standing(alloc, schema, &[], l)?;
            over_scans(
                alloc,
                schema,
                es,
                l,
                ps.as_slice(),
                d,
                c,
                found.as_slice(),
                all.as_slice(),
            )
        }
        _ => Ok(None),
    }
}

// ---- the first two scans

/// What is made of the first of the members' Scans, with one on the left.
fn over_scans(
    alloc: Global,
    schema: &Schema,
    es: &[Expr],
    l: &Plan,
    ps: &[Plan],
    d: &Expr,
    c: &Expr,
    found: &[ScanAt],
    all: &[StandingScan],
) -> Result<Option<(Plan, Fell)>, Memory>
    ensures { IfOk result (λ o. option_map step_seen o ≡ first_made (λ y. first_made (left_without schema.now (map expr_seen es.now) (plan_seen l.now) (expr_seen d.now) (expr_seen c.now) y) all.now) (map (place_in ps.now) found.now)) }
{
    for y in found {
        if let Some(made) = over_standing(alloc, schema, es, l, ps, d, c, *y, all)? {
            return Ok(Some(made));
        }
    }
    Ok(None)
}

/// What is made of a member with the first Scan on the left.
fn over_standing(
    alloc: Global,
    schema: &Schema,
    es: &[Expr],
    l: &Plan,
    ps: &[Plan],
    d: &Expr,
    c: &Expr,
    y: ScanAt,
    all: &[StandingScan],
) -> Result<Option<(Plan, Fell)>, Memory>
    ensures { IfOk result (λ o. option_map step_seen o ≡ first_made (left_without schema.now (map expr_seen es.now) (plan_seen l.now) (expr_seen d.now) (expr_seen c.now) (place_in ps.now y)) all.now) }
{
    for x in all {
        if let Some(made) = without_again(alloc, schema, es, l, ps, d, c, y, x)? {
            return Ok(Some(made));
        }
    }
    Ok(None)
}

/// The left join without the member, if it is of the table of the Scan, others stay, and the condition ties a key.
fn without_again(
    alloc: Global,
    schema: &Schema,
    es: &[Expr],
    l: &Plan,
    ps: &[Plan],
    d: &Expr,
    c: &Expr,
    y: ScanAt,
    x: &StandingScan,
) -> Result<Option<(Plan, Fell)>, Memory>
    ensures { IfOk result (λ o. option_map step_seen o ≡ left_without schema.now (map expr_seen es.now) (plan_seen l.now) (expr_seen d.now) (expr_seen c.now) (place_in ps.now y) x.now) }
{
    if x.table != y.table {
        return Ok(None);
    }
    if !has_others(ps, y) {
        return Ok(None);
    }
    let n = kinds(alloc, schema, l)?.len();
    let first = columns_before(alloc, schema, l, before(ps, y))?;
    if !ties_key(schema, first.len(), c, x) {
        return Ok(None);
    }
    let names = named_left(alloc, schema, first.as_slice(), x, y.table, behind(ps, y))?;
    if_kept(
        alloc,
        schema,
        names.as_slice(),
        es,
        l,
        ps,
        d,
        c,
        y,
        n,
        first.len(),
    )
}

/// The left join without the member, if none of its columns, which stand behind m others, is used as it was.
fn if_kept(
    alloc: Global,
    schema: &Schema,
    names: &[Expr],
    es: &[Expr],
    l: &Plan,
    ps: &[Plan],
    d: &Expr,
    c: &Expr,
    y: ScanAt,
    n: usize,
    m: usize,
) -> Result<Option<(Plan, Fell)>, Memory>
    ensures { IfOk result (λ o. option_map step_seen o ≡ then_some (list_all (kept_beside (map expr_seen names.now) n m (width_of schema.now (Scan y.table))) (map expr_seen es.now)) (over_all_others (map expr_seen names.now) (map expr_seen es.now) (plan_seen l.now) n (map plan_seen (take y.at ps.now) ++ map plan_seen (drop (y.at + 1) ps.now)) (expr_seen d.now) (expr_seen c.now))) }
{
    if !is_unused(alloc, schema, names, es, y.table, n, m)? {
        return Ok(None);
    }
    let rest = others(alloc, ps, y)?;
    Ok(Some(over_others(alloc, names, es, l, n, rest, d, c)?))
}

#[tactic(auto, using(vkg_key_joins::proofs::Found::columns_wide))]
fn is_unused(
    alloc: Global,
    schema: &Schema,
    names: &[Expr],
    es: &[Expr],
    table: usize,
    n: usize,
    m: usize,
) -> Result<bool, Memory>
    ensures { IfOk result (λ b. b ≡ list_all (kept_beside (map expr_seen names.now) n m (width_of schema.now (Scan table))) (map expr_seen es.now)) }
{
    all_kept(alloc, names, n, m, columns_of(schema, table).len(), es)
}

/// Whether there are other plans than the one at the place.
#[tactic(auto, using(crate::proofs::Others::some_others))]
fn has_others(ps: &[Plan], y: ScanAt) -> bool
    ensures { result ≡ nat_lt 0 (length (other_members (place_in ps.now y))) }
{
    0 < before(ps, y).len() || 0 < behind(ps, y).len()
}

/// One kind for each column of the left side, and of the members before one.
fn columns_before(
    alloc: Global,
    schema: &Schema,
    l: &Plan,
    ps: &[Plan],
) -> Result<Items<SqlType>, Memory>
    ensures { IfOk result (λ ks. length ks ≡ width_of schema.now (plan_seen l.now) + widths_of schema.now (map plan_seen ps.now)) }
{
    let mut all = kinds(alloc, schema, l)?;
    all.append(kinds_of_all(alloc, schema, ps)?)?;
    Ok(all)
}

/// The columns of both sides, those of the member as they stand on the left.
fn named_left(
    alloc: Global,
    schema: &Schema,
    first: &[SqlType],
    x: &StandingScan,
    table: usize,
    after: &[Plan],
) -> Result<Items<Expr>, Memory>
    ensures { IfOk result (λ es. map expr_seen es ≡ renamed_columns (length first.now) (columns_from (length x.now.before) (width_of schema.now (Scan table))) (widths_of schema.now (map plan_seen after.now))) }
{
    let own = scan_columns(alloc, schema, x.before.as_slice(), table)?;
    let last = kinds_of_all(alloc, schema, after)?;
    renamed(alloc, first, own, last.as_slice())
}

// ---- what is used of the member

/// Whether each expression names none of the columns behind m others, or is NULL, with these named, where those behind n others are.
fn all_kept(
    alloc: Global,
    names: &[Expr],
    n: usize,
    m: usize,
    own: usize,
    es: &[Expr],
) -> Result<bool, Memory>
    ensures { IfOk result (λ b. b ≡ list_all (kept_beside (map expr_seen names.now) n m own) (map expr_seen es.now)) }
{
    for e in es {
        if !is_kept(alloc, names, n, m, own, e)? {
            return Ok(false);
        }
    }
    Ok(true)
}

fn is_kept(
    alloc: Global,
    names: &[Expr],
    n: usize,
    m: usize,
    own: usize,
    e: &Expr,
) -> Result<bool, Memory>
    ensures { IfOk result (λ b. b ≡ kept_beside (map expr_seen names.now) n m own (expr_seen e.now)) }
{
    let columns = named_columns(alloc, e)?;
    if !any_between(columns.as_slice(), m, own) {
        return Ok(true);
    }
    let left = put(alloc, e, names)?;
    is_null_behind(alloc, &left, n)
}

fn any_between(columns: &[usize], m: usize, own: usize) -> bool
    ensures { result ≡ list_any (between m own) columns.now }
{
    for column in columns {
        if is_between(*column, m, own) {
            return true;
        }
    }
    false
}

fn is_between(column: usize, m: usize, own: usize) -> bool
    ensures { result ≡ between m own column }
{
    m <= column && column - m < own
}

/// Whether the expression is NULL where the columns behind the first n are.
fn is_null_behind(alloc: Global, e: &Expr, n: usize) -> Result<bool, Memory>
    ensures { IfOk result (λ b. b ≡ null_behind n (expr_seen e.now)) }
{
    if !is_strict(e) {
        return Ok(false);
    }
    let columns = named_columns(alloc, e)?;
    Ok(any_behind(columns.as_slice(), n))
}

fn any_behind(columns: &[usize], n: usize) -> bool
    ensures { result ≡ list_any (nat_le n) columns.now }
{
    for column in columns {
        if is_behind(*column, n) {
            return true;
        }
    }
    false
}

fn is_behind(column: usize, n: usize) -> bool
    ensures { result ≡ nat_le n column }
{
    n <= column
}

// ---- without the member

/// The expressions over the left join to the other members, all of whose conditions have become its own.
#[tactic(auto, using(vkg_rules::proofs::Seen::seen_nodes))]
fn over_others(
    alloc: Global,
    names: &[Expr],
    es: &[Expr],
    l: &Plan,
    n: usize,
    rest: Items<Plan>,
    d: &Expr,
    c: &Expr,
) -> Result<(Plan, Fell), Memory>
    ensures { IfOk result (λ x. step_seen x ≡ over_all_others (map expr_seen names.now) (map expr_seen es.now) (plan_seen l.now) n (map plan_seen rest) (expr_seen d.now) (expr_seen c.now)) }
{
    let below = rejoined(alloc, names, l, n, rest, d, c)?;
    Ok((
        Plan::Project(put_each(alloc, es, names)?, below),
        Fell::Weight,
    ))
}

#[tactic(auto, using(vkg_rules::proofs::Seen::seen_nodes))]
fn rejoined(
    alloc: Global,
    names: &[Expr],
    l: &Plan,
    n: usize,
    rest: Items<Plan>,
    d: &Expr,
    c: &Expr,
) -> Result<Box<Plan>, Memory>
    ensures { IfOk result (λ p. plan_seen p ≡ Left (plan_seen l.now) (Join (plans (map plan_seen rest)) (truth_const true)) (conditions_of_both (map expr_seen names.now) n (expr_seen d.now) (expr_seen c.now))) }
{
    let right = joined(alloc, rest)?;
    let left = copy_plan_box(alloc, l)?;
    Box::new(
        alloc,
        Plan::Left(left, right, both_conditions(alloc, names, n, d, c)?),
    )
}

#[tactic(auto, using(vkg_rules::proofs::Seen::seen_nodes))]
fn joined(alloc: Global, ps: Items<Plan>) -> Result<Box<Plan>, Memory>
    ensures { IfOk result (λ p. plan_seen p ≡ Join (plans (map plan_seen ps)) (truth_const true)) }
{
    Box::new(alloc, Plan::Join(ps, always()))
}

#[tactic(auto, using(crate::proofs::Others::seen_true))]
fn always() -> Expr
    ensures { expr_seen result ≡ truth_const true }
{
    Expr::Const(Cell::Bool(true), SqlType::Bool)
}

/// The condition of the right side and that of the left join, over these for the columns of both sides, of which n are left.
#[tactic(auto, using(crate::proofs::Others::named_behind))]
fn both_conditions(
    alloc: Global,
    names: &[Expr],
    n: usize,
    d: &Expr,
    c: &Expr,
) -> Result<Expr, Memory>
    ensures { IfOk result (λ e. expr_seen e ≡ conditions_of_both (map expr_seen names.now) n (expr_seen d.now) (expr_seen c.now)) }
{
    let inner = Box::new(alloc, put(alloc, d, last_names(names, n))?)?;
    let outer = Box::new(alloc, put(alloc, c, names)?)?;
    and_then(alloc, &inner, &outer)
}

/// The names behind the first n.
#[tactic(auto, using(std::proofs::lemmas::List::drop_all))]
fn last_names(names: &[Expr], n: usize) -> &[Expr]
    ensures { result.now ≡ drop n names.now }
{
    if names.len() <= n {
        return &[];
    }
    &names[n..]
}
