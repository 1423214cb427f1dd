// The plans of two algebras beside each other: join, left join and union (SPARQL 1.1, 18.5).
ghost use Rattle.std.specs.Prelude.{[], filter, IfOk, IsOkAnd, length, map, OnOk, ◌++◌, ◌+◌, ◌∷◌, ◌≡◌};
ghost use Rattle.vkg_algebra.specs.Seen.{algebra_seen, condition_seen_if_any};
ghost use Rattle.vkg_algebra.specs.Visible.{each_once, has, visible};
ghost use Rattle.vkg_expr.specs.Expr.{Col, IsNull, Same};
ghost use Rattle.vkg_expr.specs.Seen.{expr_seen};
ghost use Rattle.vkg_plan.specs.Seen.{plan_seen};
ghost use Rattle.vkg_unfolded.specs.Conditions.{condition_of};
ghost use Rattle.vkg_unfolded.specs.Unfolded.{agreement, column, columns_in, if_each, join_plan, left_column, left_plan, merged, merged_columns, or_null, right_column, union_member, union_plan, visible_column};

use crate::columns::{columns_in, has, merged, place, right_place, visible_column};
use crate::conditions::truth_expr;
use crate::exprs::{and_of, or_of};
use crate::pattern::same_columns;
use std::alloc::Global;
use vkg_algebra::{Algebra, Var, each_once, visible};
use vkg_base::{Box, Items, Memory};
use vkg_expr::Expr;
use vkg_plan::Plan;
use vkg_sparql::Condition;
use vkg_unfolded::Mode;

/// The pairs that agree.
pub(crate) fn join_plan(
    alloc: Global,
    mode: &Mode,
    a: &Algebra,
    b: &Algebra,
    p: Result<Box<Plan>, Memory>,
    q: Result<Box<Plan>, Memory>,
) -> Result<Box<Plan>, Memory>
    ensures { IfOk result (λ r. IsOkAnd p (λ x. IsOkAnd q (λ y. plan_seen r ≡ join_plan mode.now (visible (algebra_seen a.now)) (visible (algebra_seen b.now)) (plan_seen x) (plan_seen y)))) }
{
    let members = two(alloc, p?, q?)?;
    let left = visible(alloc, a)?;
    let right = visible(alloc, b)?;
    let conditions = agreement(alloc, mode, left.as_slice(), right.as_slice())?;
    let pairs = Box::new(alloc, Plan::Join(members, and_of(conditions)))?;
    let columns = merged_columns(alloc, mode, left.as_slice(), right.as_slice())?;
    Box::new(alloc, Plan::Project(columns, pairs))
}

pub(crate) fn two(alloc: Global, p: Box<Plan>, q: Box<Plan>) -> Result<Items<Plan>, Memory>
    ensures { IfOk result (λ ps. map plan_seen ps ≡ plan_seen p ∷ plan_seen q ∷ []) }
{
    let mut members = Items::new(alloc);
    members.push(p.into_inner())?;
    members.push(q.into_inner())?;
    Ok(members)
}

/// The plan of an OPTIONAL over the plans of its two sides (SPARQL 1.1, 18.5, LeftJoin): the pairs that agree and pass the
/// condition, and each row of the left without one. A condition that is an error is not passed.
pub fn left_plan(
    alloc: Global,
    mode: &Mode,
    a: &Algebra,
    b: &Algebra,
    condition: &Option<Box<Condition>>,
    p: Result<Box<Plan>, Memory>,
    q: Result<Box<Plan>, Memory>,
) -> Result<Box<Plan>, Memory>
    ensures { IfOk result (λ r. IsOkAnd p (λ x. IsOkAnd q (λ y. plan_seen r ≡ left_plan mode.now (visible (algebra_seen a.now)) (visible (algebra_seen b.now)) (condition_seen_if_any condition.now) (plan_seen x) (plan_seen y)))) }
{
    let p = p?;
    let q = q?;
    let left = visible(alloc, a)?;
    let right = visible(alloc, b)?;
    let mut conditions = agreement(alloc, mode, left.as_slice(), right.as_slice())?;
    push_condition(
        alloc,
        &mut conditions,
        mode,
        left.as_slice(),
        right.as_slice(),
        condition,
    )?;
    let pairs = Box::new(alloc, Plan::Left(p, q, and_of(conditions)))?;
    let columns = merged_columns(alloc, mode, left.as_slice(), right.as_slice())?;
    Box::new(alloc, Plan::Project(columns, pairs))
}

fn push_condition(
    alloc: Global,
    conditions: &mut Items<Expr>,
    mode: &Mode,
    left: &[Var],
    right: &[Var],
    condition: &Option<Box<Condition>>,
) -> Result<(), Memory>
    ensures { OnOk result (map expr_seen conditions.new ≡ map expr_seen conditions.old ++ condition_of (merged mode.now left.now right.now) (condition_seen_if_any condition.now)) }
{
    match condition {
        None => Ok(()),
        Some(condition) => { conditions.push(truth_expr(alloc, mode, left, right, condition)?) }
    }
}

/// The rows of both, over the variables of both.
pub(crate) fn union_plan(
    alloc: Global,
    mode: &Mode,
    a: &Algebra,
    b: &Algebra,
    p: Result<Box<Plan>, Memory>,
    q: Result<Box<Plan>, Memory>,
) -> Result<Box<Plan>, Memory>
    ensures { IfOk result (λ r. IsOkAnd p (λ x. IsOkAnd q (λ y. plan_seen r ≡ union_plan mode.now (visible (algebra_seen a.now)) (visible (algebra_seen b.now)) (plan_seen x) (plan_seen y)))) }
{
    let p = p?;
    let q = q?;
    let left = visible(alloc, a)?;
    let right = visible(alloc, b)?;
    let all = both(alloc, left.as_slice(), right.as_slice())?;
    let mut members = Items::new(alloc);
    members.push(union_member(alloc, mode, all.as_slice(), left.as_slice(), p)?)?;
    members.push(union_member(alloc, mode, all.as_slice(), right.as_slice(), q)?)?;
    Box::new(alloc, Plan::UnionAll(members))
}

fn union_member(
    alloc: Global,
    mode: &Mode,
    all: &[Var],
    variables: &[Var],
    p: Box<Plan>,
) -> Result<Plan, Memory>
    ensures { IfOk result (λ r. plan_seen r ≡ union_member mode.now all.now variables.now (plan_seen p)) }
{
    let mut columns = visible_columns(alloc, variables, all)?;
    push_graph(&mut columns, mode, variables)?;
    Ok(Plan::Project(columns, p))
}

/// The columns of some variables.
pub(crate) fn visible_columns(
    alloc: Global,
    variables: &[Var],
    wanted: &[Var],
) -> Result<Items<Expr>, Memory>
    ensures { IfOk result (λ es. map expr_seen es ≡ map (visible_column variables.now) wanted.now) }
{
    let mut columns = Items::new(alloc);
    for variable in wanted {
        columns.push(visible_column(variables, *variable))?;
    }
    Ok(columns)
}

/// In mode each the graph's column, which stands behind the variables.
pub(crate) fn push_graph(
    columns: &mut Items<Expr>,
    mode: &Mode,
    variables: &[Var],
) -> Result<(), Memory>
    ensures { OnOk result (map expr_seen columns.new ≡ map expr_seen columns.old ++ if_each mode.now (Col (length variables.now))) }
{
    match mode {
        Mode::Default => Ok(()),
        Mode::InGraph(_) => Ok(()),
        Mode::Each => columns.push(Expr::Col(variables.len())),
    }
}

/// The variables of both, each once.
fn both(alloc: Global, left: &[Var], right: &[Var]) -> Result<Items<Var>, Memory>
    ensures { IfOk result (λ vs. vs ≡ each_once (left.now ++ right.now)) }
{
    let mut all = Items::from_slice(alloc, left)?;
    all.append(Items::from_slice(alloc, right)?)?;
    each_once(alloc, all.as_slice())
}

fn merged_columns(
    alloc: Global,
    mode: &Mode,
    left: &[Var],
    right: &[Var],
) -> Result<Items<Expr>, Memory>
    ensures { IfOk result (λ es. map expr_seen es ≡ merged_columns mode.now left.now right.now) }
{
    let all = both(alloc, left, right)?;
    let mut columns = each_merged(alloc, mode, left, right, all.as_slice())?;
    push_graph(&mut columns, mode, left)?;
    Ok(columns)
}

fn each_merged(
    alloc: Global,
    mode: &Mode,
    left: &[Var],
    right: &[Var],
    all: &[Var],
) -> Result<Items<Expr>, Memory>
    ensures { IfOk result (λ es. map expr_seen es ≡ map (merged mode.now left.now right.now) all.now) }
{
    let mut columns = Items::new(alloc);
    for variable in all {
        columns.push(merged(alloc, mode, left, right, *variable)?)?;
    }
    Ok(columns)
}

/// Each variable of both is the same or unbound, and in mode each the graph is the same.
fn agreement(alloc: Global, mode: &Mode, left: &[Var], right: &[Var]) -> Result<Items<Expr>, Memory>
    ensures { IfOk result (λ es. map expr_seen es ≡ agreement mode.now left.now right.now) }
{
    let mut conditions = Items::new(alloc);
    for variable in left {
        push_shared(alloc, &mut conditions, mode, left, right, *variable)?;
    }
    push_same_graph(alloc, &mut conditions, mode, left, right)?;
    Ok(conditions)
}

pub(crate) fn push_shared(
    alloc: Global,
    conditions: &mut Items<Expr>,
    mode: &Mode,
    left: &[Var],
    right: &[Var],
    variable: Var,
) -> Result<(), Memory>
    ensures { OnOk result (map expr_seen conditions.new ≡ map expr_seen conditions.old ++ map (λ v. or_null (left_column left.now v) (right_column mode.now left.now right.now v)) (filter (has right.now) (variable ∷ []))) }
{
    if !has(right, variable) {
        return Ok(());
    }
    let behind = right_place(mode, left, right, variable);
    conditions.push(same_or_unbound(alloc, place(left, variable), behind)?)
}

pub(crate) fn push_same_graph(
    alloc: Global,
    conditions: &mut Items<Expr>,
    mode: &Mode,
    left: &[Var],
    right: &[Var],
) -> Result<(), Memory>
    ensures { OnOk result (map expr_seen conditions.new ≡ map expr_seen conditions.old ++ if_each mode.now (Same (Col (length left.now)) (Col (columns_in mode.now left.now + length right.now)))) }
{
    match mode {
        Mode::Default => Ok(()),
        Mode::InGraph(_) => Ok(()),
        Mode::Each => {
            let behind = columns_in(mode, left) + right.len();
            conditions.push(same_columns(alloc, left.len(), behind)?)
        }
    }
}

/// Whether a variable has compatible values in two columns (SPARQL 1.1, 18.3): the columns are the same, or one is NULL, where
/// the variable is unbound.
pub fn same_or_unbound(alloc: Global, a: usize, b: usize) -> Result<Expr, Memory>
    ensures { IfOk result (λ e. expr_seen e ≡ or_null (Col a) (Col b)) }
{
    let mut choices = Items::new(alloc);
    choices.push(unbound(alloc, a)?)?;
    choices.push(unbound(alloc, b)?)?;
    choices.push(same_columns(alloc, a, b)?)?;
    Ok(or_of(choices))
}

pub(crate) fn unbound(alloc: Global, at: usize) -> Result<Expr, Memory>
    ensures { IfOk result (λ e. expr_seen e ≡ IsNull (Col at)) }
{
    let column = Box::new(alloc, Expr::Col(at))?;
    Ok(Expr::IsNull(column))
}
