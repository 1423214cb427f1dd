// The plan of MINUS (SPARQL 1.1, 18.5, Minus).
ghost use Rattle.std.specs.Prelude.{[], filter, IfOk, IsOkAnd, map, OnOk, ◌++◌, ◌∷◌, ◌≡◌};
ghost use Rattle.std.specs.List.{list_any};
ghost use Rattle.vkg_algebra.specs.Seen.{algebra_seen};
ghost use Rattle.vkg_algebra.specs.Visible.{has, visible};
ghost use Rattle.vkg_expr.specs.Seen.{expr_seen};
ghost use Rattle.vkg_plan.specs.Seen.{plan_seen};
ghost use Rattle.vkg_unfolded.specs.Unfolded.{both_there, left_column, minus_plan, or_null, overlap, right_column};

use crate::columns::{has, place, right_place};
use crate::exprs::{and_of, known, or_of};
use crate::two::{push_same_graph, push_shared};
use std::alloc::Global;
use vkg_algebra::{Algebra, Var, visible};
use vkg_base::{Box, Items, Memory};
use vkg_expr::Expr;
use vkg_plan::Plan;
use vkg_unfolded::Mode;

/// The rows of the left for which none of the right agrees and has a variable in common. Where no variable may be in common they
/// are all.
pub(crate) fn minus_plan(
    alloc: Global,
    mode: &Mode,
    a: &Algebra,
    b: &Algebra,
    p: Result<Box<Plan>, Memory>,
    q: Result<Box<Plan>, Memory>,
) -> Result<Box<Plan>, Memory>
    ensures { IfOk result (λ r. IsOkAnd p (λ x. IsOkAnd q (λ y. plan_seen r ≡ minus_plan mode.now (visible (algebra_seen a.now)) (visible (algebra_seen b.now)) (plan_seen x) (plan_seen y)))) }
{
    let p = p?;
    let q = q?;
    let left = visible(alloc, a)?;
    let right = visible(alloc, b)?;
    if !have_common(left.as_slice(), right.as_slice()) {
        return Ok(p);
    }
    let conditions = overlap(alloc, mode, left.as_slice(), right.as_slice())?;
    Box::new(alloc, Plan::AntiJoin(p, q, and_of(conditions)))
}

/// Whether some variable is in both.
fn have_common(left: &[Var], right: &[Var]) -> bool
    ensures { result ≡ list_any (has right.now) left.now }
{
    left.iter().any(|v| has(right, *v))
}

/// In mode each the graph is the same, each variable of both is the same or unbound, and one of these is bound in both.
fn overlap(alloc: Global, mode: &Mode, left: &[Var], right: &[Var]) -> Result<Items<Expr>, Memory>
    ensures { IfOk result (λ es. map expr_seen es ≡ overlap mode.now left.now right.now) }
{
    let mut conditions = Items::new(alloc);
    push_same_graph(alloc, &mut conditions, mode, left, right)?;
    push_each_shared(alloc, &mut conditions, mode, left, right)?;
    conditions.push(or_of(each_there(alloc, mode, left, right)?))?;
    Ok(conditions)
}

fn push_each_shared(
    alloc: Global,
    conditions: &mut Items<Expr>,
    mode: &Mode,
    left: &[Var],
    right: &[Var],
) -> Result<(), Memory>
    ensures { OnOk result (map expr_seen conditions.new ≡ map expr_seen conditions.old ++ map (λ v. or_null (left_column left.now v) (right_column mode.now left.now right.now v)) (filter (has right.now) left.now)) }
{
    for variable in left {
        push_shared(alloc, conditions, mode, left, right, *variable)?;
    }
    Ok(())
}

/// For each variable of both that it is bound in both.
fn each_there(
    alloc: Global,
    mode: &Mode,
    left: &[Var],
    right: &[Var],
) -> Result<Items<Expr>, Memory>
    ensures { IfOk result (λ es. map expr_seen es ≡ map (both_there mode.now left.now right.now) (filter (has right.now) left.now)) }
{
    let mut conditions = Items::new(alloc);
    for variable in left {
        push_there(alloc, &mut conditions, mode, left, right, *variable)?;
    }
    Ok(conditions)
}

fn push_there(
    alloc: Global,
    conditions: &mut Items<Expr>,
    mode: &Mode,
    left: &[Var],
    right: &[Var],
    variable: Var,
) -> Result<(), Memory>
    ensures { OnOk result (map expr_seen conditions.new ≡ map expr_seen conditions.old ++ map (both_there mode.now left.now right.now) (filter (has right.now) (variable ∷ []))) }
{
    if !has(right, variable) {
        return Ok(());
    }
    let mut both = Items::new(alloc);
    both.push(known(alloc, Expr::Col(place(left, variable)))?)?;
    both.push(known(alloc, Expr::Col(right_place(mode, left, right, variable)))?)?;
    conditions.push(and_of(both))
}
