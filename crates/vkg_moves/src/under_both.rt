// A selection over a selection or a join, or a member of a join, taken apart: what is below is moved, and not copied.
ghost use Rattle.std.specs.Prelude.{◌≡◌, IfOk};
ghost use Rattle.vkg_expr.specs.Logic.{and_then as one_then_other};
ghost use Rattle.vkg_expr.specs.Seen.{expr_seen};
ghost use Rattle.vkg_plan.specs.Plan.{Join, Select};
ghost use Rattle.vkg_plan.specs.Seen.{plan_seen};
ghost use Rattle.vkg_rules.specs.StepSeen.{plans_seen};
ghost use Rattle.vkg_moves.specs.MergeSelects.{below as below_of, first_below as first_below_of, has_condition as a_condition, is_over_condition as over_one, is_select as a_select, merged as merged_of, opened as opened_of, under_both as under_both_of};

use std::alloc::Global;
use std::mem;
use vkg_base::{Box, Items, Memory};
use vkg_columns::and_then;
use vkg_expr::Expr;
use vkg_plan::Plan;

/// Whether it is a selection over a selection or a join.
#[tactic(auto, using(vkg_rules::proofs::Seen::seen_nodes))]
pub fn is_over_condition(plan: &Plan) -> bool
    ensures { result ≡ over_one (plan_seen plan.now) }
{
    match plan {
        Plan::Select(_, p) => has_condition(p),
        _ => false,
    }
}

fn has_condition(plan: &Plan) -> bool
    ensures { result ≡ a_condition (plan_seen plan.now) }
{
    matches!(plan, Plan::Select(_, _) | Plan::Join(_, _))
}

/// One node under both conditions.
#[tactic(auto, using(vkg_rules::proofs::Seen::seen_nodes))]
pub fn merged(alloc: Global, plan: Plan) -> Result<Box<Plan>, Memory>
    ensures { IfOk result (λ q. plan_seen q ≡ merged_of (plan_seen plan)) }
{
    match plan {
        Plan::Select(c, p) => {
            let made = under_both(alloc, &c, p.into_inner());
            mem::drop(c);
            made
        }
        _ => Box::new(alloc, plan),
    }
}

/// A node under its condition and then another.
#[tactic(auto, using(vkg_rules::proofs::Seen::seen_nodes))]
fn under_both(alloc: Global, outer: &Expr, plan: Plan) -> Result<Box<Plan>, Memory>
    ensures { IfOk result (λ q. plan_seen q ≡ under_both_of (expr_seen outer.now) (plan_seen plan)) }
{
    match plan {
        Plan::Select(inner, p) => {
            let made = selected(alloc, &inner, outer, p);
            mem::drop(inner);
            made
        }
        Plan::Join(ps, inner) => {
            let made = joined(alloc, ps, &inner, outer);
            mem::drop(inner);
            made
        }
        _ => Box::new(alloc, plan),
    }
}

#[tactic(auto, using(vkg_rules::proofs::Seen::seen_nodes))]
fn selected(alloc: Global, inner: &Expr, outer: &Expr, p: Box<Plan>) -> Result<Box<Plan>, Memory>
    ensures { IfOk result (λ q. plan_seen q ≡ Select (one_then_other (expr_seen inner.now) (expr_seen outer.now)) (plan_seen p)) }
{
    let both = and_then(alloc, inner, outer)?;
    Box::new(alloc, Plan::Select(both, p))
}

#[tactic(auto, using(vkg_rules::proofs::Seen::seen_nodes))]
fn joined(alloc: Global, ps: Items<Plan>, inner: &Expr, outer: &Expr) -> Result<Box<Plan>, Memory>
    ensures { IfOk result (λ q. plan_seen q ≡ Join (plans_seen ps) (one_then_other (expr_seen inner.now) (expr_seen outer.now))) }
{
    let both = and_then(alloc, inner, outer)?;
    Box::new(alloc, Plan::Join(ps, both))
}

// ---- a member

/// The join over what the first selection among its members selects from, under a condition and then its own.
#[tactic(auto, using(vkg_rules::proofs::Seen::seen_nodes))]
pub fn opened(alloc: Global, plan: Plan, inner: &Expr) -> Result<Box<Plan>, Memory>
    ensures { IfOk result (λ q. plan_seen q ≡ opened_of (expr_seen inner.now) (plan_seen plan)) }
{
    match plan {
        Plan::Join(ps, c) => {
            let made = joined(alloc, first_below(ps), inner, &c);
            mem::drop(c);
            made
        }
        _ => Box::new(alloc, plan),
    }
}

/// The plans with what the first selection among them selects from in its place.
fn first_below(ps: Items<Plan>) -> Items<Plan>
    ensures { plans_seen result ≡ first_below_of (plans_seen ps) }
{
    let mut members = ps.into_vec();
    unselect_first(&mut members);
    Items::from_vec(members)
}

fn unselect_first(members: &mut [Plan])
    ensures { plans_seen members.new ≡ first_below_of (plans_seen members.old) }
{
    for i in 0..members.len() {
        if is_select(&members[i]) {
            unselect(&mut members[i]);
            return;
        }
    }
}

/// Whether it is a selection.
pub fn is_select(plan: &Plan) -> bool
    ensures { result ≡ a_select (plan_seen plan.now) }
{
    matches!(plan, Plan::Select(_, _))
}

fn unselect(member: &mut Plan)
    ensures { plan_seen member.new ≡ below_of (plan_seen member.old) }
{
    let whole = mem::replace(member, Plan::Unit);
    mem::drop(mem::replace(member, below(whole)));
}

/// What a selection selects from; another plan stays.
#[tactic(auto, using(vkg_rules::proofs::Seen::seen_nodes))]
fn below(plan: Plan) -> Plan
    ensures { plan_seen result ≡ below_of (plan_seen plan) }
{
    match plan {
        Plan::Select(c, p) => {
            mem::drop(c);
            p.into_inner()
        }
        _ => plan,
    }
}
