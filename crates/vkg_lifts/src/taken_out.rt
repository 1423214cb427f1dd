// A node over what a projection below it projects. The plans are moved, and not copied.
ghost use Rattle.std.specs.Prelude.{◌≡◌, IfOk, map};
ghost use Rattle.vkg_columns.specs.Columns.{at_place};
ghost use Rattle.vkg_expr.specs.Seen.{expr_seen};
ghost use Rattle.vkg_expr.specs.Strict.{put as put_in};
ghost use Rattle.vkg_plan.specs.Plan.{Join, Left, Project, Select};
ghost use Rattle.vkg_plan.specs.Seen.{plan_seen};
ghost use Rattle.vkg_rules.specs.StepSeen.{plans_seen};
ghost use Rattle.vkg_lifts.specs.BelowProjects.{below as below_of, first_below as first_below_of, opened as opened_of};

use crate::parts::is_project;
use std::alloc::Global;
use std::mem;
use vkg_base::{Box, Items, Memory};
use vkg_columns::put;
use vkg_expr::Expr;
use vkg_plan::Plan;

/// The expressions above the node.
#[tactic(auto, using(vkg_rules::proofs::Seen::seen_nodes))]
pub fn lifted(alloc: Global, plan: Plan, es: Items<Expr>) -> Result<Box<Plan>, Memory>
    ensures { IfOk result (λ q. plan_seen q ≡ Project (map expr_seen es) (opened_of (map expr_seen es) (plan_seen plan))) }
{
    let q = opened(alloc, plan, es.as_slice())?;
    Box::new(alloc, Plan::Project(es, q))
}

/// The node over what a projection below it projects, with expressions put into its condition.
#[tactic(auto, using(vkg_rules::proofs::Seen::seen_nodes))]
fn opened(alloc: Global, plan: Plan, es: &[Expr]) -> Result<Box<Plan>, Memory>
    ensures { IfOk result (λ q. plan_seen q ≡ opened_of (map expr_seen es.now) (plan_seen plan)) }
{
    match plan {
        Plan::Select(c, p) => {
            let made = selected(alloc, &c, p, es);
            mem::drop(c);
            made
        }
        Plan::Join(ps, c) => {
            let made = joined(alloc, ps, &c, es);
            mem::drop(c);
            made
        }
        Plan::Left(p, q, c) => {
            let made = left_joined(alloc, p, q, &c, es);
            mem::drop(c);
            made
        }
        _ => Box::new(alloc, plan),
    }
}

/// The selection by a condition with expressions put in.
#[tactic(auto, using(vkg_rules::proofs::Seen::seen_nodes))]
fn selected(alloc: Global, c: &Expr, p: Box<Plan>, es: &[Expr]) -> Result<Box<Plan>, Memory>
    ensures { IfOk result (λ q. plan_seen q ≡ Select (put_in (at_place (map expr_seen es.now)) (expr_seen c.now)) (below_of (plan_seen p))) }
{
    let p = below_boxed(alloc, p)?;
    Box::new(alloc, Plan::Select(put(alloc, c, es)?, p))
}

/// The join of plans by a condition with expressions put in.
#[tactic(auto, using(vkg_rules::proofs::Seen::seen_nodes))]
fn joined(alloc: Global, ps: Items<Plan>, c: &Expr, es: &[Expr]) -> Result<Box<Plan>, Memory>
    ensures { IfOk result (λ q. plan_seen q ≡ Join (first_below_of (plans_seen ps)) (put_in (at_place (map expr_seen es.now)) (expr_seen c.now))) }
{
    let ps = first_below(ps);
    let c = put(alloc, c, es)?;
    Box::new(alloc, Plan::Join(ps, c))
}

/// The left join of two plans by a condition with expressions put in.
fn left_joined(
    alloc: Global,
    p: Box<Plan>,
    q: Box<Plan>,
    c: &Expr,
    es: &[Expr],
) -> Result<Box<Plan>, Memory>
    ensures { IfOk result (λ x. plan_seen x ≡ opened_of (map expr_seen es.now) (Left (plan_seen p) (plan_seen q) (expr_seen c.now))) }
{
    if is_project(&p) {
        let p = below_boxed(alloc, p)?;
        left_joined_by(alloc, p, q, c, es)
    } else {
        let q = below_boxed(alloc, q)?;
        left_joined_by(alloc, p, q, c, es)
    }
}

#[tactic(auto, using(vkg_rules::proofs::Seen::seen_nodes))]
fn left_joined_by(
    alloc: Global,
    p: Box<Plan>,
    q: Box<Plan>,
    c: &Expr,
    es: &[Expr],
) -> Result<Box<Plan>, Memory>
    ensures { IfOk result (λ x. plan_seen x ≡ Left (plan_seen p) (plan_seen q) (put_in (at_place (map expr_seen es.now)) (expr_seen c.now))) }
{
    let c = put(alloc, c, es)?;
    Box::new(alloc, Plan::Left(p, q, c))
}

/// The plans with what the first projection among them projects in its place.
fn first_below(ps: Items<Plan>) -> Items<Plan>
    ensures { plans_seen result ≡ first_below_of (plans_seen ps) }
{
    let mut members = ps.into_vec();
    unproject_first(&mut members);
    Items::from_vec(members)
}

fn unproject_first(members: &mut [Plan])
    ensures { plans_seen members.new ≡ first_below_of (plans_seen members.old) }
{
    for i in 0..members.len() {
        if is_project(&members[i]) {
            unproject(&mut members[i]);
            return;
        }
    }
}

fn unproject(member: &mut Plan)
    ensures { plan_seen member.new ≡ below_of (plan_seen member.old) }
{
    let whole = mem::replace(member, Plan::Unit);
    mem::drop(mem::replace(member, below(whole)));
}

fn below_boxed(alloc: Global, plan: Box<Plan>) -> Result<Box<Plan>, Memory>
    ensures { IfOk result (λ p. plan_seen p ≡ below_of (plan_seen plan)) }
{
    Box::new(alloc, below(plan.into_inner()))
}

/// What a projection projects; another plan stays.
#[tactic(auto, using(vkg_rules::proofs::Seen::seen_nodes))]
fn below(plan: Plan) -> Plan
    ensures { plan_seen result ≡ below_of (plan_seen plan) }
{
    match plan {
        Plan::Project(es, p) => {
            mem::drop(es);
            p.into_inner()
        }
        _ => plan,
    }
}
