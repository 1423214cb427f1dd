// The condition of a plan's first node, and the node under another one: its parts are moved, and not copied.
ghost use Rattle.std.specs.Prelude.{◌≡◌, IfOk, None, Some, option_map};
ghost use Rattle.std.specs.Option.{option_copied};
ghost use Rattle.vkg_expr.specs.Seen.{expr_seen};
ghost use Rattle.vkg_plan.specs.Seen.{plan_seen};
ghost use Rattle.vkg_rules.specs.Places.{outcome};
ghost use Rattle.vkg_conditions.specs.NodeCondition.{condition_of, conditioned as to_condition, has_condition as a_condition, with_condition as node_with};

use std::alloc::Global;
use std::mem;
use vkg_base::{Box, Memory};
use vkg_expr::Expr;
use vkg_plan::Plan;
use vkg_rules::{Answer, Fell, unchanged};

/// Whether it is a selection, a join, a left join or an anti join.
#[tactic(auto, using(vkg_rules::proofs::Seen::seen_nodes))]
pub fn has_condition(plan: &Plan) -> bool
    ensures { result ≡ a_condition (plan_seen plan.now) }
{
    matches!(
        plan,
        Plan::Select(_, _) | Plan::Join(_, _) | Plan::Left(_, _, _) | Plan::AntiJoin(_, _, _)
    )
}

/// The condition of one of these.
#[tactic(auto, using(vkg_rules::proofs::Seen::seen_nodes))]
pub fn condition(plan: &Plan) -> Option<&Expr>
    ensures { option_map expr_seen (option_copied result) ≡ condition_of (plan_seen plan.now) }
{
    match plan {
        Plan::Select(c, _) => Some(c),
        Plan::Join(_, c) => Some(c),
        Plan::Left(_, _, c) => Some(c),
        Plan::AntiJoin(_, _, c) => Some(c),
        _ => None,
    }
}

/// The node under another condition, where something is less, or the node as it was where there is none. Its parts are moved.
pub fn conditioned(
    alloc: Global,
    plan: Box<Plan>,
    c: Option<Box<Expr>>,
    fell: Fell,
) -> Result<Answer, Memory>
    ensures value { IfOk result (λ x. (plan_seen x.plan, x.fell) ≡ outcome (plan_seen plan) (to_condition fell (plan_seen plan) (option_map expr_seen c))) }
    ensures dropped { IfOk result (λ x. x.dropped ≡ None) }
{
    match c {
        None => Ok(unchanged(plan)),
        Some(c) => Ok(changed(with_condition(alloc, plan, c)?, fell)),
    }
}

/// A plan in which something is less than before.
fn changed(plan: Box<Plan>, fell: Fell) -> Answer
    ensures plan { result.plan ≡ plan }
    ensures fell { result.fell ≡ Some fell }
    ensures dropped { result.dropped ≡ None }
{
    Answer {
        plan,
        fell: Some(fell),
        dropped: None,
    }
}

/// The node under another condition; one that has none stays. Its parts are moved.
pub fn with_condition(alloc: Global, plan: Box<Plan>, c: Box<Expr>) -> Result<Box<Plan>, Memory>
    ensures { IfOk result (λ p. plan_seen p ≡ node_with (expr_seen c) (plan_seen plan)) }
{
    Box::new(alloc, under(plan.into_inner(), c))
}

#[tactic(auto, using(vkg_rules::proofs::Seen::seen_nodes))]
fn under(plan: Plan, c: Box<Expr>) -> Plan
    ensures { plan_seen result ≡ node_with (expr_seen c) (plan_seen plan) }
{
    match plan {
        Plan::Select(b, p) => {
            mem::drop(b);
            Plan::Select(c.into_inner(), p)
        }
        Plan::Join(ps, b) => {
            mem::drop(b);
            Plan::Join(ps, c.into_inner())
        }
        Plan::Left(p, q, b) => {
            mem::drop(b);
            Plan::Left(p, q, c.into_inner())
        }
        Plan::AntiJoin(p, q, b) => {
            mem::drop(b);
            Plan::AntiJoin(p, q, c.into_inner())
        }
        _ => {
            mem::drop(c);
            plan
        }
    }
}
