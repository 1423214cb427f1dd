// A node over another plan in the place of the union that it is over.
ghost use Rattle.std.specs.Prelude.{◌≡◌, IfOk, map};
ghost use Rattle.vkg_expr.specs.Seen.{expr_seen};
ghost use Rattle.vkg_plan.specs.Plan.{Join, Left, Project, Select};
ghost use Rattle.vkg_plan.specs.Seen.{plan_seen};
ghost use Rattle.vkg_rules.specs.StepSeen.{plans_seen};
ghost use Rattle.vkg_spreads.specs.DistributeUnion.{over as node_over};

use crate::unions::in_place;
use std::alloc::Global;
use vkg_base::{Items, Memory};
use vkg_expr::{Expr, copy_exprs};
use vkg_plan::{Plan, copy_plan_box};

/// The node over another plan.
#[tactic(auto, using(vkg_rules::proofs::Seen::seen_nodes))]
pub fn over(alloc: Global, node: &Plan, x: &Plan) -> Result<Plan, Memory>
    ensures { IfOk result (λ p. plan_seen p ≡ node_over (plan_seen node.now) (plan_seen x.now)) }
{
    match node {
        Plan::Select(c, _) => select(alloc, c, x),
        Plan::Project(es, _) => project(alloc, es.as_slice(), x),
        Plan::Join(ps, c) => join(alloc, in_place(alloc, x, ps.as_slice())?, c),
        Plan::Left(_, q, c) => left(alloc, x, q, c),
        _ => x.copy(alloc),
    }
}

#[tactic(auto, using(vkg_rules::proofs::Seen::seen_nodes))]
fn select(alloc: Global, c: &Expr, p: &Plan) -> Result<Plan, Memory>
    ensures { IfOk result (λ r. plan_seen r ≡ Select (expr_seen c.now) (plan_seen p.now)) }
{
    let p = copy_plan_box(alloc, p)?;
    Ok(Plan::Select(c.copy(alloc)?, p))
}

#[tactic(auto, using(vkg_rules::proofs::Seen::seen_nodes))]
fn project(alloc: Global, es: &[Expr], p: &Plan) -> Result<Plan, Memory>
    ensures { IfOk result (λ r. plan_seen r ≡ Project (map expr_seen es.now) (plan_seen p.now)) }
{
    let p = copy_plan_box(alloc, p)?;
    Ok(Plan::Project(copy_exprs(alloc, es)?, p))
}

#[tactic(auto, using(vkg_rules::proofs::Seen::seen_nodes))]
fn join(alloc: Global, ps: Items<Plan>, c: &Expr) -> Result<Plan, Memory>
    ensures { IfOk result (λ r. plan_seen r ≡ Join (plans_seen ps) (expr_seen c.now)) }
{
    Ok(Plan::Join(ps, c.copy(alloc)?))
}

#[tactic(auto, using(vkg_rules::proofs::Seen::seen_nodes))]
fn left(alloc: Global, p: &Plan, q: &Plan, c: &Expr) -> Result<Plan, Memory>
    ensures { IfOk result (λ r. plan_seen r ≡ Left (plan_seen p.now) (plan_seen q.now) (expr_seen c.now)) }
{
    let p = copy_plan_box(alloc, p)?;
    let q = copy_plan_box(alloc, q)?;
    Ok(Plan::Left(p, q, c.copy(alloc)?))
}
