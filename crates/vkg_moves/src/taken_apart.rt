// A projection taken apart: what it projects is moved, and not copied.
ghost use Rattle.std.specs.Prelude.{◌≡◌, [], IfOk, map};
ghost use Rattle.vkg_expr.specs.Seen.{expr_seen};
ghost use Rattle.vkg_plan.specs.Plan.{Empty};
ghost use Rattle.vkg_plan.specs.Seen.{plan_seen};
ghost use Rattle.vkg_moves.specs.MergeProjects.{below as below_of, is_project as a_project, is_twice as twice, merged as merged_of, put_below as put_below_of, put_inner as put_inner_of};

use crate::merge_projects::put_each;
use std::alloc::Global;
use std::mem;
use vkg_base::{Box, Items, Memory};
use vkg_expr::Expr;
use vkg_plan::Plan;

/// Whether it is a projection of a projection.
#[tactic(auto, using(vkg_rules::proofs::Seen::seen_nodes))]
pub fn is_twice(plan: &Plan) -> bool
    ensures { result ≡ twice (plan_seen plan.now) }
{
    match plan {
        Plan::Project(_, p) => is_project(p),
        _ => false,
    }
}

fn is_project(plan: &Plan) -> bool
    ensures { result ≡ a_project (plan_seen plan.now) }
{
    matches!(plan, Plan::Project(_, _))
}

/// One projection in the place of two.
#[tactic(auto, using(vkg_rules::proofs::Seen::seen_nodes))]
pub fn merged(alloc: Global, plan: Box<Plan>) -> Result<Box<Plan>, Memory>
    ensures { IfOk result (λ p. plan_seen p ≡ merged_of (plan_seen plan)) }
{
    let all = put_inner(alloc, &plan)?;
    let p = below(alloc, below(alloc, plan)?)?;
    Box::new(alloc, Plan::Project(all, p))
}

/// The expressions over what the projection below projects.
#[tactic(auto, using(vkg_rules::proofs::Seen::seen_nodes))]
fn put_inner(alloc: Global, plan: &Plan) -> Result<Items<Expr>, Memory>
    ensures { IfOk result (λ es. map expr_seen es ≡ put_inner_of (plan_seen plan.now)) }
{
    match plan {
        Plan::Project(es, p) => put_below(alloc, es.as_slice(), p),
        _ => Ok(Items::new(alloc)),
    }
}

#[tactic(auto, using(vkg_rules::proofs::Seen::seen_nodes))]
fn put_below(alloc: Global, es: &[Expr], p: &Plan) -> Result<Items<Expr>, Memory>
    ensures { IfOk result (λ gs. map expr_seen gs ≡ put_below_of (map expr_seen es.now) (plan_seen p.now)) }
{
    match p {
        Plan::Project(fs, _) => put_each(alloc, es, fs.as_slice()),
        _ => Ok(Items::new(alloc)),
    }
}

/// What a projection projects.
pub fn below(alloc: Global, plan: Box<Plan>) -> Result<Box<Plan>, Memory>
    ensures { IfOk result (λ p. plan_seen p ≡ below_of (plan_seen plan)) }
{
    let other = nothing(alloc)?;
    Ok(taken(plan.into_inner(), other))
}

/// What a projection projects, or the other plan, which has no row.
#[tactic(auto, using(vkg_rules::proofs::Seen::seen_nodes))]
fn taken(plan: Plan, other: Box<Plan>) -> Box<Plan>
    requires { plan_seen other ≡ Empty [] }
    ensures { plan_seen result ≡ below_of (plan_seen plan) }
{
    match plan {
        Plan::Project(es, p) => {
            mem::drop(es);
            mem::drop(other);
            p
        }
        _ => {
            mem::drop(plan);
            other
        }
    }
}

/// No row.
#[tactic(auto, using(vkg_shapes::proofs::Seen::seen_shapes))]
fn nothing(alloc: Global) -> Result<Box<Plan>, Memory>
    ensures { IfOk result (λ p. plan_seen p ≡ Empty []) }
{
    Box::new(alloc, Plan::Empty(Items::new(alloc)))
}
