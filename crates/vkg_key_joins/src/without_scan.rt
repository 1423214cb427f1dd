// The expressions over a join without one of its members. The others are moved, and not copied.
ghost use Rattle.std.specs.Prelude.{◌≡◌, IfOk, map};
ghost use Rattle.vkg_columns.specs.Columns.{at_place};
ghost use Rattle.vkg_expr.specs.Seen.{expr_seen};
ghost use Rattle.vkg_expr.specs.Strict.{put as put_in};
ghost use Rattle.vkg_plan.specs.Plan.{Join, Project};
ghost use Rattle.vkg_plan.specs.Seen.{plan_seen};
ghost use Rattle.vkg_rules.specs.StepSeen.{plans_seen};
ghost use Rattle.vkg_key_joins.specs.SelfJoin.{over_rest as over_rest_of};

use std::alloc::Global;
use std::mem;
use vkg_base::{Box, Items, Memory};
use vkg_columns::put;
use vkg_expr::Expr;
use vkg_plan::Plan;
use vkg_shapes::without::removed;

/// The expressions above the join without the member at a place, and put into its condition.
#[tactic(auto, using(vkg_rules::proofs::Seen::seen_nodes))]
pub fn over_rest(
    alloc: Global,
    plan: Plan,
    names: Items<Expr>,
    at: usize,
) -> Result<Box<Plan>, Memory>
    ensures { IfOk result (λ q. plan_seen q ≡ over_rest_of (map expr_seen names) at (plan_seen plan)) }
{
    match plan {
        Plan::Join(ps, c) => {
            let made = projected(alloc, removed(ps, at), &c, names);
            mem::drop(c);
            made
        }
        _ => {
            mem::drop(names);
            Box::new(alloc, plan)
        }
    }
}

#[tactic(auto, using(vkg_rules::proofs::Seen::seen_nodes))]
fn projected(
    alloc: Global,
    ps: Items<Plan>,
    c: &Expr,
    names: Items<Expr>,
) -> Result<Box<Plan>, Memory>
    ensures { IfOk result (λ q. plan_seen q ≡ Project (map expr_seen names) (Join (plans_seen ps) (put_in (at_place (map expr_seen names)) (expr_seen c.now)))) }
{
    let below = joined(alloc, ps, c, names.as_slice())?;
    Box::new(alloc, Plan::Project(names, below))
}

#[tactic(auto, using(vkg_rules::proofs::Seen::seen_nodes))]
fn joined(alloc: Global, ps: Items<Plan>, c: &Expr, names: &[Expr]) -> Result<Box<Plan>, Memory>
    ensures { IfOk result (λ q. plan_seen q ≡ Join (plans_seen ps) (put_in (at_place (map expr_seen names.now)) (expr_seen c.now))) }
{
    let c = put(alloc, c, names)?;
    Box::new(alloc, Plan::Join(ps, c))
}
