ghost use Rattle.std.specs.Prelude.{◌≡◌, IfOk, option_map};
ghost use Rattle.vkg_plan.specs.Seen.{plan_seen};
ghost use Rattle.vkg_rules.specs.StepSeen.{plans_seen};
ghost use Rattle.vkg_spreads.specs.DistributeUnion.{distribute_union, over_each as all_over, union_under as union_below};
ghost use Rattle.vkg_spreads.specs.DistributeUnionLaw.{distribute_union-keeps, distribute_union-falls};

use crate::branches::{MOST, are_few, members};
use crate::nodes::over;
use crate::unions::{first_union, union_members};
use std::alloc::Global;
use vkg_base::{Items, Memory};
use vkg_plan::Plan;
use vkg_rules::{Fell, Rewrite};
use vkg_schema::Schema;

/// A node over a union becomes the union of the node over each member.
#[derive(Drop)]
pub struct DistributeUnion;

impl Rewrite for DistributeUnion {
    ghost becomes = { λ r. distribute_union };

    #[tactic(auto, using(vkg_rules::proofs::Seen::seen_nodes))]
    fn apply(
        &self,
        alloc: Global,
        _: &Schema,
        plan: &Plan,
    ) -> Result<Option<(Plan, Fell)>, Memory> {
        match union_under(plan) {
            None => Ok(None),
            Some(us) => {
                let all = over_each(alloc, plan, us)?;
                Ok(Some((Plan::UnionAll(all), Fell::Weight)))
            }
        }
    }

    ghost keeps = { λ r. distribute_union-keeps };

    ghost falls = { λ r. distribute_union-falls };
}

/// The members of the union over which a node is distributed, if it is over one.
#[tactic(auto, using(vkg_rules::proofs::Seen::seen_nodes))]
fn union_under(plan: &Plan) -> Option<&[Plan]>
    ensures { option_map (λ us. plans_seen us.now) result ≡ union_below (plan_seen plan.now) }
{
    match plan {
        Plan::Select(_, p) => union_members(p),
        Plan::Project(_, p) => union_members(p),
        Plan::Join(ps, _) => {
            if are_few(ps.as_slice()) {
                first_union(ps.as_slice())
            } else {
                None
            }
        }
        Plan::Left(p, _, _) => {
            if members(p) <= MOST {
                union_members(p)
            } else {
                None
            }
        }
        _ => None,
    }
}

/// The node over each of these plans.
fn over_each(alloc: Global, node: &Plan, us: &[Plan]) -> Result<Items<Plan>, Memory>
    ensures { IfOk result (λ all. plans_seen all ≡ all_over (plan_seen node.now) (plans_seen us.now)) }
{
    let mut all = Items::new(alloc);
    for u in us {
        all.push(over(alloc, node, u)?)?;
    }
    Ok(all)
}
