// The first union of a list of plans, and another plan in its place.
ghost use Rattle.std.specs.Prelude.{◌≡◌, IfOk, is_some, option_map};
ghost use Rattle.vkg_plan.specs.Seen.{plan_seen};
ghost use Rattle.vkg_rules.specs.StepSeen.{plans_seen};
ghost use Rattle.vkg_spreads.specs.DistributeUnion.{first_union as members_of_first, in_place as placed, union_members as members_of};

use std::alloc::Global;
use vkg_base::{Items, Memory};
use vkg_plan::{Plan, copy_plans};
use vkg_rules::nodes::replaced;

/// The members of a union.
#[tactic(auto, using(vkg_rules::proofs::Seen::seen_nodes))]
pub fn union_members(p: &Plan) -> Option<&[Plan]>
    ensures { option_map (λ us. plans_seen us.now) result ≡ members_of (plan_seen p.now) }
{
    match p {
        Plan::UnionAll(us) => Some(us.as_slice()),
        _ => None,
    }
}

/// The members of the first union among the plans.
pub fn first_union(ps: &[Plan]) -> Option<&[Plan]>
    ensures { option_map (λ us. plans_seen us.now) result ≡ members_of_first (plans_seen ps.now) }
{
    for p in ps {
        if let Some(us) = union_members(p) {
            return Some(us);
        }
    }
    None
}

/// The plans with another in the place of the first union.
pub fn in_place(alloc: Global, x: &Plan, ps: &[Plan]) -> Result<Items<Plan>, Memory>
    ensures { IfOk result (λ qs. plans_seen qs ≡ placed (plan_seen x.now) (plans_seen ps.now)) }
{
    for i in 0..ps.len() {
        if is_union(&ps[i]) {
            return replaced(alloc, ps, i, x.copy(alloc)?);
        }
    }
    copy_plans(alloc, ps)
}

fn is_union(p: &Plan) -> bool
    ensures { result ≡ is_some (members_of (plan_seen p.now)) }
{
    matches!(p, Plan::UnionAll(_))
}
