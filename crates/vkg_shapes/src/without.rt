ghost use Rattle.std.specs.Prelude.{◌≡◌, ◌+◌, ◌<◌, ◌++◌, IfOk, length, take, drop};
ghost use Rattle.vkg_rules.specs.StepSeen.{plans_seen};
ghost use Rattle.vkg_shapes.specs.Without.{is_lone as lone, without_at as rest_without};

use std::alloc::Global;
use std::mem;
use vkg_base::{Items, Memory};
use vkg_plan::{Plan, copy_plans};

/// The plans without the one at i.
pub fn without(alloc: Global, ps: &[Plan], i: usize) -> Result<Items<Plan>, Memory>
    requires { i < length ps.now }
    ensures { IfOk result (λ r. r ≡ take i ps.now ++ drop (i + 1) ps.now) }
{
    let mut all = copy_plans(alloc, &ps[..i])?;
    all.append(copy_plans(alloc, &ps[i + 1..])?)?;
    Ok(all)
}

/// The plans without the one at a place, if there is one there. The others are moved.
#[tactic(auto, using(crate::proofs::Told::removed_seen, crate::proofs::Told::none_removed))]
pub fn removed(ps: Items<Plan>, at: usize) -> Items<Plan>
    ensures { plans_seen result ≡ rest_without at (plans_seen ps) }
{
    let mut rest = ps;
    if rest.len() <= at {
        return rest;
    }
    mem::drop(rest.remove(at));
    rest
}

/// Whether there is one plan alone.
#[tactic(auto, using(crate::proofs::Told::lone_one, crate::proofs::Told::lone_more))]
pub fn is_lone(ps: &[Plan]) -> bool
    ensures { result ≡ lone (plans_seen ps.now) }
{
    matches!(ps, [_])
}
