// Scans among the members of a join.
ghost use Rattle.std.specs.Prelude.{◌≡◌, ◌+◌, [], ◌++◌, IfOk, map, take, drop};
ghost use Rattle.vkg_plan.specs.Seen.{plan_seen};
ghost use Rattle.vkg_keys.specs.Members.{scans as scans_of};
ghost use Rattle.vkg_keys.specs.ScansSeen.{place_in, scan_if};

use std::alloc::Global;
use vkg_base::{Items, Memory};
use vkg_plan::{Plan, copy_plans};

/// Where a Scan of a table stands among plans.
#[derive(Clone, Copy)]
pub struct ScanAt {
    pub at: usize,
    pub table: usize,
}

/// The Scans among the plans, in their order.
pub fn scans(alloc: Global, ps: &[Plan]) -> Result<Items<ScanAt>, Memory>
    ensures { IfOk result (λ xs. map (place_in ps.now) xs ≡ scans_of [] (map plan_seen ps.now)) }
{
    let mut all = Items::new(alloc);
    for i in 0..ps.len() {
        all = with_scan(all, i, &ps[i])?;
    }
    Ok(all)
}

/// The Scans, and the plan at this place if it is one.
#[tactic(auto, using(crate::proofs::Scanned::nothing_more))]
fn with_scan(found: Items<ScanAt>, at: usize, p: &Plan) -> Result<Items<ScanAt>, Memory>
    ensures { IfOk result (λ xs. xs ≡ found ++ scan_if at (plan_seen p.now)) }
{
    let mut all = found;
    match p {
        Plan::Scan(table) => {
            all.push(ScanAt { at, table: *table })?;
            Ok(all)
        }
        _ => Ok(all),
    }
}

/// The plans before a place.
pub fn before(ps: &[Plan], x: ScanAt) -> &[Plan]
    ensures { result.now ≡ take x.at ps.now }
{
    if x.at < ps.len() { &ps[..x.at] } else { ps }
}

/// The plans behind a place.
pub fn behind(ps: &[Plan], x: ScanAt) -> &[Plan]
    ensures { result.now ≡ drop (x.at + 1) ps.now }
{
    if x.at < ps.len() {
        &ps[x.at + 1..]
    } else {
        &[]
    }
}

/// The plans without the one at a place.
pub fn others(alloc: Global, ps: &[Plan], x: ScanAt) -> Result<Items<Plan>, Memory>
    ensures { IfOk result (λ qs. qs ≡ take x.at ps.now ++ drop (x.at + 1) ps.now) }
{
    let mut all = copy_plans(alloc, before(ps, x))?;
    all.append(copy_plans(alloc, behind(ps, x))?)?;
    Ok(all)
}
