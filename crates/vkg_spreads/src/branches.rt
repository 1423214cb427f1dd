// How many plans without a union come of one, counted up to a bound.
ghost use Rattle.std.specs.Prelude.{◌≡◌, ◌*◌, ◌+◌};
ghost use Rattle.vkg_plan.specs.Seen.{plan_seen};
ghost use Rattle.vkg_rules.specs.StepSeen.{plans_seen};
ghost use Rattle.vkg_spreads.specs.Counted.{capped};
ghost use Rattle.vkg_spreads.specs.DistributeUnion.{are_few as few, branches as branches_of, members as members_of, branches_product as product_of, branches_sum as sum_of};

use vkg_plan::Plan;

/// At most so many are made of a join, or of a left join.
pub const MOST: usize = 64;

/// What stands for any number of more.
const MANY: usize = MOST + 1;

/// Whether at most so many plans come of the product of these, a member of each union in the union's place.
pub fn are_few(ps: &[Plan]) -> bool
    ensures { result ≡ few (product_of (plans_seen ps.now)) }
{
    product(ps) <= MOST
}

/// How many members a union has; 1 of any other plan.
#[tactic(auto, using(crate::proofs::Counting::members_counted, vkg_rules::proofs::Seen::seen_nodes))]
pub fn members(p: &Plan) -> usize
    ensures { result ≡ members_of (plan_seen p.now) }
{
    match p {
        Plan::UnionAll(us) => us.len(),
        _ => 1,
    }
}

/// How many plans come of one.
#[cycle(branches)]
#[tactic(auto, using(vkg_rules::proofs::Seen::seen_nodes))]
fn branches(p: &Plan) -> usize
    ensures { result ≡ capped (branches_of (plan_seen p.now)) }
{
    match p {
        Plan::Select(_, p) => branches(p),
        Plan::Project(_, p) => branches(p),
        Plan::Distinct(p) => branches(p),
        Plan::Join(ps, _) => product(ps.as_slice()),
        Plan::Left(p, q, _) => times(branches(p), branches(q)),
        Plan::UnionAll(us) => sum(us.as_slice()).max(1),
        Plan::AntiJoin(_, _, _) => 1,
        Plan::Unit => 1,
        Plan::Empty(_) => 1,
        Plan::Scan(_) => 1,
    }
}

/// How many come of a product of plans.
#[cycle(branches)]
fn product(ps: &[Plan]) -> usize
    ensures { result ≡ capped (product_of (plans_seen ps.now)) }
{
    let mut count = 1;
    for p in ps {
        count = times(count, branches(p));
        if count > MOST {
            return MANY;
        }
    }
    count
}

/// How many come of a union of plans.
#[cycle(branches)]
fn sum(us: &[Plan]) -> usize
    ensures { result ≡ capped (sum_of (plans_seen us.now)) }
{
    let mut count = 0;
    for u in us {
        count = plus(count, branches(u));
        if count > MOST {
            return MANY;
        }
    }
    count
}

fn times(n: usize, m: usize) -> usize
    ensures { result ≡ capped (n * m) }
{
    n.saturating_mul(m).min(MANY)
}

fn plus(n: usize, m: usize) -> usize
    ensures { result ≡ capped (n + m) }
{
    n.saturating_add(m).min(MANY)
}
