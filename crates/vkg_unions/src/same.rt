// Whether two plans are one.
ghost use Rattle.std.specs.Prelude.{◌≡◌};
ghost use Rattle.std.specs.Cmp.Lexicographic.{pointwise};
ghost use Rattle.vkg_expr.specs.Typing.{same_kind};
ghost use Rattle.vkg_plan.specs.Seen.{plan_seen};
ghost use Rattle.vkg_rules.specs.StepSeen.{plans_seen};
ghost use Rattle.vkg_unions.specs.SamePlan.{same_plan as same, same_plans as same_each};

use vkg_cells::SqlType;
use vkg_plan::Plan;
use vkg_same::{same_expr, same_exprs};

/// Whether two plans are one: of the same nodes, over the same tables, kinds and expressions.
#[cycle(plans)]
pub fn same_plan(a: &Plan, b: &Plan) -> bool
    ensures { result ≡ same (plan_seen a.now) (plan_seen b.now) }
{
    match (a, b) {
        (Plan::Unit, Plan::Unit) => true,
        (Plan::Empty(ks), Plan::Empty(ls)) => same_kinds(ks.as_slice(), ls.as_slice()),
        (Plan::Scan(t), Plan::Scan(u)) => *t == *u,
        (Plan::Select(c, p), Plan::Select(d, q)) => same_expr(c, d) && same_plan(p, q),
        (Plan::Project(es, p), Plan::Project(fs, q)) => {
            same_plan(p, q) && same_exprs(es.as_slice(), fs.as_slice())
        }
        (Plan::Join(ps, c), Plan::Join(qs, d)) => {
            same_plans(ps.as_slice(), qs.as_slice()) && same_expr(c, d)
        }
        (Plan::Left(p, q, c), Plan::Left(r, t, d)) => {
            same_plan(p, r) && same_plan(q, t) && same_expr(c, d)
        }
        (Plan::AntiJoin(p, q, c), Plan::AntiJoin(r, t, d)) => {
            same_plan(p, r) && same_plan(q, t) && same_expr(c, d)
        }
        (Plan::UnionAll(ps), Plan::UnionAll(qs)) => same_plans(ps.as_slice(), qs.as_slice()),
        (Plan::Distinct(p), Plan::Distinct(q)) => same_plan(p, q),
        _ => false,
    }
}

/// Whether two lists have one plan at each place, and as many places.
#[cycle(plans)]
fn same_plans(ps: &[Plan], qs: &[Plan]) -> bool
    ensures { result ≡ same_each (plans_seen ps.now) (plans_seen qs.now) }
{
    if ps.len() != qs.len() {
        return false;
    }
    for i in 0..ps.len() {
        if !same_plan(&ps[i], &qs[i]) {
            return false;
        }
    }
    true
}

fn same_kinds(ks: &[SqlType], ls: &[SqlType]) -> bool
    ensures { result ≡ pointwise same_kind ks.now ls.now }
{
    ks == ls
}
