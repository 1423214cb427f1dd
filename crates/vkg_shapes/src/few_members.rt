ghost use Rattle.std.specs.Prelude.{◌≡◌, IfOk, option_map};
ghost use Rattle.vkg_expr.specs.Seen.{expr_seen};
ghost use Rattle.vkg_plan.specs.Plan.{Join};
ghost use Rattle.vkg_plan.specs.Seen.{plan_seen};
ghost use Rattle.vkg_rules.specs.declared.rewrite.Fell.TheVariants as weight;
ghost use Rattle.vkg_rules.specs.StepSeen.{plans_seen, step_seen};
ghost use Rattle.vkg_shapes.specs.FewMembers.{few_members, few_joined as few_of, is_unit as unit};
ghost use Rattle.vkg_shapes.specs.FewMembersLaw.{few_members-keeps, few_members-falls};
ghost use Rattle.vkg_shapes.specs.Without.{without_first};

use crate::without::without;
use std::alloc::Global;
use vkg_base::{Items, Memory};
use vkg_expr::Expr;
use vkg_plan::{Plan, copy_plan_box};
use vkg_rules::{Fell, Rewrite};
use vkg_schema::Schema;

/// A join of one is a selection, and a Unit among the members of a join is dropped.
#[derive(Drop)]
pub struct FewMembers;

impl Rewrite for FewMembers {
    ghost becomes = { λ r. few_members };

    #[tactic(auto, using(crate::proofs::Seen::seen_shapes))]
    fn apply(
        &self,
        alloc: Global,
        _: &Schema,
        plan: &Plan,
    ) -> Result<Option<(Plan, Fell)>, Memory> {
        match plan {
            Plan::Join(ps, c) => few_joined(alloc, ps.as_slice(), c),
            _ => Ok(None),
        }
    }

    ghost keeps = { λ r. few_members-keeps };

    ghost falls = { λ r. few_members-falls };
}

#[tactic(auto, using(crate::proofs::Seen::seen_shapes))]
fn few_joined(alloc: Global, ps: &[Plan], c: &Expr) -> Result<Option<(Plan, Fell)>, Memory>
    ensures { IfOk result (λ o. option_map step_seen o ≡ few_of (expr_seen c.now) (plans_seen ps.now)) }
{
    match ps {
        [] => Ok(None),
        [p] => {
            let p = copy_plan_box(alloc, p)?;
            Ok(Some((Plan::Select(c.copy(alloc)?, p), Fell::Weight)))
        }
        [_, _, ..] => rejoined(alloc, without_unit(alloc, ps)?, c),
    }
}

#[tactic(auto, using(crate::proofs::Seen::seen_shapes))]
fn rejoined(
    alloc: Global,
    ps: Option<Items<Plan>>,
    c: &Expr,
) -> Result<Option<(Plan, Fell)>, Memory>
    ensures { IfOk result (λ o. option_map step_seen o ≡ option_map (λ qs. (Join qs (expr_seen c.now), weight.Weight)) (option_map plans_seen ps)) }
{
    match ps {
        None => Ok(None),
        Some(ps) => Ok(Some((Plan::Join(ps, c.copy(alloc)?), Fell::Weight))),
    }
}

/// The plans without the first Unit, if there is one.
fn without_unit(alloc: Global, ps: &[Plan]) -> Result<Option<Items<Plan>>, Memory>
    ensures { IfOk result (λ o. option_map plans_seen o ≡ without_first unit (plans_seen ps.now)) }
{
    for i in 0..ps.len() {
        if is_unit(&ps[i]) {
            return Ok(Some(without(alloc, ps, i)?));
        }
    }
    Ok(None)
}

fn is_unit(p: &Plan) -> bool
    ensures { result ≡ unit (plan_seen p.now) }
{
    matches!(p, Plan::Unit)
}
