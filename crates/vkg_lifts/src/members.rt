// The first projection among the members of a join.
ghost use Rattle.std.specs.Prelude.{◌≡◌, IfOk, option_map};
ghost use Rattle.std.specs.List.{list_any};
ghost use Rattle.vkg_plan.specs.Seen.{plan_seen};
ghost use Rattle.vkg_rules.specs.Parts.{AreTyped};
ghost use Rattle.vkg_rules.specs.Steps.{IsTyped};
ghost use Rattle.vkg_rules.specs.StepSeen.{plans_seen};
ghost use Rattle.vkg_lifts.specs.LiftedSeen.{exprs_seen};
ghost use Rattle.vkg_lifts.specs.BelowProjects.{exprs_between as between_columns, exprs_of_members as of_members, is_project as a_project};
ghost use Rattle.vkg_lifts.specs.LiftProjects.{widths as widths_of};

use crate::parts::{exprs_between, is_project};
use crate::widths::{sum, width, widths};
use std::alloc::Global;
use vkg_base::{Items, Memory};
use vkg_expr::Expr;
use vkg_plan::Plan;
use vkg_schema::Schema;

/// The expressions above all plans that come of the first projection among them, if there is one.
#[tactic(auto, using(crate::proofs::FirstProject::none_lifted, crate::proofs::FirstProject::no_project))]
pub fn exprs_of_members(
    alloc: Global,
    schema: &Schema,
    ps: &[Plan],
) -> Result<Option<Items<Expr>>, Memory>
    requires { AreTyped schema.now (plans_seen ps.now) }
    ensures { IfOk result (λ o. option_map exprs_seen o ≡ of_members schema.now (plans_seen ps.now)) }
{
    if !has_project(ps) {
        return Ok(None);
    }
    let mut before = 0;
    for i in 0..ps.len() {
        let p = &ps[i];
        let rest = &ps[i + 1..];
        if let Some(es) = member_exprs(alloc, schema, p, before, rest)? {
            return Ok(Some(es));
        }
        before = sum(before, width(schema, p)?)?;
    }
    Ok(None)
}

/// Whether one of the plans is a projection. Without one no columns are counted.
fn has_project(ps: &[Plan]) -> bool
    ensures { result ≡ list_any (λ p. a_project (plan_seen p)) ps.now }
{
    ps.iter().any(|p| is_project(p))
}

/// What a member gives behind so many columns and before those of the other members, if it is a projection.
#[tactic(auto, using(crate::proofs::FirstProject::no_parts, crate::proofs::FirstProject::no_exprs))]
fn member_exprs(
    alloc: Global,
    schema: &Schema,
    p: &Plan,
    before: usize,
    rest: &[Plan],
) -> Result<Option<Items<Expr>>, Memory>
    requires p { IsTyped schema.now (plan_seen p.now) }
    requires rest { AreTyped schema.now (plans_seen rest.now) }
    ensures { IfOk result (λ o. option_map exprs_seen o ≡ between_columns schema.now before (widths_of schema.now (plans_seen rest.now)) (plan_seen p.now)) }
{
    if !is_project(p) {
        return Ok(None);
    }
    exprs_between(alloc, schema, p, before, widths(schema, rest)?)
}
