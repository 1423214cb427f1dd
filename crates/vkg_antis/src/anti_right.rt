ghost use Rattle.std.specs.Prelude.{◌≡◌, IfOk, Some, option_map};
ghost use Rattle.vkg_expr.specs.Seen.{expr_seen};
ghost use Rattle.vkg_plan.specs.Plan.{AntiJoin};
ghost use Rattle.vkg_plan.specs.Seen.{plan_seen};
ghost use Rattle.vkg_rules.specs.declared.rewrite.Fell.TheVariants as weight;
ghost use Rattle.vkg_rules.specs.Steps.{IsTyped};
ghost use Rattle.vkg_rules.specs.StepSeen.{step_seen};
ghost use Rattle.vkg_antis.specs.AntiRight.{anti_right, by_project, by_select, over_right as over_right_of};
ghost use Rattle.vkg_antis.specs.AntiRightLaw.{anti_right-keeps, anti_right-falls};

use std::alloc::Global;
use vkg_base::{Box, Memory};
use vkg_columns::{and_then, put};
use vkg_expr::Expr;
use vkg_lifts::{exprs_between, width};
use vkg_moves::kinds::kinds;
use vkg_moves::part_behind;
use vkg_plan::{Plan, copy_plan_box};
use vkg_rules::{Fell, Rewrite};
use vkg_schema::Schema;

/// A selection, a projection or a distinct on the right of an anti join goes, and what it says stands in the condition.
#[derive(Drop)]
pub struct AntiRight;

impl Rewrite for AntiRight {
    ghost becomes = { λ r. anti_right };

    #[tactic(auto, using(vkg_rules::proofs::Seen::seen_nodes))]
    fn apply(
        &self,
        alloc: Global,
        schema: &Schema,
        plan: &Plan,
    ) -> Result<Option<(Plan, Fell)>, Memory> {
        match plan {
            Plan::AntiJoin(p, q, c) => over_right(alloc, schema, p, q, c),
            _ => Ok(None),
        }
    }

    ghost keeps = { λ r. anti_right-keeps };

    ghost falls = { λ r. anti_right-falls };
}

#[tactic(auto, using(vkg_rules::proofs::Seen::seen_nodes))]
fn over_right(
    alloc: Global,
    schema: &Schema,
    p: &Plan,
    q: &Plan,
    c: &Expr,
) -> Result<Option<(Plan, Fell)>, Memory>
    requires p { IsTyped schema.now (plan_seen p.now) }
    requires q { IsTyped schema.now (plan_seen q.now) }
    ensures { IfOk result (λ o. option_map step_seen o ≡ over_right_of schema.now (plan_seen p.now) (plan_seen q.now) (expr_seen c.now)) }
{
    match q {
        Plan::Select(_, _) => without_selection(alloc, schema, p, q, c),
        Plan::Project(_, _) => without_projection(alloc, schema, p, q, c),
        Plan::Distinct(r) => lighter(alloc, p, copy_plan_box(alloc, r)?, c.copy(alloc)?),
        _ => Ok(None),
    }
}

/// The condition of a selection on the right in that of the anti join, if there is one.
#[tactic(auto, using(vkg_moves::proofs::FirstSelect::kinds_wide))]
fn without_selection(
    alloc: Global,
    schema: &Schema,
    p: &Plan,
    q: &Plan,
    c: &Expr,
) -> Result<Option<(Plan, Fell)>, Memory>
    requires p { IsTyped schema.now (plan_seen p.now) }
    requires q { IsTyped schema.now (plan_seen q.now) }
    ensures { IfOk result (λ o. option_map step_seen o ≡ by_select schema.now (plan_seen p.now) (plan_seen q.now) (expr_seen c.now)) }
{
    let before = kinds(alloc, schema, p)?;
    match part_behind(alloc, schema, q, before.as_slice())? {
        None => Ok(None),
        Some((r, inner)) => lighter(alloc, p, r, and_then(alloc, &inner, c)?),
    }
}

/// The expressions of a projection on the right put into the condition of the anti join, if there is one.
#[tactic(auto, using(vkg_rules::proofs::Seen::seen_nodes))]
fn without_projection(
    alloc: Global,
    schema: &Schema,
    p: &Plan,
    q: &Plan,
    c: &Expr,
) -> Result<Option<(Plan, Fell)>, Memory>
    requires p { IsTyped schema.now (plan_seen p.now) }
    requires q { IsTyped schema.now (plan_seen q.now) }
    ensures { IfOk result (λ o. option_map step_seen o ≡ by_project schema.now (plan_seen p.now) (plan_seen q.now) (expr_seen c.now)) }
{
    let Plan::Project(_, r) = q else {
        return Ok(None);
    };
    match exprs_between(alloc, schema, q, width(schema, p)?, 0)? {
        None => Ok(None),
        Some(all) => {
            let r = copy_plan_box(alloc, r)?;
            lighter(alloc, p, r, put(alloc, c, all.as_slice())?)
        }
    }
}

/// The anti join with another right side and another condition, of less weight.
#[tactic(auto, using(vkg_rules::proofs::Seen::seen_nodes))]
fn lighter(alloc: Global, p: &Plan, q: Box<Plan>, c: Expr) -> Result<Option<(Plan, Fell)>, Memory>
    ensures { IfOk result (λ o. option_map step_seen o ≡ Some (AntiJoin (plan_seen p.now) (plan_seen q) (expr_seen c), weight.Weight)) }
{
    let p = copy_plan_box(alloc, p)?;
    Ok(Some((Plan::AntiJoin(p, q, c), Fell::Weight)))
}
