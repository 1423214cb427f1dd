ghost use Rattle.std.specs.Prelude.{◌≡◌, IfOk, None, map, option_and_then, option_map};
ghost use Rattle.vkg_conditions.specs.Cases.{case_in, first_case as case_that_applies, simplified_in, smaller};
ghost use Rattle.vkg_conditions.specs.NodeCondition.{condition_of};
ghost use Rattle.vkg_conditions.specs.SimplifyCondition.{in_condition as in_conjuncts_of, in_own as in_own_exprs, same_itself, simplify_condition};
ghost use Rattle.vkg_conditions.specs.SimplifyConditionLaw.{simplify_condition-keeps, simplify_condition-falls};
ghost use Rattle.vkg_expr.specs.Seen.{expr_seen};
ghost use Rattle.vkg_plan.specs.Plan.{AntiJoin, Join, Left, Project, Select};
ghost use Rattle.vkg_plan.specs.Seen.{plan_seen};
ghost use Rattle.vkg_rules.specs.Places.{outcome};
ghost use Rattle.vkg_rules.specs.Steps.{IsTyped};
ghost use Rattle.vkg_rules.specs.StepSeen.{plans_seen, step_seen};

use crate::cases::Case;
use crate::change::Change;
use crate::conjuncts::in_conjuncts;
use crate::node_condition::{condition, conditioned, has_condition};
use crate::places::{first_place, in_list};
use std::alloc::Global;
use vkg_base::{Box, Items, Memory};
use vkg_expr::Expr;
use vkg_plan::{Plan, copy_plan_box, copy_plans};
use vkg_rules::{Answer, Fell, Rewrite, answered, last_turn, unchanged};
use vkg_schema::Schema;

/// The cases, in the order in which they are tried.
const CASES: [Case; 6] = [
    Case::Deciding,
    Case::Neutral,
    Case::Negated,
    Case::Flat,
    Case::TwiceNegated,
    Case::Repeated,
];

/// What is constant, nested or said twice in a plan's own expressions goes, one step at a time: the first case that applies
/// anywhere in them, at its first place.
#[derive(Drop)]
pub struct SimplifyCondition;

impl Rewrite for SimplifyCondition {
    ghost becomes = { λ r. simplify_condition };

    #[tactic(auto, unfolding(crate::specs::SimplifyCondition::simplify_condition))]
    fn apply(
        &self,
        alloc: Global,
        _: &Schema,
        plan: &Plan,
    ) -> Result<Option<(Plan, Fell)>, Memory> {
        first_case(alloc, &CASES, plan)
    }

    // What is below a condition stays in memory once.
    fn apply_again(
        &self,
        alloc: Global,
        schema: &Schema,
        plan: Box<Plan>,
        place: &[usize],
    ) -> Result<Answer, Memory> {
        match last_turn(place) {
            // the plan's own expressions are what they were
            Some(_) => Ok(unchanged(plan)),
            None => simpler(self, alloc, schema, plan),
        }
    }

    ghost keeps = { λ r. simplify_condition-keeps };

    ghost falls = { λ r. simplify_condition-falls };
}

// ---- the condition alone, where the plan has one

/// The plan after a step in its own expressions, if there is one.
#[tactic(auto, using(crate::proofs::InCondition::simplified_is))]
fn simpler(
    rule: &SimplifyCondition,
    alloc: Global,
    schema: &Schema,
    plan: Box<Plan>,
) -> Result<Answer, Memory>
    requires { IsTyped schema.now (plan_seen plan) }
    ensures value { IfOk result (λ x. (plan_seen x.plan, x.fell) ≡ outcome (plan_seen plan) (simplify_condition schema.now (plan_seen plan))) }
    ensures dropped { IfOk result (λ x. x.dropped ≡ None) }
{
    if has_condition(&plan) {
        let c = simpler_condition(alloc, &plan)?;
        return conditioned(alloc, plan, c, Fell::Size);
    }
    let made = rule.apply(alloc, schema, &plan)?;
    answered(alloc, plan, made)
}

/// The condition of the plan's first node after the first case that applies in it, if one does.
fn simpler_condition(alloc: Global, plan: &Plan) -> Result<Option<Box<Expr>>, Memory>
    ensures { IfOk result (λ o. option_map expr_seen o ≡ option_and_then simplified_in (condition_of (plan_seen plan.now))) }
{
    match condition(plan) {
        None => Ok(None),
        Some(c) => first_in(alloc, &CASES, c),
    }
}

/// A condition after the first of some cases that applies in it, else with a conjunct that is equal to itself changed.
fn first_in(alloc: Global, cases: &[Case], c: &Expr) -> Result<Option<Box<Expr>>, Memory>
    ensures { IfOk result (λ o. option_map expr_seen o ≡ case_in cases.now (expr_seen c.now)) }
{
    for case in cases {
        if let Some(d) = first_place(alloc, case, c)? {
            return Ok(Some(d));
        }
    }
    in_conjuncts(alloc, c)
}

// ---- all of its own expressions

/// The first of some cases that applies in the plan's own expressions, else a conjunct that is equal to itself.
#[tactic(auto, using(crate::proofs::Tried::first_does_not))]
fn first_case(alloc: Global, cases: &[Case], plan: &Plan) -> Result<Option<(Plan, Fell)>, Memory>
    ensures { IfOk result (λ o. option_map step_seen o ≡ option_map smaller (case_that_applies cases.now (plan_seen plan.now))) }
{
    for case in cases {
        if let Some(x) = in_own(alloc, case, plan)? {
            return Ok(Some(x));
        }
    }
    in_condition(alloc, plan)
}

/// A plan changed at the first place of its own expressions, its condition or what it projects, to which the change applies.
pub fn in_own<C: Change>(
    alloc: Global,
    change: &C,
    plan: &Plan,
) -> Result<Option<(Plan, Fell)>, Memory>
    ensures { IfOk result (λ o. option_map step_seen o ≡ option_map smaller (in_own_exprs (C.becomes change.now) (plan_seen plan.now))) }
{
    match plan {
        Plan::Select(c, p) => selected(alloc, first_place(alloc, change, c)?, p),
        Plan::Project(es, p) => projected(alloc, in_list(alloc, change, es.as_slice())?, p),
        Plan::Join(ps, c) => joined(alloc, ps.as_slice(), first_place(alloc, change, c)?),
        Plan::Left(p, q, c) => left_joined(alloc, p, q, first_place(alloc, change, c)?),
        Plan::AntiJoin(p, q, c) => anti_joined(alloc, p, q, first_place(alloc, change, c)?),
        _ => Ok(None),
    }
}

/// A step in the conjuncts of the plan's condition.
fn in_condition(alloc: Global, plan: &Plan) -> Result<Option<(Plan, Fell)>, Memory>
    ensures { IfOk result (λ o. option_map step_seen o ≡ option_map smaller (in_conjuncts_of same_itself (plan_seen plan.now))) }
{
    match plan {
        Plan::Select(c, p) => selected(alloc, in_conjuncts(alloc, c)?, p),
        Plan::Join(ps, c) => joined(alloc, ps.as_slice(), in_conjuncts(alloc, c)?),
        Plan::Left(p, q, c) => left_joined(alloc, p, q, in_conjuncts(alloc, c)?),
        Plan::AntiJoin(p, q, c) => anti_joined(alloc, p, q, in_conjuncts(alloc, c)?),
        _ => Ok(None),
    }
}

#[tactic(auto, using(vkg_rules::proofs::Seen::seen_nodes))]
fn selected(alloc: Global, c: Option<Box<Expr>>, p: &Plan) -> Result<Option<(Plan, Fell)>, Memory>
    ensures { IfOk result (λ o. option_map step_seen o ≡ option_map smaller (option_map (λ d. Select d (plan_seen p.now)) (option_map expr_seen c))) }
{
    match c {
        None => Ok(None),
        Some(c) => {
            let p = copy_plan_box(alloc, p)?;
            Ok(Some((Plan::Select(c.into_inner(), p), Fell::Size)))
        }
    }
}

#[tactic(auto, using(vkg_rules::proofs::Seen::seen_nodes))]
fn projected(
    alloc: Global,
    es: Option<Items<Expr>>,
    p: &Plan,
) -> Result<Option<(Plan, Fell)>, Memory>
    ensures { IfOk result (λ o. option_map step_seen o ≡ option_map smaller (option_map (λ ds. Project ds (plan_seen p.now)) (option_map (map expr_seen) es))) }
{
    match es {
        None => Ok(None),
        Some(es) => {
            let p = copy_plan_box(alloc, p)?;
            Ok(Some((Plan::Project(es, p), Fell::Size)))
        }
    }
}

#[tactic(auto, using(vkg_rules::proofs::Seen::seen_nodes))]
fn joined(alloc: Global, ps: &[Plan], c: Option<Box<Expr>>) -> Result<Option<(Plan, Fell)>, Memory>
    ensures { IfOk result (λ o. option_map step_seen o ≡ option_map smaller (option_map (Join (plans_seen ps.now)) (option_map expr_seen c))) }
{
    match c {
        None => Ok(None),
        Some(c) => {
            let ps = copy_plans(alloc, ps)?;
            Ok(Some((Plan::Join(ps, c.into_inner()), Fell::Size)))
        }
    }
}

#[tactic(auto, using(vkg_rules::proofs::Seen::seen_nodes))]
fn left_joined(
    alloc: Global,
    p: &Plan,
    q: &Plan,
    c: Option<Box<Expr>>,
) -> Result<Option<(Plan, Fell)>, Memory>
    ensures { IfOk result (λ o. option_map step_seen o ≡ option_map smaller (option_map (Left (plan_seen p.now) (plan_seen q.now)) (option_map expr_seen c))) }
{
    match c {
        None => Ok(None),
        Some(c) => {
            let p = copy_plan_box(alloc, p)?;
            let q = copy_plan_box(alloc, q)?;
            Ok(Some((Plan::Left(p, q, c.into_inner()), Fell::Size)))
        }
    }
}

#[tactic(auto, using(vkg_rules::proofs::Seen::seen_nodes))]
fn anti_joined(
    alloc: Global,
    p: &Plan,
    q: &Plan,
    c: Option<Box<Expr>>,
) -> Result<Option<(Plan, Fell)>, Memory>
    ensures { IfOk result (λ o. option_map step_seen o ≡ option_map smaller (option_map (AntiJoin (plan_seen p.now) (plan_seen q.now)) (option_map expr_seen c))) }
{
    match c {
        None => Ok(None),
        Some(c) => {
            let p = copy_plan_box(alloc, p)?;
            let q = copy_plan_box(alloc, q)?;
            Ok(Some((Plan::AntiJoin(p, q, c.into_inner()), Fell::Size)))
        }
    }
}
