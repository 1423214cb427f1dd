ghost use Rattle.std.specs.Prelude.{◌≡◌, IfOk, None, Some, option_map};
ghost use Rattle.std.specs.Option.{option_or};
ghost use Rattle.vkg_plan.specs.Seen.{plan_seen};
ghost use Rattle.vkg_rules.specs.declared.rewrite.Fell.TheVariants as weight;
ghost use Rattle.vkg_rules.specs.Steps.{IsTyped};
ghost use Rattle.vkg_lifts.specs.BelowProjects.{exprs_above as exprs_above_of, exprs_of_left as of_left, exprs_of_right as of_right, own_exprs as own};
ghost use Rattle.vkg_lifts.specs.LiftedSeen.{exprs_seen};
ghost use Rattle.vkg_lifts.specs.LiftProjects.{lift_projects};
ghost use Rattle.vkg_lifts.specs.LiftProjectsLaw.{lift_projects-keeps, lift_projects-falls};

use crate::members::exprs_of_members;
use crate::parts::{exprs_between, is_project, keeps_nulls};
use crate::taken_out::lifted;
use crate::widths::width;
use std::alloc::Global;
use vkg_base::{Box, Items, Memory};
use vkg_expr::{Expr, copy_exprs};
use vkg_plan::Plan;
use vkg_rules::{Answer, Fell, Rewrite, unchanged};
use vkg_schema::Schema;

/// A projection below a selection, a join or a left join comes above it, and its expressions are put into the condition.
#[derive(Drop)]
pub struct LiftProjects;

impl Rewrite for LiftProjects {
    ghost becomes = { λ r. lift_projects };

    #[tactic(auto, using(crate::proofs::LiftParts::lift_is))]
    fn apply(
        &self,
        alloc: Global,
        schema: &Schema,
        plan: &Plan,
    ) -> Result<Option<(Plan, Fell)>, Memory> {
        match exprs_above(alloc, schema, plan)? {
            None => Ok(None),
            Some(es) => {
                let above = lifted(alloc, plan.copy(alloc)?, es)?;
                Ok(Some((above.into_inner(), Fell::Weight)))
            }
        }
    }

    // What is below the projection stays in memory once, and so does what is beside it.
    fn apply_again(
        &self,
        alloc: Global,
        schema: &Schema,
        plan: Box<Plan>,
        _: &[usize],
    ) -> Result<Answer, Memory> {
        match exprs_above(alloc, schema, &plan)? {
            None => Ok(unchanged(plan)),
            Some(es) => Ok(lighter(lifted(alloc, plan.into_inner(), es)?)),
        }
    }

    ghost keeps = { λ r. lift_projects-keeps };

    ghost falls = { λ r. lift_projects-falls };
}

/// A plan of less weight than before.
fn lighter(plan: Box<Plan>) -> Answer
    ensures plan { result.plan ≡ plan }
    ensures fell { result.fell ≡ Some weight.Weight }
    ensures dropped { result.dropped ≡ None }
{
    Answer {
        plan,
        fell: Some(Fell::Weight),
        dropped: None,
    }
}

/// The expressions above the node of a projection below it, if one comes above it.
#[tactic(auto, using(vkg_rules::proofs::Seen::seen_nodes))]
fn exprs_above(alloc: Global, schema: &Schema, plan: &Plan) -> Result<Option<Items<Expr>>, Memory>
    requires { IsTyped schema.now (plan_seen plan.now) }
    ensures { IfOk result (λ o. option_map exprs_seen o ≡ exprs_above_of schema.now (plan_seen plan.now)) }
{
    match plan {
        Plan::Select(_, p) => own_exprs(alloc, p),
        Plan::Join(ps, _) => exprs_of_members(alloc, schema, ps.as_slice()),
        Plan::Left(p, q, _) => exprs_of_sides(alloc, schema, p, q),
        _ => Ok(None),
    }
}

/// The expressions of a projection.
#[tactic(auto, using(vkg_rules::proofs::Seen::seen_nodes))]
fn own_exprs(alloc: Global, p: &Plan) -> Result<Option<Items<Expr>>, Memory>
    ensures { IfOk result (λ o. option_map exprs_seen o ≡ own (plan_seen p.now)) }
{
    match p {
        Plan::Project(es, _) => Ok(Some(copy_exprs(alloc, es.as_slice())?)),
        _ => Ok(None),
    }
}

/// The expressions above a left join of the projection on the left, else of the one on the right whose expressions are NULL on a
/// row of NULLs.
fn exprs_of_sides(
    alloc: Global,
    schema: &Schema,
    p: &Plan,
    q: &Plan,
) -> Result<Option<Items<Expr>>, Memory>
    requires p { IsTyped schema.now (plan_seen p.now) }
    requires q { IsTyped schema.now (plan_seen q.now) }
    ensures { IfOk result (λ o. option_map exprs_seen o ≡ option_or (of_left schema.now (plan_seen p.now) (plan_seen q.now)) (of_right schema.now (plan_seen p.now) (plan_seen q.now))) }
{
    match exprs_of_left(alloc, schema, p, q)? {
        Some(es) => Ok(Some(es)),
        None => exprs_of_right(alloc, schema, p, q),
    }
}

#[tactic(auto, using(crate::proofs::FirstProject::no_parts, crate::proofs::FirstProject::no_exprs))]
fn exprs_of_left(
    alloc: Global,
    schema: &Schema,
    p: &Plan,
    q: &Plan,
) -> Result<Option<Items<Expr>>, Memory>
    requires p { IsTyped schema.now (plan_seen p.now) }
    requires q { IsTyped schema.now (plan_seen q.now) }
    ensures { IfOk result (λ o. option_map exprs_seen o ≡ of_left schema.now (plan_seen p.now) (plan_seen q.now)) }
{
    if !is_project(p) {
        return Ok(None);
    }
    exprs_between(alloc, schema, p, 0, width(schema, q)?)
}

fn exprs_of_right(
    alloc: Global,
    schema: &Schema,
    p: &Plan,
    q: &Plan,
) -> Result<Option<Items<Expr>>, Memory>
    requires p { IsTyped schema.now (plan_seen p.now) }
    requires q { IsTyped schema.now (plan_seen q.now) }
    ensures { IfOk result (λ o. option_map exprs_seen o ≡ of_right schema.now (plan_seen p.now) (plan_seen q.now)) }
{
    if !keeps_nulls(q) {
        return Ok(None);
    }
    exprs_between(alloc, schema, q, width(schema, p)?, 0)
}
