ghost use Rattle.std.specs.Prelude.{◌≡◌, IfOk, Some, map, option_map};
ghost use Rattle.std.specs.Bool.{then_some};
ghost use Rattle.vkg_columns.specs.Columns.{at_place};
ghost use Rattle.vkg_expr.specs.Seen.{expr_seen};
ghost use Rattle.vkg_expr.specs.Strict.{put as put_in};
ghost use Rattle.vkg_plan.specs.Kinds.{width as width_of};
ghost use Rattle.vkg_plan.specs.Plan.{Project};
ghost use Rattle.vkg_plan.specs.Seen.{plan_seen};
ghost use Rattle.vkg_rules.specs.declared.rewrite.Fell.TheVariants as weight;
ghost use Rattle.vkg_rules.specs.Steps.{IsTyped};
ghost use Rattle.vkg_rules.specs.StepSeen.{step_seen};
ghost use Rattle.vkg_moves.specs.MergeProjects.{are_columns_from, are_in_place as all_in_place, is_column_at as column_at, is_whole as whole, merge_projects, projected as projected_of};
ghost use Rattle.vkg_moves.specs.MergeProjectsLaw.{merge_projects-keeps, merge_projects-falls};

use crate::answers::lighter;
use crate::kinds::width;
use crate::taken_apart::{below, is_twice, merged};
use std::alloc::Global;
use vkg_base::{Box, Items, Memory};
use vkg_columns::put;
use vkg_expr::Expr;
use vkg_plan::{Plan, copy_plan_box};
use vkg_rules::{Answer, Fell, Rewrite, unchanged};
use vkg_schema::Schema;

/// A projection of a projection is one, and one of all columns in place is what it projects.
#[derive(Drop)]
pub struct MergeProjects;

impl Rewrite for MergeProjects {
    ghost becomes = { λ r. merge_projects };

    #[tactic(auto, using(vkg_rules::proofs::Seen::seen_nodes))]
    fn apply(
        &self,
        alloc: Global,
        schema: &Schema,
        plan: &Plan,
    ) -> Result<Option<(Plan, Fell)>, Memory> {
        match plan {
            Plan::Project(es, p) => projected(alloc, schema, es.as_slice(), p),
            _ => Ok(None),
        }
    }

    // What is projected stays in memory once.
    fn apply_again(
        &self,
        alloc: Global,
        schema: &Schema,
        plan: Box<Plan>,
        _: &[usize],
    ) -> Result<Answer, Memory> {
        if is_twice(&plan) {
            return Ok(lighter(merged(alloc, plan)?));
        }
        if is_whole(alloc, schema, &plan)? {
            return Ok(lighter(below(alloc, plan)?));
        }
        Ok(unchanged(plan))
    }

    ghost keeps = { λ r. merge_projects-keeps };

    ghost falls = { λ r. merge_projects-falls };
}

/// What is in the place of a projection, if there is another plan for it.
#[tactic(auto, using(vkg_rules::proofs::Seen::seen_nodes))]
fn projected(
    alloc: Global,
    schema: &Schema,
    es: &[Expr],
    p: &Plan,
) -> Result<Option<(Plan, Fell)>, Memory>
    requires { IsTyped schema.now (Project (map expr_seen es.now) (plan_seen p.now)) }
    ensures { IfOk result (λ o. option_map step_seen o ≡ projected_of schema.now (map expr_seen es.now) (plan_seen p.now)) }
{
    match p {
        Plan::Project(fs, q) => composed(alloc, es, fs.as_slice(), q),
        _ => unprojected(alloc, schema, es, p),
    }
}

/// One projection in the place of two.
#[tactic(auto, using(vkg_rules::proofs::Seen::seen_nodes))]
fn composed(
    alloc: Global,
    es: &[Expr],
    fs: &[Expr],
    p: &Plan,
) -> Result<Option<(Plan, Fell)>, Memory>
    ensures { IfOk result (λ o. option_map step_seen o ≡ Some (Project (map (put_in (at_place (map expr_seen fs.now))) (map expr_seen es.now)) (plan_seen p.now), weight.Weight)) }
{
    let all = put_each(alloc, es, fs)?;
    Ok(Some((Plan::Project(all, copy_plan_box(alloc, p)?), Fell::Weight)))
}

/// The expressions with those of the second list in the place of their columns.
pub fn put_each(alloc: Global, es: &[Expr], fs: &[Expr]) -> Result<Items<Expr>, Memory>
    ensures { IfOk result (λ gs. map expr_seen gs ≡ map (put_in (at_place (map expr_seen fs.now))) (map expr_seen es.now)) }
{
    let mut all = Items::new(alloc);
    for e in es {
        all.push(put(alloc, e, fs)?)?;
    }
    Ok(all)
}

/// The plan itself, if the expressions are all of its columns in place.
fn unprojected(
    alloc: Global,
    schema: &Schema,
    es: &[Expr],
    p: &Plan,
) -> Result<Option<(Plan, Fell)>, Memory>
    requires { IsTyped schema.now (Project (map expr_seen es.now) (plan_seen p.now)) }
    ensures { IfOk result (λ o. option_map step_seen o ≡ then_some (all_in_place (width_of schema.now (plan_seen p.now)) (map expr_seen es.now)) (plan_seen p.now, weight.Weight)) }
{
    if are_all(alloc, schema, es, p)? {
        Ok(Some((p.copy(alloc)?, Fell::Weight)))
    } else {
        Ok(None)
    }
}

/// Whether it is a projection of all columns in place.
#[tactic(auto, using(vkg_rules::proofs::Seen::seen_nodes))]
fn is_whole(alloc: Global, schema: &Schema, plan: &Plan) -> Result<bool, Memory>
    requires { IsTyped schema.now (plan_seen plan.now) }
    ensures { IfOk result (λ b. b ≡ whole schema.now (plan_seen plan.now)) }
{
    match plan {
        Plan::Project(es, p) => are_all(alloc, schema, es.as_slice(), p),
        _ => Ok(false),
    }
}

/// Whether the expressions are all columns of the plan in place.
fn are_all(alloc: Global, schema: &Schema, es: &[Expr], p: &Plan) -> Result<bool, Memory>
    requires { IsTyped schema.now (Project (map expr_seen es.now) (plan_seen p.now)) }
    ensures { IfOk result (λ b. b ≡ all_in_place (width_of schema.now (plan_seen p.now)) (map expr_seen es.now)) }
{
    if !are_columns(es) {
        return Ok(false);
    }
    Ok(es.len() == width(alloc, schema, p)?)
}

/// Whether each expression is the column at its place.
#[tactic(auto, using(crate::proofs::InPlace::columns_here))]
fn are_columns(es: &[Expr]) -> bool
    ensures { result ≡ are_columns_from 0 (map expr_seen es.now) }
{
    for i in 0..es.len() {
        if !is_column_at(&es[i], i) {
            return false;
        }
    }
    true
}

fn is_column_at(e: &Expr, at: usize) -> bool
    ensures { result ≡ column_at at (expr_seen e.now) }
{
    match e {
        Expr::Col(column) => *column == at,
        _ => false,
    }
}
