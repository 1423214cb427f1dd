ghost use Rattle.std.specs.Prelude.{◌≡◌, ◌+◌, ◌<◌, ◌++◌, ◌∷◌, IfOk, Some, length, take, drop, not, option_map};
ghost use Rattle.std.specs.Bool.{then_some};
ghost use Rattle.std.specs.List.{list_any};
ghost use Rattle.vkg_expr.specs.Logic.{and_then as one_then_other};
ghost use Rattle.vkg_expr.specs.Seen.{expr_seen};
ghost use Rattle.vkg_plan.specs.Plan.{Join, Left, Select};
ghost use Rattle.vkg_plan.specs.Seen.{plan_seen};
ghost use Rattle.vkg_rules.specs.declared.rewrite.Fell.TheVariants as weight;
ghost use Rattle.vkg_rules.specs.Parts.{AreTyped};
ghost use Rattle.vkg_rules.specs.Steps.{IsTyped};
ghost use Rattle.vkg_rules.specs.StepSeen.{plans_seen, step_seen};
ghost use Rattle.vkg_joins.specs.MembersSeen.{members_seen};
ghost use Rattle.vkg_moves.specs.Columns.{names_behind as some_behind};
ghost use Rattle.vkg_moves.specs.MergeSelects.{first_condition as first_condition_of, is_select as a_select, member_condition as member_condition_of, merge_selects, over_condition as over_condition_of, part_behind as part_moved, unselected as unselected_behind};
ghost use Rattle.vkg_moves.specs.MergeSelectsLaw.{merge_selects-keeps, merge_selects-falls};
ghost use Rattle.vkg_moves.specs.PartsSeen.{part_seen};

use crate::answers::lighter;
use crate::columns::names_behind;
use crate::kinds::{kinds, width};
use crate::under_both::{is_over_condition, is_select, merged, opened};
use std::alloc::Global;
use vkg_base::{Box, Items, Memory};
use vkg_cells::SqlType;
use vkg_columns::{and_then, moved};
use vkg_expr::Expr;
use vkg_plan::{Plan, copy_plan_box, copy_plans};
use vkg_rules::nodes::replaced;
use vkg_rules::{Answer, Fell, Rewrite, answered};
use vkg_schema::Schema;

/// A condition over a node that has a condition, and one of a node's member, are one with the node's condition.
#[derive(Drop)]
pub struct MergeSelects;

impl Rewrite for MergeSelects {
    ghost becomes = { λ r. merge_selects };

    #[tactic(auto, using(vkg_rules::proofs::Seen::seen_nodes))]
    fn apply(
        &self,
        alloc: Global,
        schema: &Schema,
        plan: &Plan,
    ) -> Result<Option<(Plan, Fell)>, Memory> {
        match plan {
            Plan::Select(c, p) => over_condition(alloc, schema, c, p),
            Plan::Join(ps, c) => in_join(alloc, schema, ps.as_slice(), c),
            Plan::Left(p, q, c) => in_left(alloc, schema, p, q, c),
            _ => Ok(None),
        }
    }

    // What is selected from stays in memory once, where it has a condition, and so do the members of a join.
    fn apply_again(
        &self,
        alloc: Global,
        schema: &Schema,
        plan: Box<Plan>,
        _: &[usize],
    ) -> Result<Answer, Memory> {
        if is_over_condition(&plan) {
            return Ok(lighter(merged(alloc, plan.into_inner())?));
        }
        if let Some(c) = member_condition(alloc, schema, &plan)? {
            return Ok(lighter(opened(alloc, plan.into_inner(), &c)?));
        }
        let made = self.apply(alloc, schema, &plan)?;
        answered(alloc, plan, made)
    }

    ghost keeps = { λ r. merge_selects-keeps };

    ghost falls = { λ r. merge_selects-falls };
}

// ---- over a node with a condition

/// A selection over a node that has a condition: one condition, or the selection below a left join.
#[tactic(auto, using(vkg_rules::proofs::Seen::seen_nodes))]
fn over_condition(
    alloc: Global,
    schema: &Schema,
    c: &Expr,
    p: &Plan,
) -> Result<Option<(Plan, Fell)>, Memory>
    requires { IsTyped schema.now (Select (expr_seen c.now) (plan_seen p.now)) }
    ensures { IfOk result (λ o. option_map step_seen o ≡ over_condition_of schema.now (expr_seen c.now) (plan_seen p.now)) }
{
    match p {
        Plan::Select(d, q) => one_select(alloc, d, c, q),
        Plan::Join(ps, d) => one_join(alloc, ps.as_slice(), d, c),
        Plan::Left(l, r, d) => below_left(alloc, c, l, r, d, width(alloc, schema, l)?),
        _ => Ok(None),
    }
}

#[tactic(auto, using(vkg_rules::proofs::Seen::seen_nodes))]
fn one_select(
    alloc: Global,
    inner: &Expr,
    outer: &Expr,
    p: &Plan,
) -> Result<Option<(Plan, Fell)>, Memory>
    ensures { IfOk result (λ o. option_map step_seen o ≡ Some (Select (one_then_other (expr_seen inner.now) (expr_seen outer.now)) (plan_seen p.now), weight.Weight)) }
{
    let p = copy_plan_box(alloc, p)?;
    Ok(Some((
        Plan::Select(and_then(alloc, inner, outer)?, p),
        Fell::Weight,
    )))
}

#[tactic(auto, using(vkg_rules::proofs::Seen::seen_nodes))]
fn one_join(
    alloc: Global,
    ps: &[Plan],
    inner: &Expr,
    outer: &Expr,
) -> Result<Option<(Plan, Fell)>, Memory>
    ensures { IfOk result (λ o. option_map step_seen o ≡ Some (Join (plans_seen ps.now) (one_then_other (expr_seen inner.now) (expr_seen outer.now)), weight.Weight)) }
{
    let ps = copy_plans(alloc, ps)?;
    Ok(Some((Plan::Join(ps, and_then(alloc, inner, outer)?), Fell::Weight)))
}

/// The selection on the left of a left join, if its condition names none of the columns behind the first n.
#[tactic(auto, using(vkg_rules::proofs::Seen::seen_nodes))]
fn below_left(
    alloc: Global,
    c: &Expr,
    l: &Plan,
    r: &Plan,
    d: &Expr,
    n: usize,
) -> Result<Option<(Plan, Fell)>, Memory>
    ensures { IfOk result (λ o. option_map step_seen o ≡ then_some (not (some_behind n (expr_seen c.now))) (Left (Select (expr_seen c.now) (plan_seen l.now)) (plan_seen r.now) (expr_seen d.now), weight.Weight)) }
{
    if names_behind(c, n) {
        return Ok(None);
    }
    let l = selected(alloc, c, l)?;
    let r = copy_plan_box(alloc, r)?;
    Ok(Some((Plan::Left(l, r, d.copy(alloc)?), Fell::Weight)))
}

#[tactic(auto, using(vkg_rules::proofs::Seen::seen_nodes))]
fn selected(alloc: Global, c: &Expr, p: &Plan) -> Result<Box<Plan>, Memory>
    ensures { IfOk result (λ q. plan_seen q ≡ Select (expr_seen c.now) (plan_seen p.now)) }
{
    let p = copy_plan_box(alloc, p)?;
    Box::new(alloc, Plan::Select(c.copy(alloc)?, p))
}

// ---- among the members of a join

/// The join of plans under a condition with the first selection among them in its condition, if there is one.
fn in_join(
    alloc: Global,
    schema: &Schema,
    ps: &[Plan],
    c: &Expr,
) -> Result<Option<(Plan, Fell)>, Memory>
    requires { IsTyped schema.now (Join (plans_seen ps.now) (expr_seen c.now)) }
    ensures { IfOk result (λ o. option_map step_seen o ≡ merge_selects schema.now (Join (plans_seen ps.now) (expr_seen c.now))) }
{
    rejoined(alloc, unselected(alloc, schema, ps)?, c)
}

/// The join of plans under their condition and then another, if there are any.
#[tactic(auto, using(vkg_rules::proofs::Seen::seen_nodes))]
fn rejoined(
    alloc: Global,
    plans: Option<(Items<Plan>, Box<Expr>)>,
    c: &Expr,
) -> Result<Option<(Plan, Fell)>, Memory>
    ensures { IfOk result (λ o. option_map step_seen o ≡ option_map (λ x. (Join x.0 (one_then_other x.1 (expr_seen c.now)), weight.Weight)) (option_map members_seen plans)) }
{
    match plans {
        None => Ok(None),
        Some((ps, inner)) => {
            let both = and_then(alloc, &inner, c)?;
            Ok(Some((Plan::Join(ps, both), Fell::Weight)))
        }
    }
}

/// The plans with what the first selection selects from in its place, and its condition over their columns, if there is one.
#[tactic(auto, using(crate::proofs::FirstSelect::no_select))]
fn unselected(
    alloc: Global,
    schema: &Schema,
    ps: &[Plan],
) -> Result<Option<(Items<Plan>, Box<Expr>)>, Memory>
    requires { AreTyped schema.now (plans_seen ps.now) }
    ensures { IfOk result (λ o. option_map members_seen o ≡ unselected_behind schema.now 0 (plans_seen ps.now)) }
{
    if !has_select(ps) {
        return Ok(None);
    }
    let mut before = Items::new(alloc);
    for i in 0..ps.len() {
        let p = &ps[i];
        if let Some((inner, c)) = part_behind(alloc, schema, p, before.as_slice())? {
            return Ok(Some((in_place(alloc, ps, i, inner)?, c)));
        }
        before.append(kinds(alloc, schema, p)?)?;
    }
    Ok(None)
}

/// Whether one of the plans is a selection. Without one no columns are counted.
fn has_select(ps: &[Plan]) -> bool
    ensures { result ≡ list_any (λ p. a_select (plan_seen p)) ps.now }
{
    ps.iter().any(|p| is_select(p))
}

/// What a selection selects from, and its condition, whose columns are moved behind those before it.
#[tactic(auto, using(vkg_rules::proofs::Seen::seen_nodes))]
pub fn part_behind(
    alloc: Global,
    schema: &Schema,
    p: &Plan,
    before: &[SqlType],
) -> Result<Option<(Box<Plan>, Box<Expr>)>, Memory>
    requires { IsTyped schema.now (plan_seen p.now) }
    ensures { IfOk result (λ o. option_map part_seen o ≡ part_moved (length before.now) (plan_seen p.now)) }
{
    match p {
        Plan::Select(c, q) => {
            let own = kinds(alloc, schema, p)?;
            let q = copy_plan_box(alloc, q)?;
            let c = Box::new(alloc, moved(alloc, c, before, own.as_slice())?)?;
            Ok(Some((q, c)))
        }
        _ => Ok(None),
    }
}

/// The plans with another in the place of the one at i.
fn in_place(alloc: Global, ps: &[Plan], i: usize, p: Box<Plan>) -> Result<Items<Plan>, Memory>
    requires { i < length ps.now }
    ensures { IfOk result (λ r. r ≡ take i ps.now ++ p ∷ drop (i + 1) ps.now) }
{
    replaced(alloc, ps, i, p.into_inner())
}

// ---- the condition of the first selection among them

/// The condition of the first selection among the members of a join, over their columns, if there is one.
#[tactic(auto, using(vkg_rules::proofs::Seen::seen_nodes))]
fn member_condition(
    alloc: Global,
    schema: &Schema,
    plan: &Plan,
) -> Result<Option<Box<Expr>>, Memory>
    requires { IsTyped schema.now (plan_seen plan.now) }
    ensures { IfOk result (λ o. option_map expr_seen o ≡ member_condition_of schema.now (plan_seen plan.now)) }
{
    match plan {
        Plan::Join(ps, _) => first_condition(alloc, schema, ps.as_slice()),
        _ => Ok(None),
    }
}

#[tactic(auto, using(crate::proofs::FirstSelect::no_condition))]
fn first_condition(alloc: Global, schema: &Schema, ps: &[Plan]) -> Result<Option<Box<Expr>>, Memory>
    requires { AreTyped schema.now (plans_seen ps.now) }
    ensures { IfOk result (λ o. option_map expr_seen o ≡ first_condition_of schema.now (plans_seen ps.now)) }
{
    if !has_select(ps) {
        return Ok(None);
    }
    let mut before = Items::new(alloc);
    for i in 0..ps.len() {
        let p = &ps[i];
        if let Some(c) = condition_behind(alloc, schema, p, before.as_slice())? {
            return Ok(Some(c));
        }
        before.append(kinds(alloc, schema, p)?)?;
    }
    Ok(None)
}

/// The condition of a selection, whose columns are moved behind those before it.
#[tactic(auto, using(vkg_rules::proofs::Seen::seen_nodes))]
fn condition_behind(
    alloc: Global,
    schema: &Schema,
    p: &Plan,
    before: &[SqlType],
) -> Result<Option<Box<Expr>>, Memory>
    requires { IsTyped schema.now (plan_seen p.now) }
    ensures { IfOk result (λ o. option_map expr_seen o ≡ option_map (λ x. x.1) (part_moved (length before.now) (plan_seen p.now))) }
{
    match p {
        Plan::Select(c, _) => {
            let own = kinds(alloc, schema, p)?;
            Ok(Some(Box::new(alloc, moved(alloc, c, before, own.as_slice())?)?))
        }
        _ => Ok(None),
    }
}

// ---- on the right of a left join

/// The left join with the condition of a selection on its right in its own, if there is one.
#[tactic(auto, using(crate::proofs::FirstSelect::kinds_wide, crate::proofs::FirstSelect::no_part))]
fn in_left(
    alloc: Global,
    schema: &Schema,
    p: &Plan,
    q: &Plan,
    c: &Expr,
) -> Result<Option<(Plan, Fell)>, Memory>
    requires { IsTyped schema.now (Left (plan_seen p.now) (plan_seen q.now) (expr_seen c.now)) }
    ensures { IfOk result (λ o. option_map step_seen o ≡ merge_selects schema.now (Left (plan_seen p.now) (plan_seen q.now) (expr_seen c.now))) }
{
    if !is_select(q) {
        return Ok(None);
    }
    let before = kinds(alloc, schema, p)?;
    with_right(
        alloc,
        p,
        part_behind(alloc, schema, q, before.as_slice())?,
        c,
    )
}

/// The left join with a right side under its condition and then another, if there is one.
#[tactic(auto, using(vkg_rules::proofs::Seen::seen_nodes))]
fn with_right(
    alloc: Global,
    p: &Plan,
    right: Option<(Box<Plan>, Box<Expr>)>,
    c: &Expr,
) -> Result<Option<(Plan, Fell)>, Memory>
    ensures { IfOk result (λ o. option_map step_seen o ≡ option_map (λ x. (Left (plan_seen p.now) x.0 (one_then_other x.1 (expr_seen c.now)), weight.Weight)) (option_map part_seen right)) }
{
    match right {
        None => Ok(None),
        Some((q, inner)) => {
            let p = copy_plan_box(alloc, p)?;
            let both = and_then(alloc, &inner, c)?;
            Ok(Some((Plan::Left(p, q, both), Fell::Weight)))
        }
    }
}
