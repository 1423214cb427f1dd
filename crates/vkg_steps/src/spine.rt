// Steps in a plan that is taken apart on the left: nodes at which the rule rests stay around the part that is looked at, and are not
// gone through again at each step. So a step that goes from one of k left joins, each on the left of another, to the next one takes
// a few looks, and not k.
ghost use Rattle.std.specs.Prelude.{◌≡◌, [], IfOk, IfSome, None, reverse};
ghost use Rattle.vkg_plan.specs.Seen.{plan_seen};
ghost use Rattle.vkg_rules.specs.Everywhere.{everywhere};
ghost use Rattle.vkg_rules.specs.Steps.{IsTyped};
ghost use Rattle.vkg_schema.specs.Meets.{IsWellFormed};
ghost use Rattle.vkg_steps.specs.Outcomes.{IsStep};
ghost use Rattle.vkg_steps.specs.Rests.{Rests as RestsAt};
ghost use Rattle.vkg_steps.specs.Sides.{side_seen, sides_seen};
ghost use Rattle.vkg_steps.specs.Spine.{AllRest, GoesDown, HasStepped, IsAround, IsLeftwards, IsOpened, IsRaised, IsStepOf, over as node_over, path_over, within};

use crate::in_place::{Stepped, changed, on_left, projected, step_below, step_right};
use crate::resting::Resting;
use std::alloc::Global;
use vkg_base::{Box, Items, Memory};
use vkg_expr::Expr;
use vkg_plan::Plan;
use vkg_rules::last_turn;
use vkg_schema::Schema;

/// A node around a plan.
#[derive(Drop)]
pub enum Side {
    /// A left join with the plan on its left: its right side, and its condition.
    Joined(Box<Plan>, Expr),
    /// A projection of the plan: its expressions.
    Projected(Items<Expr>),
}

/// The whole after a step at the first subplan that the rule changes: a plan, and the sides around it, the outermost first. Where there is
/// no step, nothing is around the plan any more.
pub fn step_within<R: Resting>(
    rule: &R,
    alloc: Global,
    schema: &Schema,
    around: &mut Items<Side>,
    plan: Box<Plan>,
    place: &[usize],
) -> Result<Stepped, Memory>
    requires form { IsWellFormed schema.now }
    requires typed { IsTyped schema.now (within (sides_seen around.old) (plan_seen plan)) }
    requires around { IsAround schema.now (R.becomes rule.now schema.now) (sides_seen around.old) (plan_seen plan) (reverse place.now) (within (sides_seen around.old) (plan_seen plan)) }
    ensures { IfOk result (λ x. IsStepOf schema.now (R.becomes rule.now schema.now) (within (sides_seen around.old) (plan_seen plan)) (sides_seen around.new) (plan_seen x.plan) x.fell (reverse x.place)) }
{
    let stepped = dive(rule, alloc, schema, around, plan, place)?;
    match stepped.fell {
        Some(_) => surface(around, stepped),
        None => climb(rule, alloc, schema, around, stepped.plan),
    }
}

// ---- down to the left

/// A step in the plan, or in what is on the left of it as far down as the rule rests and the place leads there.
fn dive<R: Resting>(
    rule: &R,
    alloc: Global,
    schema: &Schema,
    around: &mut Items<Side>,
    plan: Box<Plan>,
    place: &[usize],
) -> Result<Stepped, Memory>
    requires typed { IsTyped schema.now (within (sides_seen around.old) (plan_seen plan)) }
    requires around { IsAround schema.now (R.becomes rule.now schema.now) (sides_seen around.old) (plan_seen plan) (reverse place.now) (within (sides_seen around.old) (plan_seen plan)) }
    ensures { IfOk result (λ x. HasStepped schema.now (R.becomes rule.now schema.now) (within (sides_seen around.old) (plan_seen plan)) (sides_seen around.new) (plan_seen x.plan) x.fell x.place) }
{
    let mut plan = plan;
    let mut below = place;
    let mut is_outermost = around.is_empty();
    loop {
        let asked = rule.apply_again(alloc, schema, plan, below)?;
        if let Some(_) = asked.fell {
            return changed(alloc, asked, below);
        }
        let Some(next) = way_down(rule, schema, is_outermost, &asked.plan, below) else {
            return step_below(rule, alloc, schema, asked.plan.into_inner(), below);
        };
        plan = opened(alloc, around, asked.plan.into_inner())?;
        below = next;
        is_outermost = false;
    }
}

/// The place below a node at which the rule rests, if it leads to the left, or below a projection that is the outermost.
#[tactic(auto, using(vkg_rules::proofs::Seen::seen_nodes))]
fn way_down<'a, R: Resting>(
    rule: &R,
    schema: &Schema,
    is_outermost: bool,
    plan: &Plan,
    place: &'a [usize],
) -> Option<&'a [usize]>
    requires typed { IsTyped schema.now (plan_seen plan.now) }
    requires none { R.becomes rule.now schema.now (plan_seen plan.now) ≡ None }
    ensures { IfSome result (λ below. GoesDown schema.now (R.becomes rule.now schema.now) is_outermost (reverse place.now) (reverse below.now) (plan_seen plan.now)) }
{
    match plan {
        Plan::Left(_, _, _) => {
            if rule.rests(schema, plan) {
                leftwards(place)
            } else {
                None
            }
        }
        Plan::Project(_, _) => {
            if is_outermost && rule.rests(schema, plan) {
                Some(place)
            } else {
                None
            }
        }
        _ => None,
    }
}

/// What is left of a place behind a first turn to the left.
fn leftwards(place: &[usize]) -> Option<&[usize]>
    ensures { IfSome result (λ below. IsLeftwards (reverse below.now) (reverse place.now)) }
{
    let Some((turn, below)) = last_turn(place) else {
        return Some(&[]);
    };
    if turn == 0 { Some(below) } else { None }
}

/// What is on the left of a left join, or below a projection; the rest of it is one more of the sides.
#[tactic(auto, using(vkg_rules::proofs::Seen::seen_nodes))]
fn opened(alloc: Global, around: &mut Items<Side>, plan: Plan) -> Result<Box<Plan>, Memory>
    ensures { IfOk result (λ p. IsOpened (sides_seen around.old) (plan_seen plan) (sides_seen around.new) (plan_seen p)) }
{
    match plan {
        Plan::Left(p, q, c) => {
            around.push(Side::Joined(q, c))?;
            Ok(p)
        }
        Plan::Project(es, p) => {
            around.push(Side::Projected(es))?;
            Ok(p)
        }
        _ => Box::new(alloc, plan),
    }
}

// ---- up again

/// The node of a plan that was changed and of the innermost side, which is asked next; the plan itself where nothing is around it.
fn surface(around: &mut Items<Side>, stepped: Stepped) -> Result<Stepped, Memory>
    ensures raised { IfOk result (λ x. IsRaised (sides_seen around.old) (plan_seen stepped.plan) (reverse stepped.place) (sides_seen around.new) (plan_seen x.plan) (reverse x.place)) }
    ensures fell { IfOk result (λ x. x.fell ≡ stepped.fell) }
{
    match around.pop() {
        None => Ok(stepped),
        Some(side) => over(stepped.place.alloc(), side, stepped),
    }
}

/// The node of a side and of a plan.
fn over(alloc: Global, side: Side, x: Stepped) -> Result<Stepped, Memory>
    ensures plan { IfOk result (λ y. plan_seen y.plan ≡ node_over (side_seen side) (plan_seen x.plan)) }
    ensures fell { IfOk result (λ y. y.fell ≡ x.fell) }
    ensures place { IfOk result (λ y. reverse y.place ≡ path_over (side_seen side) (reverse x.place)) }
{
    match side {
        Side::Joined(q, c) => on_left(alloc, x, q, c),
        Side::Projected(es) => projected(alloc, es, x),
    }
}

/// A step behind a plan in which there is none: on the right of a left join around it, of the innermost first.
fn climb<R: Resting>(
    rule: &R,
    alloc: Global,
    schema: &Schema,
    around: &mut Items<Side>,
    plan: Box<Plan>,
) -> Result<Stepped, Memory>
    requires form { IsWellFormed schema.now }
    requires typed { IsTyped schema.now (within (sides_seen around.old) (plan_seen plan)) }
    requires rest { AllRest schema.now (R.becomes rule.now schema.now) (sides_seen around.old) (plan_seen plan) }
    requires none { everywhere (R.becomes rule.now schema.now) (plan_seen plan) ≡ None }
    ensures { IfOk result (λ x. IsStepOf schema.now (R.becomes rule.now schema.now) (within (sides_seen around.old) (plan_seen plan)) (sides_seen around.new) (plan_seen x.plan) x.fell (reverse x.place)) }
{
    let mut plan = plan;
    loop {
        let Some(side) = around.pop() else {
            return Ok(unstepped(alloc, plan));
        };
        let stepped = step_beside(rule, alloc, schema, plan, side)?;
        if stepped.fell.is_some() {
            return surface(around, stepped);
        }
        plan = stepped.plan;
    }
}

/// A step in the node of a side and of a plan in which there is none, where the rule rests at the node.
fn step_beside<R: Resting>(
    rule: &R,
    alloc: Global,
    schema: &Schema,
    plan: Box<Plan>,
    side: Side,
) -> Result<Stepped, Memory>
    requires typed { IsTyped schema.now (node_over (side_seen side) (plan_seen plan)) }
    requires rest { RestsAt schema.now (R.becomes rule.now schema.now) (node_over (side_seen side) (plan_seen plan)) }
    requires none { everywhere (R.becomes rule.now schema.now) (plan_seen plan) ≡ None }
    ensures { IfOk result (λ x. IsStep (R.becomes rule.now schema.now) (node_over (side_seen side) (plan_seen plan)) (plan_seen x.plan) x.fell x.place) }
{
    match side {
        Side::Joined(q, c) => step_right(rule, alloc, schema, plan, q, c, &[]),
        Side::Projected(es) => projected(alloc, es, unstepped(alloc, plan)),
    }
}

/// A plan without a step.
fn unstepped(alloc: Global, plan: Box<Plan>) -> Stepped
    ensures plan { result.plan ≡ plan }
    ensures fell { result.fell ≡ None }
    ensures place { result.place ≡ [] }
{
    Stepped {
        plan,
        fell: None,
        place: Items::new(alloc),
    }
}
