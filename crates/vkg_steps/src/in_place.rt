// A step in a plan that is owned: its parts are moved, and copied only where the rule makes a new plan.
//
// Where a call fails, a condition at hand is dropped by a call, and so is a member that is put back: in line, each of their many
// forms is one more way out of the function, which the prover goes.
ghost use Rattle.std.specs.Prelude.{◌≡◌, [], ◌∷◌, ◌++◌, IfOk, IfSome, None, Some, map, reverse};
ghost use Rattle.vkg_expr.specs.Seen.{expr_seen};
ghost use Rattle.vkg_plan.specs.Plan.{AntiJoin, Distinct, Join, Left, Project, Select, UnionAll};
ghost use Rattle.vkg_plan.specs.Seen.{plan_seen};
ghost use Rattle.vkg_rules.specs.Everywhere.{everywhere};
ghost use Rattle.vkg_rules.specs.Parts.{AreTyped};
ghost use Rattle.vkg_rules.specs.Steps.{IsTyped};
ghost use Rattle.vkg_rules.specs.StepSeen.{plans_seen};
ghost use Rattle.vkg_steps.specs.Behind.{Behind, BehindEach, BehindMember};
ghost use Rattle.vkg_steps.specs.Outcomes.{IsFirst, IsInside, IsListStep, IsNext, IsStep};

use std::alloc::Global;
use std::mem;
use vkg_base::{Box, Items, Memory};
use vkg_expr::Expr;
use vkg_plan::Plan;
use vkg_rules::{Answer, Fell, Rewrite, last_turn};
use vkg_schema::Schema;

/// A plan after a step.
#[derive(Drop)]
pub struct Stepped {
    /// The plan with the change, or as it was.
    pub plan: Box<Plan>,
    /// What is less, if the rule changed a subplan.
    pub fell: Option<Fell>,
    /// Where to look for the next change: the member taken at each join and union on the way, the last one first.
    pub place: Items<usize>,
}

/// A list of plans after a step.
#[derive(Drop)]
struct SteppedList {
    plans: Items<Plan>,
    fell: Option<Fell>,
    place: Items<usize>,
}

/// The plan with the first subplan changed that the rule changes, where it changes none before a place. Only that place and what
/// comes behind it is looked at, and what stands around it.
#[cycle(in_place)]
pub fn step_in<R: Rewrite>(
    rule: &R,
    alloc: Global,
    schema: &Schema,
    plan: Box<Plan>,
    place: &[usize],
) -> Result<Stepped, Memory>
    requires typed { IsTyped schema.now (plan_seen plan) }
    requires behind { Behind (R.becomes rule.now schema.now) (reverse place.now) (plan_seen plan) }
    ensures { IfOk result (λ x. IsStep (R.becomes rule.now schema.now) (plan_seen plan) (plan_seen x.plan) x.fell x.place) }
{
    let asked = rule.apply_again(alloc, schema, plan, place)?;
    match asked.fell {
        Some(_) => changed(alloc, asked, place),
        None => step_below(rule, alloc, schema, asked.plan.into_inner(), place),
    }
}

/// A plan that the rule changed at the root, which was reached on the way to a place.
pub fn changed(alloc: Global, asked: Answer, place: &[usize]) -> Result<Stepped, Memory>
    ensures plan { IfOk result (λ x. x.plan ≡ asked.plan) }
    ensures fell { IfOk result (λ x. x.fell ≡ asked.fell) }
    ensures place { IfOk result (λ x. IsNext (reverse place.now) asked.dropped (reverse x.place)) }
{
    let Answer {
        plan,
        fell,
        dropped,
    } = asked;
    let place = next_place(alloc, place, dropped)?;
    Ok(Stepped { plan, fell, place })
}

/// Where to look next: where a member was dropped, if the place led there, else from the root on.
fn next_place(
    alloc: Global,
    place: &[usize],
    dropped: Option<usize>,
) -> Result<Items<usize>, Memory>
    ensures { IfOk result (λ next. IsNext (reverse place.now) dropped (reverse next)) }
{
    let mut next = Items::new(alloc);
    let Some(turn) = same_turn(place, dropped) else {
        return Ok(next);
    };
    next.push(turn)?;
    Ok(next)
}

/// The first turn on the way to a place, if a member was dropped there.
fn same_turn(place: &[usize], dropped: Option<usize>) -> Option<usize>
    ensures { IfSome result (λ at. (dropped ≡ Some at) × IsFirst at (reverse place.now)) }
{
    let at = dropped?;
    let (turn, _) = last_turn(place)?;
    if turn == at { Some(at) } else { None }
}

fn boxed(
    alloc: Global,
    plan: Plan,
    fell: Option<Fell>,
    place: Items<usize>,
) -> Result<Stepped, Memory>
    ensures plan { IfOk result (λ x. x.plan ≡ plan) }
    ensures fell { IfOk result (λ x. x.fell ≡ fell) }
    ensures place { IfOk result (λ x. x.place ≡ place) }
{
    let plan = Box::new(alloc, plan)?;
    Ok(Stepped { plan, fell, place })
}

#[cycle(in_place)]
pub fn step_below<R: Rewrite>(
    rule: &R,
    alloc: Global,
    schema: &Schema,
    plan: Plan,
    place: &[usize],
) -> Result<Stepped, Memory>
    requires typed { IsTyped schema.now (plan_seen plan) }
    requires none { R.becomes rule.now schema.now (plan_seen plan) ≡ None }
    requires behind { Behind (R.becomes rule.now schema.now) (reverse place.now) (plan_seen plan) }
    ensures { IfOk result (λ x. IsInside (R.becomes rule.now schema.now) (plan_seen plan) (plan_seen x.plan) x.fell x.place) }
{
    match plan {
        Plan::Unit => boxed(alloc, Plan::Unit, None, Items::new(alloc)),
        Plan::Empty(kinds) => boxed(alloc, Plan::Empty(kinds), None, Items::new(alloc)),
        Plan::Scan(table) => boxed(alloc, Plan::Scan(table), None, Items::new(alloc)),
        Plan::Select(c, p) => match step_in(rule, alloc, schema, p, place) {
            Ok(x) => selected(alloc, c, x),
            Err(fault) => {
                mem::drop(c);
                Err(fault)
            }
        },
        Plan::Project(es, p) => projected(alloc, es, step_in(rule, alloc, schema, p, place)?),
        Plan::Join(ps, c) => match step_list(rule, alloc, schema, ps, place) {
            Ok(x) => rejoined(alloc, x, c),
            Err(fault) => {
                mem::drop(c);
                Err(fault)
            }
        },
        Plan::Left(p, q, c) => step_left(rule, alloc, schema, p, q, c, place),
        Plan::AntiJoin(p, q, c) => step_anti(rule, alloc, schema, p, q, c, place),
        Plan::UnionAll(ps) => reunited(alloc, step_list(rule, alloc, schema, ps, place)?),
        Plan::Distinct(p) => each_once(alloc, step_in(rule, alloc, schema, p, place)?),
    }
}

#[tactic(auto, using(crate::proofs::OutcomeLemmas::outcomes))]
fn selected(alloc: Global, c: Expr, x: Stepped) -> Result<Stepped, Memory>
    ensures plan { IfOk result (λ y. plan_seen y.plan ≡ Select (expr_seen c) (plan_seen x.plan)) }
    ensures fell { IfOk result (λ y. y.fell ≡ x.fell) }
    ensures place { IfOk result (λ y. y.place ≡ x.place) }
{
    let Stepped { plan, fell, place } = x;
    boxed(alloc, Plan::Select(c, plan), fell, place)
}

#[tactic(auto, using(crate::proofs::OutcomeLemmas::outcomes))]
pub fn projected(alloc: Global, es: Items<Expr>, x: Stepped) -> Result<Stepped, Memory>
    ensures plan { IfOk result (λ y. plan_seen y.plan ≡ Project (map expr_seen es) (plan_seen x.plan)) }
    ensures fell { IfOk result (λ y. y.fell ≡ x.fell) }
    ensures place { IfOk result (λ y. y.place ≡ x.place) }
{
    let Stepped { plan, fell, place } = x;
    boxed(alloc, Plan::Project(es, plan), fell, place)
}

#[tactic(auto, using(crate::proofs::OutcomeLemmas::outcomes))]
fn each_once(alloc: Global, x: Stepped) -> Result<Stepped, Memory>
    ensures plan { IfOk result (λ y. plan_seen y.plan ≡ Distinct (plan_seen x.plan)) }
    ensures fell { IfOk result (λ y. y.fell ≡ x.fell) }
    ensures place { IfOk result (λ y. y.place ≡ x.place) }
{
    let Stepped { plan, fell, place } = x;
    boxed(alloc, Plan::Distinct(plan), fell, place)
}

#[tactic(auto, using(crate::proofs::OutcomeLemmas::outcomes))]
fn rejoined(alloc: Global, x: SteppedList, c: Expr) -> Result<Stepped, Memory>
    ensures plan { IfOk result (λ y. plan_seen y.plan ≡ Join (plans_seen x.plans) (expr_seen c)) }
    ensures fell { IfOk result (λ y. y.fell ≡ x.fell) }
    ensures place { IfOk result (λ y. y.place ≡ x.place) }
{
    let SteppedList { plans, fell, place } = x;
    boxed(alloc, Plan::Join(plans, c), fell, place)
}

#[tactic(auto, using(crate::proofs::OutcomeLemmas::outcomes))]
fn reunited(alloc: Global, x: SteppedList) -> Result<Stepped, Memory>
    ensures plan { IfOk result (λ y. plan_seen y.plan ≡ UnionAll (plans_seen x.plans)) }
    ensures fell { IfOk result (λ y. y.fell ≡ x.fell) }
    ensures place { IfOk result (λ y. y.place ≡ x.place) }
{
    let SteppedList { plans, fell, place } = x;
    boxed(alloc, Plan::UnionAll(plans), fell, place)
}

/// A step on one side of a left join.
#[cycle(in_place)]
fn step_left<R: Rewrite>(
    rule: &R,
    alloc: Global,
    schema: &Schema,
    p: Box<Plan>,
    q: Box<Plan>,
    c: Expr,
    place: &[usize],
) -> Result<Stepped, Memory>
    requires p { IsTyped schema.now (plan_seen p) }
    requires q { IsTyped schema.now (plan_seen q) }
    requires none { R.becomes rule.now schema.now (Left (plan_seen p) (plan_seen q) (expr_seen c)) ≡ None }
    requires behind { Behind (R.becomes rule.now schema.now) (reverse place.now) (Left (plan_seen p) (plan_seen q) (expr_seen c)) }
    ensures { IfOk result (λ x. IsInside (R.becomes rule.now schema.now) (Left (plan_seen p) (plan_seen q) (expr_seen c)) (plan_seen x.plan) x.fell x.place) }
{
    let Some((turn, below)) = last_turn(place) else {
        return step_sides(rule, alloc, schema, p, q, c, &[]);
    };
    if turn == 0 {
        step_sides(rule, alloc, schema, p, q, c, below)
    } else {
        step_right(rule, alloc, schema, p, q, c, below)
    }
}

/// A step on the left side, or else on the right one.
#[cycle(in_place)]
fn step_sides<R: Rewrite>(
    rule: &R,
    alloc: Global,
    schema: &Schema,
    p: Box<Plan>,
    q: Box<Plan>,
    c: Expr,
    place: &[usize],
) -> Result<Stepped, Memory>
    requires p { IsTyped schema.now (plan_seen p) }
    requires q { IsTyped schema.now (plan_seen q) }
    requires none { R.becomes rule.now schema.now (Left (plan_seen p) (plan_seen q) (expr_seen c)) ≡ None }
    requires behind { Behind (R.becomes rule.now schema.now) (reverse place.now) (plan_seen p) }
    ensures { IfOk result (λ x. IsInside (R.becomes rule.now schema.now) (Left (plan_seen p) (plan_seen q) (expr_seen c)) (plan_seen x.plan) x.fell x.place) }
{
    match step_in(rule, alloc, schema, p, place) {
        Ok(x) => match x.fell {
            Some(_) => on_left(alloc, x, q, c),
            None => step_right(rule, alloc, schema, x.plan, q, c, &[]),
        },
        Err(fault) => {
            mem::drop(c);
            Err(fault)
        }
    }
}

/// A step on the right side, where there is none on the left one.
#[cycle(in_place)]
pub fn step_right<R: Rewrite>(
    rule: &R,
    alloc: Global,
    schema: &Schema,
    p: Box<Plan>,
    q: Box<Plan>,
    c: Expr,
    place: &[usize],
) -> Result<Stepped, Memory>
    requires p { everywhere (R.becomes rule.now schema.now) (plan_seen p) ≡ None }
    requires q { IsTyped schema.now (plan_seen q) }
    requires none { R.becomes rule.now schema.now (Left (plan_seen p) (plan_seen q) (expr_seen c)) ≡ None }
    requires behind { Behind (R.becomes rule.now schema.now) (reverse place.now) (plan_seen q) }
    ensures { IfOk result (λ x. IsInside (R.becomes rule.now schema.now) (Left (plan_seen p) (plan_seen q) (expr_seen c)) (plan_seen x.plan) x.fell x.place) }
{
    match step_in(rule, alloc, schema, q, place) {
        Ok(x) => on_right(alloc, p, x, c),
        Err(fault) => {
            mem::drop(c);
            Err(fault)
        }
    }
}

/// A step on one side of an anti join.
#[cycle(in_place)]
fn step_anti<R: Rewrite>(
    rule: &R,
    alloc: Global,
    schema: &Schema,
    p: Box<Plan>,
    q: Box<Plan>,
    c: Expr,
    place: &[usize],
) -> Result<Stepped, Memory>
    requires p { IsTyped schema.now (plan_seen p) }
    requires q { IsTyped schema.now (plan_seen q) }
    requires none { R.becomes rule.now schema.now (AntiJoin (plan_seen p) (plan_seen q) (expr_seen c)) ≡ None }
    requires behind { Behind (R.becomes rule.now schema.now) (reverse place.now) (AntiJoin (plan_seen p) (plan_seen q) (expr_seen c)) }
    ensures { IfOk result (λ x. IsInside (R.becomes rule.now schema.now) (AntiJoin (plan_seen p) (plan_seen q) (expr_seen c)) (plan_seen x.plan) x.fell x.place) }
{
    let Some((turn, below)) = last_turn(place) else {
        return step_anti_sides(rule, alloc, schema, p, q, c, &[]);
    };
    if turn == 0 {
        step_anti_sides(rule, alloc, schema, p, q, c, below)
    } else {
        step_anti_right(rule, alloc, schema, p, q, c, below)
    }
}

/// A step on the left side, or else on the right one.
#[cycle(in_place)]
fn step_anti_sides<R: Rewrite>(
    rule: &R,
    alloc: Global,
    schema: &Schema,
    p: Box<Plan>,
    q: Box<Plan>,
    c: Expr,
    place: &[usize],
) -> Result<Stepped, Memory>
    requires p { IsTyped schema.now (plan_seen p) }
    requires q { IsTyped schema.now (plan_seen q) }
    requires none { R.becomes rule.now schema.now (AntiJoin (plan_seen p) (plan_seen q) (expr_seen c)) ≡ None }
    requires behind { Behind (R.becomes rule.now schema.now) (reverse place.now) (plan_seen p) }
    ensures { IfOk result (λ x. IsInside (R.becomes rule.now schema.now) (AntiJoin (plan_seen p) (plan_seen q) (expr_seen c)) (plan_seen x.plan) x.fell x.place) }
{
    match step_in(rule, alloc, schema, p, place) {
        Ok(x) => match x.fell {
            Some(_) => on_anti_left(alloc, x, q, c),
            None => step_anti_right(rule, alloc, schema, x.plan, q, c, &[]),
        },
        Err(fault) => {
            mem::drop(c);
            Err(fault)
        }
    }
}

/// A step on the right side, where there is none on the left one.
#[cycle(in_place)]
fn step_anti_right<R: Rewrite>(
    rule: &R,
    alloc: Global,
    schema: &Schema,
    p: Box<Plan>,
    q: Box<Plan>,
    c: Expr,
    place: &[usize],
) -> Result<Stepped, Memory>
    requires p { everywhere (R.becomes rule.now schema.now) (plan_seen p) ≡ None }
    requires q { IsTyped schema.now (plan_seen q) }
    requires none { R.becomes rule.now schema.now (AntiJoin (plan_seen p) (plan_seen q) (expr_seen c)) ≡ None }
    requires behind { Behind (R.becomes rule.now schema.now) (reverse place.now) (plan_seen q) }
    ensures { IfOk result (λ x. IsInside (R.becomes rule.now schema.now) (AntiJoin (plan_seen p) (plan_seen q) (expr_seen c)) (plan_seen x.plan) x.fell x.place) }
{
    match step_in(rule, alloc, schema, q, place) {
        Ok(x) => on_anti_right(alloc, p, x, c),
        Err(fault) => {
            mem::drop(c);
            Err(fault)
        }
    }
}

/// A step with one more turn on the way to its place.
fn turned(x: Stepped, turn: usize) -> Result<Stepped, Memory>
    ensures plan { IfOk result (λ y. y.plan ≡ x.plan) }
    ensures fell { IfOk result (λ y. y.fell ≡ x.fell) }
    ensures place { IfOk result (λ y. y.place ≡ x.place ++ turn ∷ []) }
{
    let Stepped {
        plan,
        fell,
        mut place,
    } = x;
    place.push(turn)?;
    Ok(Stepped { plan, fell, place })
}

#[tactic(auto, using(crate::proofs::OutcomeLemmas::outcomes))]
pub fn on_left(alloc: Global, x: Stepped, q: Box<Plan>, c: Expr) -> Result<Stepped, Memory>
    ensures plan { IfOk result (λ y. plan_seen y.plan ≡ Left (plan_seen x.plan) (plan_seen q) (expr_seen c)) }
    ensures fell { IfOk result (λ y. y.fell ≡ x.fell) }
    ensures place { IfOk result (λ y. y.place ≡ x.place ++ 0 ∷ []) }
{
    let Stepped { plan, fell, place } = x;
    turned(boxed(alloc, Plan::Left(plan, q, c), fell, place)?, 0)
}

#[tactic(auto, using(crate::proofs::OutcomeLemmas::outcomes))]
fn on_right(alloc: Global, p: Box<Plan>, x: Stepped, c: Expr) -> Result<Stepped, Memory>
    ensures plan { IfOk result (λ y. plan_seen y.plan ≡ Left (plan_seen p) (plan_seen x.plan) (expr_seen c)) }
    ensures fell { IfOk result (λ y. y.fell ≡ x.fell) }
    ensures place { IfOk result (λ y. y.place ≡ x.place ++ 1 ∷ []) }
{
    let Stepped { plan, fell, place } = x;
    turned(boxed(alloc, Plan::Left(p, plan, c), fell, place)?, 1)
}

#[tactic(auto, using(crate::proofs::OutcomeLemmas::outcomes))]
fn on_anti_left(alloc: Global, x: Stepped, q: Box<Plan>, c: Expr) -> Result<Stepped, Memory>
    ensures plan { IfOk result (λ y. plan_seen y.plan ≡ AntiJoin (plan_seen x.plan) (plan_seen q) (expr_seen c)) }
    ensures fell { IfOk result (λ y. y.fell ≡ x.fell) }
    ensures place { IfOk result (λ y. y.place ≡ x.place ++ 0 ∷ []) }
{
    let Stepped { plan, fell, place } = x;
    turned(boxed(alloc, Plan::AntiJoin(plan, q, c), fell, place)?, 0)
}

#[tactic(auto, using(crate::proofs::OutcomeLemmas::outcomes))]
fn on_anti_right(alloc: Global, p: Box<Plan>, x: Stepped, c: Expr) -> Result<Stepped, Memory>
    ensures plan { IfOk result (λ y. plan_seen y.plan ≡ AntiJoin (plan_seen p) (plan_seen x.plan) (expr_seen c)) }
    ensures fell { IfOk result (λ y. y.fell ≡ x.fell) }
    ensures place { IfOk result (λ y. y.place ≡ x.place ++ 1 ∷ []) }
{
    let Stepped { plan, fell, place } = x;
    turned(boxed(alloc, Plan::AntiJoin(p, plan, c), fell, place)?, 1)
}

#[cycle(in_place)]
fn step_list<R: Rewrite>(
    rule: &R,
    alloc: Global,
    schema: &Schema,
    ps: Items<Plan>,
    place: &[usize],
) -> Result<SteppedList, Memory>
    requires typed { AreTyped schema.now (plans_seen ps) }
    requires behind { BehindEach (R.becomes rule.now schema.now) (reverse place.now) (plans_seen ps) }
    ensures { IfOk result (λ x. IsListStep (R.becomes rule.now schema.now) (plans_seen ps) (plans_seen x.plans) x.fell x.place) }
{
    let mut members = ps.into_vec();
    let (fell, place) = step_members(rule, alloc, schema, &mut members, place)?;
    let plans = Items::from_vec(members);
    Ok(SteppedList { plans, fell, place })
}

#[cycle(in_place)]
fn step_members<R: Rewrite>(
    rule: &R,
    alloc: Global,
    schema: &Schema,
    members: &mut [Plan],
    place: &[usize],
) -> Result<(Option<Fell>, Items<usize>), Memory>
    requires typed { AreTyped schema.now (plans_seen members.old) }
    requires behind { BehindEach (R.becomes rule.now schema.now) (reverse place.now) (plans_seen members.old) }
    ensures { IfOk result (λ x. IsListStep (R.becomes rule.now schema.now) (plans_seen members.old) (plans_seen members.new) x.0 x.1) }
{
    match last_turn(place) {
        None => step_from(rule, alloc, schema, members, 0, &[]),
        Some((at, below)) => step_from(rule, alloc, schema, members, at, below),
    }
}

/// The first member from one on that the rule changes, changed in its place: those before and behind it are not looked at.
#[cycle(in_place)]
fn step_from<R: Rewrite>(
    rule: &R,
    alloc: Global,
    schema: &Schema,
    members: &mut [Plan],
    start: usize,
    place: &[usize],
) -> Result<(Option<Fell>, Items<usize>), Memory>
    requires typed { AreTyped schema.now (plans_seen members.old) }
    requires behind { BehindMember (R.becomes rule.now schema.now) start (reverse place.now) (plans_seen members.old) }
    ensures { IfOk result (λ x. IsListStep (R.becomes rule.now schema.now) (plans_seen members.old) (plans_seen members.new) x.0 x.1) }
{
    let mut below = place;
    for at in start..members.len() {
        let (fell, mut there) = step_member(rule, alloc, schema, &mut members[at], below)?;
        if let Some(fell) = fell {
            there.push(at)?;
            return Ok((Some(fell), there));
        }
        below = &[];
    }
    Ok((None, Items::new(alloc)))
}

/// A member, changed in its place: it is taken out, and put back.
#[cycle(in_place)]
fn step_member<R: Rewrite>(
    rule: &R,
    alloc: Global,
    schema: &Schema,
    member: &mut Plan,
    place: &[usize],
) -> Result<(Option<Fell>, Items<usize>), Memory>
    requires typed { IsTyped schema.now (plan_seen member.old) }
    requires behind { Behind (R.becomes rule.now schema.now) (reverse place.now) (plan_seen member.old) }
    ensures { IfOk result (λ x. IsStep (R.becomes rule.now schema.now) (plan_seen member.old) (plan_seen member.new) x.0 x.1) }
{
    let whole = Box::new(alloc, mem::replace(member, Plan::Unit))?;
    let Stepped { plan, fell, place } = step_in(rule, alloc, schema, whole, place)?;
    mem::drop(mem::replace(member, plan.into_inner()));
    Ok((fell, place))
}
