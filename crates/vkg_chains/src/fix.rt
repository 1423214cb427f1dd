// A rule to its end.
ghost use Rattle.std.specs.Prelude.{◌≡◌, IfOk, MatchOption};
ghost use Rattle.vkg_schema.specs.Meets.{IsWellFormed};
ghost use Rattle.vkg_plan.specs.Seen.{plan_seen};
ghost use Rattle.vkg_rules.specs.Steps.{IsTyped};
ghost use Rattle.vkg_rules.specs.StepSeen.{step_seen};
ghost use Rattle.vkg_chains.specs.Fix.{fix_of, run, foremost, first};
ghost use Rattle.vkg_chains.specs.FixLaw.{fix-keeps, fix-falls};

use std::alloc::Global;
use std::mem;
use vkg_base::Memory;
use vkg_plan::Plan;
use vkg_rules::{Fell, Rewrite};
use vkg_schema::Schema;

/// The rule again and again, until it gives none.
#[derive(Drop)]
pub struct Fix<R> {
    pub rule: R,
}

impl<R: Rewrite> Rewrite for Fix<R> {
    ghost becomes = { λ f. fix_of (R.becomes f.rule) };

    fn apply(
        &self,
        alloc: Global,
        schema: &Schema,
        plan: &Plan,
    ) -> Result<Option<(Plan, Fell)>, Memory> {
        let _over = schema.tables();
        match self.rule.apply(alloc, schema, plan)? {
            None => Ok(None),
            Some((q, fell)) => Ok(Some(finish(&self.rule, alloc, schema, q, fell)?)),
        }
    }

    ghost keeps = { λ f. fix-keeps (R.becomes f.rule) (R.keeps f.rule) (R.falls f.rule) };

    ghost falls = { λ f. fix-falls (R.becomes f.rule) (R.keeps f.rule) (R.falls f.rule) };
}

fn finish<R: Rewrite>(
    rule: &R,
    alloc: Global,
    schema: &Schema,
    plan: Plan,
    fell: Fell,
) -> Result<(Plan, Fell), Memory>
    requires form { IsWellFormed schema.now }
    requires typed { IsTyped schema.now (plan_seen plan) }
    ensures { IfOk result (λ x. step_seen x ≡ (let y = run (R.becomes rule.now) schema.now (plan_seen plan) in (y.1, foremost fell y.0))) }
{
    let mut current = plan;
    match to_the_end(rule, alloc, schema, &mut current, fell) {
        Ok(least) => Ok((current, least)),
        Err(error) => {
            mem::drop(current);
            Err(error)
        }
    }
}

/// The steps in place, until there is none, and the foremost of what fell.
fn to_the_end<R: Rewrite>(
    rule: &R,
    alloc: Global,
    schema: &Schema,
    current: &mut Plan,
    fell: Fell,
) -> Result<Fell, Memory>
    requires form { IsWellFormed schema.now }
    requires typed { IsTyped schema.now (plan_seen current.old) }
    ensures { IfOk result (λ f. step_seen (current.new, f) ≡ (let y = run (R.becomes rule.now) schema.now (plan_seen current.old) in (y.1, foremost fell y.0))) }
{
    let mut least = fell;
    while let Some(fell) = step(rule, alloc, schema, current)? {
        least = foremost_of(least, fell);
    }
    Ok(least)
}

/// One step in place, if there is one.
fn step<R: Rewrite>(
    rule: &R,
    alloc: Global,
    schema: &Schema,
    plan: &mut Plan,
) -> Result<Option<Fell>, Memory>
    requires { IsTyped schema.now (plan_seen plan.old) }
    ensures { IfOk result (λ o. MatchOption o ((R.becomes rule.now schema.now (plan_seen plan.old) ≡ None) × (plan.new ≡ plan.old))
        (λ f. R.becomes rule.now schema.now (plan_seen plan.old) ≡ Some (plan_seen plan.new, f))) }
{
    match rule.apply(alloc, schema, plan)? {
        None => Ok(None),
        Some((next, fell)) => {
            // (dropped by a call: `*plan = next` would have the drop of each kind of plan written out here)
            mem::drop(mem::replace(plan, next));
            Ok(Some(fell))
        }
    }
}

/// Of two parts of the measure the one that comes first.
pub fn foremost_of(a: Fell, b: Fell) -> Fell
    ensures { result ≡ first a b }
{
    match (a, b) {
        (Fell::Weight, _) => Fell::Weight,
        (_, Fell::Weight) => Fell::Weight,
        (Fell::Equalities, _) => Fell::Equalities,
        (_, Fell::Equalities) => Fell::Equalities,
        _ => Fell::Size,
    }
}
