ghost use Rattle.std.specs.Prelude.{◌≡◌, ◌∷◌, [], IfOk, if◌then◌else◌, map, not, option_and_then, option_map};
ghost use Rattle.vkg_conditions.specs.Conditions.{if_so};
ghost use Rattle.vkg_conditions.specs.NodeCondition.{condition_of};
ghost use Rattle.vkg_expr.specs.Expr.{Coalesce, exprs};
ghost use Rattle.vkg_expr.specs.Places.{first_place as at_first_place};
ghost use Rattle.vkg_expr.specs.Seen.{expr_seen};
ghost use Rattle.vkg_expr.specs.Typing.{is_column as column_alone};
ghost use Rattle.vkg_plan.specs.Seen.{plan_seen};
ghost use Rattle.vkg_sure.specs.FirstKnown.{coalesce_of, first_known, first_known_of, of_members as of_known_members};
ghost use Rattle.vkg_sure.specs.FirstKnownLaw.{first_known-keeps, first_known-falls};
ghost use Rattle.vkg_sure.specs.NeverNull.{own_never_null as own_flags};

use crate::members::{any_makes_term, shorter};
use crate::own_columns::OwnColumns;
use std::alloc::Global;
use vkg_base::{Box, Items, Memory};
use vkg_conditions::node_condition::{condition, conditioned, has_condition};
use vkg_conditions::{Change, first_place, in_own};
use vkg_expr::{Expr, copy_boxed};
use vkg_plan::Plan;
use vkg_rules::{Answer, Fell, Rewrite, answered};
use vkg_schema::Schema;

/// The first COALESCE in a plan's own expressions that has a member that is never its value loses it; of one member it is that one.
#[derive(Drop)]
pub struct FirstKnown;

impl Rewrite for FirstKnown {
    ghost becomes = { λ r. first_known };

    #[tactic(auto, unfolding(crate::specs::FirstKnown::first_known))]
    fn apply(
        &self,
        alloc: Global,
        schema: &Schema,
        plan: &Plan,
    ) -> Result<Option<(Plan, Fell)>, Memory> {
        let own = OwnColumns::of(schema, plan);
        in_own(alloc, &Fewer { own }, plan)
    }

    // What is below a condition stays in memory once.
    fn apply_again(
        &self,
        alloc: Global,
        schema: &Schema,
        plan: Box<Plan>,
        _: &[usize],
    ) -> Result<Answer, Memory> {
        if has_condition(&plan) {
            let c = fewer_condition(alloc, schema, &plan)?;
            return conditioned(alloc, plan, c, Fell::Size);
        }
        let made = self.apply(alloc, schema, &plan)?;
        answered(alloc, plan, made)
    }

    ghost keeps = { λ r. first_known-keeps };

    ghost falls = { λ r. first_known-falls };
}

/// The condition of the plan's first node with its first such COALESCE shorter, if there is one.
fn fewer_condition(alloc: Global, schema: &Schema, plan: &Plan) -> Result<Option<Box<Expr>>, Memory>
    ensures { IfOk result (λ o. option_map expr_seen o ≡ option_and_then (at_first_place (first_known_of (own_flags schema.now (plan_seen plan.now)))) (condition_of (plan_seen plan.now))) }
{
    match condition(plan) {
        None => Ok(None),
        Some(c) => fewer_in(alloc, schema, plan, c),
    }
}

fn fewer_in(
    alloc: Global,
    schema: &Schema,
    plan: &Plan,
    c: &Expr,
) -> Result<Option<Box<Expr>>, Memory>
    ensures { IfOk result (λ o. option_map expr_seen o ≡ at_first_place (first_known_of (own_flags schema.now (plan_seen plan.now))) (expr_seen c.now)) }
{
    let own = OwnColumns::of(schema, plan);
    first_place(alloc, &Fewer { own }, c)
}

/// A COALESCE without a member that is never its value.
#[derive(Drop)]
struct Fewer<'a> {
    own: OwnColumns<'a>,
}

impl<'a> Change for Fewer<'a> {
    ghost becomes = { λ c. first_known_of c.own };

    fn apply(&self, alloc: Global, e: &Expr) -> Result<Option<Box<Expr>>, Memory> {
        of_coalesce(alloc, &self.own, e)
    }
}

#[tactic(auto, using(crate::proofs::Lists::coalesce_seen))]
fn of_coalesce(alloc: Global, own: &OwnColumns, e: &Expr) -> Result<Option<Box<Expr>>, Memory>
    ensures { IfOk result (λ o. option_map expr_seen o ≡ first_known_of own.now (expr_seen e.now)) }
{
    match e {
        Expr::Coalesce(list) => of_members(alloc, own, list.as_slice()),
        _ => Ok(None),
    }
}

fn of_members(alloc: Global, own: &OwnColumns, list: &[Expr]) -> Result<Option<Box<Expr>>, Memory>
    ensures { IfOk result (λ o. option_map expr_seen o ≡ of_known_members own.now (map expr_seen list.now)) }
{
    match list {
        [] => Ok(None),
        [e] => unless_column(alloc, e),
        [_, _, ..] => coalesce_if(alloc, any_makes_term(list), shorter(alloc, own, list)?),
    }
}

/// The expression, if it is no column itself.
fn unless_column(alloc: Global, e: &Expr) -> Result<Option<Box<Expr>>, Memory>
    ensures { IfOk result (λ o. option_map expr_seen o ≡ if_so (not (column_alone (expr_seen e.now))) (expr_seen e.now)) }
{
    if is_column(e) {
        return Ok(None);
    }
    Ok(Some(copy_boxed(alloc, e)?))
}

fn is_column(e: &Expr) -> bool
    ensures { result ≡ column_alone (expr_seen e.now) }
{
    matches!(e, Expr::Col(_))
}

/// The COALESCE of the list, if there is one.
fn coalesce_if(
    alloc: Global,
    terms: bool,
    list: Option<Items<Expr>>,
) -> Result<Option<Box<Expr>>, Memory>
    ensures { IfOk result (λ o. option_map expr_seen o ≡ option_map (coalesce_of terms) (option_map (map expr_seen) list)) }
{
    match list {
        None => Ok(None),
        Some(list) => Ok(Some(coalesce(alloc, terms, list)?)),
    }
}

/// The COALESCE of some; of one it is that one, but for a column of which it is not said that it is a term.
#[tactic(auto, using(crate::proofs::Lists::coalesce_seen, crate::proofs::Lists::coalesce_one, crate::proofs::Lists::coalesce_more))]
fn coalesce(alloc: Global, terms: bool, list: Items<Expr>) -> Result<Box<Expr>, Memory>
    ensures { IfOk result (λ d. expr_seen d ≡ coalesce_of terms (map expr_seen list)) }
{
    let mut list = list;
    if list.len() == 1 {
        return alone(alloc, terms, list.remove(0));
    }
    Box::new(alloc, Expr::Coalesce(list))
}

fn alone(alloc: Global, terms: bool, e: Expr) -> Result<Box<Expr>, Memory>
    ensures { IfOk result (λ d. expr_seen d ≡ coalesce_of terms (expr_seen e ∷ [])) }
{
    let bare = terms || !is_column(&e);
    one_if(alloc, bare, e)
}

/// The expression, bare or in a COALESCE of its own.
#[tactic(auto, using(crate::proofs::Lists::coalesce_seen))]
fn one_if(alloc: Global, bare: bool, e: Expr) -> Result<Box<Expr>, Memory>
    ensures { IfOk result (λ d. expr_seen d ≡ (if bare then expr_seen e else Coalesce (exprs (expr_seen e ∷ [])))) }
{
    if bare {
        return Box::new(alloc, e);
    }
    let mut one = Items::new(alloc);
    one.push(e)?;
    Box::new(alloc, Expr::Coalesce(one))
}
