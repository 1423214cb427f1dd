ghost use Rattle.std.specs.Prelude.{◌≡◌, [], ◌∷◌, IfOk, map, option_map};
ghost use Rattle.std.specs.Bool.{then_some};
ghost use Rattle.std.specs.List.{list_any};
ghost use Rattle.vkg_expr.specs.Logic.{conjuncts};
ghost use Rattle.vkg_expr.specs.Seen.{expr_seen};
ghost use Rattle.vkg_plan.specs.Plan.{Join, Left, More, Nil, Select};
ghost use Rattle.vkg_plan.specs.Seen.{plan_seen};
ghost use Rattle.vkg_rules.specs.declared.rewrite.Fell.TheVariants as weight;
ghost use Rattle.vkg_rules.specs.Steps.{IsTyped};
ghost use Rattle.vkg_rules.specs.StepSeen.{step_seen};
ghost use Rattle.vkg_moves.specs.LeftToJoin.{fails_on_nulls as fails_behind, finds_null as finds_behind, left_to_join, over_left as over_left_of};
ghost use Rattle.vkg_moves.specs.LeftToJoinLaw.{left_to_join-keeps, left_to_join-falls};

use crate::columns::is_null_behind;
use crate::kinds::width;
use crate::unknown::is_unknown_behind;
use std::alloc::Global;
use vkg_base::{Box, Items, Memory};
use vkg_expr::Expr;
use vkg_plan::Plan;
use vkg_rules::{Fell, Rewrite};
use vkg_schema::Schema;

/// A left join below a condition that fails on NULLs for the right row is the join.
#[derive(Drop)]
pub struct LeftToJoin;

impl Rewrite for LeftToJoin {
    ghost becomes = { λ r. left_to_join };

    #[tactic(auto, using(vkg_rules::proofs::Seen::seen_nodes))]
    fn apply(
        &self,
        alloc: Global,
        schema: &Schema,
        plan: &Plan,
    ) -> Result<Option<(Plan, Fell)>, Memory> {
        match plan {
            Plan::Select(c, p) => over_left(alloc, schema, c, p),
            _ => Ok(None),
        }
    }

    ghost keeps = { λ r. left_to_join-keeps };

    ghost falls = { λ r. left_to_join-falls };
}

/// The selection over the join in the place of the left join that it stands over, if it fails on NULLs for the right row.
#[tactic(auto, using(vkg_rules::proofs::Seen::seen_nodes))]
fn over_left(
    alloc: Global,
    schema: &Schema,
    c: &Expr,
    p: &Plan,
) -> Result<Option<(Plan, Fell)>, Memory>
    requires { IsTyped schema.now (Select (expr_seen c.now) (plan_seen p.now)) }
    ensures { IfOk result (λ o. option_map step_seen o ≡ over_left_of schema.now (expr_seen c.now) (plan_seen p.now)) }
{
    match p {
        Plan::Left(l, r, d) => over_join(alloc, c, l, r, d, width(alloc, schema, l)?),
        _ => Ok(None),
    }
}

/// The selection over the join, if its condition fails where the cells behind the first n are NULL.
#[tactic(auto, using(vkg_rules::proofs::Seen::seen_nodes))]
fn over_join(
    alloc: Global,
    c: &Expr,
    l: &Plan,
    r: &Plan,
    d: &Expr,
    n: usize,
) -> Result<Option<(Plan, Fell)>, Memory>
    ensures { IfOk result (λ o. option_map step_seen o ≡ then_some (list_any (fails_behind n) (conjuncts (expr_seen c.now))) (Select (expr_seen c.now) (Join (More (plan_seen l.now) (More (plan_seen r.now) Nil)) (expr_seen d.now)), weight.Weight)) }
{
    if !fails_somewhere(c, n) {
        return Ok(None);
    }
    let p = joined(alloc, l, r, d)?;
    Ok(Some((Plan::Select(c.copy(alloc)?, p), Fell::Weight)))
}

#[tactic(auto, using(vkg_rules::proofs::Seen::seen_nodes))]
fn joined(alloc: Global, l: &Plan, r: &Plan, d: &Expr) -> Result<Box<Plan>, Memory>
    ensures { IfOk result (λ p. plan_seen p ≡ Join (More (plan_seen l.now) (More (plan_seen r.now) Nil)) (expr_seen d.now)) }
{
    let ps = both(alloc, l, r)?;
    Box::new(alloc, Plan::Join(ps, d.copy(alloc)?))
}

fn both(alloc: Global, l: &Plan, r: &Plan) -> Result<Items<Plan>, Memory>
    ensures { IfOk result (λ ps. ps ≡ l.now ∷ r.now ∷ []) }
{
    let mut ps = Items::new(alloc);
    ps.push(l.copy(alloc)?)?;
    ps.push(r.copy(alloc)?)?;
    Ok(ps)
}

/// Whether a conjunct of the condition fails where the cells behind the first n are NULL.
#[tactic(auto, using(vkg_columns::proofs::Lists::conjunct_lists))]
fn fails_somewhere(c: &Expr, n: usize) -> bool
    ensures { result ≡ list_any (fails_behind n) (conjuncts (expr_seen c.now)) }
{
    match c {
        Expr::And(list) => any_fails(list.as_slice(), n),
        _ => fails_on_nulls(c, n),
    }
}

fn any_fails(list: &[Expr], n: usize) -> bool
    ensures { result ≡ list_any (fails_behind n) (map expr_seen list.now) }
{
    for c in list {
        if fails_on_nulls(c, n) {
            return true;
        }
    }
    false
}

/// Whether the condition says that something that is NULL there is not NULL, or is equal to something, or is NULL there itself.
fn fails_on_nulls(c: &Expr, n: usize) -> bool
    ensures { result ≡ fails_behind n (expr_seen c.now) }
{
    match c {
        Expr::Not(e) => finds_null(e, n) || is_unknown_behind(e, n),
        Expr::Same(a, b) => is_null_behind(a, n) || is_null_behind(b, n),
        _ => is_unknown_behind(c, n),
    }
}

fn finds_null(e: &Expr, n: usize) -> bool
    ensures { result ≡ finds_behind n (expr_seen e.now) }
{
    match e {
        Expr::IsNull(e) => is_null_behind(e, n),
        _ => false,
    }
}
