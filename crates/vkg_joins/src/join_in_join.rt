ghost use Rattle.std.specs.Prelude.{◌≡◌, ◌+◌, ◌<◌, ◌++◌, IfOk, length, take, drop, option_map};
ghost use Rattle.std.specs.List.{list_any};
ghost use Rattle.vkg_expr.specs.Logic.{and_then as one_then_other};
ghost use Rattle.vkg_expr.specs.Seen.{expr_seen};
ghost use Rattle.vkg_plan.specs.Plan.{Join};
ghost use Rattle.vkg_plan.specs.Seen.{plan_seen};
ghost use Rattle.vkg_rules.specs.declared.rewrite.Fell.TheVariants as weight;
ghost use Rattle.vkg_rules.specs.Measure.{kinds_or_none};
ghost use Rattle.vkg_rules.specs.Parts.{AreTyped};
ghost use Rattle.vkg_rules.specs.Steps.{IsTyped};
ghost use Rattle.vkg_rules.specs.StepSeen.{plans_seen, step_seen};
ghost use Rattle.vkg_joins.specs.JoinInJoin.{is_join as a_join, join_in_join, opened as opened_behind, parts_behind as parts_moved};
ghost use Rattle.vkg_joins.specs.JoinInJoinLaw.{join_in_join-keeps, join_in_join-falls};
ghost use Rattle.vkg_joins.specs.MembersSeen.{members_seen};

use std::alloc::Global;
use vkg_base::{Box, Items, Memory};
use vkg_cells::SqlType;
use vkg_columns::{and_then, moved};
use vkg_expr::Expr;
use vkg_plan::{Plan, copy_plans, plan_kinds};
use vkg_rules::{Fell, Rewrite};
use vkg_schema::Schema;

/// The first join among the members of a join is opened: its members stand in its place, and its condition before the outer one.
#[derive(Drop)]
pub struct JoinInJoin;

impl Rewrite for JoinInJoin {
    ghost becomes = { λ r. join_in_join };

    #[tactic(auto, using(vkg_rules::proofs::Seen::seen_nodes))]
    fn apply(
        &self,
        alloc: Global,
        schema: &Schema,
        plan: &Plan,
    ) -> Result<Option<(Plan, Fell)>, Memory> {
        match plan {
            Plan::Join(ps, c) => flattened(alloc, schema, ps.as_slice(), c),
            _ => Ok(None),
        }
    }

    ghost keeps = { λ r. join_in_join-keeps };

    ghost falls = { λ r. join_in_join-falls };
}

/// The join of plans under a condition with its first inner join opened, if it has one.
fn flattened(
    alloc: Global,
    schema: &Schema,
    ps: &[Plan],
    c: &Expr,
) -> Result<Option<(Plan, Fell)>, Memory>
    requires { IsTyped schema.now (Join (plans_seen ps.now) (expr_seen c.now)) }
    ensures { IfOk result (λ o. option_map step_seen o ≡ join_in_join schema.now (Join (plans_seen ps.now) (expr_seen c.now))) }
{
    rejoined(alloc, opened(alloc, schema, ps)?, c)
}

/// The join of plans under their condition and then another, if there are any.
#[tactic(auto, using(vkg_rules::proofs::Seen::seen_nodes))]
fn rejoined(
    alloc: Global,
    plans: Option<(Items<Plan>, Expr)>,
    c: &Expr,
) -> Result<Option<(Plan, Fell)>, Memory>
    ensures { IfOk result (λ o. option_map step_seen o ≡ option_map (λ x. (Join x.0 (one_then_other x.1 (expr_seen c.now)), weight.Weight)) (option_map members_seen plans)) }
{
    match plans {
        None => Ok(None),
        Some((ps, inner)) => {
            // (boxed, so that its drop is a call)
            let inner = Box::new(alloc, inner)?;
            let both = and_then(alloc, &inner, c)?;
            Ok(Some((Plan::Join(ps, both), Fell::Weight)))
        }
    }
}

/// The plans with the members of the first join in its place, and its condition over their columns, if there is one.
#[tactic(auto, using(crate::proofs::FirstJoin::no_join))]
fn opened(
    alloc: Global,
    schema: &Schema,
    ps: &[Plan],
) -> Result<Option<(Items<Plan>, Expr)>, Memory>
    requires { AreTyped schema.now (plans_seen ps.now) }
    ensures { IfOk result (λ o. option_map members_seen o ≡ opened_behind schema.now 0 (plans_seen ps.now)) }
{
    if !has_join(ps) {
        return Ok(None);
    }
    let mut before = Items::new(alloc);
    for i in 0..ps.len() {
        let p = &ps[i];
        if let Some((inner, c)) = parts_behind(alloc, schema, p, before.as_slice())? {
            return Ok(Some((spliced(alloc, ps, i, inner)?, c)));
        }
        before.append(kinds(alloc, schema, p)?)?;
    }
    Ok(None)
}

/// Whether one of the plans is a join. Without one no columns are counted.
fn has_join(ps: &[Plan]) -> bool
    ensures { result ≡ list_any (λ p. a_join (plan_seen p)) ps.now }
{
    ps.iter().any(|p| is_join(p))
}

fn is_join(p: &Plan) -> bool
    ensures { result ≡ a_join (plan_seen p.now) }
{
    matches!(p, Plan::Join(_, _))
}

/// The members of a join and its condition, whose columns are moved behind those before the join.
#[tactic(auto, using(vkg_rules::proofs::Seen::seen_nodes))]
fn parts_behind(
    alloc: Global,
    schema: &Schema,
    p: &Plan,
    before: &[SqlType],
) -> Result<Option<(Items<Plan>, Expr)>, Memory>
    requires { IsTyped schema.now (plan_seen p.now) }
    ensures { IfOk result (λ o. option_map members_seen o ≡ parts_moved (length before.now) (plan_seen p.now)) }
{
    match p {
        Plan::Join(ps, c) => {
            let own = kinds(alloc, schema, p)?;
            let ps = copy_plans(alloc, ps.as_slice())?;
            Ok(Some((ps, moved(alloc, c, before, own.as_slice())?)))
        }
        _ => Ok(None),
    }
}

/// The kinds of a plan's columns.
fn kinds(alloc: Global, schema: &Schema, p: &Plan) -> Result<Items<SqlType>, Memory>
    ensures { IfOk result (λ ks. ks ≡ kinds_or_none schema.now (plan_seen p.now)) }
{
    match plan_kinds(alloc, p, schema)? {
        Some(kinds) => Ok(kinds),
        None => Ok(Items::new(alloc)),
    }
}

/// The plans with others in the place of the one at i.
fn spliced(alloc: Global, ps: &[Plan], i: usize, inner: Items<Plan>) -> Result<Items<Plan>, Memory>
    requires { i < length ps.now }
    ensures { IfOk result (λ r. r ≡ (take i ps.now ++ inner) ++ drop (i + 1) ps.now) }
{
    let mut all = copy_plans(alloc, &ps[..i])?;
    all.append(inner)?;
    all.append(copy_plans(alloc, &ps[i + 1..])?)?;
    Ok(all)
}
