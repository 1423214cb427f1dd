// Projections, and what they give with columns on both sides.
ghost use Rattle.std.specs.Prelude.{◌≡◌, IfOk, option_map};
ghost use Rattle.std.specs.List.{list_all};
ghost use Rattle.vkg_expr.specs.Seen.{expr_seen};
ghost use Rattle.vkg_expr.specs.Strict.{nulls_on_null as null_with_column};
ghost use Rattle.vkg_plan.specs.Seen.{plan_seen};
ghost use Rattle.vkg_rules.specs.Steps.{IsTyped};
ghost use Rattle.vkg_lifts.specs.LiftedSeen.{exprs_seen};
ghost use Rattle.vkg_lifts.specs.BelowProjects.{exprs_between as between_columns, is_project as a_project};
ghost use Rattle.vkg_lifts.specs.LiftProjects.{keeps_nulls as nulls_kept};

use crate::between::in_between;
use crate::widths::width;
use std::alloc::Global;
use vkg_base::{Items, Memory};
use vkg_expr::{Expr, nulls_on_null};
use vkg_plan::Plan;
use vkg_schema::Schema;

/// What a projection gives that stands between so many columns and so many, over the columns of all and of the plan below it.
#[tactic(auto, using(vkg_rules::proofs::Seen::seen_nodes))]
pub fn exprs_between(
    alloc: Global,
    schema: &Schema,
    p: &Plan,
    before: usize,
    after: usize,
) -> Result<Option<Items<Expr>>, Memory>
    requires { IsTyped schema.now (plan_seen p.now) }
    ensures { IfOk result (λ o. option_map exprs_seen o ≡ between_columns schema.now before after (plan_seen p.now)) }
{
    match p {
        Plan::Project(es, p) => {
            let own = width(schema, p)?;
            Ok(Some(in_between(alloc, es.as_slice(), before, own, after)?))
        }
        _ => Ok(None),
    }
}

pub fn is_project(p: &Plan) -> bool
    ensures { result ≡ a_project (plan_seen p.now) }
{
    matches!(p, Plan::Project(_, _))
}

/// Whether the plan is a projection whose expressions are NULL on a row of NULLs.
#[tactic(auto, using(vkg_rules::proofs::Seen::seen_nodes, crate::proofs::OwnColumns::all_seen))]
pub fn keeps_nulls(p: &Plan) -> bool
    ensures { result ≡ nulls_kept (plan_seen p.now) }
{
    match p {
        Plan::Project(es, _) => are_nulls(es.as_slice()),
        _ => false,
    }
}

fn are_nulls(es: &[Expr]) -> bool
    ensures { result ≡ list_all (λ e. null_with_column (expr_seen e)) es.now }
{
    es.iter().all(|e| nulls_on_null(e))
}
