// The plan of BIND (SPARQL 1.1, 18.5, Extend).
ghost use Rattle.std.specs.Prelude.{[], IfOk, IsOkAnd, map, ◌++◌, ◌∷◌, ◌≡◌};
ghost use Rattle.vkg_algebra.specs.Seen.{algebra_seen};
ghost use Rattle.vkg_algebra.specs.Visible.{each_once, visible};
ghost use Rattle.vkg_expr.specs.Seen.{expr_seen};
ghost use Rattle.vkg_plan.specs.Seen.{plan_seen};
ghost use Rattle.vkg_sparql.specs.Seen.{condition_seen};
ghost use Rattle.vkg_unfolded.specs.Unfolded.{extend_column, extend_plan};

use crate::columns::visible_column;
use crate::conditions::value_expr;
use crate::two::push_graph;
use std::alloc::Global;
use vkg_algebra::{Algebra, Var, each_once, visible};
use vkg_base::{Box, Items, Memory};
use vkg_expr::Expr;
use vkg_plan::Plan;
use vkg_sparql::Condition;
use vkg_unfolded::Mode;

/// The rows with the value of an expression as a variable's column.
pub(crate) fn extend_plan(
    alloc: Global,
    mode: &Mode,
    a: &Algebra,
    variable: Var,
    condition: &Condition,
    p: Result<Box<Plan>, Memory>,
) -> Result<Box<Plan>, Memory>
    ensures { IfOk result (λ r. IsOkAnd p (λ x. plan_seen r ≡ extend_plan mode.now (visible (algebra_seen a.now)) variable (condition_seen condition.now) (plan_seen x))) }
{
    let p = p?;
    let inner = visible(alloc, a)?;
    let all = with_last(alloc, inner.as_slice(), variable)?;
    let mut columns = extend_columns(alloc, inner.as_slice(), variable, condition, all.as_slice())?;
    push_graph(&mut columns, mode, inner.as_slice())?;
    Box::new(alloc, Plan::Project(columns, p))
}

/// The others, and the variable.
fn with_last(alloc: Global, others: &[Var], variable: Var) -> Result<Items<Var>, Memory>
    ensures { IfOk result (λ vs. vs ≡ each_once (others.now ++ variable ∷ [])) }
{
    let mut all = Items::from_slice(alloc, others)?;
    all.push(variable)?;
    each_once(alloc, all.as_slice())
}

fn extend_columns(
    alloc: Global,
    inner: &[Var],
    variable: Var,
    condition: &Condition,
    all: &[Var],
) -> Result<Items<Expr>, Memory>
    ensures { IfOk result (λ es. map expr_seen es ≡ map (extend_column inner.now variable (condition_seen condition.now)) all.now) }
{
    let mut columns = Items::new(alloc);
    for wanted in all {
        columns.push(extend_column(alloc, inner, variable, condition, *wanted)?)?;
    }
    Ok(columns)
}

fn extend_column(
    alloc: Global,
    inner: &[Var],
    variable: Var,
    condition: &Condition,
    wanted: Var,
) -> Result<Expr, Memory>
    ensures { IfOk result (λ e. expr_seen e ≡ extend_column inner.now variable (condition_seen condition.now) wanted) }
{
    if variable == wanted {
        value_expr(alloc, inner, condition)
    } else {
        Ok(visible_column(inner, wanted))
    }
}
