// The plan of the data of VALUES (SPARQL 1.1, 18.2.2.6).
ghost use Rattle.std.specs.Prelude.{IfOk, map, ◌≡◌};
ghost use Rattle.vkg_algebra.specs.Visible.{each_once};
ghost use Rattle.vkg_expr.specs.Seen.{expr_seen};
ghost use Rattle.vkg_plan.specs.Seen.{plan_seen};
ghost use Rattle.vkg_unfolded.specs.FittingRules.{FitJoins};
ghost use Rattle.vkg_unfolded.specs.Unfolded.{all_plan, in_mode, row_plan, row_term, table_plan, value_const};

use crate::columns::null_term;
use crate::exprs::term_const;
use crate::graph::in_mode;
use crate::pattern::terms;
use crate::rule_terms::RuleTerms;
use std::alloc::Global;
use vkg_algebra::{Var, each_once};
use vkg_base::{Box, Items, Memory};
use vkg_expr::Expr;
use vkg_plan::Plan;
use vkg_schema::Table;
use vkg_terms::Term;
use vkg_unfolded::Mode;

/// The rows of VALUES, in mode each in each graph.
pub(crate) fn table_in_mode(
    alloc: Global,
    schema: &[Table],
    rules: &[RuleTerms<'_>],
    mode: &Mode,
    variables: &[Var],
    rows: &[Items<Option<Term>>],
) -> Result<Box<Plan>, Memory>
    requires { FitJoins schema.now rules.now }
    ensures { IfOk result (λ r. plan_seen r ≡ in_mode schema.now rules.now mode.now (each_once variables.now) (table_plan variables.now rows.now)) }
{
    let wanted = each_once(alloc, variables)?;
    let p = table_plan(alloc, variables, wanted.as_slice(), rows)?;
    in_mode(alloc, schema, rules, mode, wanted.as_slice(), p)
}

/// A row of constants for each row.
fn table_plan(
    alloc: Global,
    variables: &[Var],
    wanted: &[Var],
    rows: &[Items<Option<Term>>],
) -> Result<Box<Plan>, Memory>
    requires { wanted.now ≡ each_once variables.now }
    ensures { IfOk result (λ r. plan_seen r ≡ table_plan variables.now rows.now) }
{
    let members = each_row(alloc, variables, wanted, rows)?;
    Box::new(alloc, all_of(alloc, wanted.len(), members)?)
}

/// All rows of the members; no row where there is no member.
fn all_of(alloc: Global, columns: usize, members: Items<Plan>) -> Result<Plan, Memory>
    ensures { IfOk result (λ p. plan_seen p ≡ all_plan columns (map plan_seen members)) }
{
    if members.as_slice().is_empty() {
        return Ok(Plan::Empty(terms(alloc, columns)?));
    }
    Ok(Plan::UnionAll(members))
}

fn each_row(
    alloc: Global,
    variables: &[Var],
    wanted: &[Var],
    rows: &[Items<Option<Term>>],
) -> Result<Items<Plan>, Memory>
    requires { wanted.now ≡ each_once variables.now }
    ensures { IfOk result (λ ps. map plan_seen ps ≡ map (row_plan variables.now) rows.now) }
{
    let mut members = Items::new(alloc);
    for row in rows {
        members.push(row_plan(alloc, variables, wanted, row.as_slice())?)?;
    }
    Ok(members)
}

fn row_plan(
    alloc: Global,
    variables: &[Var],
    wanted: &[Var],
    row: &[Option<Term>],
) -> Result<Plan, Memory>
    requires { wanted.now ≡ each_once variables.now }
    ensures { IfOk result (λ p. plan_seen p ≡ row_plan variables.now row.now) }
{
    let columns = values(alloc, variables, wanted, row)?;
    let unit = Box::new(alloc, Plan::Unit)?;
    Ok(Plan::Project(columns, unit))
}

fn values(
    alloc: Global,
    variables: &[Var],
    wanted: &[Var],
    row: &[Option<Term>],
) -> Result<Items<Expr>, Memory>
    ensures { IfOk result (λ es. map expr_seen es ≡ map (λ v. value_const (row_term variables.now row.now v)) wanted.now) }
{
    let mut columns = Items::new(alloc);
    for variable in wanted {
        columns.push(row_value(variables, row, *variable)?)?;
    }
    Ok(columns)
}

/// The value of a variable in a row, at its first place.
fn row_value(variables: &[Var], row: &[Option<Term>], wanted: Var) -> Result<Expr, Memory>
    ensures { IfOk result (λ e. expr_seen e ≡ value_const (row_term variables.now row.now wanted)) }
{
    let Some((variable, variables)) = variables.split_first() else {
        return Ok(null_term());
    };
    let Some((value, row)) = row.split_first() else {
        return Ok(null_term());
    };
    if *variable == wanted {
        return value_const(value);
    }
    row_value(variables, row, wanted)
}

/// The constant of a value; UNDEF is NULL.
fn value_const(value: &Option<Term>) -> Result<Expr, Memory>
    ensures { IfOk result (λ e. expr_seen e ≡ value_const value.now) }
{
    match value {
        None => Ok(null_term()),
        Some(term) => term_const(term),
    }
}
