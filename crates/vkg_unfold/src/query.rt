// The plan of an algebra, and that of a query.
ghost use Rattle.std.specs.Prelude.{◌++◌, IfOk, OnOk, if◌then◌else◌, IsOkAnd, map, ℕ, ◌≡◌};
ghost use Rattle.vkg_expr.specs.Seen.{expr_seen};
ghost use Rattle.vkg_sparql.specs.Lawful.{IsLawfulQuery};
ghost use Rattle.vkg_sparql.specs.Seen.{condition_seen, key_seen, query_seen};
ghost use Rattle.vkg_algebra.specs.Lawful.{IsLawfulAlgebra};
ghost use Rattle.vkg_algebra.specs.Seen.{algebra_seen};
ghost use Rattle.vkg_algebra.specs.Translation.{algebra_of};
ghost use Rattle.vkg_algebra.specs.Visible.{visible};
ghost use Rattle.vkg_plan.specs.Plan.{Distinct, Select};
ghost use Rattle.vkg_plan.specs.Seen.{plan_seen};
ghost use Rattle.vkg_unfolded.specs.Conditions.{truth_expr};
ghost use Rattle.vkg_unfolded.specs.FineRows.{Meets};
ghost use Rattle.vkg_unfolded.specs.FittingRules.{FitJoins};
ghost use Rattle.vkg_unfolded.specs.StandsFor.{StandsFor};
ghost use Rattle.vkg_unfolded.specs.Unfolded.{bgp_plan, key_column, start_plan, unfolded, visible_column};
ghost use Rattle.vkg_answers.specs.Answering.{GivesSolutions};

use crate::bgp::bgp_plan;
use crate::conditions::{filter_expr, value_expr};
use crate::extend::extend_plan;
use crate::graph::{graph_of_each, graph_of_name};
use crate::minus::minus_plan;
use crate::rule_terms::{RuleTerms, rule_terms};
use crate::table::table_in_mode;
use crate::two::{join_plan, left_plan, union_plan, visible_columns};
use std::alloc::Global;
use vkg_algebra::{Algebra, Var, selected_variables, visible};
use vkg_base::{Box, Items, Memory, Text};
use vkg_expr::Expr;
use vkg_plan::Plan;
use vkg_row_rules::RowRule;
use vkg_schema::Table;
use vkg_sparql::{Condition, GraphName, Key, Query, TriplePattern};
use vkg_unfolded::Mode;

/// The plan of an algebra in a mode. Its rows have a column for each visible variable, in the order in which they first appear, and in
/// mode each the graph's name behind them. Over every database whose rows are fine they are the solutions of a lawful algebra over
/// the dataset of the rules, in each graph of the mode (SPARQL 1.1, 18.6). The rules' joins have to fit the tables, so that the
/// parent's columns have places behind the child's.
pub fn unfold(
    alloc: Global,
    schema: &[Table],
    rules: &[RowRule],
    algebra: &Algebra,
    mode: &Mode,
) -> Result<Plan, Memory>
    requires { FitJoins schema.now rules.now }
    ensures plan { IfOk result (λ p. plan_seen p ≡ unfolded schema.now rules.now (algebra_seen algebra.now) mode.now) }
    ensures stands { IfOk result (λ p. (n : ℕ) → IsLawfulAlgebra n (algebra_seen algebra.now) → StandsFor (Meets schema.now rules.now) schema.now rules.now n mode.now (plan_seen p) (algebra_seen algebra.now)) }
{
    Ok(plan_over(alloc, schema, rules, algebra, mode)?.into_inner())
}

/// The plan of an algebra over rules, whose terms are made once.
fn plan_over(
    alloc: Global,
    schema: &[Table],
    rules: &[RowRule],
    algebra: &Algebra,
    mode: &Mode,
) -> Result<Box<Plan>, Memory>
    requires { FitJoins schema.now rules.now }
    ensures { IfOk result (λ p. plan_seen p ≡ unfolded schema.now rules.now (algebra_seen algebra.now) mode.now) }
{
    let terms = rule_terms(alloc, rules)?;
    plan_of(alloc, schema, terms.as_slice(), algebra, mode)
}

#[cycle(unfold)]
fn plan_of(
    alloc: Global,
    schema: &[Table],
    rules: &[RuleTerms<'_>],
    algebra: &Algebra,
    mode: &Mode,
) -> Result<Box<Plan>, Memory>
    requires { FitJoins schema.now rules.now }
    ensures { IfOk result (λ p. plan_seen p ≡ unfolded schema.now rules.now (algebra_seen algebra.now) mode.now) }
{
    match algebra {
        Algebra::Bgp(patterns) => of_patterns(alloc, schema, rules, mode, patterns.as_slice()),
        Algebra::Join(a, b) => {
            let p = plan_of(alloc, schema, rules, a, mode);
            join_plan(alloc, mode, a, b, p, plan_of(alloc, schema, rules, b, mode))
        }
        Algebra::LeftJoin(a, b, condition) => {
            let p = plan_of(alloc, schema, rules, a, mode);
            let q = plan_of(alloc, schema, rules, b, mode);
            left_plan(alloc, mode, a, b, condition, p, q)
        }
        Algebra::Union(a, b) => {
            let p = plan_of(alloc, schema, rules, a, mode);
            union_plan(alloc, mode, a, b, p, plan_of(alloc, schema, rules, b, mode))
        }
        Algebra::Filter(condition, a) => {
            filtered(alloc, condition, a, plan_of(alloc, schema, rules, a, mode))
        }
        Algebra::Graph(GraphName::Named(iri), a) => {
            let p = in_graph(alloc, schema, rules, a, iri);
            graph_of_name(alloc, schema, rules, mode, iri, a, p)
        }
        Algebra::Graph(GraphName::Each(variable), a) => {
            let p = plan_of(alloc, schema, rules, a, &Mode::Each);
            graph_of_each(alloc, schema, rules, mode, *variable, a, p)
        }
        Algebra::Minus(a, b) => {
            let p = plan_of(alloc, schema, rules, a, mode);
            minus_plan(alloc, mode, a, b, p, plan_of(alloc, schema, rules, b, mode))
        }
        Algebra::Table(variables, rows) => table_in_mode(
            alloc,
            schema,
            rules,
            mode,
            variables.as_slice(),
            rows.as_slice(),
        ),
        Algebra::Extend(a, variable, condition) => {
            let p = plan_of(alloc, schema, rules, a, mode);
            extend_plan(alloc, mode, a, *variable, condition, p)
        }
    }
}

/// The plan of a basic graph pattern.
fn of_patterns(
    alloc: Global,
    schema: &[Table],
    rules: &[RuleTerms<'_>],
    mode: &Mode,
    patterns: &[TriplePattern],
) -> Result<Box<Plan>, Memory>
    requires { FitJoins schema.now rules.now }
    ensures { IfOk result (λ p. plan_seen p ≡ bgp_plan schema.now rules.now mode.now patterns.now) }
{
    let plan = bgp_plan(alloc, schema, rules, mode, patterns)?;
    Box::new(alloc, plan)
}

/// The plan in the graph of a name.
#[cycle(unfold)]
fn in_graph(
    alloc: Global,
    schema: &[Table],
    rules: &[RuleTerms<'_>],
    a: &Algebra,
    iri: &Text,
) -> Result<Box<Plan>, Memory>
    requires { FitJoins schema.now rules.now }
    ensures { IfOk result (λ p. plan_seen p ≡ unfolded schema.now rules.now (algebra_seen a.now) (Mode.InGraph iri.now)) }
{
    let mode = Mode::InGraph(iri.copy()?);
    plan_of(alloc, schema, rules, a, &mode)
}

/// The rows that pass a filter.
fn filtered(
    alloc: Global,
    condition: &Condition,
    a: &Algebra,
    p: Result<Box<Plan>, Memory>,
) -> Result<Box<Plan>, Memory>
    ensures { IfOk result (λ r. IsOkAnd p (λ x. plan_seen r ≡ Select (truth_expr (visible_column (visible (algebra_seen a.now))) (condition_seen condition.now)) (plan_seen x))) }
{
    let p = p?;
    let variables = visible(alloc, a)?;
    let test = filter_expr(alloc, variables.as_slice(), condition)?;
    Box::new(alloc, Plan::Select(test, p))
}

/// The plan of a query's algebra before any rewriting: its rows over the selected variables and behind them the values of the keys of
/// ORDER BY, each once under DISTINCT. Over every database whose rows are fine they are the solutions of a lawful query over the
/// dataset of the rules (SPARQL 1.1, 18.2.5). The
/// rules' joins have to fit the tables.
pub fn start_plan(
    alloc: Global,
    schema: &[Table],
    rules: &[RowRule],
    query: &Query,
    algebra: &Algebra,
) -> Result<Plan, Memory>
    requires algebra { algebra_seen algebra.now ≡ algebra_of (query_seen query.now) }
    requires joins { FitJoins schema.now rules.now }
    ensures plan { IfOk result (λ p. plan_seen p ≡ start_plan schema.now rules.now (query_seen query.now)) }
    ensures solutions { IfOk result (λ p. IsLawfulQuery (query_seen query.now) → GivesSolutions (Meets schema.now rules.now) schema.now rules.now (plan_seen p) (query_seen query.now)) }
{
    selected_plan(alloc, schema, rules, query, algebra)
}

/// The rows of a query's algebra over the selected variables and the keys, each once under DISTINCT.
fn selected_plan(
    alloc: Global,
    schema: &[Table],
    rules: &[RowRule],
    query: &Query,
    algebra: &Algebra,
) -> Result<Plan, Memory>
    requires algebra { algebra_seen algebra.now ≡ algebra_of (query_seen query.now) }
    requires joins { FitJoins schema.now rules.now }
    ensures { IfOk result (λ p. plan_seen p ≡ start_plan schema.now rules.now (query_seen query.now)) }
{
    let variables = visible(alloc, algebra)?;
    let wanted = selected_variables(alloc, query, algebra)?;
    let mut columns = visible_columns(alloc, variables.as_slice(), wanted.as_slice())?;
    push_keys(
        alloc,
        variables.as_slice(),
        query.keys.as_slice(),
        &mut columns,
    )?;
    let rows = plan_over(alloc, schema, rules, algebra, &Mode::Default)?;
    let answer = Plan::Project(columns, rows);
    distinct_if(alloc, query.distinct, answer)
}

/// The columns of the keys, behind those of the selected variables.
fn push_keys(
    alloc: Global,
    variables: &[Var],
    keys: &[Key],
    columns: &mut Items<Expr>,
) -> Result<(), Memory>
    ensures { OnOk result (map expr_seen columns.new ≡ map expr_seen columns.old ++ map (key_column variables.now) (map key_seen keys.now)) }
{
    for key in keys {
        columns.push(value_expr(alloc, variables, &key.condition)?)?;
    }
    Ok(())
}

fn distinct_if(alloc: Global, distinct: bool, plan: Plan) -> Result<Plan, Memory>
    ensures { IfOk result (λ p. plan_seen p ≡ (if distinct then Distinct (plan_seen plan) else plan_seen plan)) }
{
    if distinct {
        let rows = Box::new(alloc, plan)?;
        return Ok(Plan::Distinct(rows));
    }
    Ok(plan)
}
