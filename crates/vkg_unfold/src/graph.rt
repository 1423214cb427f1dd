// The plan of GRAPH (SPARQL 1.1, 13.3 and 18.6).
ghost use Rattle.std.specs.Prelude.{[], IfOk, IsOkAnd, IsTrue, length, map, true, ◌∷◌, ◌≡◌, ◌≤◌};
ghost use Rattle.vkg_algebra.specs.Seen.{algebra_seen};
ghost use Rattle.vkg_algebra.specs.Visible.{each_once, visible};
ghost use Rattle.vkg_expr.specs.Expr.{Col};
ghost use Rattle.vkg_expr.specs.Seen.{expr_seen};
ghost use Rattle.vkg_plan.specs.Seen.{plan_seen};
ghost use Rattle.vkg_unfolded.specs.FittingRules.{FitJoins};
ghost use Rattle.vkg_unfolded.specs.Unfolded.{after, column, each_graph, graph_column, in_its_graph, in_mode, is_pattern, named_graph};
ghost use Rattle.vkg_plan.specs.Plan.{Join, plans};
ghost use Rattle.vkg_expr.specs.Logic.{truth_const};

use crate::columns::{has, place};
use crate::exprs::{or_of, truth_const};
use crate::pattern::{exists_plan, names_plan, same_columns};
use crate::rule_terms::RuleTerms;
use crate::two::{two, unbound};
use std::alloc::Global;
use vkg_algebra::{Algebra, Var, each_once, visible};
use vkg_base::{Box, Items, Memory, Text};
use vkg_expr::Expr;
use vkg_plan::Plan;
use vkg_schema::Table;
use vkg_unfolded::Mode;

/// GRAPH with an IRI, of the plan in that graph.
pub(crate) fn graph_of_name(
    alloc: Global,
    schema: &[Table],
    rules: &[RuleTerms<'_>],
    mode: &Mode,
    iri: &Text,
    a: &Algebra,
    p: Result<Box<Plan>, Memory>,
) -> Result<Box<Plan>, Memory>
    requires { FitJoins schema.now rules.now }
    ensures { IfOk result (λ r. IsOkAnd p (λ x. plan_seen r ≡ in_mode schema.now rules.now mode.now (visible (algebra_seen a.now)) (named_graph schema.now rules.now (algebra_seen a.now) iri.now (plan_seen x)))) }
{
    let p = p?;
    let variables = visible(alloc, a)?;
    let p = named_graph(alloc, schema, rules, iri, a, variables.as_slice(), p)?;
    in_mode(alloc, schema, rules, mode, variables.as_slice(), p)
}

/// GRAPH with a variable, of the plan in each graph.
pub(crate) fn graph_of_each(
    alloc: Global,
    schema: &[Table],
    rules: &[RuleTerms<'_>],
    mode: &Mode,
    variable: Var,
    a: &Algebra,
    p: Result<Box<Plan>, Memory>,
) -> Result<Box<Plan>, Memory>
    requires { FitJoins schema.now rules.now }
    ensures { IfOk result (λ r. IsOkAnd p (λ x. plan_seen r ≡ in_mode schema.now rules.now mode.now (each_once (variable ∷ visible (algebra_seen a.now))) (each_graph (visible (algebra_seen a.now)) variable (plan_seen x)))) }
{
    let p = p?;
    let inner = visible(alloc, a)?;
    let variables = with_variable(alloc, variable, inner.as_slice())?;
    let p = each_graph(alloc, inner.as_slice(), variable, variables.as_slice(), p)?;
    in_mode(alloc, schema, rules, mode, variables.as_slice(), p)
}

/// The variable, and the others.
fn with_variable(alloc: Global, variable: Var, others: &[Var]) -> Result<Items<Var>, Memory>
    ensures { IfOk result (λ vs. vs ≡ each_once (variable ∷ others.now)) }
{
    let mut all = Items::new(alloc);
    all.push(variable)?;
    all.append(Items::from_slice(alloc, others)?)?;
    each_once(alloc, all.as_slice())
}

/// In mode each a plan without graphs stands behind the graphs' names.
pub(crate) fn in_mode(
    alloc: Global,
    schema: &[Table],
    rules: &[RuleTerms<'_>],
    mode: &Mode,
    variables: &[Var],
    p: Box<Plan>,
) -> Result<Box<Plan>, Memory>
    requires { FitJoins schema.now rules.now }
    ensures { IfOk result (λ r. plan_seen r ≡ in_mode schema.now rules.now mode.now variables.now (plan_seen p)) }
{
    match mode {
        Mode::Default => Ok(p),
        Mode::InGraph(_) => Ok(p),
        Mode::Each => {
            let names = Box::new(alloc, names_plan(alloc, schema, rules)?)?;
            after_names(alloc, names, variables, p)
        }
    }
}

/// A pattern has no solution in a graph that is not there; another algebra is asked whether the graph is.
fn named_graph(
    alloc: Global,
    schema: &[Table],
    rules: &[RuleTerms<'_>],
    iri: &Text,
    a: &Algebra,
    variables: &[Var],
    p: Box<Plan>,
) -> Result<Box<Plan>, Memory>
    requires joins { FitJoins schema.now rules.now }
    requires variables { variables.now ≡ visible (algebra_seen a.now) }
    ensures { IfOk result (λ r. plan_seen r ≡ named_graph schema.now rules.now (algebra_seen a.now) iri.now (plan_seen p)) }
{
    if is_pattern(a) {
        return Ok(p);
    }
    let exists = Box::new(alloc, exists_plan(alloc, schema, rules, iri)?)?;
    after_test(alloc, exists, variables, p)
}

/// Whether an algebra is a basic graph pattern that is not empty.
fn is_pattern(a: &Algebra) -> bool
    ensures { result ≡ is_pattern (algebra_seen a.now) }
{
    match a {
        Algebra::Bgp(patterns) => !patterns.as_slice().is_empty(),
        Algebra::Join(_, _) => false,
        Algebra::LeftJoin(_, _, _) => false,
        Algebra::Union(_, _) => false,
        Algebra::Filter(_, _) => false,
        Algebra::Graph(_, _) => false,
        Algebra::Minus(_, _) => false,
        Algebra::Table(_, _) => false,
        Algebra::Extend(_, _, _) => false,
    }
}

/// A plan behind a plan without columns.
fn after_test(
    alloc: Global,
    test: Box<Plan>,
    variables: &[Var],
    p: Box<Plan>,
) -> Result<Box<Plan>, Memory>
    ensures { IfOk result (λ r. plan_seen r ≡ after (plan_seen test) variables.now 0 (plan_seen p)) }
{
    let columns = each_column(alloc, variables)?;
    let pairs = pairs(alloc, test, p)?;
    Box::new(alloc, Plan::Project(columns, pairs))
}

/// A plan behind the graphs' names, which stand last afterwards.
fn after_names(
    alloc: Global,
    names: Box<Plan>,
    variables: &[Var],
    p: Box<Plan>,
) -> Result<Box<Plan>, Memory>
    ensures { IfOk result (λ r. plan_seen r ≡ after (plan_seen names) variables.now 1 (plan_seen p)) }
{
    let mut columns = each_column_behind(alloc, variables)?;
    columns.push(Expr::Col(0))?;
    let pairs = pairs(alloc, names, p)?;
    Box::new(alloc, Plan::Project(columns, pairs))
}

/// Each row of the one with each of the other.
fn pairs(alloc: Global, p: Box<Plan>, q: Box<Plan>) -> Result<Box<Plan>, Memory>
    ensures { IfOk result (λ r. plan_seen r ≡ Join (plans (plan_seen p ∷ plan_seen q ∷ [])) (truth_const true)) }
{
    let members = two(alloc, p, q)?;
    Box::new(alloc, Plan::Join(members, truth_const(true)))
}

fn each_column(alloc: Global, variables: &[Var]) -> Result<Items<Expr>, Memory>
    ensures { IfOk result (λ es. map expr_seen es ≡ map (column variables.now 0) variables.now) }
{
    let mut columns = Items::new(alloc);
    for variable in variables {
        columns.push(Expr::Col(place(variables, *variable)))?;
    }
    Ok(columns)
}

fn each_column_behind(alloc: Global, variables: &[Var]) -> Result<Items<Expr>, Memory>
    ensures { IfOk result (λ es. map expr_seen es ≡ map (column variables.now 1) variables.now) }
{
    let mut columns = Items::new(alloc);
    for variable in variables {
        columns.push(Expr::Col(1 + place(variables, *variable)))?;
    }
    Ok(columns)
}

/// The graph's name is the variable's value. Where the variable stands inside, too, it has to be the same or unbound.
fn each_graph(
    alloc: Global,
    inner: &[Var],
    variable: Var,
    variables: &[Var],
    p: Box<Plan>,
) -> Result<Box<Plan>, Memory>
    requires { variables.now ≡ each_once (variable ∷ inner.now) }
    ensures { IfOk result (λ r. plan_seen r ≡ each_graph inner.now variable (plan_seen p)) }
{
    let columns = graph_columns(alloc, inner, variable, variables)?;
    let rows = in_its_graph(alloc, inner, variable, p)?;
    Box::new(alloc, Plan::Project(columns, rows))
}

fn graph_columns(
    alloc: Global,
    inner: &[Var],
    variable: Var,
    variables: &[Var],
) -> Result<Items<Expr>, Memory>
    ensures { IfOk result (λ es. map expr_seen es ≡ map (graph_column inner.now variable) variables.now) }
{
    let mut columns = Items::new(alloc);
    for wanted in variables {
        columns.push(graph_column(inner, variable, *wanted))?;
    }
    Ok(columns)
}

fn graph_column(inner: &[Var], variable: Var, wanted: Var) -> Expr
    ensures { expr_seen result ≡ graph_column inner.now variable wanted }
{
    if variable == wanted {
        Expr::Col(inner.len())
    } else {
        Expr::Col(place(inner, wanted))
    }
}

fn in_its_graph(
    alloc: Global,
    inner: &[Var],
    variable: Var,
    p: Box<Plan>,
) -> Result<Box<Plan>, Memory>
    ensures { IfOk result (λ r. plan_seen r ≡ in_its_graph inner.now variable (plan_seen p)) }
{
    if !has(inner, variable) {
        return Ok(p);
    }
    let place = place(inner, variable);
    let mut choices = Items::new(alloc);
    choices.push(unbound(alloc, place)?)?;
    choices.push(same_columns(alloc, place, inner.len())?)?;
    Box::new(alloc, Plan::Select(or_of(choices), p))
}
