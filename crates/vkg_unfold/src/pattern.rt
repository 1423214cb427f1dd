// The plan of a triple pattern: the union of the rules that may make its triples, each row once.
ghost use Rattle.std.specs.Prelude.{[], filter_map, flat_map, IfOk, length, map, OnOk, replicate, Some, ◌++◌, ◌+◌, ◌<◌, ◌^◌, ◌∷◌, ◌≡◌};
ghost use Rattle.vkg_cells.specs.declared.cell.SqlType.TheVariants as kind;
ghost use Rattle.vkg_plan.specs.Plan.{Join, Project, Scan};
ghost use Rattle.vkg_plan.specs.Seen.{plan_seen};
ghost use Rattle.vkg_expr.specs.Seen.{expr_seen};
ghost use Rattle.vkg_row_rules.specs.RowDataset.{conditions};
ghost use Rattle.std.specs.List.{AllByRecursion};
ghost use Rattle.vkg_unfolded.specs.FittingRules.{FitJoins, FitsCondition, FitsJoin};
ghost use Rattle.vkg_unfolded.specs.Unfolded.{constants, exists_member, exists_plan, graph_exprs, graph_terms, graph_test, if_each, named, names_member, names_plan, not_null, pattern_member, pattern_places, Named, pattern_plan, places, repeats, rule_member, rule_source, source_plan, union_of};
ghost use Rattle.vkg_expr.specs.Expr.{Same, Col};
ghost use Rattle.vkg_maps.specs.Within.{kinds_at};

use crate::exprs::{and_of, term_expr};
use crate::graph_test::graph_test;
use crate::named::{constant_places, first_places, named_places, pattern_names, repeats};
use crate::rule_terms::RuleTerms;
use std::alloc::Global;
use vkg_base::{Box, Items, Memory, Text, at};
use vkg_cells::SqlType;
use vkg_expr::{Expr, TermExpr, copy_exprs};
use vkg_maps::Join;
use vkg_plan::Plan;
use vkg_row_rules::RowRule;
use vkg_schema::Table;
use vkg_sparql::TriplePattern;
use vkg_unfolded::Mode;

/// The plan of a triple pattern.
pub(crate) fn pattern_plan(
    alloc: Global,
    schema: &[Table],
    rules: &[RuleTerms<'_>],
    mode: &Mode,
    pattern: &TriplePattern,
) -> Result<Plan, Memory>
    requires { FitJoins schema.now rules.now }
    ensures { IfOk result (λ p. plan_seen p ≡ pattern_plan schema.now rules.now mode.now pattern.now) }
{
    let columns = pattern_names(alloc, mode, pattern)?.len();
    let mut members = Items::new(alloc);
    for rule in rules {
        push_pattern(alloc, &mut members, schema, mode, pattern, rule)?;
    }
    union_of(alloc, columns, members)
}

fn push_pattern(
    alloc: Global,
    members: &mut Items<Plan>,
    schema: &[Table],
    mode: &Mode,
    pattern: &TriplePattern,
    rule: &RuleTerms<'_>,
) -> Result<(), Memory>
    requires { FitsJoin schema.now rule.now.table rule.now.join }
    ensures { OnOk result (map plan_seen members.new ≡ map plan_seen members.old ++ filter_map (pattern_member schema.now mode.now pattern.now) (rule.now ∷ [])) }
{
    let Some(test) = graph_test(alloc, mode, &rule.rule().graph)? else {
        return Ok(());
    };
    let columns = pattern_columns(alloc, mode, pattern, rule)?;
    let conditions = pattern_conditions(alloc, pattern, rule)?;
    members.push(rule_member(alloc, schema, rule, columns, test, conditions)?)
}

/// The columns of a pattern with the terms of a rule: each name at its first place, and in mode each the graph.
#[tactic(auto, using(crate::proofs::Steps::columns_are))]
fn pattern_columns(
    alloc: Global,
    mode: &Mode,
    pattern: &TriplePattern,
    rule: &RuleTerms<'_>,
) -> Result<Items<Expr>, Memory>
    ensures { IfOk result (λ es. map expr_seen es ≡ map (λ (n : Named). n.1) (pattern_places mode.now pattern.now rule.now)) }
{
    let named = named_places(alloc, pattern, rule)?;
    let mut columns = first_places(alloc, named.as_slice())?;
    push_graph_in_each(alloc, &mut columns, mode, &rule.rule().graph)?;
    Ok(exact(columns))
}

/// The fixed terms of a pattern are those of a rule, and each name has one term.
fn pattern_conditions(
    alloc: Global,
    pattern: &TriplePattern,
    rule: &RuleTerms<'_>,
) -> Result<Items<Expr>, Memory>
    ensures { IfOk result (λ es. map expr_seen es ≡ flat_map constants (places pattern.now rule.now) ++ repeats [] (flat_map named (places pattern.now rule.now))) }
{
    let named = named_places(alloc, pattern, rule)?;
    let mut conditions = constant_places(alloc, pattern, rule)?;
    conditions.append(repeats(alloc, named.as_slice())?)?;
    Ok(conditions)
}

/// The graphs' names.
pub(crate) fn names_plan(
    alloc: Global,
    schema: &[Table],
    rules: &[RuleTerms<'_>],
) -> Result<Plan, Memory>
    requires { FitJoins schema.now rules.now }
    ensures { IfOk result (λ p. plan_seen p ≡ names_plan schema.now rules.now) }
{
    let mut members = Items::new(alloc);
    for rule in rules {
        push_names(alloc, &mut members, schema, rule)?;
    }
    union_of(alloc, 1, members)
}

fn push_names(
    alloc: Global,
    members: &mut Items<Plan>,
    schema: &[Table],
    rule: &RuleTerms<'_>,
) -> Result<(), Memory>
    requires { FitsJoin schema.now rule.now.table rule.now.join }
    ensures { OnOk result (map plan_seen members.new ≡ map plan_seen members.old ++ filter_map (names_member schema.now) (rule.now ∷ [])) }
{
    let Some(test) = graph_test(alloc, &Mode::Each, &rule.rule().graph)? else {
        return Ok(());
    };
    let mut columns = Items::new(alloc);
    push_graph(alloc, &mut columns, &rule.rule().graph)?;
    let conditions = Items::new(alloc);
    members.push(rule_member(alloc, schema, rule, columns, test, conditions)?)
}

/// Whether there is a graph of the name: a row without columns where there is.
pub(crate) fn exists_plan(
    alloc: Global,
    schema: &[Table],
    rules: &[RuleTerms<'_>],
    iri: &Text,
) -> Result<Plan, Memory>
    requires { FitJoins schema.now rules.now }
    ensures { IfOk result (λ p. plan_seen p ≡ exists_plan schema.now rules.now iri.now) }
{
    let in_graph = Mode::InGraph(iri.copy()?);
    exists_in(alloc, schema, rules, &in_graph)
}

fn exists_in(
    alloc: Global,
    schema: &[Table],
    rules: &[RuleTerms<'_>],
    in_graph: &Mode,
) -> Result<Plan, Memory>
    requires { FitJoins schema.now rules.now }
    ensures { IfOk result (λ p. plan_seen p ≡ union_of 0 (filter_map (exists_member schema.now in_graph.now) rules.now)) }
{
    let mut members = Items::new(alloc);
    for rule in rules {
        push_exists(alloc, &mut members, schema, in_graph, rule)?;
    }
    union_of(alloc, 0, members)
}

fn push_exists(
    alloc: Global,
    members: &mut Items<Plan>,
    schema: &[Table],
    in_graph: &Mode,
    rule: &RuleTerms<'_>,
) -> Result<(), Memory>
    requires { FitsJoin schema.now rule.now.table rule.now.join }
    ensures { OnOk result (map plan_seen members.new ≡ map plan_seen members.old ++ filter_map (exists_member schema.now in_graph.now) (rule.now ∷ [])) }
{
    let Some(test) = graph_test(alloc, in_graph, &rule.rule().graph)? else {
        return Ok(());
    };
    let columns = Items::new(alloc);
    let conditions = Items::new(alloc);
    members.push(rule_member(alloc, schema, rule, columns, test, conditions)?)
}

/// The rows of a rule whose terms are there and which pass the conditions, as these columns.
fn rule_member(
    alloc: Global,
    schema: &[Table],
    rule: &RuleTerms<'_>,
    columns: Items<Expr>,
    test: Items<Expr>,
    conditions: Items<Expr>,
) -> Result<Plan, Memory>
    requires { FitsJoin schema.now rule.now.table rule.now.join }
    ensures { IfOk result (λ p. plan_seen p ≡ Project (map expr_seen columns) (rule_source schema.now rule.now (not_null rule.now ++ map expr_seen test ++ map expr_seen conditions))) }
{
    let mut all = not_null(alloc, rule)?;
    all.append(test)?;
    all.append(conditions)?;
    let source = rule_source(alloc, schema, rule.rule(), exact(all))?;
    Ok(Plan::Project(columns, source))
}

/// The rows of a rule's table that pass the conditions, or its pairs of rows that agree and pass.
fn rule_source(
    alloc: Global,
    schema: &[Table],
    rule: &RowRule,
    conditions: Items<Expr>,
) -> Result<Box<Plan>, Memory>
    requires { FitsJoin schema.now rule.now.table rule.now.join }
    ensures { IfOk result (λ p. plan_seen p ≡ rule_source schema.now rule.now (map expr_seen conditions)) }
{
    match &rule.join {
        None => {
            let rows = Box::new(alloc, Plan::Scan(rule.table))?;
            Box::new(alloc, Plan::Select(and_of(conditions), rows))
        }
        Some(join) => joined_tables(alloc, schema, rule.table, join, conditions),
    }
}

/// The pairs of rows of the child's and the parent's table that agree and pass the conditions.
fn joined_tables(
    alloc: Global,
    schema: &[Table],
    child: usize,
    join: &Join,
    conditions: Items<Expr>,
) -> Result<Box<Plan>, Memory>
    requires { FitsJoin schema.now child (Some join.now) }
    ensures { IfOk result (λ p. plan_seen p ≡ source_plan schema.now child (Some join.now) (map expr_seen conditions)) }
{
    let mut all = agreement(alloc, schema, child, join)?;
    all.append(conditions)?;
    let tables = two_tables(alloc, child, join.table)?;
    Box::new(alloc, Plan::Join(tables, and_of(all)))
}

fn two_tables(alloc: Global, child: usize, parent: usize) -> Result<Items<Plan>, Memory>
    ensures { IfOk result (λ ps. map plan_seen ps ≡ Scan child ∷ Scan parent ∷ []) }
{
    let mut tables = Items::new(alloc);
    tables.push(Plan::Scan(child))?;
    tables.push(Plan::Scan(parent))?;
    Ok(tables)
}

/// The number of a table's columns.
fn width(schema: &[Table], table: usize) -> usize
    ensures value { result ≡ length (kinds_at schema.now table) }
    ensures bound { result < 2 ^ 63 }
{
    match at(schema, table) {
        Some(table) => table.columns.as_slice().len(),
        None => 0,
    }
}

/// The join conditions (R2RML, 8).
fn agreement(
    alloc: Global,
    schema: &[Table],
    child: usize,
    join: &Join,
) -> Result<Items<Expr>, Memory>
    requires { FitsJoin schema.now child (Some join.now) }
    ensures { IfOk result (λ es. map expr_seen es ≡ conditions schema.now child join.now) }
{
    equalities(alloc, schema, child, join.table, join.conditions.as_slice())
}

/// Each of some conditions.
fn equalities(
    alloc: Global,
    schema: &[Table],
    child: usize,
    parents: usize,
    conditions: &[(usize, usize)],
) -> Result<Items<Expr>, Memory>
    requires { AllByRecursion (FitsCondition (kinds_at schema.now child) (kinds_at schema.now parents)) conditions.now }
    ensures { IfOk result (λ es. map expr_seen es ≡ map (λ c. Same (Col c.0) (Col (c.1 + length (kinds_at schema.now child)))) conditions.now) }
{
    let mut agreeing = Items::new(alloc);
    for (column, parent) in conditions {
        agreeing.push(condition(alloc, schema, child, parents, *column, *parent)?)?;
    }
    Ok(agreeing)
}

/// One join condition: the parent's columns stand behind those of the child.
fn condition(
    alloc: Global,
    schema: &[Table],
    child: usize,
    parents: usize,
    column: usize,
    parent: usize,
) -> Result<Expr, Memory>
    requires { parent < length (kinds_at schema.now parents) }
    ensures { IfOk result (λ e. expr_seen e ≡ Same (Col column) (Col (parent + length (kinds_at schema.now child)))) }
{
    // both are numbers of columns in memory, so that their sum has a number, too
    let within = width(schema, parents);
    prove!(parent < within);
    same_columns(alloc, column, parent + width(schema, child))
}

pub(crate) fn same_columns(alloc: Global, a: usize, b: usize) -> Result<Expr, Memory>
    ensures { IfOk result (λ e. expr_seen e ≡ Same (Col a) (Col b)) }
{
    let a = Box::new(alloc, Expr::Col(a))?;
    let b = Box::new(alloc, Expr::Col(b))?;
    Ok(Expr::Same(a, b))
}

/// The terms of a rule's quad are there.
fn not_null(alloc: Global, rule: &RuleTerms<'_>) -> Result<Items<Expr>, Memory>
    ensures { IfOk result (λ es. map expr_seen es ≡ not_null rule.now) }
{
    copy_exprs(alloc, rule.not_null())
}

fn push_graph(
    alloc: Global,
    columns: &mut Items<Expr>,
    graph: &Option<TermExpr>,
) -> Result<(), Memory>
    ensures { OnOk result (map expr_seen columns.new ≡ map expr_seen columns.old ++ graph_terms graph.now) }
{
    match graph {
        None => Ok(()),
        Some(graph) => columns.push(term_expr(alloc, graph)?),
    }
}

/// In mode each the graph's name is the last column.
fn push_graph_in_each(
    alloc: Global,
    columns: &mut Items<Expr>,
    mode: &Mode,
    graph: &Option<TermExpr>,
) -> Result<(), Memory>
    ensures { OnOk result (map expr_seen columns.new ≡ map expr_seen columns.old ++ flat_map (if_each mode.now) (graph_terms graph.now)) }
{
    match mode {
        Mode::Default => Ok(()),
        Mode::InGraph(_) => Ok(()),
        Mode::Each => push_graph(alloc, columns, graph),
    }
}

/// The same list, with room for no more.
fn exact(list: Items<Expr>) -> Items<Expr>
    ensures { result ≡ list }
{
    let mut items = list.into_vec();
    items.shrink_to_fit();
    Items::from_vec(items)
}

/// Each row of the members once; no row where there is no member.
fn union_of(alloc: Global, columns: usize, members: Items<Plan>) -> Result<Plan, Memory>
    ensures { IfOk result (λ p. plan_seen p ≡ union_of columns (map plan_seen members)) }
{
    if members.as_slice().is_empty() {
        return Ok(Plan::Empty(terms(alloc, columns)?));
    }
    let all = Box::new(alloc, Plan::UnionAll(members))?;
    Ok(Plan::Distinct(all))
}

/// The kinds of columns of terms.
pub(crate) fn terms(alloc: Global, columns: usize) -> Result<Items<SqlType>, Memory>
    ensures { IfOk result (λ ks. ks ≡ replicate columns kind.Term) }
{
    let mut kinds = Items::new(alloc);
    for _column in 0..columns {
        kinds.push(SqlType::Term)?;
    }
    Ok(kinds)
}
