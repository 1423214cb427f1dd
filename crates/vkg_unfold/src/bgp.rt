// The plan of a basic graph pattern: the join of its patterns' plans (SPARQL 1.1, 18.3).
ghost use Rattle.std.specs.Prelude.{[], flat_map, IfOk, length, map, OnOk, Some, ◌++◌, ◌∷◌, ◌≡◌};
ghost use Rattle.std.specs.List.{position_or_len};
ghost use Rattle.vkg_algebra.specs.Algebra.{Bgp};
ghost use Rattle.vkg_algebra.specs.Visible.{visible};
ghost use Rattle.vkg_expr.specs.Expr.{Col};
ghost use Rattle.vkg_expr.specs.Seen.{expr_seen};
ghost use Rattle.vkg_plan.specs.Plan.{Plan};
ghost use Rattle.vkg_plan.specs.Seen.{plan_seen};
ghost use Rattle.vkg_unfolded.specs.FittingRules.{FitJoins};
ghost use Rattle.vkg_unfolded.specs.Unfolded.{bgp_plan, if_each, name_eq, numbered, pattern_names, pattern_plan, patterns_plan, repeats};

use crate::exprs::and_of;
use crate::named::{numbered, pattern_names, repeats, same_name};
use crate::pattern::{names_plan, pattern_plan};
use crate::rule_terms::RuleTerms;
use std::alloc::Global;
use vkg_algebra::{Var, variables_of_patterns};
use vkg_base::{Box, Items, Memory};
use vkg_expr::Expr;
use vkg_plan::Plan;
use vkg_schema::Table;
use vkg_sparql::TriplePattern;
use vkg_unfolded::Mode;

/// The plan of a basic graph pattern. The empty one has one solution, in mode each one in each graph.
pub(crate) fn bgp_plan(
    alloc: Global,
    schema: &[Table],
    rules: &[RuleTerms<'_>],
    mode: &Mode,
    patterns: &[TriplePattern],
) -> Result<Plan, Memory>
    requires { FitJoins schema.now rules.now }
    ensures { IfOk result (λ p. plan_seen p ≡ bgp_plan schema.now rules.now mode.now patterns.now) }
{
    match (mode, patterns) {
        (Mode::Default, []) => Ok(Plan::Unit),
        (Mode::InGraph(_), []) => Ok(Plan::Unit),
        (Mode::Each, []) => names_plan(alloc, schema, rules),
        (_, [_, ..]) => joined(alloc, schema, rules, mode, patterns),
    }
}

/// The patterns' plans side by side, of which each variable's first column is kept.
fn joined(
    alloc: Global,
    schema: &[Table],
    rules: &[RuleTerms<'_>],
    mode: &Mode,
    patterns: &[TriplePattern],
) -> Result<Plan, Memory>
    requires { FitJoins schema.now rules.now }
    ensures { IfOk result (λ p. plan_seen p ≡ patterns_plan schema.now rules.now mode.now (visible (Bgp patterns.now)) patterns.now) }
{
    let variables = variables_of_patterns(alloc, patterns)?;
    let names = all_names(alloc, mode, patterns)?;
    let columns = wanted(alloc, mode, variables.as_slice(), names.as_slice())?;
    let members = pattern_plans(alloc, schema, rules, mode, patterns)?;
    let numbered = numbered(alloc, names.as_slice())?;
    let agreement = and_of(repeats(alloc, numbered.as_slice())?);
    let all = Box::new(alloc, Plan::Join(members, agreement))?;
    Ok(Plan::Project(columns, all))
}

/// The names of the columns of all patterns.
fn all_names(
    alloc: Global,
    mode: &Mode,
    patterns: &[TriplePattern],
) -> Result<Items<Option<usize>>, Memory>
    ensures { IfOk result (λ ns. ns ≡ flat_map (pattern_names mode.now) patterns.now) }
{
    let mut names = Items::new(alloc);
    for pattern in patterns {
        names.append(pattern_names(alloc, mode, pattern)?)?;
    }
    Ok(names)
}

fn pattern_plans(
    alloc: Global,
    schema: &[Table],
    rules: &[RuleTerms<'_>],
    mode: &Mode,
    patterns: &[TriplePattern],
) -> Result<Items<Plan>, Memory>
    requires { FitJoins schema.now rules.now }
    ensures { IfOk result (λ ps. map plan_seen ps ≡ map (pattern_plan schema.now rules.now mode.now) patterns.now) }
{
    let mut members = Items::new(alloc);
    for pattern in patterns {
        members.push(pattern_plan(alloc, schema, rules, mode, pattern)?)?;
    }
    Ok(members)
}

/// The first column of each variable, and in mode each that of the graph.
fn wanted(
    alloc: Global,
    mode: &Mode,
    variables: &[Var],
    names: &[Option<usize>],
) -> Result<Items<Expr>, Memory>
    ensures { IfOk result (λ es. map expr_seen es ≡ map (λ x. Col (position_or_len (name_eq x) names.now)) (map Some variables.now ++ if_each mode.now None)) }
{
    let mut columns = Items::new(alloc);
    for variable in variables {
        columns.push(first_column(names, Some(*variable)))?;
    }
    push_graph(&mut columns, mode, names)?;
    Ok(columns)
}

fn push_graph(columns: &mut Items<Expr>, mode: &Mode, names: &[Option<usize>]) -> Result<(), Memory>
    ensures { OnOk result (map expr_seen columns.new ≡ map expr_seen columns.old ++ map (λ x. Col (position_or_len (name_eq x) names.now)) (if_each mode.now None)) }
{
    match mode {
        Mode::Default => Ok(()),
        Mode::InGraph(_) => Ok(()),
        Mode::Each => columns.push(first_column(names, None)),
    }
}

/// The column in which a name first stands.
fn first_column(names: &[Option<usize>], name: Option<usize>) -> Expr
    ensures { expr_seen result ≡ Col (position_or_len (name_eq name) names.now) }
{
    Expr::Col(place(names, name))
}

/// Where a name first stands; behind the last one where it does not.
fn place(names: &[Option<usize>], name: Option<usize>) -> usize
    ensures { result ≡ position_or_len (name_eq name) names.now }
{
    names.iter().take_while(|n| !same_name(name, **n)).count()
}
