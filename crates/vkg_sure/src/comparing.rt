// Comparisons of two terms of which one is no literal, as the verdict on them.
ghost use Rattle.std.specs.Prelude.{◌≡◌, IfOk, is_some, map, nat_lt, option_map};
ghost use Rattle.std.specs.List.{list_any};
ghost use Rattle.vkg_conditions.specs.Conditions.{if_so};
ghost use Rattle.vkg_conditions.specs.SimplifyCondition.{first_conjunct};
ghost use Rattle.vkg_equalities.specs.Decided.{decided as decided_of};
ghost use Rattle.vkg_equalities.specs.TableColumns.{flag_at as flag_of};
ghost use Rattle.vkg_expr.specs.Expr.{Same, exprs};
ghost use Rattle.vkg_expr.specs.Logic.{conjuncts as conjuncts_of};
ghost use Rattle.vkg_expr.specs.Seen.{expr_seen};
ghost use Rattle.vkg_rules.specs.Measure.{size};
ghost use Rattle.vkg_sure.specs.TermComparison.{as_same as same_of, compared as compared_of, compared_in as compared_in_condition, holds_no_literal as no_literal_held, if_smaller as smaller_of, makes_no_literal as no_literal_made, same_by, same_terms};

use crate::node_count::count_nodes;
use std::alloc::Global;
use vkg_base::{Box, Items, Memory};
use vkg_cells::{Cell, SqlType};
use vkg_conditions::junctions::{Junction, rejoined, single, spliced};
use vkg_equalities::decided;
use vkg_expr::{Expr, Operator, copy_boxed};
use vkg_terms::Term;
use vkg_values::Compare;

/// A condition over columns of these kinds, of which the flagged ones are columns of tables, with its first conjunct compared that can be, if
/// there is one.
#[tactic(auto, unfolding(crate::specs::TermComparison::compared_in), using(vkg_conditions::proofs::ListLemmas::junctions_seen, vkg_conditions::proofs::PlaceLemmas::only_conjunct))]
pub fn compared_in(
    alloc: Global,
    flags: &[bool],
    kinds: &[SqlType],
    c: &Expr,
) -> Result<Option<Box<Expr>>, Memory>
    ensures { IfOk result (λ o. option_map expr_seen o ≡ compared_in_condition flags.now kinds.now (expr_seen c.now)) }
{
    match c {
        Expr::And(list) => rejoined(
            alloc,
            Junction::All,
            first_compared(alloc, flags, kinds, list.as_slice())?,
        ),
        _ => compared(alloc, flags, kinds, c),
    }
}

fn first_compared(
    alloc: Global,
    flags: &[bool],
    kinds: &[SqlType],
    list: &[Expr],
) -> Result<Option<Items<Expr>>, Memory>
    ensures { IfOk result (λ o. option_map (map expr_seen) o ≡ first_conjunct (compared_of (flag_of flags.now) kinds.now) (map expr_seen list.now)) }
{
    for i in 0..list.len() {
        if let Some(d) = compared(alloc, flags, kinds, &list[i])? {
            return Ok(Some(spliced(alloc, list, i, single(alloc, d)?)?));
        }
    }
    Ok(None)
}

/// The verdict on the two terms that a conjunct compares, if one is no literal and the verdict is smaller.
fn compared(
    alloc: Global,
    flags: &[bool],
    kinds: &[SqlType],
    c: &Expr,
) -> Result<Option<Box<Expr>>, Memory>
    ensures { IfOk result (λ o. option_map expr_seen o ≡ compared_of (flag_of flags.now) kinds.now (expr_seen c.now)) }
{
    let Some(same) = as_same(alloc, c)? else {
        return Ok(None);
    };
    let Some(d) = decided_same(alloc, flags, kinds, &same)? else {
        return Ok(None);
    };
    if_smaller(alloc, c, d)
}

fn decided_same(
    alloc: Global,
    flags: &[bool],
    kinds: &[SqlType],
    same: &Expr,
) -> Result<Option<Box<Expr>>, Memory>
    ensures { IfOk result (λ o. option_map expr_seen o ≡ decided_of (flag_of flags.now) kinds.now (expr_seen same.now)) }
{
    match decided(alloc, flags, kinds, same)? {
        None => Ok(None),
        Some(d) => Ok(Some(Box::new(alloc, d)?)),
    }
}

/// The second, if it has fewer nodes than the first.
fn if_smaller(alloc: Global, c: &Expr, d: Box<Expr>) -> Result<Option<Box<Expr>>, Memory>
    ensures { IfOk result (λ o. option_map expr_seen o ≡ smaller_of (expr_seen c.now) (expr_seen d)) }
{
    if is_smaller(alloc, &d, c)? {
        return Ok(Some(d));
    }
    Ok(None)
}

fn is_smaller(alloc: Global, d: &Expr, c: &Expr) -> Result<bool, Memory>
    ensures { IfOk result (λ b. b ≡ nat_lt (size (expr_seen d.now)) (size (expr_seen c.now))) }
{
    let few = count_nodes(alloc, d)?;
    let more = count_nodes(alloc, c)?;
    Ok(few.len() < more.len())
}

// ---- what is compared

/// That the two terms are the same, if the expression compares two of which one is no literal.
#[tactic(auto, using(vkg_conditions::proofs::ListLemmas::lists_seen))]
fn as_same(alloc: Global, c: &Expr) -> Result<Option<Box<Expr>>, Memory>
    ensures { IfOk result (λ o. option_map expr_seen o ≡ same_of (expr_seen c.now)) }
{
    match c {
        Expr::Sparql(operator, list) => by_operator(alloc, *operator, list.as_slice()),
        _ => Ok(None),
    }
}

fn by_operator(
    alloc: Global,
    operator: Operator,
    list: &[Expr],
) -> Result<Option<Box<Expr>>, Memory>
    ensures { IfOk result (λ o. option_map expr_seen o ≡ same_by operator (exprs (map expr_seen list.now))) }
{
    match operator {
        Operator::Compare(Compare::Equal) => of_terms(alloc, list),
        _ => Ok(None),
    }
}

#[tactic(auto, using(crate::proofs::Comparisons::few_terms, crate::proofs::Comparisons::many_terms))]
fn of_terms(alloc: Global, list: &[Expr]) -> Result<Option<Box<Expr>>, Memory>
    ensures { IfOk result (λ o. option_map expr_seen o ≡ same_terms (exprs (map expr_seen list.now))) }
{
    match list {
        [a, b] => same_if(alloc, makes_no_literal(a) || makes_no_literal(b), a, b),
        [] => Ok(None),
        [_] => Ok(None),
        [_, _, _, ..] => Ok(None),
    }
}

fn same_if(alloc: Global, holds: bool, a: &Expr, b: &Expr) -> Result<Option<Box<Expr>>, Memory>
    ensures { IfOk result (λ o. option_map expr_seen o ≡ if_so holds (Same (expr_seen a.now) (expr_seen b.now))) }
{
    if !holds {
        return Ok(None);
    }
    let a = copy_boxed(alloc, a)?;
    let b = copy_boxed(alloc, b)?;
    Ok(Some(Box::new(alloc, Expr::Same(a, b))?))
}

/// Whether what it makes is no literal.
fn makes_no_literal(e: &Expr) -> bool
    ensures { result ≡ no_literal_made (expr_seen e.now) }
{
    match e {
        Expr::Const(cell, _) => holds_no_literal(cell),
        Expr::MakeIri(_) => true,
        Expr::MakeBlank(_) => true,
        _ => false,
    }
}

fn holds_no_literal(cell: &Cell) -> bool
    ensures { result ≡ no_literal_held cell.now }
{
    match cell {
        Cell::Term(Term::Iri(_)) => true,
        Cell::Term(Term::Blank(_)) => true,
        _ => false,
    }
}

// ---- where nothing is compared

/// Whether a conjunct compares two terms of which one is no literal. No other is changed, whatever the columns are.
#[tactic(auto, using(vkg_columns::proofs::Lists::conjunct_lists))]
pub fn may_compare(c: &Expr) -> bool
    ensures { result ≡ list_any (λ e. is_some (same_of e)) (conjuncts_of (expr_seen c.now)) }
{
    match c {
        Expr::And(list) => any_compares(list.as_slice()),
        _ => compares(c),
    }
}

fn any_compares(list: &[Expr]) -> bool
    ensures { result ≡ list_any (λ e. is_some (same_of e)) (map expr_seen list.now) }
{
    for c in list {
        if compares(c) {
            return true;
        }
    }
    false
}

#[tactic(auto, using(vkg_conditions::proofs::ListLemmas::lists_seen))]
fn compares(c: &Expr) -> bool
    ensures { result ≡ is_some (same_of (expr_seen c.now)) }
{
    match c {
        Expr::Sparql(operator, list) => asks_same(*operator, list.as_slice()),
        _ => false,
    }
}

fn asks_same(operator: Operator, list: &[Expr]) -> bool
    ensures { result ≡ is_some (same_by operator (exprs (map expr_seen list.now))) }
{
    match operator {
        Operator::Compare(Compare::Equal) => are_two(list),
        _ => false,
    }
}

/// Whether they are two, of which one makes no literal.
#[tactic(auto, using(crate::proofs::Comparisons::is_so, crate::proofs::Comparisons::few_terms, crate::proofs::Comparisons::many_terms))]
fn are_two(list: &[Expr]) -> bool
    ensures { result ≡ is_some (same_terms (exprs (map expr_seen list.now))) }
{
    match list {
        [a, b] => makes_no_literal(a) || makes_no_literal(b),
        [] => false,
        [_] => false,
        [_, _, _, ..] => false,
    }
}
