// Names of columns with their expressions.
ghost use Rattle.std.specs.Prelude.{if◌then◌else◌, [], find, flat_map, IfOk, map, OnOk, option_map, Some, ◌++◌, ◌∷◌, ◌≡◌};
ghost use Rattle.vkg_expr.specs.Expr.{Same};
ghost use Rattle.vkg_expr.specs.Seen.{expr_seen};
ghost use Rattle.vkg_lists.specs.Sets.{distinct};
ghost use Rattle.vkg_unfold.specs.Parts.{named_seen};
ghost use Rattle.vkg_unfold.specs.declared.named.Named.{Named};
ghost use Rattle.vkg_unfolded.specs.Unfolded.{Named as NamedColumn, again, constants, if_each, Name, name_eq, named, node_names, numbered, pattern_names, places, repeats, same_name};
ghost use Rattle.std.specs.List.{list_any};
ghost use Rattle.std.specs.Option.{option_copied};

use crate::exprs::term_const;
use crate::rule_terms::RuleTerms;
use std::alloc::Global;
use vkg_base::{Box, Items, Memory};
use vkg_expr::{Expr, copy_boxed};
use vkg_sparql::{Node, TriplePattern};
use vkg_unfolded::Mode;

/// A column's name, which is a variable's or label's number or none for the graph, and its expression.
#[derive(Drop)]
pub(crate) struct Named {
    pub name: Option<usize>,
    pub expr: Expr,
}

/// Whether two columns have one name.
pub(crate) fn same_name(a: Option<usize>, b: Option<usize>) -> bool
    ensures { result ≡ name_eq a b }
{
    a == b
}

/// The columns of the variables and labels of a pattern, with the terms of a rule.
pub(crate) fn named_places(
    alloc: Global,
    pattern: &TriplePattern,
    rule: &RuleTerms<'_>,
) -> Result<Items<Named>, Memory>
    ensures { IfOk result (λ ns. map named_seen ns ≡ flat_map named (places pattern.now rule.now)) }
{
    let mut found = Items::new(alloc);
    push_named(alloc, &mut found, &pattern.subject, rule.subject())?;
    push_named(alloc, &mut found, &pattern.predicate, rule.predicate())?;
    push_named(alloc, &mut found, &pattern.object, rule.object())?;
    Ok(found)
}

fn push_named(
    alloc: Global,
    found: &mut Items<Named>,
    node: &Node,
    term: &Expr,
) -> Result<(), Memory>
    ensures { OnOk result (map named_seen found.new ≡ map named_seen found.old ++ named (node.now, expr_seen term.now)) }
{
    match node {
        Node::Variable(number) => push_number(alloc, found, *number, term),
        Node::Label(number) => push_number(alloc, found, *number, term),
        Node::Fixed(_) => Ok(()),
    }
}

fn push_number(
    alloc: Global,
    found: &mut Items<Named>,
    number: usize,
    term: &Expr,
) -> Result<(), Memory>
    ensures { OnOk result (map named_seen found.new ≡ map named_seen found.old ++ (Some number, expr_seen term.now) ∷ []) }
{
    let expr = term.copy(alloc)?;
    found.push(Named {
        name: Some(number),
        expr,
    })
}

/// The fixed terms of a pattern are those of a rule.
pub(crate) fn constant_places(
    alloc: Global,
    pattern: &TriplePattern,
    rule: &RuleTerms<'_>,
) -> Result<Items<Expr>, Memory>
    ensures { IfOk result (λ es. map expr_seen es ≡ flat_map constants (places pattern.now rule.now)) }
{
    let mut found = Items::new(alloc);
    push_constant(alloc, &mut found, &pattern.subject, rule.subject())?;
    push_constant(alloc, &mut found, &pattern.predicate, rule.predicate())?;
    push_constant(alloc, &mut found, &pattern.object, rule.object())?;
    Ok(found)
}

fn push_constant(
    alloc: Global,
    found: &mut Items<Expr>,
    node: &Node,
    term: &Expr,
) -> Result<(), Memory>
    ensures { OnOk result (map expr_seen found.new ≡ map expr_seen found.old ++ constants (node.now, expr_seen term.now)) }
{
    match node {
        Node::Variable(_) => Ok(()),
        Node::Label(_) => Ok(()),
        Node::Fixed(constant) => {
            let constant = Box::new(alloc, term_const(constant)?)?;
            let made = copy_boxed(alloc, term)?;
            found.push(Expr::Same(constant, made))
        }
    }
}

/// Each later column of a name is equal to its first.
#[tactic(auto, using(crate::proofs::Steps::repeats_more))]
pub(crate) fn repeats(alloc: Global, list: &[Named]) -> Result<Items<Expr>, Memory>
    ensures { IfOk result (λ es. map expr_seen es ≡ repeats [] (map named_seen list.now)) }
{
    let mut found = Items::new(alloc);
    for i in 0..list.len() {
        push_repeat(alloc, &mut found, &list[..i], &list[i])?;
    }
    Ok(found)
}

fn push_repeat(
    alloc: Global,
    found: &mut Items<Expr>,
    before: &[Named],
    column: &Named,
) -> Result<(), Memory>
    ensures { OnOk result (map expr_seen found.new ≡ map expr_seen found.old ++ again (named_seen column.now) (find (same_name (named_seen column.now)) (map named_seen before.now))) }
{
    match first_named(before, column) {
        None => Ok(()),
        Some(first) => {
            let again = Box::new(alloc, column.expr.copy(alloc)?)?;
            let first = Box::new(alloc, first.expr.copy(alloc)?)?;
            found.push(Expr::Same(again, first))
        }
    }
}

/// The first column of the same name.
#[tactic(auto, using(crate::proofs::Steps::find_more))]
fn first_named<'a>(before: &'a [Named], column: &Named) -> Option<&'a Named>
    ensures { option_map named_seen (option_copied result) ≡ find (same_name (named_seen column.now)) (map named_seen before.now) }
{
    for first in before {
        if same_name(column.name, first.name) {
            return Some(first);
        }
    }
    None
}

/// The expression of each name at its first place.
pub(crate) fn first_places(alloc: Global, list: &[Named]) -> Result<Items<Expr>, Memory>
    ensures { IfOk result (λ es. map expr_seen es ≡ map (λ (n : NamedColumn). n.1) (distinct same_name (map named_seen list.now))) }
{
    let mut found = Items::new(alloc);
    for i in 0..list.len() {
        push_first(alloc, &mut found, &list[..i], &list[i])?;
    }
    Ok(found)
}

fn push_first(
    alloc: Global,
    found: &mut Items<Expr>,
    before: &[Named],
    column: &Named,
) -> Result<(), Memory>
    ensures { OnOk result (map expr_seen found.new ≡ map expr_seen found.old ++ (if list_any (λ (n : Named). name_eq n.name column.now.name) before.now then [] else expr_seen column.now.expr ∷ [])) }
{
    if is_there(before, column.name) {
        return Ok(());
    }
    found.push(column.expr.copy(alloc)?)
}

fn is_there(list: &[Named], name: Option<usize>) -> bool
    ensures { result ≡ list_any (λ (n : Named). name_eq n.name name) list.now }
{
    list.iter().any(|n| same_name(n.name, name))
}

/// The names of a pattern, each once.
pub(crate) fn pattern_names(
    alloc: Global,
    mode: &Mode,
    pattern: &TriplePattern,
) -> Result<Items<Option<usize>>, Memory>
    ensures { IfOk result (λ ns. ns ≡ pattern_names mode.now pattern.now) }
{
    let mut all = Items::new(alloc);
    push_name(&mut all, &pattern.subject)?;
    push_name(&mut all, &pattern.predicate)?;
    push_name(&mut all, &pattern.object)?;
    let mut names = each_once(alloc, all.as_slice())?;
    push_graph(&mut names, mode)?;
    Ok(names)
}

fn push_name(names: &mut Items<Option<usize>>, node: &Node) -> Result<(), Memory>
    ensures { OnOk result (names.new ≡ names.old ++ node_names node.now) }
{
    match node {
        Node::Variable(number) => names.push(Some(*number)),
        Node::Label(number) => names.push(Some(*number)),
        Node::Fixed(_) => Ok(()),
    }
}

fn push_graph(names: &mut Items<Option<usize>>, mode: &Mode) -> Result<(), Memory>
    ensures { OnOk result (names.new ≡ names.old ++ if_each mode.now None) }
{
    match mode {
        Mode::Default => Ok(()),
        Mode::InGraph(_) => Ok(()),
        Mode::Each => names.push(None),
    }
}

fn each_once(alloc: Global, names: &[Option<usize>]) -> Result<Items<Option<usize>>, Memory>
    ensures { IfOk result (λ ns. ns ≡ distinct name_eq names.now) }
{
    let mut found = Items::new(alloc);
    for i in 0..names.len() {
        push_new(&mut found, &names[..i], names[i])?;
    }
    Ok(found)
}

fn push_new(
    found: &mut Items<Option<usize>>,
    before: &[Option<usize>],
    name: Option<usize>,
) -> Result<(), Memory>
    ensures { OnOk result (found.new ≡ found.old ++ (if list_any (λ n. name_eq n name) before.now then [] else name ∷ [])) }
{
    if has_name(before, name) {
        return Ok(());
    }
    found.push(name)
}

fn has_name(names: &[Option<usize>], name: Option<usize>) -> bool
    ensures { result ≡ list_any (λ n. name_eq n name) names.now }
{
    names.iter().any(|n| same_name(*n, name))
}

/// The columns of some names, which stand in their order.
#[tactic(auto, using(crate::proofs::Steps::numbered_more))]
pub(crate) fn numbered(alloc: Global, names: &[Option<usize>]) -> Result<Items<Named>, Memory>
    ensures { IfOk result (λ ns. map named_seen ns ≡ numbered 0 names.now) }
{
    let mut columns = Items::new(alloc);
    for i in 0..names.len() {
        columns.push(Named {
            name: names[i],
            expr: Expr::Col(i),
        })?;
    }
    Ok(columns)
}
