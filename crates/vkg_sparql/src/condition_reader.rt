ghost use Rattle.std.specs.Prelude.{◌≡◌, ◌<◌, ◌++◌, IfOk, OnOk};
ghost use Rattle.vkg_grammar.specs.Forest.{tree, node_count};
ghost use Rattle.vkg_sparql.specs.Meanings.{first_token, operand_of, meaning_at};
ghost use Rattle.vkg_sparql.specs.Conditions.{or_joined, and_joined, negated, no_condition, bound_value, operand_value, or_value, or_more, and_value, and_more, rel_value, rel_more, unary_value, primary_value, bracketed, call_value, two_value, filter_value};

use crate::condition::Condition;
use crate::meaning::{
    Meaning, applied, applied_to_two, compare_of, first_token, number_of, operand_of,
};
use std::alloc::Global;
use vkg_base::{Box, Items, Memory};
use vkg_grammar::{Forest, Node};

/// Of a tree that no production has.
pub fn no_condition() -> Result<Condition, Memory>
    ensures { IfOk result (λ c. c ≡ no_condition) }
{
    Ok(Condition::Variable(0))
}

fn or_joined(alloc: Global, first: Condition, more: Items<Condition>) -> Result<Condition, Memory>
    ensures { IfOk result (λ c. c ≡ or_joined first more) }
{
    if more.is_empty() {
        return Ok(first);
    }
    Ok(Condition::Or(Box::new(alloc, first)?, more))
}

fn and_joined(alloc: Global, first: Condition, more: Items<Condition>) -> Result<Condition, Memory>
    ensures { IfOk result (λ c. c ≡ and_joined first more) }
{
    if more.is_empty() {
        return Ok(first);
    }
    Ok(Condition::And(Box::new(alloc, first)?, more))
}

fn negated(alloc: Global, is_negated: bool, c: Condition) -> Result<Condition, Memory>
    ensures { IfOk result (λ d. d ≡ negated is_negated c) }
{
    if is_negated {
        Ok(Condition::Not(Box::new(alloc, c)?))
    } else {
        Ok(c)
    }
}

// BOUND "(" VAR ")"
fn read_bound(meanings: &[Meaning], forest: &Forest, at: usize) -> Condition
    requires { at < node_count forest.now }
    ensures { result ≡ bound_value meanings.now (tree forest.now at) }
{
    let Node::Pair(_, rest) = forest.node(at) else {
        return Condition::Variable(0);
    };
    let Node::Pair(_, rest) = forest.node(rest) else {
        return Condition::Variable(0);
    };
    let Node::Pair(v, _) = forest.node(rest) else {
        return Condition::Variable(0);
    };
    Condition::Bound(number_of(meanings, first_token(forest, v)))
}

/// The expression that one token is, or one literal: VAR | iri | literal.
pub fn read_operand(meanings: &[Meaning], forest: &Forest, at: usize) -> Result<Condition, Memory>
    requires { at < node_count forest.now }
    ensures { IfOk result (λ c. c ≡ operand_value meanings.now (tree forest.now at)) }
{
    let token = first_token(forest, at);
    operand_of(meanings, token)
}

// or = and { "||" and }
#[cycle(condition)]
pub fn read_or(
    alloc: Global,
    meanings: &[Meaning],
    forest: &Forest,
    at: usize,
) -> Result<Condition, Memory>
    requires { at < node_count forest.now }
    ensures { IfOk result (λ c. c ≡ or_value meanings.now (tree forest.now at)) }
{
    let Node::Pair(a, more) = forest.node(at) else {
        return no_condition();
    };
    let rest = read_or_more(alloc, meanings, forest, more)?;
    let c = read_and(alloc, meanings, forest, a)?;
    or_joined(alloc, c, rest)
}

#[cycle(condition)]
fn read_or_more(
    alloc: Global,
    meanings: &[Meaning],
    forest: &Forest,
    at: usize,
) -> Result<Items<Condition>, Memory>
    requires { at < node_count forest.now }
    ensures { IfOk result (λ cs. cs ≡ or_more meanings.now (tree forest.now at)) }
{
    let mut all = Items::new(alloc);
    let mut rest = at;
    while let Node::Pair(step, more) = forest.node(rest) {
        let Node::Pair(_, a) = forest.node(step) else {
            return Ok(all);
        };
        all.push(read_and(alloc, meanings, forest, a)?)?;
        rest = more;
    }
    Ok(all)
}

// and = rel { "&&" rel }
#[cycle(condition)]
fn read_and(
    alloc: Global,
    meanings: &[Meaning],
    forest: &Forest,
    at: usize,
) -> Result<Condition, Memory>
    requires { at < node_count forest.now }
    ensures { IfOk result (λ c. c ≡ and_value meanings.now (tree forest.now at)) }
{
    let Node::Pair(a, more) = forest.node(at) else {
        return no_condition();
    };
    let rest = read_and_more(alloc, meanings, forest, more)?;
    let c = read_rel(alloc, meanings, forest, a)?;
    and_joined(alloc, c, rest)
}

#[cycle(condition)]
fn read_and_more(
    alloc: Global,
    meanings: &[Meaning],
    forest: &Forest,
    at: usize,
) -> Result<Items<Condition>, Memory>
    requires { at < node_count forest.now }
    ensures { IfOk result (λ cs. cs ≡ and_more meanings.now (tree forest.now at)) }
{
    let mut all = Items::new(alloc);
    let mut rest = at;
    while let Node::Pair(step, more) = forest.node(rest) {
        let Node::Pair(_, a) = forest.node(step) else {
            return Ok(all);
        };
        all.push(read_rel(alloc, meanings, forest, a)?)?;
        rest = more;
    }
    Ok(all)
}

// rel = unary [ sign unary ]
#[cycle(condition)]
fn read_rel(
    alloc: Global,
    meanings: &[Meaning],
    forest: &Forest,
    at: usize,
) -> Result<Condition, Memory>
    requires { at < node_count forest.now }
    ensures { IfOk result (λ c. c ≡ rel_value meanings.now (tree forest.now at)) }
{
    let Node::Pair(a, more) = forest.node(at) else {
        return no_condition();
    };
    let c = read_unary(alloc, meanings, forest, a)?;
    read_rel_more(alloc, meanings, forest, c, more)
}

#[cycle(condition)]
fn read_rel_more(
    alloc: Global,
    meanings: &[Meaning],
    forest: &Forest,
    before: Condition,
    at: usize,
) -> Result<Condition, Memory>
    requires { at < node_count forest.now }
    ensures { IfOk result (λ c. c ≡ rel_more meanings.now before (tree forest.now at)) }
{
    let Node::First(step) = forest.node(at) else {
        return Ok(before);
    };
    let Node::Pair(sign, b) = forest.node(step) else {
        return Ok(before);
    };
    let compare = compare_of(meanings, first_token(forest, sign));
    let left = Box::new(alloc, before)?;
    let right = Box::new(alloc, read_unary(alloc, meanings, forest, b)?)?;
    Ok(Condition::Compare(compare, left, right))
}

// unary = [ "!" ] primary
#[cycle(condition)]
fn read_unary(
    alloc: Global,
    meanings: &[Meaning],
    forest: &Forest,
    at: usize,
) -> Result<Condition, Memory>
    requires { at < node_count forest.now }
    ensures { IfOk result (λ c. c ≡ unary_value meanings.now (tree forest.now at)) }
{
    let Node::Pair(mark, a) = forest.node(at) else {
        return no_condition();
    };
    let c = read_primary(alloc, meanings, forest, a)?;
    negated(alloc, forest.is_present(mark), c)
}

// primary = bracketed | call | VAR | iri | literal
#[cycle(condition)]
fn read_primary(
    alloc: Global,
    meanings: &[Meaning],
    forest: &Forest,
    at: usize,
) -> Result<Condition, Memory>
    requires { at < node_count forest.now }
    ensures { IfOk result (λ c. c ≡ primary_value meanings.now (tree forest.now at)) }
{
    match forest.node(at) {
        Node::First(t) => read_bracketed(alloc, meanings, forest, t),
        Node::Second(t) => match forest.node(t) {
            Node::First(t) => read_call(alloc, meanings, forest, t),
            Node::Second(t) => read_operand(meanings, forest, t),
            _ => no_condition(),
        },
        _ => no_condition(),
    }
}

/// bracketed = "(" or ")".
#[cycle(condition)]
pub fn read_bracketed(
    alloc: Global,
    meanings: &[Meaning],
    forest: &Forest,
    at: usize,
) -> Result<Condition, Memory>
    requires { at < node_count forest.now }
    ensures { IfOk result (λ c. c ≡ bracketed meanings.now (tree forest.now at)) }
{
    let Node::Pair(_, rest) = forest.node(at) else {
        return no_condition();
    };
    let Node::Pair(a, _) = forest.node(rest) else {
        return no_condition();
    };
    read_or(alloc, meanings, forest, a)
}

/// call = BOUND "(" VAR ")" | two "(" or "," or ")" | test bracketed
#[cycle(condition)]
pub fn read_call(
    alloc: Global,
    meanings: &[Meaning],
    forest: &Forest,
    at: usize,
) -> Result<Condition, Memory>
    requires { at < node_count forest.now }
    ensures { IfOk result (λ c. c ≡ call_value meanings.now (tree forest.now at)) }
{
    match forest.node(at) {
        Node::First(t) => Ok(read_bound(meanings, forest, t)),
        Node::Second(t) => match forest.node(t) {
            Node::First(t) => match forest.node(t) {
                Node::Pair(word, t) => read_two(alloc, meanings, forest, word, t),
                _ => no_condition(),
            },
            Node::Second(t) => match forest.node(t) {
                Node::Pair(word, t) => {
                    let token = first_token(forest, word);
                    let c = read_bracketed(alloc, meanings, forest, t)?;
                    Ok(applied(meanings, token, Box::new(alloc, c)?))
                }
                _ => no_condition(),
            },
            _ => no_condition(),
        },
        _ => no_condition(),
    }
}

// "(" or "," or ")"
#[cycle(condition)]
fn read_two(
    alloc: Global,
    meanings: &[Meaning],
    forest: &Forest,
    word: usize,
    at: usize,
) -> Result<Condition, Memory>
    requires word { word < node_count forest.now }
    requires at { at < node_count forest.now }
    ensures { IfOk result (λ c. c ≡ two_value meanings.now (first_token (tree forest.now word)) (tree forest.now at)) }
{
    let Node::Pair(_, rest) = forest.node(at) else {
        return no_condition();
    };
    let Node::Pair(a, rest) = forest.node(rest) else {
        return no_condition();
    };
    let Node::Pair(_, rest) = forest.node(rest) else {
        return no_condition();
    };
    let Node::Pair(b, _) = forest.node(rest) else {
        return no_condition();
    };
    let c = Box::new(alloc, read_or(alloc, meanings, forest, a)?)?;
    let d = Box::new(alloc, read_or(alloc, meanings, forest, b)?)?;
    let token = first_token(forest, word);
    Ok(applied_to_two(meanings, token, c, d))
}

/// The expression of a filter: filter = bracketed | call.
pub fn read_filter(
    alloc: Global,
    meanings: &[Meaning],
    forest: &Forest,
    at: usize,
) -> Result<Condition, Memory>
    requires { at < node_count forest.now }
    ensures { IfOk result (λ c. c ≡ filter_value meanings.now (tree forest.now at)) }
{
    match forest.node(at) {
        Node::First(t) => read_bracketed(alloc, meanings, forest, t),
        Node::Second(t) => read_call(alloc, meanings, forest, t),
        _ => no_condition(),
    }
}
