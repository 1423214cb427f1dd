// ORDER BY, LIMIT and OFFSET.
ghost use Rattle.std.specs.Char.{is_ascii_digit};
ghost use Rattle.std.specs.List.{list_all};
ghost use Rattle.std.specs.Prelude.{◌≡◌, ◌<◌, ◌++◌, IfOk, OnOk};
ghost use Rattle.vkg_grammar.specs.Forest.{tree, node_count};
ghost use Rattle.vkg_sparql.specs.Conditions.{no_condition};
ghost use Rattle.vkg_sparql.specs.Orders.{bracketed_key, is_descending, key_of, key_value, keys_value, limit_first, no_slice, number_if, number_value, offset_first, order_value, slice_number, slice_value};

use crate::condition::Condition;
use crate::condition_reader::{no_condition, read_bracketed, read_call, read_operand};
use crate::meaning::{Meaning, first_token};
use crate::query::{Key, Slice};
use std::alloc::Global;
use vkg_base::{Items, Memory, at as meaning_at};
use vkg_grammar::{Forest, Node};
use vkg_terms::Term;

fn key_of(condition: Condition, descends: bool) -> Key
    ensures { result ≡ key_of condition descends }
{
    Key {
        condition,
        descends,
    }
}

// direction = ASC | DESC
fn is_descending(forest: &Forest, at: usize) -> bool
    requires { at < node_count forest.now }
    ensures { result ≡ is_descending (tree forest.now at) }
{
    match forest.node(at) {
        Node::Second(_) => true,
        _ => false,
    }
}

// bracketed | direction bracketed
fn read_bracketed_key(
    alloc: Global,
    meanings: &[Meaning],
    forest: &Forest,
    at: usize,
) -> Result<Key, Memory>
    requires { at < node_count forest.now }
    ensures { IfOk result (λ k. k ≡ bracketed_key meanings.now (tree forest.now at)) }
{
    match forest.node(at) {
        Node::First(t) => Ok(key_of(read_bracketed(alloc, meanings, forest, t)?, false)),
        Node::Second(t) => match forest.node(t) {
            Node::Pair(direction, t) => {
                let descends = is_descending(forest, direction);
                Ok(key_of(read_bracketed(alloc, meanings, forest, t)?, descends))
            }
            _ => Ok(key_of(no_condition()?, false)),
        },
        _ => Ok(key_of(no_condition()?, false)),
    }
}

// key = VAR | call | bracketed | direction bracketed
fn read_key(alloc: Global, meanings: &[Meaning], forest: &Forest, at: usize) -> Result<Key, Memory>
    requires { at < node_count forest.now }
    ensures { IfOk result (λ k. k ≡ key_value meanings.now (tree forest.now at)) }
{
    match forest.node(at) {
        Node::First(t) => Ok(key_of(read_operand(meanings, forest, t)?, false)),
        Node::Second(t) => match forest.node(t) {
            Node::First(t) => Ok(key_of(read_call(alloc, meanings, forest, t)?, false)),
            Node::Second(t) => read_bracketed_key(alloc, meanings, forest, t),
            _ => Ok(key_of(no_condition()?, false)),
        },
        _ => Ok(key_of(no_condition()?, false)),
    }
}

// { key }
fn read_keys(
    alloc: Global,
    meanings: &[Meaning],
    forest: &Forest,
    at: usize,
) -> Result<Items<Key>, Memory>
    requires { at < node_count forest.now }
    ensures { IfOk result (λ ks. ks ≡ keys_value meanings.now (tree forest.now at)) }
{
    let mut keys = Items::new(alloc);
    let mut rest = at;
    while let Node::Pair(key, more) = forest.node(rest) {
        keys.push(read_key(alloc, meanings, forest, key)?)?;
        rest = more;
    }
    Ok(keys)
}

/// The keys: [ order ], where order = ORDER BY key { key }.
pub fn read_order(
    alloc: Global,
    meanings: &[Meaning],
    forest: &Forest,
    at: usize,
) -> Result<Items<Key>, Memory>
    requires { at < node_count forest.now }
    ensures { IfOk result (λ ks. ks ≡ order_value meanings.now (tree forest.now at)) }
{
    let Node::First(order) = forest.node(at) else {
        return Ok(Items::new(alloc));
    };
    let Node::Pair(_, rest) = forest.node(order) else {
        return Ok(Items::new(alloc));
    };
    let Node::Pair(_, keys) = forest.node(rest) else {
        return Ok(Items::new(alloc));
    };
    read_keys(alloc, meanings, forest, keys)
}

fn are_digits(text: &[u8]) -> bool
    ensures { result ≡ list_all is_ascii_digit text.now }
{
    text.iter().all(|b| b.is_ascii_digit())
}

/// The number of a slice: without a sign, and at most 4,294,967,295.
pub fn slice_number(text: &str) -> Option<u32>
    ensures { result ≡ slice_number text.now }
{
    if !are_digits(text.as_bytes()) {
        return None;
    }
    text.parse::<u32>().ok()
}

fn read_number(meanings: &[Meaning], forest: &Forest, at: usize) -> u32
    requires { at < node_count forest.now }
    ensures { result ≡ number_value meanings.now (tree forest.now at) }
{
    match meaning_at(meanings, first_token(forest, at)) {
        Some(Meaning::Fixed(Term::Lit(text, _))) => slice_number(text.as_str()).unwrap_or(0),
        _ => 0,
    }
}

// [ LIMIT INTEGER ] or [ OFFSET INTEGER ]
fn read_number_if(meanings: &[Meaning], forest: &Forest, at: usize) -> Option<u32>
    requires { at < node_count forest.now }
    ensures { result ≡ number_if meanings.now (tree forest.now at) }
{
    match forest.node(at) {
        Node::First(t) => match forest.node(t) {
            Node::Pair(_, number) => Some(read_number(meanings, forest, number)),
            _ => None,
        },
        _ => None,
    }
}

/// All solutions: where no slice is asked.
pub fn no_slice() -> Slice
    ensures { result ≡ no_slice }
{
    Slice {
        offset: 0,
        limit: None,
    }
}

// LIMIT INTEGER [ OFFSET INTEGER ]
fn read_limit_first(meanings: &[Meaning], forest: &Forest, at: usize) -> Slice
    requires { at < node_count forest.now }
    ensures { result ≡ limit_first meanings.now (tree forest.now at) }
{
    let Node::Pair(_, rest) = forest.node(at) else {
        return no_slice();
    };
    let Node::Pair(number, more) = forest.node(rest) else {
        return no_slice();
    };
    Slice {
        offset: read_number_if(meanings, forest, more).unwrap_or(0),
        limit: Some(read_number(meanings, forest, number)),
    }
}

// OFFSET INTEGER [ LIMIT INTEGER ]
fn read_offset_first(meanings: &[Meaning], forest: &Forest, at: usize) -> Slice
    requires { at < node_count forest.now }
    ensures { result ≡ offset_first meanings.now (tree forest.now at) }
{
    let Node::Pair(_, rest) = forest.node(at) else {
        return no_slice();
    };
    let Node::Pair(number, more) = forest.node(rest) else {
        return no_slice();
    };
    Slice {
        offset: read_number(meanings, forest, number),
        limit: read_number_if(meanings, forest, more),
    }
}

/// The slice: [ slice ], where slice = LIMIT INTEGER [ OFFSET INTEGER ] | OFFSET INTEGER [ LIMIT INTEGER ].
pub fn read_slice(meanings: &[Meaning], forest: &Forest, at: usize) -> Slice
    requires { at < node_count forest.now }
    ensures { result ≡ slice_value meanings.now (tree forest.now at) }
{
    match forest.node(at) {
        Node::First(t) => match forest.node(t) {
            Node::First(t) => read_limit_first(meanings, forest, t),
            Node::Second(t) => read_offset_first(meanings, forest, t),
            _ => no_slice(),
        },
        _ => no_slice(),
    }
}
