ghost use Rattle.std.specs.Prelude.{◌≡◌, ◌<◌, ◌++◌, ◌∷◌, map, IfOk, OnOk};
ghost use Rattle.vkg_grammar.specs.Forest.{tree, node_count};
ghost use Rattle.vkg_sparql.specs.Groups.{patterns_of, block_parts, no_part, group_value, parts_value, bind_value, part_value, other_value, later_value, last_value, graph_value, union_value, groups_value};
ghost use Rattle.vkg_sparql.specs.Meanings.{name_of, meaning_at};

use crate::condition_reader::{read_filter, read_or};
use crate::meaning::{Meaning, TripleTokens, first_token, name_of, number_of, pattern_of};
use crate::pattern::TriplePattern;
use crate::query::Part;
use crate::table_reader::read_table;
use crate::triple_reader::read_triples;
use std::alloc::Global;
use vkg_base::{Items, Memory};
use vkg_grammar::{Forest, Node};

/// The triple patterns of these tokens.
pub fn patterns_of(
    alloc: Global,
    meanings: &[Meaning],
    triples: &[TripleTokens],
) -> Result<Items<TriplePattern>, Memory>
    ensures { IfOk result (λ ps. ps ≡ patterns_of meanings.now triples.now) }
{
    let mut patterns = Items::new(alloc);
    for triple in triples {
        patterns.push(pattern_of(meanings, *triple)?)?;
    }
    Ok(patterns)
}

// [ block ]
fn push_block(
    alloc: Global,
    meanings: &[Meaning],
    forest: &Forest,
    at: usize,
    parts: &mut Items<Part>,
) -> Result<(), Memory>
    requires { at < node_count forest.now }
    ensures { OnOk result (parts.new ≡ parts.old ++ block_parts meanings.now (tree forest.now at)) }
{
    if !forest.is_present(at) {
        return Ok(());
    }
    let mut triples = Items::new(alloc);
    read_triples(forest, at, &mut triples)?;
    parts.push(Part::Triples(patterns_of(alloc, meanings, triples.as_slice())?))
}

fn no_part(alloc: Global) -> Result<Part, Memory>
    ensures { IfOk result (λ p. p ≡ no_part) }
{
    Ok(Part::Triples(Items::new(alloc)))
}

// BIND "(" or AS VAR ")"
fn read_bind(
    alloc: Global,
    meanings: &[Meaning],
    forest: &Forest,
    at: usize,
) -> Result<Part, Memory>
    requires { at < node_count forest.now }
    ensures { IfOk result (λ p. p ≡ bind_value meanings.now (tree forest.now at)) }
{
    let Node::Pair(_, rest) = forest.node(at) else {
        return no_part(alloc);
    };
    let Node::Pair(_, rest) = forest.node(rest) else {
        return no_part(alloc);
    };
    let Node::Pair(value, rest) = forest.node(rest) else {
        return no_part(alloc);
    };
    let Node::Pair(_, rest) = forest.node(rest) else {
        return no_part(alloc);
    };
    let Node::Pair(variable, _) = forest.node(rest) else {
        return no_part(alloc);
    };
    let number = number_of(meanings, first_token(forest, variable));
    Ok(Part::Bind(read_or(alloc, meanings, forest, value)?, number))
}

/// The parts of the group whose tree is at `at` (SPARQL 1.1, 19.8, GroupGraphPattern), in the order in which they are written:
/// `"{" [ block ] { part [ "." ] [ block ] } "}"`.
#[cycle(group)]
pub fn read_group(
    alloc: Global,
    meanings: &[Meaning],
    forest: &Forest,
    at: usize,
) -> Result<Items<Part>, Memory>
    requires { at < node_count forest.now }
    ensures { IfOk result (λ g. g ≡ group_value meanings.now (tree forest.now at)) }
{
    let mut parts = Items::new(alloc);
    let Node::Pair(_, rest) = forest.node(at) else {
        return Ok(parts);
    };
    let Node::Pair(block, rest) = forest.node(rest) else {
        return Ok(parts);
    };
    let Node::Pair(more, _) = forest.node(rest) else {
        return Ok(parts);
    };
    push_block(alloc, meanings, forest, block, &mut parts)?;
    push_parts(alloc, meanings, forest, more, &mut parts)?;
    Ok(parts)
}

// { part [ "." ] [ block ] }
#[cycle(group)]
fn push_parts(
    alloc: Global,
    meanings: &[Meaning],
    forest: &Forest,
    at: usize,
    parts: &mut Items<Part>,
) -> Result<(), Memory>
    requires { at < node_count forest.now }
    ensures { OnOk result (parts.new ≡ parts.old ++ parts_value meanings.now (tree forest.now at)) }
{
    let mut rest = at;
    while let Node::Pair(step, more) = forest.node(rest) {
        let Node::Pair(part, end) = forest.node(step) else {
            return Ok(());
        };
        let Node::Pair(_, block) = forest.node(end) else {
            return Ok(());
        };
        parts.push(read_part(alloc, meanings, forest, part)?)?;
        push_block(alloc, meanings, forest, block, parts)?;
        rest = more;
    }
    Ok(())
}

// part = OPTIONAL group | GRAPH name group | FILTER filter | group { UNION group } | MINUS group | BIND .. | VALUES table
#[cycle(group)]
fn read_part(
    alloc: Global,
    meanings: &[Meaning],
    forest: &Forest,
    at: usize,
) -> Result<Part, Memory>
    requires { at < node_count forest.now }
    ensures { IfOk result (λ p. p ≡ part_value meanings.now (tree forest.now at)) }
{
    match forest.node(at) {
        Node::First(t) => match forest.node(t) {
            Node::Pair(_, group) => {
                Ok(Part::Optional(read_group(alloc, meanings, forest, group)?))
            }
            _ => no_part(alloc),
        },
        Node::Second(t) => read_other(alloc, meanings, forest, t),
        _ => no_part(alloc),
    }
}

// GRAPH name group | FILTER filter | ..
#[cycle(group)]
fn read_other(
    alloc: Global,
    meanings: &[Meaning],
    forest: &Forest,
    at: usize,
) -> Result<Part, Memory>
    requires { at < node_count forest.now }
    ensures { IfOk result (λ p. p ≡ other_value meanings.now (tree forest.now at)) }
{
    match forest.node(at) {
        Node::First(t) => read_graph(alloc, meanings, forest, t),
        Node::Second(t) => match forest.node(t) {
            Node::First(t) => match forest.node(t) {
                Node::Pair(_, t) => Ok(Part::Filter(read_filter(alloc, meanings, forest, t)?)),
                _ => no_part(alloc),
            },
            Node::Second(t) => read_later(alloc, meanings, forest, t),
            _ => no_part(alloc),
        },
        _ => no_part(alloc),
    }
}

// group { UNION group } | MINUS group | ..
#[cycle(group)]
fn read_later(
    alloc: Global,
    meanings: &[Meaning],
    forest: &Forest,
    at: usize,
) -> Result<Part, Memory>
    requires { at < node_count forest.now }
    ensures { IfOk result (λ p. p ≡ later_value meanings.now (tree forest.now at)) }
{
    match forest.node(at) {
        Node::First(t) => read_groups(alloc, meanings, forest, t),
        Node::Second(t) => read_last(alloc, meanings, forest, t),
        _ => no_part(alloc),
    }
}

// MINUS group | BIND "(" or AS VAR ")" | VALUES table
#[cycle(group)]
fn read_last(
    alloc: Global,
    meanings: &[Meaning],
    forest: &Forest,
    at: usize,
) -> Result<Part, Memory>
    requires { at < node_count forest.now }
    ensures { IfOk result (λ p. p ≡ last_value meanings.now (tree forest.now at)) }
{
    match forest.node(at) {
        Node::First(t) => match forest.node(t) {
            Node::Pair(_, group) => Ok(Part::Minus(read_group(alloc, meanings, forest, group)?)),
            _ => no_part(alloc),
        },
        Node::Second(t) => match forest.node(t) {
            Node::First(t) => read_bind(alloc, meanings, forest, t),
            Node::Second(t) => match forest.node(t) {
                Node::Pair(_, table) => read_table(alloc, meanings, forest, table),
                _ => no_part(alloc),
            },
            _ => no_part(alloc),
        },
        _ => no_part(alloc),
    }
}

// GRAPH name group
#[cycle(group)]
fn read_graph(
    alloc: Global,
    meanings: &[Meaning],
    forest: &Forest,
    at: usize,
) -> Result<Part, Memory>
    requires { at < node_count forest.now }
    ensures { IfOk result (λ p. p ≡ graph_value meanings.now (tree forest.now at)) }
{
    let Node::Pair(_, rest) = forest.node(at) else {
        return no_part(alloc);
    };
    let Node::Pair(name, group) = forest.node(rest) else {
        return no_part(alloc);
    };
    let token = first_token(forest, name);
    let parts = read_group(alloc, meanings, forest, group)?;
    Ok(Part::Graph(name_of(alloc, meanings, token)?, parts))
}

/// The groups that UNION joins, whose tree is at `at` (SPARQL 1.1, 19.8, GroupOrUnionGraphPattern), the first one and all others:
/// `group { UNION group }`.
#[cycle(group)]
pub fn read_groups(
    alloc: Global,
    meanings: &[Meaning],
    forest: &Forest,
    at: usize,
) -> Result<Part, Memory>
    requires { at < node_count forest.now }
    ensures { IfOk result (λ p. p ≡ union_value meanings.now (tree forest.now at)) }
{
    let Node::Pair(group, more) = forest.node(at) else {
        return no_part(alloc);
    };
    let parts = read_group(alloc, meanings, forest, group)?;
    let others = read_more_groups(alloc, meanings, forest, more)?;
    Ok(Part::Groups(parts, others))
}

// { UNION group }
#[cycle(group)]
fn read_more_groups(
    alloc: Global,
    meanings: &[Meaning],
    forest: &Forest,
    at: usize,
) -> Result<Items<Items<Part>>, Memory>
    requires { at < node_count forest.now }
    ensures { IfOk result (λ gs. gs ≡ groups_value meanings.now (tree forest.now at)) }
{
    let mut all = Items::new(alloc);
    let mut rest = at;
    while let Node::Pair(step, more) = forest.node(rest) {
        let Node::Pair(_, group) = forest.node(step) else {
            return Ok(all);
        };
        all.push(read_group(alloc, meanings, forest, group)?)?;
        rest = more;
    }
    Ok(all)
}
