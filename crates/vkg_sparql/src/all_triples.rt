ghost use Rattle.std.specs.Prelude.{◌≡◌, ◌<◌, ◌++◌, OnOk};
ghost use Rattle.vkg_grammar.specs.Forest.{tree, node_count};
ghost use Rattle.vkg_sparql.specs.Triples.{group_triples, parts_triples, part_triples, other_triples, later_triples, last_triples, graph_triples, union_triples, groups_triples};

use crate::meaning::TripleTokens;
use crate::triple_reader::read_triples;
use vkg_base::{Items, Memory};
use vkg_grammar::{Forest, Node};

/// All triple patterns of a group, those of the groups in it too, in the order of the text.
#[cycle(triples)]
pub fn read_group_triples(
    forest: &Forest,
    at: usize,
    out: &mut Items<TripleTokens>,
) -> Result<(), Memory>
    requires { at < node_count forest.now }
    ensures { OnOk result (out.new ≡ out.old ++ group_triples (tree forest.now at)) }
{
    let Node::Pair(_, rest) = forest.node(at) else {
        return Ok(());
    };
    let Node::Pair(block, rest) = forest.node(rest) else {
        return Ok(());
    };
    let Node::Pair(more, _) = forest.node(rest) else {
        return Ok(());
    };
    read_triples(forest, block, out)?;
    read_parts(forest, more, out)
}

// { part [ "." ] [ block ] }
#[cycle(triples)]
fn read_parts(forest: &Forest, at: usize, out: &mut Items<TripleTokens>) -> Result<(), Memory>
    requires { at < node_count forest.now }
    ensures { OnOk result (out.new ≡ out.old ++ parts_triples (tree forest.now at)) }
{
    let mut rest = at;
    while let Node::Pair(step, more) = forest.node(rest) {
        let Node::Pair(part, end) = forest.node(step) else {
            return Ok(());
        };
        let Node::Pair(_, block) = forest.node(end) else {
            return Ok(());
        };
        read_part(forest, part, out)?;
        read_triples(forest, block, out)?;
        rest = more;
    }
    Ok(())
}

// part = OPTIONAL group | GRAPH name group | FILTER filter | group { UNION group } | MINUS group | BIND .. | VALUES table
#[cycle(triples)]
fn read_part(forest: &Forest, at: usize, out: &mut Items<TripleTokens>) -> Result<(), Memory>
    requires { at < node_count forest.now }
    ensures { OnOk result (out.new ≡ out.old ++ part_triples (tree forest.now at)) }
{
    match forest.node(at) {
        Node::First(t) => match forest.node(t) {
            Node::Pair(_, group) => read_group_triples(forest, group, out),
            _ => Ok(()),
        },
        Node::Second(t) => read_other(forest, t, out),
        _ => Ok(()),
    }
}

// GRAPH name group | FILTER filter | ..
#[cycle(triples)]
fn read_other(forest: &Forest, at: usize, out: &mut Items<TripleTokens>) -> Result<(), Memory>
    requires { at < node_count forest.now }
    ensures { OnOk result (out.new ≡ out.old ++ other_triples (tree forest.now at)) }
{
    match forest.node(at) {
        Node::First(t) => read_graph(forest, t, out),
        Node::Second(t) => match forest.node(t) {
            Node::Second(t) => read_later(forest, t, out),
            _ => Ok(()),
        },
        _ => Ok(()),
    }
}

// group { UNION group } | MINUS group | ..
#[cycle(triples)]
fn read_later(forest: &Forest, at: usize, out: &mut Items<TripleTokens>) -> Result<(), Memory>
    requires { at < node_count forest.now }
    ensures { OnOk result (out.new ≡ out.old ++ later_triples (tree forest.now at)) }
{
    match forest.node(at) {
        Node::First(t) => read_groups(forest, t, out),
        Node::Second(t) => read_last(forest, t, out),
        _ => Ok(()),
    }
}

// MINUS group | BIND "(" or AS VAR ")" | VALUES table
#[cycle(triples)]
fn read_last(forest: &Forest, at: usize, out: &mut Items<TripleTokens>) -> Result<(), Memory>
    requires { at < node_count forest.now }
    ensures { OnOk result (out.new ≡ out.old ++ last_triples (tree forest.now at)) }
{
    match forest.node(at) {
        Node::First(t) => match forest.node(t) {
            Node::Pair(_, group) => read_group_triples(forest, group, out),
            _ => Ok(()),
        },
        _ => Ok(()),
    }
}

// GRAPH name group
#[cycle(triples)]
fn read_graph(forest: &Forest, at: usize, out: &mut Items<TripleTokens>) -> Result<(), Memory>
    requires { at < node_count forest.now }
    ensures { OnOk result (out.new ≡ out.old ++ graph_triples (tree forest.now at)) }
{
    let Node::Pair(_, rest) = forest.node(at) else {
        return Ok(());
    };
    let Node::Pair(_, group) = forest.node(rest) else {
        return Ok(());
    };
    read_group_triples(forest, group, out)
}

// group { UNION group }
#[cycle(triples)]
fn read_groups(forest: &Forest, at: usize, out: &mut Items<TripleTokens>) -> Result<(), Memory>
    requires { at < node_count forest.now }
    ensures { OnOk result (out.new ≡ out.old ++ union_triples (tree forest.now at)) }
{
    let Node::Pair(group, more) = forest.node(at) else {
        return Ok(());
    };
    read_group_triples(forest, group, out)?;
    read_more_groups(forest, more, out)
}

// { UNION group }
#[cycle(triples)]
fn read_more_groups(forest: &Forest, at: usize, out: &mut Items<TripleTokens>) -> Result<(), Memory>
    requires { at < node_count forest.now }
    ensures { OnOk result (out.new ≡ out.old ++ groups_triples (tree forest.now at)) }
{
    let mut rest = at;
    while let Node::Pair(step, more) = forest.node(rest) {
        let Node::Pair(_, group) = forest.node(step) else {
            return Ok(());
        };
        read_group_triples(forest, group, out)?;
        rest = more;
    }
    Ok(())
}
