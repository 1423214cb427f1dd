// All triple patterns of a query.
ghost use Rattle.std.specs.Prelude.{◌≡◌, ◌<◌, ◌++◌, IfOk, OnOk};
ghost use Rattle.vkg_grammar.specs.Forest.{tree, node_count};
ghost use Rattle.vkg_sparql.specs.Triples.{ask_triples, construct_triples, form_triples, query_triples, select_triples, solutions_triples};

use crate::all_triples::read_group_triples;
use crate::meaning::TripleTokens;
use crate::triple_reader::read_triples;
use std::alloc::Global;
use vkg_base::{Items, Memory};
use vkg_grammar::{Forest, Node};

// solutions = [ WHERE ] group [ order ] [ slice ]
fn read_solutions(forest: &Forest, at: usize, out: &mut Items<TripleTokens>) -> Result<(), Memory>
    requires { at < node_count forest.now }
    ensures { OnOk result (out.new ≡ out.old ++ solutions_triples (tree forest.now at)) }
{
    let Node::Pair(_, rest) = forest.node(at) else {
        return Ok(());
    };
    let Node::Pair(group, _) = forest.node(rest) else {
        return Ok(());
    };
    read_group_triples(forest, group, out)
}

// SELECT [ DISTINCT | REDUCED ] selection solutions
fn read_select(forest: &Forest, at: usize, out: &mut Items<TripleTokens>) -> Result<(), Memory>
    requires { at < node_count forest.now }
    ensures { OnOk result (out.new ≡ out.old ++ select_triples (tree forest.now at)) }
{
    let Node::Pair(_, rest) = forest.node(at) else {
        return Ok(());
    };
    let Node::Pair(_, rest) = forest.node(rest) else {
        return Ok(());
    };
    let Node::Pair(_, solutions) = forest.node(rest) else {
        return Ok(());
    };
    read_solutions(forest, solutions, out)
}

// ASK [ WHERE ] group
fn read_ask(forest: &Forest, at: usize, out: &mut Items<TripleTokens>) -> Result<(), Memory>
    requires { at < node_count forest.now }
    ensures { OnOk result (out.new ≡ out.old ++ ask_triples (tree forest.now at)) }
{
    let Node::Pair(_, rest) = forest.node(at) else {
        return Ok(());
    };
    let Node::Pair(_, group) = forest.node(rest) else {
        return Ok(());
    };
    read_group_triples(forest, group, out)
}

// CONSTRUCT "{" [ block ] "}" solutions
fn read_construct(forest: &Forest, at: usize, out: &mut Items<TripleTokens>) -> Result<(), Memory>
    requires { at < node_count forest.now }
    ensures { OnOk result (out.new ≡ out.old ++ construct_triples (tree forest.now at)) }
{
    let Node::Pair(_, rest) = forest.node(at) else {
        return Ok(());
    };
    let Node::Pair(_, rest) = forest.node(rest) else {
        return Ok(());
    };
    let Node::Pair(block, rest) = forest.node(rest) else {
        return Ok(());
    };
    let Node::Pair(_, solutions) = forest.node(rest) else {
        return Ok(());
    };
    read_triples(forest, block, out)?;
    read_solutions(forest, solutions, out)
}

// form = SELECT .. | ASK .. | CONSTRUCT ..
fn read_form(forest: &Forest, at: usize, out: &mut Items<TripleTokens>) -> Result<(), Memory>
    requires { at < node_count forest.now }
    ensures { OnOk result (out.new ≡ out.old ++ form_triples (tree forest.now at)) }
{
    match forest.node(at) {
        Node::First(t) => read_select(forest, t, out),
        Node::Second(t) => match forest.node(t) {
            Node::First(t) => read_ask(forest, t, out),
            Node::Second(t) => read_construct(forest, t, out),
            _ => Ok(()),
        },
        _ => Ok(()),
    }
}

/// All triple patterns of a query, by their tokens; those of its template first.
pub fn read_all_triples(
    alloc: Global,
    forest: &Forest,
    at: usize,
) -> Result<Items<TripleTokens>, Memory>
    requires { at < node_count forest.now }
    ensures { IfOk result (λ ts. ts ≡ query_triples (tree forest.now at)) }
{
    let mut out = Items::new(alloc);
    let Node::Pair(_, form) = forest.node(at) else {
        return Ok(out);
    };
    read_form(forest, form, &mut out)?;
    Ok(out)
}
