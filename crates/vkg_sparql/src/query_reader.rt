ghost use Rattle.std.specs.Prelude.{◌≡◌, ◌<◌, ◌++◌, [], IfOk, OnOk};
ghost use Rattle.vkg_grammar.specs.Forest.{tree, node_count};
ghost use Rattle.vkg_sparql.specs.Meanings.{numbers_value};
ghost use Rattle.vkg_sparql.specs.Groups.{ask_value, construct_value, form_value, selection_value, is_distinct, no_query, patterns_of, query_value, select_value, solutions_value};
ghost use Rattle.vkg_sparql.specs.Triples.{block_triples};

use crate::group_reader::{patterns_of, read_group};
use crate::meaning::{Meaning, first_token, number_of};
use crate::order_reader::{no_slice, read_order, read_slice};
use crate::pattern::TriplePattern;
use crate::query::{Form, Query, Selected};
use crate::triple_reader::read_triples;
use std::alloc::Global;
use vkg_base::{Items, Memory, Text};
use vkg_grammar::{Forest, Node};

/// The numbers of variables: { VAR }.
pub fn read_numbers(
    alloc: Global,
    meanings: &[Meaning],
    forest: &Forest,
    at: usize,
) -> Result<Items<usize>, Memory>
    requires { at < node_count forest.now }
    ensures { IfOk result (λ ns. ns ≡ numbers_value meanings.now (tree forest.now at)) }
{
    let mut numbers = Items::new(alloc);
    let mut rest = at;
    while let Node::Pair(variable, more) = forest.node(rest) {
        let token = first_token(forest, variable);
        numbers.push(number_of(meanings, token))?;
        rest = more;
    }
    Ok(numbers)
}

// selection = VAR { VAR } | "*"
fn read_selection(
    alloc: Global,
    meanings: &[Meaning],
    forest: &Forest,
    at: usize,
) -> Result<Selected, Memory>
    requires { at < node_count forest.now }
    ensures { IfOk result (λ s. s ≡ selection_value meanings.now (tree forest.now at)) }
{
    match forest.node(at) {
        Node::First(t) => Ok(Selected::Listed(read_numbers(alloc, meanings, forest, t)?)),
        _ => Ok(Selected::All),
    }
}

// [ DISTINCT | REDUCED ]
fn is_distinct(forest: &Forest, at: usize) -> bool
    requires { at < node_count forest.now }
    ensures { result ≡ is_distinct (tree forest.now at) }
{
    match forest.node(at) {
        Node::First(t) => match forest.node(t) {
            Node::First(_) => true,
            _ => false,
        },
        _ => false,
    }
}

fn no_query(alloc: Global, names: Items<Text>) -> Result<Query, Memory>
    ensures { IfOk result (λ q. q ≡ no_query names) }
{
    Ok(Query {
        names,
        form: Form::Select,
        distinct: false,
        selected: Selected::All,
        group: Items::new(alloc),
        keys: Items::new(alloc),
        slice: no_slice(),
    })
}

// solutions = [ WHERE ] group [ order ] [ slice ]
fn read_solutions(
    alloc: Global,
    names: Items<Text>,
    form: Form,
    distinct: bool,
    selected: Selected,
    meanings: &[Meaning],
    forest: &Forest,
    at: usize,
) -> Result<Query, Memory>
    requires { at < node_count forest.now }
    ensures { IfOk result (λ q. q ≡ solutions_value names form distinct selected meanings.now (tree forest.now at)) }
{
    let Node::Pair(_, rest) = forest.node(at) else {
        return no_query(alloc, names);
    };
    let Node::Pair(group, rest) = forest.node(rest) else {
        return no_query(alloc, names);
    };
    let Node::Pair(order, slice) = forest.node(rest) else {
        return no_query(alloc, names);
    };
    let group = read_group(alloc, meanings, forest, group)?;
    let keys = read_order(alloc, meanings, forest, order)?;
    Ok(Query {
        names,
        form,
        distinct,
        selected,
        group,
        keys,
        slice: read_slice(meanings, forest, slice),
    })
}

// SELECT [ DISTINCT | REDUCED ] selection solutions
fn read_select(
    alloc: Global,
    names: Items<Text>,
    meanings: &[Meaning],
    forest: &Forest,
    at: usize,
) -> Result<Query, Memory>
    requires { at < node_count forest.now }
    ensures { IfOk result (λ q. q ≡ select_value names meanings.now (tree forest.now at)) }
{
    let Node::Pair(_, rest) = forest.node(at) else {
        return no_query(alloc, names);
    };
    let Node::Pair(kind, rest) = forest.node(rest) else {
        return no_query(alloc, names);
    };
    let Node::Pair(selection, solutions) = forest.node(rest) else {
        return no_query(alloc, names);
    };
    let selected = read_selection(alloc, meanings, forest, selection)?;
    let distinct = is_distinct(forest, kind);
    read_solutions(
        alloc,
        names,
        Form::Select,
        distinct,
        selected,
        meanings,
        forest,
        solutions,
    )
}

// ASK [ WHERE ] group
fn read_ask(
    alloc: Global,
    names: Items<Text>,
    meanings: &[Meaning],
    forest: &Forest,
    at: usize,
) -> Result<Query, Memory>
    requires { at < node_count forest.now }
    ensures { IfOk result (λ q. q ≡ ask_value names meanings.now (tree forest.now at)) }
{
    let Node::Pair(_, rest) = forest.node(at) else {
        return no_query(alloc, names);
    };
    let Node::Pair(_, group) = forest.node(rest) else {
        return no_query(alloc, names);
    };
    let group = read_group(alloc, meanings, forest, group)?;
    Ok(Query {
        names,
        form: Form::Ask,
        distinct: false,
        selected: Selected::Listed(Items::new(alloc)),
        group,
        keys: Items::new(alloc),
        slice: no_slice(),
    })
}

// The triples of a template: [ block ].
fn read_template(
    alloc: Global,
    meanings: &[Meaning],
    forest: &Forest,
    at: usize,
) -> Result<Items<TriplePattern>, Memory>
    requires { at < node_count forest.now }
    ensures { IfOk result (λ ts. ts ≡ patterns_of meanings.now (block_triples (tree forest.now at))) }
{
    let mut triples = Items::new(alloc);
    read_triples(forest, at, &mut triples)?;
    patterns_of(alloc, meanings, triples.as_slice())
}

// CONSTRUCT "{" [ block ] "}" solutions
fn read_construct(
    alloc: Global,
    names: Items<Text>,
    meanings: &[Meaning],
    forest: &Forest,
    at: usize,
) -> Result<Query, Memory>
    requires { at < node_count forest.now }
    ensures { IfOk result (λ q. q ≡ construct_value names meanings.now (tree forest.now at)) }
{
    let Node::Pair(_, rest) = forest.node(at) else {
        return no_query(alloc, names);
    };
    let Node::Pair(_, rest) = forest.node(rest) else {
        return no_query(alloc, names);
    };
    let Node::Pair(block, rest) = forest.node(rest) else {
        return no_query(alloc, names);
    };
    let Node::Pair(_, solutions) = forest.node(rest) else {
        return no_query(alloc, names);
    };
    let template = read_template(alloc, meanings, forest, block)?;
    let form = Form::Construct(template);
    read_solutions(
        alloc,
        names,
        form,
        false,
        Selected::All,
        meanings,
        forest,
        solutions,
    )
}

// form = SELECT .. | ASK .. | CONSTRUCT ..
fn read_form(
    alloc: Global,
    names: Items<Text>,
    meanings: &[Meaning],
    forest: &Forest,
    at: usize,
) -> Result<Query, Memory>
    requires { at < node_count forest.now }
    ensures { IfOk result (λ q. q ≡ form_value names meanings.now (tree forest.now at)) }
{
    match forest.node(at) {
        Node::First(t) => read_select(alloc, names, meanings, forest, t),
        Node::Second(t) => match forest.node(t) {
            Node::First(t) => read_ask(alloc, names, meanings, forest, t),
            Node::Second(t) => read_construct(alloc, names, meanings, forest, t),
            _ => no_query(alloc, names),
        },
        _ => no_query(alloc, names),
    }
}

/// The query of a tree, whose variables and labels have these names.
pub fn read_tree(
    alloc: Global,
    names: Items<Text>,
    meanings: &[Meaning],
    forest: &Forest,
    at: usize,
) -> Result<Query, Memory>
    requires { at < node_count forest.now }
    ensures { IfOk result (λ q. q ≡ query_value names meanings.now (tree forest.now at)) }
{
    match forest.node(at) {
        Node::Pair(_, form) => read_form(alloc, names, meanings, forest, form),
        _ => no_query(alloc, names),
    }
}
