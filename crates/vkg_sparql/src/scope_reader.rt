// What is wrong with the tables and the variables of a query.
ghost use Rattle.std.specs.Prelude.{◌≡◌, ◌<◌, IfOk};
ghost use Rattle.vkg_grammar.specs.Forest.{tree, node_count};
ghost use Rattle.vkg_sparql.specs.Scopes.{ask_scope, construct_scope, form_scope, query_scope, select_scope, solutions_scope};

use crate::lexeme::Lexeme;
use crate::meaning::Meaning;
use crate::scopes::{Scope, read_group};
use std::alloc::Global;
use vkg_base::Memory;
use vkg_grammar::{Forest, Node};

// solutions = [ WHERE ] group [ order ] [ slice ]
fn solutions_scope(
    alloc: Global,
    meanings: &[Meaning],
    lexemes: &[Lexeme],
    forest: &Forest,
    at: usize,
) -> Result<Scope, Memory>
    requires { at < node_count forest.now }
    ensures { IfOk result (λ s. s ≡ solutions_scope meanings.now lexemes.now (tree forest.now at)) }
{
    let scope = Scope::new(alloc);
    let Node::Pair(_, rest) = forest.node(at) else {
        return Ok(scope);
    };
    let Node::Pair(group, _) = forest.node(rest) else {
        return Ok(scope);
    };
    read_group(alloc, meanings, lexemes, forest, group, &scope)
}

// SELECT [ DISTINCT | REDUCED ] selection solutions
fn select_scope(
    alloc: Global,
    meanings: &[Meaning],
    lexemes: &[Lexeme],
    forest: &Forest,
    at: usize,
) -> Result<Scope, Memory>
    requires { at < node_count forest.now }
    ensures { IfOk result (λ s. s ≡ select_scope meanings.now lexemes.now (tree forest.now at)) }
{
    let Node::Pair(_, rest) = forest.node(at) else {
        return Ok(Scope::new(alloc));
    };
    let Node::Pair(_, rest) = forest.node(rest) else {
        return Ok(Scope::new(alloc));
    };
    let Node::Pair(_, solutions) = forest.node(rest) else {
        return Ok(Scope::new(alloc));
    };
    solutions_scope(alloc, meanings, lexemes, forest, solutions)
}

// ASK [ WHERE ] group
fn ask_scope(
    alloc: Global,
    meanings: &[Meaning],
    lexemes: &[Lexeme],
    forest: &Forest,
    at: usize,
) -> Result<Scope, Memory>
    requires { at < node_count forest.now }
    ensures { IfOk result (λ s. s ≡ ask_scope meanings.now lexemes.now (tree forest.now at)) }
{
    let scope = Scope::new(alloc);
    let Node::Pair(_, rest) = forest.node(at) else {
        return Ok(scope);
    };
    let Node::Pair(_, group) = forest.node(rest) else {
        return Ok(scope);
    };
    read_group(alloc, meanings, lexemes, forest, group, &scope)
}

// CONSTRUCT "{" [ block ] "}" solutions
fn construct_scope(
    alloc: Global,
    meanings: &[Meaning],
    lexemes: &[Lexeme],
    forest: &Forest,
    at: usize,
) -> Result<Scope, Memory>
    requires { at < node_count forest.now }
    ensures { IfOk result (λ s. s ≡ construct_scope meanings.now lexemes.now (tree forest.now at)) }
{
    let Node::Pair(_, rest) = forest.node(at) else {
        return Ok(Scope::new(alloc));
    };
    let Node::Pair(_, rest) = forest.node(rest) else {
        return Ok(Scope::new(alloc));
    };
    let Node::Pair(_, rest) = forest.node(rest) else {
        return Ok(Scope::new(alloc));
    };
    let Node::Pair(_, solutions) = forest.node(rest) else {
        return Ok(Scope::new(alloc));
    };
    solutions_scope(alloc, meanings, lexemes, forest, solutions)
}

// form = SELECT .. | ASK .. | CONSTRUCT ..
fn form_scope(
    alloc: Global,
    meanings: &[Meaning],
    lexemes: &[Lexeme],
    forest: &Forest,
    at: usize,
) -> Result<Scope, Memory>
    requires { at < node_count forest.now }
    ensures { IfOk result (λ s. s ≡ form_scope meanings.now lexemes.now (tree forest.now at)) }
{
    match forest.node(at) {
        Node::First(t) => select_scope(alloc, meanings, lexemes, forest, t),
        Node::Second(t) => match forest.node(t) {
            Node::First(t) => ask_scope(alloc, meanings, lexemes, forest, t),
            Node::Second(t) => construct_scope(alloc, meanings, lexemes, forest, t),
            _ => Ok(Scope::new(alloc)),
        },
        _ => Ok(Scope::new(alloc)),
    }
}

/// What is wrong with the tables and the variables of a query, whose tree is at `at`.
pub fn query_scope(
    alloc: Global,
    meanings: &[Meaning],
    lexemes: &[Lexeme],
    forest: &Forest,
    at: usize,
) -> Result<Scope, Memory>
    requires { at < node_count forest.now }
    ensures { IfOk result (λ s. s ≡ query_scope meanings.now lexemes.now (tree forest.now at)) }
{
    match forest.node(at) {
        Node::Pair(_, form) => form_scope(alloc, meanings, lexemes, forest, form),
        _ => Ok(Scope::new(alloc)),
    }
}
