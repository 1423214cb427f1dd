// What is visible in the groups of a query, and what of their tables and their variables is wrong.
ghost use Rattle.std.specs.Prelude.{◌≡◌, ◌<◌, [], ◌∷◌, ◌++◌, fold, length, IfOk, OnOk};
ghost use Rattle.vkg_grammar.specs.Forest.{tree, node_count};
ghost use Rattle.vkg_sparql.specs.Meanings.{meaning_at, variable_if};
ghost use Rattle.vkg_sparql.specs.Scopes.{no_scope, is_among, with_number, with_visible, is_visible, with_variable, with_triple, with_triples, with_again, with_bound, tokens_value, row_over, listed_again, with_uneven, with_table, list_scope, table_scope, bind_scope, inside, joined, left_out, group_scope, parts_scope, part_scope, other_scope, later_scope, last_scope, graph_scope, union_scope, groups_scope};
ghost use Rattle.vkg_sparql.specs.Triples.{block_triples};

use crate::checks::place_in;
use crate::lexeme::Lexeme;
use crate::meaning::{Meaning, TripleTokens, first_token, variable_if};
use crate::triple_reader::read_triples;
use std::alloc::Global;
use vkg_base::{Items, Memory};
use vkg_grammar::{Forest, Node};

/// What is visible in a group as far as it was read (SPARQL 1.1, 18.2.1), and what is wrong in the text so far.
#[derive(Drop)]
pub struct Scope {
    /// The visible variables by their numbers, each once.
    pub visible: Items<usize>,
    /// The first row of VALUES with another number of values than there are variables, or the first variable that is listed twice.
    pub uneven: Option<usize>,
    /// The first variable of BIND that is visible before it.
    pub again: Option<usize>,
}

fn is_among(numbers: &[usize], number: usize) -> bool
    ensures { result ≡ is_among numbers.now number }
{
    numbers.contains(&number)
}

fn add(numbers: &mut Items<usize>, number: usize) -> Result<(), Memory>
    ensures { OnOk result (numbers.new ≡ with_number numbers.old number) }
{
    if is_among(numbers.as_slice(), number) {
        return Ok(());
    }
    numbers.push(number)
}

fn add_all(numbers: &mut Items<usize>, more: &[usize]) -> Result<(), Memory>
    ensures { OnOk result (numbers.new ≡ fold with_number numbers.old more.now) }
{
    for number in more {
        add(numbers, *number)?;
    }
    Ok(())
}

impl Scope {
    /// Nothing is visible, and nothing wrong.
    pub fn new(alloc: Global) -> Scope
        ensures { result ≡ no_scope }
    {
        Scope {
            visible: Items::new(alloc),
            uneven: None,
            again: None,
        }
    }

    // Where a group within begins.
    fn inside(&self, alloc: Global) -> Scope
        ensures { result ≡ inside self.now }
    {
        Scope {
            visible: Items::new(alloc),
            uneven: self.uneven,
            again: self.again,
        }
    }

    // Behind a group within whose variables are visible.
    fn join(&mut self, inner: &Scope) -> Result<(), Memory>
        ensures { OnOk result (self.new ≡ joined self.old inner.now) }
    {
        add_all(&mut self.visible, inner.visible.as_slice())?;
        self.uneven = inner.uneven;
        self.again = inner.again;
        Ok(())
    }

    // Behind a group of MINUS.
    fn leave(&mut self, inner: &Scope)
        ensures { self.new ≡ left_out self.old inner.now }
    {
        self.uneven = inner.uneven;
        self.again = inner.again;
    }

    fn show(&mut self, number: Option<usize>) -> Result<(), Memory>
        ensures { OnOk result (self.new ≡ with_visible self.old number) }
    {
        match number {
            None => Ok(()),
            Some(number) => add(&mut self.visible, number),
        }
    }

    fn shows(&self, number: Option<usize>) -> bool
        ensures { result ≡ is_visible self.now number }
    {
        match number {
            None => false,
            Some(number) => is_among(self.visible.as_slice(), number),
        }
    }

    fn variable(&mut self, meanings: &[Meaning], token: usize) -> Result<(), Memory>
        ensures { OnOk result (self.new ≡ with_variable meanings.now self.old token) }
    {
        self.show(variable_if(meanings, token))
    }

    fn triple(&mut self, meanings: &[Meaning], triple: TripleTokens) -> Result<(), Memory>
        ensures { OnOk result (self.new ≡ with_triple meanings.now self.old triple) }
    {
        self.variable(meanings, triple.subject)?;
        self.variable(meanings, triple.predicate)?;
        self.variable(meanings, triple.object)
    }

    fn triples(&mut self, meanings: &[Meaning], triples: &[TripleTokens]) -> Result<(), Memory>
        ensures { OnOk result (self.new ≡ with_triples meanings.now self.old triples.now) }
    {
        for triple in triples {
            self.triple(meanings, *triple)?;
        }
        Ok(())
    }

    // The variable of BIND.
    fn bind(&mut self, meanings: &[Meaning], lexemes: &[Lexeme], token: usize) -> Result<(), Memory>
        ensures { OnOk result (self.new ≡ with_bound meanings.now lexemes.now self.old token) }
    {
        if self.shows(variable_if(meanings, token)) {
            self.again = self.again.or(place_in(lexemes, token));
        }
        self.variable(meanings, token)
    }

    fn variables(&mut self, meanings: &[Meaning], tokens: &[usize]) -> Result<(), Memory>
        ensures { OnOk result (self.new ≡ fold (with_variable meanings.now) self.old tokens.now) }
    {
        for token in tokens {
            self.variable(meanings, *token)?;
        }
        Ok(())
    }

    fn bind_each(
        &mut self,
        meanings: &[Meaning],
        lexemes: &[Lexeme],
        tokens: &[usize],
    ) -> Result<(), Memory>
        ensures { OnOk result (self.new ≡ fold (with_bound meanings.now lexemes.now) self.old tokens.now) }
    {
        for token in tokens {
            self.bind(meanings, lexemes, *token)?;
        }
        Ok(())
    }

    // [ block ]
    fn block(
        &mut self,
        alloc: Global,
        meanings: &[Meaning],
        forest: &Forest,
        at: usize,
    ) -> Result<(), Memory>
        requires { at < node_count forest.now }
        ensures { OnOk result (self.new ≡ with_triples meanings.now self.old (block_triples (tree forest.now at))) }
    {
        let mut triples = Items::new(alloc);
        read_triples(forest, at, &mut triples)?;
        self.triples(meanings, triples.as_slice())
    }
}

// { VAR } or { value }: their first tokens
fn read_tokens(alloc: Global, forest: &Forest, at: usize) -> Result<Items<usize>, Memory>
    requires { at < node_count forest.now }
    ensures { IfOk result (λ tokens. tokens ≡ tokens_value (tree forest.now at)) }
{
    let mut tokens = Items::new(alloc);
    let mut rest = at;
    while let Node::Pair(token, more) = forest.node(rest) {
        tokens.push(first_token(forest, token))?;
        rest = more;
    }
    Ok(tokens)
}

fn row_width(alloc: Global, forest: &Forest, at: usize) -> Result<usize, Memory>
    requires { at < node_count forest.now }
    ensures { IfOk result (λ n. n ≡ length (tokens_value (tree forest.now at))) }
{
    let tokens = read_tokens(alloc, forest, at)?;
    Ok(tokens.len())
}

// { row }
fn row_over(
    alloc: Global,
    lexemes: &[Lexeme],
    width: usize,
    forest: &Forest,
    at: usize,
) -> Result<Option<usize>, Memory>
    requires { at < node_count forest.now }
    ensures { IfOk result (λ place. place ≡ row_over lexemes.now width (tree forest.now at)) }
{
    let mut rest = at;
    while let Node::Pair(row, more) = forest.node(rest) {
        let Node::Pair(left, inner) = forest.node(row) else {
            return Ok(None);
        };
        let Node::Pair(values, _) = forest.node(inner) else {
            return Ok(None);
        };
        if row_width(alloc, forest, values)? != width {
            return Ok(place_in(lexemes, first_token(forest, left)));
        }
        rest = more;
    }
    Ok(None)
}

fn listed_again(
    alloc: Global,
    meanings: &[Meaning],
    lexemes: &[Lexeme],
    tokens: &[usize],
) -> Result<Option<usize>, Memory>
    ensures { IfOk result (λ place. place ≡ listed_again meanings.now lexemes.now tokens.now) }
{
    let mut listed = Scope::new(alloc);
    listed.bind_each(meanings, lexemes, tokens)?;
    Ok(listed.again)
}

// A list of variables, and rows behind it.
fn read_rows(
    alloc: Global,
    meanings: &[Meaning],
    lexemes: &[Lexeme],
    tokens: &[usize],
    forest: &Forest,
    at: usize,
    scope: &mut Scope,
) -> Result<(), Memory>
    requires { at < node_count forest.now }
    ensures { OnOk result (scope.new ≡ with_table meanings.now lexemes.now scope.old tokens.now (tree forest.now at)) }
{
    let again = listed_again(alloc, meanings, lexemes, tokens)?;
    let over = row_over(alloc, lexemes, tokens.len(), forest, at)?;
    scope.variables(meanings, tokens)?;
    scope.uneven = scope.uneven.or(again.or(over));
    Ok(())
}

// "(" { VAR } ")" "{" { row } "}"
fn read_list(
    alloc: Global,
    meanings: &[Meaning],
    lexemes: &[Lexeme],
    forest: &Forest,
    at: usize,
    scope: &mut Scope,
) -> Result<(), Memory>
    requires { at < node_count forest.now }
    ensures { OnOk result (scope.new ≡ list_scope meanings.now lexemes.now scope.old (tree forest.now at)) }
{
    let Node::Pair(_, rest) = forest.node(at) else {
        return Ok(());
    };
    let Node::Pair(variables, rest) = forest.node(rest) else {
        return Ok(());
    };
    let Node::Pair(_, rest) = forest.node(rest) else {
        return Ok(());
    };
    let Node::Pair(_, rest) = forest.node(rest) else {
        return Ok(());
    };
    let Node::Pair(rows, _) = forest.node(rest) else {
        return Ok(());
    };
    let tokens = read_tokens(alloc, forest, variables)?;
    read_rows(
        alloc,
        meanings,
        lexemes,
        tokens.as_slice(),
        forest,
        rows,
        scope,
    )
}

// table = VAR "{" { value } "}" | "(" { VAR } ")" "{" { row } "}"
fn read_table(
    alloc: Global,
    meanings: &[Meaning],
    lexemes: &[Lexeme],
    forest: &Forest,
    at: usize,
    scope: &mut Scope,
) -> Result<(), Memory>
    requires { at < node_count forest.now }
    ensures { OnOk result (scope.new ≡ table_scope meanings.now lexemes.now scope.old (tree forest.now at)) }
{
    match forest.node(at) {
        Node::First(t) => match forest.node(t) {
            Node::Pair(variable, _) => scope.variable(meanings, first_token(forest, variable)),
            _ => Ok(()),
        },
        Node::Second(t) => read_list(alloc, meanings, lexemes, forest, t, scope),
        _ => Ok(()),
    }
}

// BIND "(" or AS VAR ")"
fn read_bind(
    meanings: &[Meaning],
    lexemes: &[Lexeme],
    forest: &Forest,
    at: usize,
    scope: &mut Scope,
) -> Result<(), Memory>
    requires { at < node_count forest.now }
    ensures { OnOk result (scope.new ≡ bind_scope meanings.now lexemes.now scope.old (tree forest.now at)) }
{
    let Node::Pair(_, rest) = forest.node(at) else {
        return Ok(());
    };
    let Node::Pair(_, rest) = forest.node(rest) else {
        return Ok(());
    };
    let Node::Pair(_, rest) = forest.node(rest) else {
        return Ok(());
    };
    let Node::Pair(_, rest) = forest.node(rest) else {
        return Ok(());
    };
    let Node::Pair(variable, _) = forest.node(rest) else {
        return Ok(());
    };
    scope.bind(meanings, lexemes, first_token(forest, variable))
}

// A group within what this scope says.
#[cycle(scope)]
pub fn read_group(
    alloc: Global,
    meanings: &[Meaning],
    lexemes: &[Lexeme],
    forest: &Forest,
    at: usize,
    outer: &Scope,
) -> Result<Scope, Memory>
    requires { at < node_count forest.now }
    ensures { IfOk result (λ s. s ≡ group_scope meanings.now lexemes.now outer.now (tree forest.now at)) }
{
    let mut scope = outer.inside(alloc);
    let Node::Pair(_, rest) = forest.node(at) else {
        return Ok(scope);
    };
    let Node::Pair(block, rest) = forest.node(rest) else {
        return Ok(scope);
    };
    let Node::Pair(more, _) = forest.node(rest) else {
        return Ok(scope);
    };
    scope.block(alloc, meanings, forest, block)?;
    read_parts(alloc, meanings, lexemes, forest, more, &mut scope)?;
    Ok(scope)
}

// { part [ "." ] [ block ] }
#[cycle(scope)]
fn read_parts(
    alloc: Global,
    meanings: &[Meaning],
    lexemes: &[Lexeme],
    forest: &Forest,
    at: usize,
    scope: &mut Scope,
) -> Result<(), Memory>
    requires { at < node_count forest.now }
    ensures { OnOk result (scope.new ≡ parts_scope meanings.now lexemes.now scope.old (tree forest.now at)) }
{
    let mut rest = at;
    while let Node::Pair(step, more) = forest.node(rest) {
        let Node::Pair(part, end) = forest.node(step) else {
            return Ok(());
        };
        let Node::Pair(_, block) = forest.node(end) else {
            return Ok(());
        };
        read_part(alloc, meanings, lexemes, forest, part, scope)?;
        scope.block(alloc, meanings, forest, block)?;
        rest = more;
    }
    Ok(())
}

// part = OPTIONAL group | GRAPH name group | FILTER filter | group { UNION group } | MINUS group | BIND .. | VALUES table
#[cycle(scope)]
fn read_part(
    alloc: Global,
    meanings: &[Meaning],
    lexemes: &[Lexeme],
    forest: &Forest,
    at: usize,
    scope: &mut Scope,
) -> Result<(), Memory>
    requires { at < node_count forest.now }
    ensures { OnOk result (scope.new ≡ part_scope meanings.now lexemes.now scope.old (tree forest.now at)) }
{
    match forest.node(at) {
        Node::First(t) => match forest.node(t) {
            Node::Pair(_, group) => {
                let inner = read_group(alloc, meanings, lexemes, forest, group, scope)?;
                scope.join(&inner)
            }
            _ => Ok(()),
        },
        Node::Second(t) => read_other(alloc, meanings, lexemes, forest, t, scope),
        _ => Ok(()),
    }
}

// GRAPH name group | FILTER filter | ..
#[cycle(scope)]
fn read_other(
    alloc: Global,
    meanings: &[Meaning],
    lexemes: &[Lexeme],
    forest: &Forest,
    at: usize,
    scope: &mut Scope,
) -> Result<(), Memory>
    requires { at < node_count forest.now }
    ensures { OnOk result (scope.new ≡ other_scope meanings.now lexemes.now scope.old (tree forest.now at)) }
{
    match forest.node(at) {
        Node::First(t) => read_graph(alloc, meanings, lexemes, forest, t, scope),
        Node::Second(t) => match forest.node(t) {
            Node::Second(t) => read_later(alloc, meanings, lexemes, forest, t, scope),
            _ => Ok(()),
        },
        _ => Ok(()),
    }
}

// group { UNION group } | MINUS group | ..
#[cycle(scope)]
fn read_later(
    alloc: Global,
    meanings: &[Meaning],
    lexemes: &[Lexeme],
    forest: &Forest,
    at: usize,
    scope: &mut Scope,
) -> Result<(), Memory>
    requires { at < node_count forest.now }
    ensures { OnOk result (scope.new ≡ later_scope meanings.now lexemes.now scope.old (tree forest.now at)) }
{
    match forest.node(at) {
        Node::First(t) => read_groups(alloc, meanings, lexemes, forest, t, scope),
        Node::Second(t) => read_last(alloc, meanings, lexemes, forest, t, scope),
        _ => Ok(()),
    }
}

// MINUS group | BIND "(" or AS VAR ")" | VALUES table
#[cycle(scope)]
fn read_last(
    alloc: Global,
    meanings: &[Meaning],
    lexemes: &[Lexeme],
    forest: &Forest,
    at: usize,
    scope: &mut Scope,
) -> Result<(), Memory>
    requires { at < node_count forest.now }
    ensures { OnOk result (scope.new ≡ last_scope meanings.now lexemes.now scope.old (tree forest.now at)) }
{
    match forest.node(at) {
        Node::First(t) => match forest.node(t) {
            Node::Pair(_, group) => {
                let inner = read_group(alloc, meanings, lexemes, forest, group, scope)?;
                scope.leave(&inner);
                Ok(())
            }
            _ => Ok(()),
        },
        Node::Second(t) => match forest.node(t) {
            Node::First(t) => read_bind(meanings, lexemes, forest, t, scope),
            Node::Second(t) => match forest.node(t) {
                Node::Pair(_, table) => {
                    read_table(alloc, meanings, lexemes, forest, table, scope)
                }
                _ => Ok(()),
            },
            _ => Ok(()),
        },
        _ => Ok(()),
    }
}

// GRAPH name group
#[cycle(scope)]
fn read_graph(
    alloc: Global,
    meanings: &[Meaning],
    lexemes: &[Lexeme],
    forest: &Forest,
    at: usize,
    scope: &mut Scope,
) -> Result<(), Memory>
    requires { at < node_count forest.now }
    ensures { OnOk result (scope.new ≡ graph_scope meanings.now lexemes.now scope.old (tree forest.now at)) }
{
    let Node::Pair(_, rest) = forest.node(at) else {
        return Ok(());
    };
    let Node::Pair(name, group) = forest.node(rest) else {
        return Ok(());
    };
    let inner = read_group(alloc, meanings, lexemes, forest, group, scope)?;
    scope.variable(meanings, first_token(forest, name))?;
    scope.join(&inner)
}

// group { UNION group }
#[cycle(scope)]
fn read_groups(
    alloc: Global,
    meanings: &[Meaning],
    lexemes: &[Lexeme],
    forest: &Forest,
    at: usize,
    scope: &mut Scope,
) -> Result<(), Memory>
    requires { at < node_count forest.now }
    ensures { OnOk result (scope.new ≡ union_scope meanings.now lexemes.now scope.old (tree forest.now at)) }
{
    let Node::Pair(group, more) = forest.node(at) else {
        return Ok(());
    };
    let inner = read_group(alloc, meanings, lexemes, forest, group, scope)?;
    scope.join(&inner)?;
    read_more_groups(alloc, meanings, lexemes, forest, more, scope)
}

// { UNION group }
#[cycle(scope)]
fn read_more_groups(
    alloc: Global,
    meanings: &[Meaning],
    lexemes: &[Lexeme],
    forest: &Forest,
    at: usize,
    scope: &mut Scope,
) -> Result<(), Memory>
    requires { at < node_count forest.now }
    ensures { OnOk result (scope.new ≡ groups_scope meanings.now lexemes.now scope.old (tree forest.now at)) }
{
    let mut rest = at;
    while let Node::Pair(step, more) = forest.node(rest) {
        let Node::Pair(_, group) = forest.node(step) else {
            return Ok(());
        };
        let inner = read_group(alloc, meanings, lexemes, forest, group, scope)?;
        scope.join(&inner)?;
        rest = more;
    }
    Ok(())
}
