ghost use Rattle.std.specs.Prelude.{◌≡◌, ◌<◌, drop, length, Ok, None, IfOk, IfErr};
ghost use Rattle.std.specs.Option.{option_or};
ghost use Rattle.vkg_grammar.specs.Forest.{tree, node_count};
ghost use Rattle.vkg_grammar.specs.Form.{IsShallow};
ghost use Rattle.vkg_grammar.specs.Kinds.{kinds_of};
ghost use Rattle.vkg_grammar.specs.OneTree.{IsTheTree};
ghost use Rattle.vkg_sparql.specs.Checks.{triples_over, size_over};
ghost use Rattle.vkg_sparql.specs.Nodes.{nodes_over};
ghost use Rattle.vkg_lists.specs.Places.{lesser as lesser_of};
ghost use Rattle.vkg_sparql.specs.Environment.{body_start};
ghost use Rattle.vkg_sparql.specs.Groups.{query_value};
ghost use Rattle.vkg_sparql.specs.Lexemes.{lexemes_of};
ghost use Rattle.vkg_sparql.specs.Literals.{meanings_of};
ghost use Rattle.vkg_sparql.specs.Reading.{IsQueryText, TextFails, sparql, sparql_tokens, parts, fault_if, token_fault, scope_fault, fault_of};
ghost use Rattle.vkg_sparql.specs.Scopes.{query_scope};
ghost use Rattle.vkg_sparql.specs.Triples.{query_triples};

use crate::blocks::label_again;
use crate::checks::{Check, first_place, size_over, slice_over, triples_over};
use crate::environment::{Environment, body_start, environment_of};
use crate::fault::{QueryError, QueryFault};
use crate::grammar_table::SPARQL;
use crate::lexeme::{Lexeme, lexemes_of};
use crate::literals::meanings_of;
use crate::names::{Named, named_of};
use crate::nodes::nodes_over;
use crate::query::Query;
use crate::query_reader::read_tree;
use crate::query_triples::read_all_triples;
use crate::scope_reader::query_scope;
use std::alloc::Global;
use vkg_base::{Memory, lesser};
use vkg_grammar::{Forest, Parsed};
use vkg_hash::Seed;
use vkg_tokens::Token;

fn fault_if(check: u8, at: Option<usize>, later: Option<QueryFault>) -> Option<QueryFault>
    ensures { result ≡ fault_if check at later }
{
    match at {
        None => later,
        Some(at) => Some(QueryFault { check, at }),
    }
}

fn triples_place(
    alloc: Global,
    lexemes: &[Lexeme],
    forest: &Forest,
    at: usize,
) -> Result<Option<usize>, Memory>
    requires { at < node_count forest.now }
    ensures { IfOk result (λ p. p ≡ triples_over lexemes.now (query_triples (tree forest.now at))) }
{
    let triples = read_all_triples(alloc, forest, at)?;
    Ok(triples_over(lexemes, triples.as_slice()))
}

// The least place at which a limit is passed.
fn limit_over(
    alloc: Global,
    size: usize,
    lexemes: &[Lexeme],
    over: Option<usize>,
    forest: &Forest,
    at: usize,
) -> Result<Option<usize>, Memory>
    requires { at < node_count forest.now }
    ensures { IfOk result (λ p. p ≡ lesser_of (lesser_of (triples_over lexemes.now (query_triples (tree forest.now at))) (nodes_over lexemes.now)) (lesser_of over (size_over size))) }
{
    let triples = triples_place(alloc, lexemes, forest, at)?;
    let nodes = nodes_over(alloc, lexemes)?;
    Ok(lesser(lesser(triples, nodes), lesser(over, size_over(size))))
}

// Of the checks of tokens the least that fails, at its least place.
fn token_fault(
    alloc: Global,
    seed: Seed,
    size: usize,
    lexemes: &[Lexeme],
    environment: &Environment,
    body: &[Lexeme],
    named: &Named,
    forest: &Forest,
    at: usize,
) -> Result<Option<QueryFault>, Memory>
    requires { at < node_count forest.now }
    ensures { IfOk result (λ f. f ≡ token_fault (parts size lexemes.now environment.now body.now named.now (tree forest.now at))) }
{
    let unknown = first_place(alloc, Check::Unknown, environment, body)?;
    let relative = first_place(alloc, Check::Relative, environment, body)?;
    let again = label_again(alloc, seed, body)?;
    let float = first_place(alloc, Check::Float, environment, body)?;
    let wide = first_place(alloc, Check::Wide, environment, body)?;
    let limit = limit_over(alloc, size, lexemes, named.over, forest, at)?;
    let numbers = fault_if(8, wide, fault_if(9, limit, None));
    let labels = fault_if(6, again, fault_if(7, float, numbers));
    let iris = fault_if(5, environment.relative.or(relative), labels);
    Ok(fault_if(4, unknown, iris))
}

// Of the checks of parts the least that fails, at its least place.
fn part_fault(
    alloc: Global,
    lexemes: &[Lexeme],
    environment: &Environment,
    body: &[Lexeme],
    named: &Named,
    forest: &Forest,
    at: usize,
) -> Result<Option<QueryFault>, Memory>
    requires { at < node_count forest.now }
    ensures { IfOk result (λ f. f ≡ scope_fault (query_scope (meanings_of environment.now named.now.keys (body_start (tree forest.now at)) lexemes.now) lexemes.now (tree forest.now at)) body.now) }
{
    let start = body_start(forest, at);
    let meanings = meanings_of(alloc, environment, &named.keys, start, lexemes)?;
    let scope = query_scope(alloc, &meanings, lexemes, forest, at)?;
    let slice = fault_if(12, slice_over(body), None);
    Ok(fault_if(10, scope.uneven, fault_if(11, scope.again, slice)))
}

// The least check that fails, at its least place.
fn fault_of(
    alloc: Global,
    seed: Seed,
    size: usize,
    lexemes: &[Lexeme],
    environment: &Environment,
    body: &[Lexeme],
    named: &Named,
    forest: &Forest,
    at: usize,
) -> Result<Option<QueryFault>, Memory>
    requires { at < node_count forest.now }
    ensures { IfOk result (λ f. f ≡ fault_of (parts size lexemes.now environment.now body.now named.now (tree forest.now at))) }
{
    let found = token_fault(
        alloc,
        seed,
        size,
        lexemes,
        environment,
        body,
        named,
        forest,
        at,
    )?;
    if found.is_some() {
        return Ok(found);
    }
    part_fault(alloc, lexemes, environment, body, named, forest, at)
}

#[tactic(auto, using(std::proofs::lemmas::List::drop_all))]
fn behind(lexemes: &[Lexeme], start: usize) -> &[Lexeme]
    ensures { result.now ≡ drop start lexemes.now }
{
    if start <= lexemes.len() {
        &lexemes[start..]
    } else {
        &[]
    }
}

fn query_of(
    alloc: Global,
    environment: &Environment,
    named: Named,
    lexemes: &[Lexeme],
    forest: &Forest,
    at: usize,
) -> Result<Query, Memory>
    requires { at < node_count forest.now }
    ensures { IfOk result (λ q. q ≡ query_value named.names (meanings_of environment.now named.keys (body_start (tree forest.now at)) lexemes.now) (tree forest.now at)) }
{
    let start = body_start(forest, at);
    let meanings = meanings_of(alloc, environment, &named.keys, start, lexemes)?;
    read_tree(alloc, named.names, &meanings, forest, at)
}

fn read_lexemes(
    alloc: Global,
    text: &str,
    base: &str,
    tokens: &[Token],
    lexemes: &[Lexeme],
    parsed: &Parsed,
) -> Result<Query, QueryError>
    requires cut { sparql_tokens text.now ≡ Ok tokens.now }
    requires shallow { IsShallow sparql (kinds_of tokens.now) }
    requires the_tree { IsTheTree SPARQL (kinds_of tokens.now) (tree parsed.now.forest parsed.now.root) }
    requires root { parsed.now.root < node_count parsed.now.forest }
    requires lexed { lexemes.now ≡ lexemes_of text.now tokens.now }
    ensures ok { IfOk result (IsQueryText text.now base.now) }
    ensures err { IfErr result (TextFails text.now base.now) }
{
    let forest = &parsed.forest;
    let at = parsed.root;
    let seed = Seed::of_bytes(text.as_bytes());
    let environment = environment_of(alloc, seed, lexemes, base, forest, at)?;
    let body = behind(lexemes, body_start(forest, at));
    let named = named_of(alloc, seed, body)?;
    let checked = fault_of(
        alloc,
        seed,
        text.len(),
        lexemes,
        &environment,
        body,
        &named,
        forest,
        at,
    )?;
    if let Some(found) = checked {
        return Err(QueryError::Fault(found));
    }
    let query = query_of(alloc, &environment, named, lexemes, forest, at)?;
    Ok(query)
}

/// The query of the tokens of a text, whose tree this is, or its first fault.
pub fn read_tokens(
    alloc: Global,
    text: &str,
    base: &str,
    tokens: &[Token],
    parsed: &Parsed,
) -> Result<Query, QueryError>
    requires cut { sparql_tokens text.now ≡ Ok tokens.now }
    requires shallow { IsShallow sparql (kinds_of tokens.now) }
    requires the_tree { IsTheTree SPARQL (kinds_of tokens.now) (tree parsed.now.forest parsed.now.root) }
    requires root { parsed.now.root < node_count parsed.now.forest }
    ensures ok { IfOk result (IsQueryText text.now base.now) }
    ensures err { IfErr result (TextFails text.now base.now) }
{
    let lexemes = lexemes_of(alloc, text, tokens)?;
    read_lexemes(alloc, text, base, tokens, &lexemes, parsed)
}
