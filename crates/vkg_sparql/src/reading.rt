ghost use Rattle.std.specs.Prelude.{◌≡◌, ◌<◌, length, Ok, IfOk, IfErr, OnOk};
ghost use Rattle.vkg_grammar.specs.Forest.{tree, node_count};
ghost use Rattle.vkg_grammar.specs.Form.{IsShallow};
ghost use Rattle.vkg_grammar.specs.Kinds.{kinds_of, start_at, AreBelow};
ghost use Rattle.vkg_grammar.specs.OneTree.{IsTheTree};
ghost use Rattle.vkg_grammar.specs.Parsing.{Fails as Refuses};
ghost use Rattle.vkg_sparql.specs.Lawful.{IsLawfulQuery};
ghost use Rattle.vkg_sparql.specs.Seen.{query_seen};
ghost use Rattle.vkg_sparql.specs.Reading.{IsDetermined, IsQuery, Fails, IsQueryText, TextFails, sparql, sparql_tokens, kind_at, fault, dead_check, is_outside, is_outside_word};
ghost use Rattle.vkg_sparql.specs.declared.fault.QueryError.TheVariants.{Fault};

use crate::body::read_tokens;
use crate::fault::{QueryError, fault};
use crate::grammar_table::SPARQL;
use crate::query::Query;
use std::alloc::Global;
use std::str;
use vkg_grammar::{Grammar, ParseFault, Parsed, Rule, parse_tree, start_of};
use vkg_tokens::sparql_kinds::KIND_COUNT;
use vkg_tokens::{Lang, Token, TokensError, sparql_kinds as kinds, tokens, without_mark};
use vkg_turtle::first_bad;

fn rules() -> &'static [Rule]
    ensures { result.now ≡ SPARQL }
{
    &SPARQL
}

const OPENERS: [usize; 3] = [kinds::OPEN_BRACE, kinds::OPEN, kinds::OPEN_BRACKET];

const CLOSERS: [usize; 3] = [kinds::CLOSE_BRACE, kinds::CLOSE, kinds::CLOSE_BRACKET];

fn openers() -> &'static [usize]
    ensures { result.now ≡ OPENERS }
{
    &OPENERS
}

fn closers() -> &'static [usize]
    ensures { result.now ≡ CLOSERS }
{
    &CLOSERS
}

// The one tree of these tokens.
fn tree_of(alloc: Global, tokens: &[Token]) -> Result<Parsed, ParseFault>
    requires { AreBelow KIND_COUNT tokens.now }
    ensures shallow { OnOk result (IsShallow sparql (kinds_of tokens.now)) }
    ensures tree { IfOk result (λ p. IsTheTree SPARQL (kinds_of tokens.now) (tree p.forest p.root)) }
    ensures root { IfOk result (λ p. p.root < node_count p.forest) }
    ensures fails { IfErr result (Refuses sparql (kinds_of tokens.now)) }
{
    let grammar = Grammar::with_limit(rules(), KIND_COUNT, openers(), closers(), 64);
    parse_tree(alloc, &grammar, tokens)
}

fn kind_of(tokens: &[Token], index: usize) -> usize
    requires { index < length tokens.now }
    ensures { result ≡ kind_at tokens.now index }
{
    tokens[index].kind
}

#[tactic(auto, unfolding(crate::specs::Reading::is_outside_word))]
fn is_outside_word(kind: usize) -> bool
    ensures { result ≡ is_outside_word kind }
{
    kind == kinds::OUTSIDE || kind == kinds::VALUES
}

fn is_outside(kind: usize) -> bool
    ensures { result ≡ is_outside kind }
{
    kind == kinds::OPEN
        || (kinds::STAR <= kind && kind <= kinds::CARET)
        || (kinds::PLUS_SIGN <= kind && kind <= kinds::QUESTION)
        || kind == kinds::DOUBLE
        || kind == kinds::SELECT
        || is_outside_word(kind)
}

fn dead_check(kind: usize) -> u8
    ensures { result ≡ dead_check kind }
{
    if is_outside(kind) { 7 } else { 2 }
}

// The fault of a token that no query goes on with.
fn dead(tokens: &[Token], index: usize) -> QueryError
    requires { index < length tokens.now }
    ensures { result ≡ Fault (fault (dead_check (kind_at tokens.now index)) (start_at tokens.now index)) }
{
    let check = dead_check(kind_of(tokens, index));
    let at = start_of(tokens, index);
    fault(check, at)
}

fn read_cut(alloc: Global, text: &str, base: &str, tokens: &[Token]) -> Result<Query, QueryError>
    requires cut { sparql_tokens text.now ≡ Ok tokens.now }
    requires kinds { AreBelow KIND_COUNT tokens.now }
    ensures ok { IfOk result (IsQueryText text.now base.now) }
    ensures err { IfErr result (TextFails text.now base.now) }
{
    match tree_of(alloc, tokens) {
        Ok(parsed) => read_tokens(alloc, text, base, tokens, &parsed),
        Err(ParseFault::Memory) => Err(QueryError::Memory),
        Err(ParseFault::TooDeep { index }) => Err(fault(3, start_of(tokens, index))),
        Err(ParseFault::Dead { index }) => Err(dead(tokens, index)),
        Err(ParseFault::Ended) => Err(fault(2, text.len())),
    }
}

fn read_str(alloc: Global, text: &str, base: &str) -> Result<Query, QueryError>
    ensures ok { IfOk result (IsQueryText text.now base.now) }
    ensures err { IfErr result (TextFails text.now base.now) }
{
    match tokens(alloc, Lang::Sparql, text) {
        Ok(tokens) => read_cut(alloc, text, base, &tokens),
        Err(TokensError::Memory) => Err(QueryError::Memory),
        Err(TokensError::LexFault { at }) => Err(fault(1, at)),
    }
}

fn read_text(alloc: Global, bytes: &[u8], base: &str) -> Result<Query, QueryError>
    ensures ok { IfOk result (IsQueryText bytes.now base.now) }
    ensures err { IfErr result (TextFails bytes.now base.now) }
{
    match str::from_utf8(bytes) {
        Ok(text) => read_str(alloc, text, base),
        Err(_) => Err(fault(1, first_bad(alloc, Lang::Sparql, bytes)?)),
    }
}

/// The query of a text (SPARQL 1.1, in the profile of this project), whose IRI references are resolved against `base`, an
/// absolute IRI, where its prologue gives no other.
///
/// Faults, the first of which is named: 1, the least place at which no token begins or the bytes are no UTF-8; 3, the bracket that
/// makes depth 65; at the first token that no query goes on with, 7 where it is one of the words and signs of SPARQL 1.1 that are told as
/// left out, and else 2, or 2 at the length of a text that ends too early; then the least of these checks, at its least place: 4, a prefix
/// that is not declared; 5, an IRI that is not absolute, also one of the prologue; 6, a blank node label in a second basic
/// graph pattern (a template is none); 7, a string with the datatype xsd:double or xsd:float; 8, a well-typed integer or decimal literal past 38
/// digits; 9, a limit: the subject of the 129th triple pattern (those of a template first), the 257th variable or blank node, the 1,025th node (a group's `{`,
/// OPTIONAL, GRAPH, FILTER, UNION, an operator's sign, a call's word), 2147483647 for a longer text; 12, the number of a slice that
/// has a sign or is above 4,294,967,295: it is no literal, and so never one of 8.
pub fn read_query(alloc: Global, bytes: &[u8], base: &str) -> Result<Query, QueryError>
    ensures ok { IfOk result (IsQuery bytes.now base.now) }
    ensures lawful { IfOk result (λ q. IsLawfulQuery (query_seen q)) }
    ensures err { IfErr result (Fails bytes.now base.now) }
{
    read_text(alloc, without_mark(bytes), base)
}

/// What `read_query` answers is determined by the bytes and the base, but for want of memory.
pub fn is_determined()
    ensures { IsDetermined }
{}
