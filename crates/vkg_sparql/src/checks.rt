ghost use Rattle.std.specs.Prelude.{◌≡◌, ◌&&◌, IfOk, map, filter, option_map, slice_get, is_none};
ghost use Rattle.vkg_sparql.specs.Checks.{is_unknown, is_relative, is_float_type, is_float, is_literal, fails, first_place, place_in, subject_place, triples_over, size_over, begins_slice, is_slice_number, no_number, slice_over};
ghost use Rattle.vkg_sparql.specs.Environment.{iri_of};

use crate::environment::Environment;
use crate::lexeme::Lexeme;
use crate::literals::term_of;
use crate::meaning::TripleTokens;
use crate::order_reader::slice_number;
use std::alloc::Global;
use vkg_base::{Memory, Text};
use vkg_cells::is_wide_number;
use vkg_terms::vocabulary::{XSD_DOUBLE, XSD_FLOAT};
use vkg_terms::{Annotation, Term, is_absolute};
use vkg_tokens::sparql_kinds as kinds;
use vkg_turtle::Word;

/// A check of one token.
#[derive(Clone, Copy)]
pub enum Check {
    /// A prefix is not declared.
    Unknown,
    /// An IRI is not absolute.
    Relative,
    /// A literal of xsd:double or xsd:float.
    Float,
    /// A well-typed number past 38 digits.
    Wide,
}

fn is_unknown(alloc: Global, environment: &Environment, word: &Word) -> Result<bool, Memory>
    ensures { IfOk result (λ b. b ≡ is_unknown environment.now word.now) }
{
    match word {
        Word::Name(_, _) => {
            let iri = environment.iri_of(alloc, word)?;
            Ok(iri.is_none())
        }
        _ => Ok(false),
    }
}

fn is_relative(iri: &Option<Text>) -> bool
    ensures { result ≡ is_relative iri.now }
{
    match iri {
        None => false,
        Some(iri) => !is_absolute(iri.as_str()),
    }
}

fn is_float_type(datatype: &str) -> bool
    ensures { result ≡ is_float_type datatype.now }
{
    datatype == XSD_DOUBLE || datatype == XSD_FLOAT
}

fn is_float(term: &Term) -> bool
    ensures { result ≡ is_float term.now }
{
    match term {
        Term::Lit(_, Annotation::Typed(datatype)) => { is_float_type(datatype.iri().as_str()) }
        _ => false,
    }
}

fn is_literal(kind: usize) -> bool
    ensures { result ≡ is_literal kind }
{
    kind == kinds::STRING || kind == kinds::INTEGER || kind == kinds::DECIMAL
}

fn is_relative_word(alloc: Global, environment: &Environment, word: &Word) -> Result<bool, Memory>
    ensures { IfOk result (λ b. b ≡ is_relative (iri_of environment.now word.now)) }
{
    let iri = environment.iri_of(alloc, word)?;
    Ok(is_relative(&iri))
}

#[tactic(auto, unfolding(crate::specs::Checks::fails))]
fn fails(
    alloc: Global,
    check: Check,
    environment: &Environment,
    lexeme: &Lexeme,
    rest: &[Lexeme],
) -> Result<bool, Memory>
    ensures { IfOk result (λ b. b ≡ fails check environment.now lexeme.now rest.now) }
{
    match check {
        Check::Unknown => is_unknown(alloc, environment, &lexeme.word),
        Check::Relative => is_relative_word(alloc, environment, &lexeme.word),
        Check::Float => if is_literal(lexeme.kind) {
            let term = term_of(alloc, environment, &lexeme.word, rest)?;
            Ok(is_float(&term))
        } else {
            Ok(false)
        },
        Check::Wide => if is_literal(lexeme.kind) {
            let term = term_of(alloc, environment, &lexeme.word, rest)?;
            Ok(is_wide_number(&term))
        } else {
            Ok(false)
        },
    }
}

fn begins_slice(kind: usize) -> bool
    ensures { result ≡ begins_slice kind }
{
    kind == kinds::LIMIT || kind == kinds::OFFSET
}

/// The place of the first token before the slice at which the check fails.
pub fn first_place(
    alloc: Global,
    check: Check,
    environment: &Environment,
    lexemes: &[Lexeme],
) -> Result<Option<usize>, Memory>
    ensures { IfOk result (λ at. at ≡ first_place check environment.now lexemes.now) }
{
    let mut rest = lexemes;
    while let Some((lexeme, more)) = rest.split_first() {
        if begins_slice(lexeme.kind) {
            return Ok(None);
        }
        if fails(alloc, check, environment, lexeme, more)? {
            return Ok(Some(lexeme.at));
        }
        rest = more;
    }
    Ok(None)
}

/// Where a token begins.
pub fn place_in(lexemes: &[Lexeme], token: usize) -> Option<usize>
    ensures { result ≡ place_in lexemes.now token }
{
    match lexemes.get(token) {
        Some(lexeme) => Some(lexeme.at),
        None => None,
    }
}

fn triple_at(triples: &[TripleTokens], at: usize) -> Option<TripleTokens>
    ensures { result ≡ slice_get triples.now at }
{
    match triples.get(at) {
        Some(triple) => Some(*triple),
        None => None,
    }
}

/// Where the subject of the 129th triple pattern begins.
pub fn triples_over(lexemes: &[Lexeme], triples: &[TripleTokens]) -> Option<usize>
    ensures { result ≡ triples_over lexemes.now triples.now }
{
    match triple_at(triples, 128) {
        Some(triple) => place_in(lexemes, triple.subject),
        None => None,
    }
}

fn is_slice_number(word: &Word) -> bool
    ensures { result ≡ is_slice_number word.now }
{
    match word {
        Word::Integer(text) => slice_number(text.as_str()).is_some(),
        _ => false,
    }
}

fn no_number(lexemes: &[Lexeme]) -> Option<usize>
    ensures { result ≡ no_number lexemes.now }
{
    let mut rest = lexemes;
    while let Some((lexeme, more)) = rest.split_first() {
        if is_literal(lexeme.kind) && !is_slice_number(&lexeme.word) {
            return Some(lexeme.at);
        }
        rest = more;
    }
    None
}

/// The place of the first number of a slice that has a sign or is too great.
pub fn slice_over(lexemes: &[Lexeme]) -> Option<usize>
    ensures { result ≡ slice_over lexemes.now }
{
    let mut rest = lexemes;
    while let Some((lexeme, more)) = rest.split_first() {
        if begins_slice(lexeme.kind) {
            return no_number(rest);
        }
        rest = more;
    }
    None
}

/// The place that is named where a text has too many bytes.
pub fn size_over(size: usize) -> Option<usize>
    ensures { result ≡ size_over size }
{
    if 2147483647 < size {
        Some(2147483647)
    } else {
        None
    }
}
