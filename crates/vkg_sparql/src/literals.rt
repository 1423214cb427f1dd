ghost use Rattle.std.specs.Prelude.{◌≡◌, IfOk, nat_lt, if◌then◌else◌};
ghost use Rattle.vkg_sparql.specs.Lexemes.{key_of, number_in};
ghost use Rattle.vkg_sparql.specs.Literals.{type_behind, tag_or_type, annotation, term_of, operator_of, is_term, meaning_of, meanings_of};
ghost use Rattle.vkg_sparql.specs.declared.meaning.Meaning.TheVariants.{Mark};

use crate::environment::Environment;
use crate::lexeme::Lexeme;
use crate::meaning::Meaning;
use crate::names::{Names, number_in};
use std::alloc::Global;
use vkg_base::{Memory, Text};
use vkg_terms::vocabulary::{RDF_TYPE, XSD_BOOLEAN, XSD_DECIMAL, XSD_INTEGER};
use vkg_terms::{Annotation, Term};
use vkg_tokens::sparql_kinds as kinds;
use vkg_turtle::{Word, lowered, typed};
use vkg_values::{Compare, Take, Test};

fn type_behind(
    alloc: Global,
    environment: &Environment,
    rest: &[Lexeme],
) -> Result<Annotation, Memory>
    ensures { IfOk result (λ a. a ≡ type_behind environment.now rest.now) }
{
    match rest.first() {
        None => Ok(Annotation::Plain),
        Some(lexeme) => Ok(Annotation::typed(environment.iri_text(alloc, &lexeme.word)?)),
    }
}

fn tag_or_type(
    alloc: Global,
    environment: &Environment,
    word: &Word,
    is_type: bool,
    rest: &[Lexeme],
) -> Result<Annotation, Memory>
    ensures { IfOk result (λ a. a ≡ tag_or_type environment.now word.now is_type rest.now) }
{
    match word {
        Word::Tag(tag) => Ok(Annotation::Lang(tag.copy()?)),
        _ => if is_type {
            type_behind(alloc, environment, rest)
        } else {
            Ok(Annotation::Plain)
        },
    }
}

// A string's language tag or datatype, from the tokens behind it.
fn annotation(
    alloc: Global,
    environment: &Environment,
    rest: &[Lexeme],
) -> Result<Annotation, Memory>
    ensures { IfOk result (λ a. a ≡ annotation environment.now rest.now) }
{
    let Some((lexeme, rest)) = rest.split_first() else {
        return Ok(Annotation::Plain);
    };
    tag_or_type(
        alloc,
        environment,
        &lexeme.word,
        lexeme.kind == kinds::CARETS,
        rest,
    )
}

/// The term that begins with a token, where the rest follows.
pub fn term_of(
    alloc: Global,
    environment: &Environment,
    word: &Word,
    rest: &[Lexeme],
) -> Result<Term, Memory>
    ensures { IfOk result (λ t. t ≡ term_of environment.now word.now rest.now) }
{
    match word {
        Word::Quoted(text) => {
            let annotation = annotation(alloc, environment, rest)?;
            Ok(Term::Lit(text.copy()?, annotation))
        }
        Word::Integer(text) => typed(alloc, text.copy()?, XSD_INTEGER),
        Word::Decimal(text) => typed(alloc, text.copy()?, XSD_DECIMAL),
        Word::Boolean(text) => typed(alloc, lowered(alloc, text.as_str())?, XSD_BOOLEAN),
        Word::IsA => Ok(Term::Iri(Text::new(alloc, RDF_TYPE)?)),
        _ => Ok(Term::Iri(environment.iri_text(alloc, word)?)),
    }
}

fn operator_of(kind: usize) -> Meaning
    ensures { result ≡ operator_of kind }
{
    match kind {
        kinds::EQUAL => Meaning::Compare(Compare::Equal),
        kinds::NOT_EQUAL => Meaning::Compare(Compare::NotEqual),
        kinds::LESS => Meaning::Compare(Compare::Less),
        kinds::GREATER => Meaning::Compare(Compare::Greater),
        kinds::LESS_EQUAL => Meaning::Compare(Compare::LessOrEqual),
        kinds::GREATER_EQUAL => Meaning::Compare(Compare::GreaterOrEqual),
        kinds::ISIRI | kinds::ISURI => Meaning::Test(Test::IsIri),
        kinds::ISBLANK => Meaning::Test(Test::IsBlank),
        kinds::ISLITERAL => Meaning::Test(Test::IsLiteral),
        kinds::ISNUMERIC => Meaning::Test(Test::IsNumeric),
        kinds::STR => Meaning::Take(Take::Str),
        kinds::LANG => Meaning::Take(Take::Lang),
        kinds::DATATYPE => Meaning::Take(Take::Datatype),
        kinds::STRLEN => Meaning::Take(Take::Length),
        kinds::STRSTARTS => Meaning::Compare(Compare::Starts),
        kinds::STRENDS => Meaning::Compare(Compare::Ends),
        kinds::CONTAINS => Meaning::Compare(Compare::Contains),
        _ => Meaning::Mark,
    }
}

/// Whether a token is a term, or begins a literal.
pub fn is_term(kind: usize) -> bool
    ensures { result ≡ is_term kind }
{
    kind == kinds::IRIREF
        || kind == kinds::PNAME_NS
        || kind == kinds::PNAME_LN
        || kind == kinds::STRING
        || kind == kinds::INTEGER
        || kind == kinds::DECIMAL
        || kind == kinds::IS_A
        || kind == kinds::TRUE
        || kind == kinds::FALSE
}

#[tactic(auto, unfolding(crate::specs::Literals::meaning_of))]
fn meaning_of(
    alloc: Global,
    environment: &Environment,
    keys: &Names,
    lexeme: &Lexeme,
    rest: &[Lexeme],
) -> Result<Meaning, Memory>
    ensures { IfOk result (λ m. m ≡ meaning_of environment.now keys.now lexeme.now rest.now) }
{
    if lexeme.kind == kinds::VAR {
        Ok(Meaning::Variable(number_in(alloc, keys, lexeme)?))
    } else if lexeme.kind == kinds::BLANK || lexeme.kind == kinds::OPEN_BRACKET {
        Ok(Meaning::Label(number_in(alloc, keys, lexeme)?))
    } else if is_term(lexeme.kind) {
        Ok(Meaning::Fixed(term_of(alloc, environment, &lexeme.word, rest)?))
    } else {
        Ok(operator_of(lexeme.kind))
    }
}

// The same behind the prologue, of which so many tokens are left.
fn meaning_behind(
    alloc: Global,
    environment: &Environment,
    keys: &Names,
    left: usize,
    lexeme: &Lexeme,
    rest: &[Lexeme],
) -> Result<Meaning, Memory>
    ensures { IfOk result (λ m. m ≡ (if nat_lt 0 left then Mark else meaning_of environment.now keys.now lexeme.now rest.now)) }
{
    if 0 < left {
        return Ok(Meaning::Mark);
    }
    meaning_of(alloc, environment, keys, lexeme, rest)
}

/// What each token stands for. Those of the prologue, the first ones, mean nothing.
pub fn meanings_of(
    alloc: Global,
    environment: &Environment,
    keys: &Names,
    start: usize,
    lexemes: &[Lexeme],
) -> Result<Vec<Meaning>, Memory>
    ensures { IfOk result (λ ms. ms.items ≡ meanings_of environment.now keys.now start lexemes.now) }
{
    let mut meanings = Vec::new(alloc);
    let mut rest = lexemes;
    let mut left = start;
    while let Some((lexeme, more)) = rest.split_first() {
        meanings.push(meaning_behind(alloc, environment, keys, left, lexeme, more)?)?;
        left = left.saturating_sub(1);
        rest = more;
    }
    Ok(meanings)
}
