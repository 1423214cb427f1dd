ghost use Rattle.std.specs.Prelude.{◌≡◌, IfOk, map};
ghost use Rattle.vkg_sparql.specs.Lexemes.{first_close, turtle_kind, variable_or, lexeme_word, lexeme_of, lexemes_of, template_end};

use std::alloc::Global;
use vkg_base::{Memory, Text};
use vkg_tokens::{Token, sparql_kinds as kinds, turtle_kinds};
use vkg_turtle::{Word, between, word_of};

/// A token of a query: its kind, the byte at which it begins, and what it says.
#[derive(Drop)]
pub struct Lexeme {
    pub kind: usize,
    pub at: usize,
    pub word: Word,
}

// The same kind of token in Turtle, or a sign.
fn turtle_kind(kind: usize) -> usize
    ensures { result ≡ turtle_kind kind }
{
    match kind {
        kinds::IRIREF => turtle_kinds::IRIREF,
        kinds::PNAME_NS => turtle_kinds::PNAME_NS,
        kinds::PNAME_LN => turtle_kinds::PNAME_LN,
        kinds::BLANK => turtle_kinds::BLANK,
        kinds::STRING => turtle_kinds::STRING,
        kinds::LANGTAG => turtle_kinds::LANGTAG,
        kinds::INTEGER => turtle_kinds::INTEGER,
        kinds::DECIMAL => turtle_kinds::DECIMAL,
        kinds::IS_A => turtle_kinds::IS_A,
        kinds::TRUE | kinds::FALSE => turtle_kinds::TRUE,
        _ => turtle_kinds::DOT,
    }
}

fn lexeme_word(alloc: Global, is_template: bool, kind: usize, token: &str) -> Result<Word, Memory>
    ensures { IfOk result (λ w. w ≡ lexeme_word is_template kind token.now) }
{
    if is_template && kind == kinds::BLANK {
        return Ok(Word::Label(Text::new(alloc, token)?));
    }
    if kind == kinds::VAR {
        return Ok(Word::Label(Text::new(alloc, between(token, 1, token.len()))?));
    }
    word_of(alloc, turtle_kind(kind), token)
}

fn lexeme_of(alloc: Global, text: &str, end: usize, token: Token) -> Result<Lexeme, Memory>
    ensures { IfOk result (λ x. x ≡ lexeme_of text.now end token) }
{
    let is_template = token.start < end;
    let word = lexeme_word(
        alloc,
        is_template,
        token.kind,
        between(text, token.start, token.end),
    )?;
    Ok(Lexeme {
        kind: token.kind,
        at: token.start,
        word,
    })
}

fn first_close(tokens: &[Token]) -> usize
    ensures { result ≡ first_close tokens.now }
{
    let mut rest = tokens;
    while let Some((token, more)) = rest.split_first() {
        if token.kind == kinds::CLOSE_BRACE {
            return token.start;
        }
        rest = more;
    }
    0
}

// The place of the brace that ends the template of a CONSTRUCT, or 0.
fn template_end(tokens: &[Token]) -> usize
    ensures { result ≡ template_end tokens.now }
{
    let mut rest = tokens;
    while let Some((token, more)) = rest.split_first() {
        if token.kind == kinds::CONSTRUCT {
            return first_close(more);
        }
        rest = more;
    }
    0
}

fn each_of(alloc: Global, text: &str, end: usize, tokens: &[Token]) -> Result<Vec<Lexeme>, Memory>
    ensures { IfOk result (λ xs. xs.items ≡ map (lexeme_of text.now end) tokens.now) }
{
    let mut lexemes = Vec::new(alloc);
    for token in tokens {
        lexemes.push(lexeme_of(alloc, text, end, *token)?)?;
    }
    Ok(lexemes)
}

/// What each token says.
pub fn lexemes_of(alloc: Global, text: &str, tokens: &[Token]) -> Result<Vec<Lexeme>, Memory>
    ensures { IfOk result (λ xs. xs.items ≡ lexemes_of text.now tokens.now) }
{
    each_of(alloc, text, template_end(tokens), tokens)
}
