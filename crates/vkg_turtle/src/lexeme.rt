ghost use Rattle.std.specs.Prelude.{◌≡◌, ◌≤◌, ◌<◌, length, map, IfOk, string_bytes, get_or, take, drop, ◌-◌};
ghost use Rattle.std.specs.Str.{str_to_ascii_lowercase};
ghost use Rattle.vkg_tokens.specs.Cut.{AreSpans};
ghost use Rattle.vkg_turtle.specs.Words.{is_boundary, between, quotes, inside, name_in, word_of, lexeme_of, lexemes_of};

use crate::escape::{local_meant, text_meant};
use std::alloc::Global;
use vkg_base::{Memory, Text};
use vkg_tokens::{Token, turtle_kinds as kinds};

/// What a token says by itself.
#[derive(Drop)]
pub enum Word {
    /// A sign, or a word that only the grammar looks at.
    Sign,
    /// An IRI reference, without its brackets and escapes.
    Reference(Text),
    /// A prefixed name: the prefix and the local part, without its escapes.
    Name(Text, Text),
    /// The label of a blank node.
    Label(Text),
    /// A string, without its quotes and escapes.
    Quoted(Text),
    /// A language tag, without `@`.
    Tag(Text),
    Integer(Text),
    Decimal(Text),
    Double(Text),
    Boolean(Text),
    /// The verb `a`.
    IsA,
}

/// A token: what it says, and the byte at which it begins.
#[derive(Drop)]
pub struct Lexeme {
    pub word: Word,
    pub at: usize,
}

// Whether no character goes on at this place.
fn is_boundary(text: &str, at: usize) -> bool
    ensures { result ≡ is_boundary text.now at }
{
    match text.as_bytes().get(at) {
        Some(b) => *b < 128 || 192 <= *b,
        None => at == text.len(),
    }
}

/// The text from one place up to another, or none where one of the two is no place between characters.
pub fn between(text: &str, start: usize, end: usize) -> &str
    ensures { result.now ≡ between text.now start end }
{
    if start <= end && is_boundary(text, start) && is_boundary(text, end) {
        &text[start..end]
    } else {
        ""
    }
}

fn quotes(token: &str) -> usize
    ensures { result ≡ quotes token.now }
{
    if token.starts_with("\"\"\"") || token.starts_with("'''") {
        3
    } else {
        1
    }
}

// The token without so many bytes at its front and at its end.
fn inside(token: &str, front: usize, back: usize) -> &str
    ensures { result.now ≡ inside token.now front back }
{
    between(token, front, token.len().saturating_sub(back))
}

fn name_in(alloc: Global, token: &str) -> Result<Word, Memory>
    ensures { IfOk result (λ w. w ≡ name_in token.now) }
{
    match token.split_once(':') {
        Some((prefix, local)) => {
            let prefix = Text::new(alloc, prefix)?;
            Ok(Word::Name(prefix, local_meant(alloc, local)?))
        }
        None => {
            let prefix = Text::new(alloc, token)?;
            Ok(Word::Name(prefix, local_meant(alloc, "")?))
        }
    }
}

/// The text with its ASCII letters lower case.
pub fn lowered(alloc: Global, text: &str) -> Result<Text, Memory>
    ensures { IfOk result (λ t. t ≡ str_to_ascii_lowercase text.now) }
{
    let mut out = String::from_str(alloc, text)?;
    out.make_ascii_lowercase();
    Ok(Text::from_string(out))
}

/// What a token of this kind with these bytes says.
pub fn word_of(alloc: Global, kind: usize, token: &str) -> Result<Word, Memory>
    ensures { IfOk result (λ w. w ≡ word_of kind token.now) }
{
    match kind {
        kinds::IRIREF => Ok(Word::Reference(text_meant(alloc, inside(token, 1, 1))?)),
        kinds::PNAME_NS | kinds::PNAME_LN => name_in(alloc, token),
        kinds::BLANK => Ok(Word::Label(Text::new(alloc, inside(token, 2, 0))?)),
        kinds::STRING => {
            let quotes = quotes(token);
            Ok(Word::Quoted(text_meant(alloc, inside(token, quotes, quotes))?))
        }
        kinds::LANGTAG => Ok(Word::Tag(lowered(alloc, inside(token, 1, 0))?)),
        kinds::INTEGER => Ok(Word::Integer(Text::new(alloc, token)?)),
        kinds::DECIMAL => Ok(Word::Decimal(Text::new(alloc, token)?)),
        kinds::DOUBLE => Ok(Word::Double(Text::new(alloc, token)?)),
        kinds::TRUE | kinds::FALSE => Ok(Word::Boolean(Text::new(alloc, token)?)),
        kinds::IS_A => Ok(Word::IsA),
        _ => Ok(Word::Sign),
    }
}

fn lexeme_of(alloc: Global, text: &str, token: Token) -> Result<Lexeme, Memory>
    ensures { IfOk result (λ x. x ≡ lexeme_of text.now token) }
{
    let word = word_of(alloc, token.kind, between(text, token.start, token.end))?;
    Ok(Lexeme {
        word,
        at: token.start,
    })
}

/// What each token says.
pub(crate) fn lexemes_of(alloc: Global, text: &str, tokens: &[Token]) -> Result<Vec<Lexeme>, Memory>
    ensures { IfOk result (λ xs. xs.items ≡ lexemes_of text.now tokens.now) }
{
    let mut lexemes = Vec::new(alloc);
    for token in tokens {
        lexemes.push(lexeme_of(alloc, text, *token)?)?;
    }
    Ok(lexemes)
}
