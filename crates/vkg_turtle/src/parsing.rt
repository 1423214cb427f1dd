ghost use Rattle.std.specs.Prelude.{◌≡◌, IfOk, IfErr, OnOk};
ghost use Rattle.vkg_grammar.specs.Form.{IsShallow};
ghost use Rattle.vkg_grammar.specs.Kinds.{kinds_of, AreBelow};
ghost use Rattle.vkg_grammar.specs.Parsing.{IsTheText, Fails};
ghost use Rattle.vkg_turtle.specs.Document.{begun, document_of, is_choice, role_of};
ghost use Rattle.vkg_turtle.specs.Reading.{Says, TextFails as Refuses, turtle};

use crate::document::Document;
use crate::grammar_table::{ROLES, TURTLE};
use crate::lexeme::{Lexeme, lexemes_of};
use crate::reading::{TurtleError, fault};
use crate::role::Role;
use std::alloc::Global;
use vkg_base::Memory;
use vkg_grammar::{Grammar, Note, ParseFault, Rule, parse, role_in, start_of};
use vkg_hash::Seed;
use vkg_tokens::turtle_kinds::KIND_COUNT;
use vkg_tokens::{Lang, Token, TokensError, tokens, turtle_kinds as kinds};

fn meanings() -> &'static [Role]
    ensures { result.now ≡ ROLES }
{
    &ROLES
}

fn role_of(symbol: usize) -> Role
    ensures { result ≡ role_of symbol }
{
    role_in(meanings(), symbol, Role::Choice)
}

fn is_choice(role: Role) -> bool
    ensures { result ≡ is_choice role }
{
    match role {
        Role::Choice => true,
        _ => false,
    }
}

// What the tokens make of a document, by the notes of their derivation.
fn document_of(
    alloc: Global,
    base: &str,
    seed: Seed,
    notes: &[Note],
    lexemes: &[Lexeme],
) -> Result<Document, Memory>
    ensures { IfOk result (λ d. d ≡ document_of notes.now lexemes.now (begun base.now)) }
{
    let mut document = Document::new(alloc, base, seed)?;
    let mut rest = lexemes;
    for note in notes {
        let role = role_of(note.symbol);
        if !is_choice(role) {
            let Some((lexeme, after)) = rest.split_first() else {
                return Ok(document);
            };
            document.act(alloc, role, lexeme)?;
            rest = after;
        }
    }
    Ok(document)
}

fn rules() -> &'static [Rule]
    ensures { result.now ≡ TURTLE }
{
    &TURTLE
}

const OPENERS: [usize; 2] = [kinds::OPEN_BRACKET, kinds::OPEN];

const CLOSERS: [usize; 2] = [kinds::CLOSE_BRACKET, kinds::CLOSE];

fn openers() -> &'static [usize]
    ensures { result.now ≡ OPENERS }
{
    &OPENERS
}

fn closers() -> &'static [usize]
    ensures { result.now ≡ CLOSERS }
{
    &CLOSERS
}

// The notes of the derivation of these tokens.
fn notes_of(alloc: Global, tokens: &[Token]) -> Result<Vec<Note>, ParseFault>
    requires { AreBelow KIND_COUNT tokens.now }
    ensures shallow { OnOk result (IsShallow turtle (kinds_of tokens.now)) }
    ensures text { IfOk result (λ notes. IsTheText TURTLE (kinds_of tokens.now) notes.items) }
    ensures fails { IfErr result (Fails turtle (kinds_of tokens.now)) }
{
    let grammar = Grammar::with_limit(rules(), KIND_COUNT, openers(), closers(), 64);
    parse(alloc, &grammar, tokens)
}

/// What is read of a text, or its first fault, the checks of names and IRIs left aside.
pub(crate) fn read_document(alloc: Global, text: &str, base: &str) -> Result<Document, TurtleError>
    ensures ok { IfOk result (Says text.now base.now) }
    ensures err { IfErr result (Refuses text.now base.now) }
{
    let tokens = match tokens(alloc, Lang::Turtle, text) {
        Ok(tokens) => tokens,
        Err(TokensError::Memory) => return Err(TurtleError::Memory),
        Err(TokensError::LexFault { at }) => return Err(fault(1, at)),
    };
    match notes_of(alloc, &tokens) {
        Ok(notes) => {
            let lexemes = lexemes_of(alloc, text, &tokens)?;
            let seed = Seed::of_bytes(text.as_bytes());
            Ok(document_of(alloc, base, seed, &notes, &lexemes)?)
        }
        Err(ParseFault::Memory) => Err(TurtleError::Memory),
        Err(ParseFault::TooDeep { index }) => Err(fault(3, start_of(&tokens, index))),
        Err(ParseFault::Dead { index }) => Err(fault(2, start_of(&tokens, index))),
        Err(ParseFault::Ended) => Err(fault(2, text.len())),
    }
}
