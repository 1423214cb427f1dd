ghost use Rattle.vkg_grammar.specs.Parsing.{IsTheText, Stops};
ghost use Rattle.std.specs.Prelude.{◌≡◌, [], IfOk, IfErr};
ghost use Rattle.std.specs.List.{AllByRecursion};
ghost use Rattle.vkg_grammar.specs.Kinds.{kinds_of, AreBelow};
ghost use Rattle.vkg_ddl.specs.Formed.{IsFormed};
ghost use Rattle.vkg_ddl.specs.Reading.{role_of, is_choice, written_of, Says, TextFails};
ghost use Rattle.vkg_ddl.specs.declared.reading.TextFault.TheVariants.{Memory as OutOfMemory};

use crate::grammar_table::{DDL, ROLES};
use crate::name::{Name, names_of};
use crate::role::Role;
use crate::written::{WrittenTable, act};
use std::alloc::Global;
use thiserror::Error;
use vkg_base::{Items, Memory};
use vkg_grammar::{Grammar, Note, ParseFault, Rule, parse, role_in, start_of};
use vkg_tokens::ddl_kinds::KIND_COUNT;
use vkg_tokens::{Lang, Token, TokensError, tokens};

/// Why a text is none of the grammar.
#[derive(Debug, Drop, Error)]
pub enum TextFault {
    #[error("out of memory")]
    Memory,
    /// No token begins at this byte.
    #[error("no token begins at byte {at}")]
    Lexical { at: usize },
    /// The first token that no text goes on with begins here, or the text ends too early.
    #[error("no text of the grammar goes on so at byte {at}")]
    Grammar { at: usize },
}

impl From<Memory> for TextFault {
    ghost from_gives = { λ _ e. e ≡ OutOfMemory };

    fn from(_: Memory) -> TextFault {
        TextFault::Memory
    }
}

fn meanings() -> &'static [Role]
    ensures { result.now ≡ ROLES }
{
    &ROLES
}

fn role_of(symbol: usize) -> Role
    ensures { result ≡ role_of symbol }
{
    role_in(meanings(), symbol, Role::Choice)
}

fn is_choice(role: Role) -> bool
    ensures { result ≡ is_choice role }
{
    match role {
        Role::Choice => true,
        _ => false,
    }
}

fn written_of(alloc: Global, notes: &[Note], tokens: &[Name]) -> Result<Items<WrittenTable>, Memory>
    ensures { IfOk result (λ tables. tables ≡ written_of notes.now tokens.now []) }
{
    let mut tables = Items::new(alloc);
    let mut rest = tokens;
    for note in notes {
        let role = role_of(note.symbol);
        if !is_choice(role) {
            let Some((token, after)) = rest.split_first() else {
                return Ok(tables);
            };
            act(alloc, role, token, &mut tables)?;
            rest = after;
        }
    }
    Ok(tables)
}

fn rules() -> &'static [Rule]
    ensures { result.now ≡ DDL }
{
    &DDL
}

// The notes of the derivation of these tokens.
fn notes_of(alloc: Global, tokens: &[Token]) -> Result<Vec<Note>, ParseFault>
    requires { AreBelow KIND_COUNT tokens.now }
    ensures text { IfOk result (λ notes. IsTheText DDL (kinds_of tokens.now) notes.items) }
    ensures stops { IfErr result (Stops DDL (kinds_of tokens.now)) }
{
    let grammar = Grammar::new(rules(), KIND_COUNT);
    parse(alloc, &grammar, tokens)
}

/// What stands in a text of the grammar, or its first fault.
pub fn read_written(alloc: Global, text: &str) -> Result<Items<WrittenTable>, TextFault>
    ensures ok { IfOk result (Says text.now) }
    ensures form { IfOk result (AllByRecursion IsFormed) }
    ensures err { IfErr result (TextFails text.now) }
{
    let tokens = match tokens(alloc, Lang::Ddl, text) {
        Ok(tokens) => tokens,
        Err(TokensError::Memory) => return Err(TextFault::Memory),
        Err(TokensError::LexFault { at }) => return Err(TextFault::Lexical { at }),
    };
    match notes_of(alloc, &tokens) {
        Ok(notes) => {
            let names = names_of(alloc, text, &tokens)?;
            Ok(written_of(alloc, &notes, &names)?)
        }
        Err(ParseFault::Memory) => Err(TextFault::Memory),
        Err(ParseFault::TooDeep { .. }) => unreachable!(),
        Err(ParseFault::Dead { index }) => {
            let at = start_of(&tokens, index);
            Err(TextFault::Grammar { at })
        }
        Err(ParseFault::Ended) => Err(TextFault::Grammar { at: text.len() }),
    }
}
