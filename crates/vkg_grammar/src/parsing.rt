ghost use Rattle.std.specs.Prelude.{◌≡◌, ◌-◌, ◌*◌, ◌<◌, length, IfOk, IfErr, OnOk};
ghost use Rattle.vkg_grammar.specs.Form.{IsShallow};
ghost use Rattle.vkg_grammar.specs.Grammar.{IsGrammar, IsLL1};
ghost use Rattle.vkg_grammar.specs.Kinds.{kinds_of, start_at, AreBelow};
ghost use Rattle.vkg_grammar.specs.Rank.{rank_in, IsTable};
ghost use Rattle.vkg_grammar.specs.declared.parsing.ParseFault.TheVariants.{Memory};
ghost use Rattle.vkg_grammar.specs.Parsing.{IsTheText, Stops, Fails};

use crate::depth::first_too_deep;
use crate::grammar::Grammar;
use crate::machine::advance;
use crate::note::Note;
use crate::rule::Rule;
use crate::table::begin_table;
use std::alloc::{AllocError, AllocFailed, Global};
use thiserror::Error;
use vkg_tokens::Token;

/// Why tokens are no text of a grammar, with the number of a token, counted from 0.
#[derive(Clone, Copy, Debug, Drop, Error, PartialEq, Eq)]
pub enum ParseFault {
    /// Memory ran out.
    #[error("out of memory")]
    Memory,
    /// Behind this token more brackets are open than the grammar allows.
    #[error("too many open brackets behind token {index}")]
    TooDeep { index: usize },
    /// No text of the grammar begins with the tokens up to and with this one.
    #[error("no text begins with the tokens up to {index}")]
    Dead { index: usize },
    /// The tokens begin a text of the grammar, and are none.
    #[error("the text ended too soon")]
    Ended,
}

impl From<AllocError> for ParseFault {
    ghost from_gives = { λ _ e. e ≡ Memory };

    fn from(_: AllocError) -> ParseFault {
        ParseFault::Memory
    }
}

impl<T: Drop> From<AllocFailed<T>> for ParseFault {
    ghost from_gives = { λ _ e. e ≡ Memory };

    fn from(_: AllocFailed<T>) -> ParseFault {
        ParseFault::Memory
    }
}

/// Where a token begins that a fault names.
pub fn start_of(tokens: &[Token], index: usize) -> usize
    requires { index < length tokens.now }
    ensures { result ≡ start_at tokens.now index }
{
    tokens[index].start
}

// The notes of the text, by a table of the grammar.
pub(crate) fn parse_by(
    alloc: Global,
    rules: &[Rule],
    table: &[usize],
    width: usize,
    tokens: &[Token],
) -> Result<Vec<Note>, ParseFault>
    requires grammar { IsGrammar rules.now }
    requires ll1 { IsLL1 rules.now }
    requires is_table { IsTable rules.now (rank_in table.now width) }
    requires sized { length table.now ≡ width * length rules.now }
    requires wide { 0 < width }
    requires in_columns { AreBelow (width - 1) tokens.now }
    ensures text { IfOk result (λ notes. IsTheText rules.now (kinds_of tokens.now) notes.items) }
    ensures stops { IfErr result (Stops rules.now (kinds_of tokens.now)) }
{
    let mut stack = Vec::new(alloc);
    stack.push(0usize)?;
    let mut notes = Vec::new(alloc);
    for (index, token) in tokens.iter().enumerate() {
        if !advance(
            rules,
            table,
            width,
            &mut stack,
            &mut notes,
            Some(token.kind),
        )? {
            return Err(ParseFault::Dead { index });
        }
    }
    if !advance(rules, table, width, &mut stack, &mut notes, None)? {
        return Err(ParseFault::Ended);
    }
    Ok(notes)
}

/// The notes of the one leftmost derivation of the tokens, one for each of its symbols, from the left.
///
/// Asked of grammars that are LL(1) (`check_ll1`, or a certificate), and of tokens of its kinds. `TooDeep` names the first token behind which more
/// brackets are open than the grammar allows, whatever the rules say; in a text without one, `Dead` names the first token
/// up to and with which the tokens begin no text; `Ended` says that they begin a text and are none. A closer
/// of any kind closes one open bracket, and none where none is open.
pub fn parse(alloc: Global, grammar: &Grammar, tokens: &[Token]) -> Result<Vec<Note>, ParseFault>
    requires ll1 { IsLL1 grammar.now.rules }
    requires kinds { AreBelow grammar.now.kinds tokens.now }
    ensures shallow { OnOk result (IsShallow grammar.now (kinds_of tokens.now)) }
    ensures text { IfOk result (λ notes. IsTheText grammar.now.rules (kinds_of tokens.now) notes.items) }
    ensures fails { IfErr result (Fails grammar.now (kinds_of tokens.now)) }
{
    if let Some(index) = first_too_deep(grammar, tokens) {
        return Err(ParseFault::TooDeep { index });
    }
    let rules = grammar.rules();
    let width = grammar.width();
    let table = begin_table(alloc, rules, width)?;
    parse_by(alloc, rules, &table, width, tokens)
}
