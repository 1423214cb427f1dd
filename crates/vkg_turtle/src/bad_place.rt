// The least place at which no token begins or the bytes are no UTF-8.
ghost use Rattle.std.specs.Prelude.{◌≡◌, IfOk, IsUtf8};
ghost use Rattle.vkg_turtle.specs.Lexical.{IsEndOfTokens, IsFirstBad, valid_front};

use std::alloc::Global;
use vkg_base::Memory;
use vkg_tokens::{Lang, TokensError, tokens};

// The longest front of the bytes that is UTF-8.
fn valid_front(bytes: &[u8]) -> &str
    ensures { result.now ≡ valid_front bytes.now }
{
    match bytes.utf8_chunks().next() {
        Some(chunk) => chunk.valid(),
        None => "",
    }
}

// The place of a text at which no token begins, or its end.
fn end_of_tokens(alloc: Global, lang: Lang, text: &str) -> Result<usize, Memory>
    ensures { IfOk result (IsEndOfTokens lang text.now) }
{
    match tokens(alloc, lang, text) {
        Ok(_) => Ok(text.len()),
        Err(TokensError::LexFault { at }) => Ok(at),
        Err(TokensError::Memory) => Err(Memory),
    }
}

/// The least place of bytes that are no UTF-8 at which no token begins or they are no UTF-8. No token holds a byte of no
/// character, so one that would run into it does not begin.
#[tactic(auto, using(crate::proofs::Lexical::first_in_front))]
pub fn first_bad(alloc: Global, lang: Lang, bytes: &[u8]) -> Result<usize, Memory>
    requires { IsUtf8 bytes.now → ⊥ }
    ensures { IfOk result (IsFirstBad lang bytes.now) }
{
    let front = valid_front(bytes);
    match end_of_tokens(alloc, lang, front) {
        Ok(at) => return Ok(at),
        Err(Memory) => return Err(Memory),
    }
}
