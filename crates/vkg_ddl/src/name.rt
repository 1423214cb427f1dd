ghost use Rattle.std.specs.Prelude.{◌≡◌, ◌==◌, ◌-◌, ◌+◌, ◌≤◌, length, ◌<◌, take, drop, IfOk, IsUtf8};
ghost use Rattle.std.specs.List.{AllByRecursion};
ghost use Rattle.vkg_tokens.specs.Cut.{AreSpans};
ghost use Rattle.vkg_ddl.specs.Formed.{IsWord};
ghost use Rattle.vkg_ddl.specs.Names.{is_second, undoubled, undoubled_from, name_bytes, name_at, names_of, HasAsciiEnds};

use std::alloc::Global;
use vkg_base::{Memory, Text};
use vkg_tokens::Token;
use vkg_tokens::ddl_kinds::DELIMITED;

/// A word as it is written: what it says, whether it stood in quotes, and where it begins.
#[derive(Drop)]
pub struct Name {
    pub text: Text,
    pub delimited: bool,
    pub at: usize,
}

impl Name {
    pub fn copy(&self) -> Result<Name, Memory>
        ensures { IfOk result (λ n. n ≡ self.now) }
    {
        let text = self.text.copy()?;
        Ok(Name {
            text,
            delimited: self.delimited,
            at: self.at,
        })
    }
}

fn is_second(after: bool, b: u8) -> bool
    ensures { result ≡ is_second after b }
{
    after && b == b'"'
}

// The bytes with each pair of quotes made one.
fn undoubled(alloc: Global, bytes: &[u8]) -> Result<Vec<u8>, Memory>
    ensures { IfOk result (λ out. out.items ≡ undoubled bytes.now) }
{
    let mut out = Vec::new(alloc);
    let mut after = false;
    for b in bytes {
        if is_second(after, *b) {
            after = false;
        } else {
            out.push(*b)?;
            after = *b == b'"';
        }
    }
    Ok(out)
}

fn slice(bytes: &[u8], start: usize, end: usize) -> &[u8]
    requires order { start ≤ end }
    requires inside { end ≤ length bytes.now }
    ensures { result.now ≡ take (end - start) (drop start bytes.now) }
{
    &bytes[start..end]
}

fn name_bytes(alloc: Global, text: &[u8], token: Token) -> Result<Vec<u8>, Memory>
    requires order { token.start ≤ token.end }
    requires inside { token.end ≤ length text.now }
    ensures { IfOk result (λ out. out.items ≡ name_bytes text.now token) }
{
    let bytes = slice(text, token.start, token.end);
    if token.kind == DELIMITED && bytes.len() >= 2 {
        return undoubled(alloc, slice(bytes, 1, bytes.len() - 1));
    }
    Ok(Vec::from_slice(alloc, bytes)?)
}

fn name_at(alloc: Global, text: &[u8], token: Token) -> Result<Name, Memory>
    requires some { token.start < token.end }
    requires inside { token.end ≤ length text.now }
    requires text { IsUtf8 text.now }
    requires ends { HasAsciiEnds text.now token }
    ensures value { IfOk result (λ n. n ≡ name_at text.now token) }
    ensures utf8 { IfOk result IsWord }
{
    let bytes = name_bytes(alloc, text, token)?;
    match String::from_utf8(bytes) {
        Ok(string) => Ok(Name {
            text: Text::from_string(string),
            delimited: token.kind == DELIMITED,
            at: token.start,
        }),
        Err(_) => unreachable!(),
    }
}

/// What each token says.
pub fn names_of(alloc: Global, text: &str, tokens: &[Token]) -> Result<Vec<Name>, Memory>
    requires spans { AreSpans 0 tokens.now (length text.now) }
    requires ends { AllByRecursion (HasAsciiEnds text.now) tokens.now }
    ensures value { IfOk result (λ names. names.items ≡ names_of text.now tokens.now) }
    ensures utf8 { IfOk result (λ names. AllByRecursion IsWord names.items) }
{
    let bytes = text.as_bytes();
    let mut names = Vec::new(alloc);
    for token in tokens {
        names.push(name_at(alloc, bytes, *token)?)?;
    }
    Ok(names)
}
