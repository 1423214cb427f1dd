ghost use Rattle.std.specs.Prelude.{◌≡◌, ◌<◌, IfSome};
ghost use Rattle.vkg_tokens.specs.Lexeme.{with_code, first_byte, further_byte, scan_step, turtle_class, sparql_class};
ghost use Rattle.vkg_tokens.specs.declared.sparql_kinds.TheConstants as sparql;
ghost use Rattle.vkg_tokens.specs.declared.turtle_kinds.TheConstants as turtle;

use crate::characters::character;
use crate::lexeme;
use crate::lexeme::Lexeme;

/// What was read of a token, byte by byte.
#[derive(Clone, Copy)]
pub enum Scan {
    Between(Lexeme),
    /// Within a character: so many bytes of it are left, and these are its bits so far.
    Within(Lexeme, usize, u32),
}

fn with_code(state: Lexeme, code: u32) -> Option<Scan>
    ensures { result ≡ with_code state code }
{
    let Some(c) = character(code) else {
        return None;
    };
    match lexeme::step(state, c) {
        None => None,
        Some(next) => Some(Scan::Between(next)),
    }
}

fn first_byte(state: Lexeme, b: u8) -> Option<Scan>
    ensures { result ≡ first_byte state b }
{
    let b = u32::from(b);
    if b < 0x80 {
        with_code(state, b)
    } else if b < 0xc0 {
        None
    } else if b < 0xe0 {
        Some(Scan::Within(state, 1, b - 0xc0))
    } else if b < 0xf0 {
        Some(Scan::Within(state, 2, b - 0xe0))
    } else if b < 0xf8 {
        Some(Scan::Within(state, 3, b - 0xf0))
    } else {
        None
    }
}

fn further_byte(state: Lexeme, left: usize, bits: u32, b: u8) -> Option<Scan>
    ensures { result ≡ further_byte state left bits b }
{
    let b = u32::from(b);
    if b < 0x80 || 0xc0 <= b || 0x8000 <= bits {
        return None;
    }
    let bits = bits * 64 + (b - 0x80);
    if 1 < left {
        Some(Scan::Within(state, left - 1, bits))
    } else {
        with_code(state, bits)
    }
}

/// What was read with one more byte.
pub fn step(state: Scan, b: u8) -> Option<Scan>
    ensures { result ≡ scan_step state b }
{
    match state {
        Scan::Between(state) => first_byte(state, b),
        Scan::Within(state, left, bits) => further_byte(state, left, bits, b),
    }
}

pub fn turtle_class(state: Scan) -> Option<usize>
    ensures class { result ≡ turtle_class state }
    ensures below { IfSome result (λ class. class < turtle.KIND_COUNT) }
{
    match state {
        Scan::Between(state) => lexeme::turtle_class(state),
        Scan::Within(_, _, _) => None,
    }
}

pub fn sparql_class(state: Scan) -> Option<usize>
    ensures class { result ≡ sparql_class state }
    ensures below { IfSome result (λ class. class < sparql.KIND_COUNT) }
{
    match state {
        Scan::Between(state) => lexeme::sparql_class(state),
        Scan::Within(_, _, _) => None,
    }
}
