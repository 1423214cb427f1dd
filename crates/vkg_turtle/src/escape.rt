ghost use Rattle.std.specs.Prelude.{◌≡◌, ◌++◌, ◌<◌, ◌^◌, IfOk, OnOk, string_bytes, flat_map, encode_utf8};
ghost use Rattle.vkg_turtle.specs.Escapes.{hex_value, with_digit, character, escaped, behind_backslash, behind, meant, text_meant, local_meant};

use std::alloc::Global;
use vkg_base::{Memory, Text};

/// What stands before a character of a string or of an IRI reference.
#[derive(Clone, Copy)]
pub enum Escape {
    /// No escape.
    Outside,
    /// A backslash.
    Backslash,
    /// `\u` or `\U`: how many hex digits are to come, and the number of those before.
    Digits(usize, u32),
}

fn hex_value(c: char) -> u32
    ensures value { result ≡ hex_value c }
    ensures small { result < 16 }
{
    match c.to_digit(16) {
        Some(digit) => digit,
        None => 0,
    }
}

fn with_digit(code: u32, c: char) -> u32
    ensures { result ≡ with_digit code c }
{
    ((code as u64 * 16 + hex_value(c) as u64) % (1 << 32)) as u32
}

fn character(code: u32) -> char
    ensures { result ≡ character code }
{
    match char::from_u32(code) {
        Some(c) => c,
        None => '\u{FFFD}',
    }
}

fn escaped(c: char) -> char
    ensures { result ≡ escaped c }
{
    match c {
        't' => '\t',
        'b' => '\u{8}',
        'n' => '\n',
        'r' => '\r',
        'f' => '\u{C}',
        _ => c,
    }
}

fn behind_backslash(c: char) -> Escape
    ensures { result ≡ behind_backslash c }
{
    match c {
        'u' => Escape::Digits(4, 0),
        'U' => Escape::Digits(8, 0),
        _ => Escape::Outside,
    }
}

// What stands before the next character.
fn behind(escape: Escape, c: char) -> Escape
    ensures { result ≡ behind escape c }
{
    match escape {
        Escape::Outside => if c == '\\' {
            Escape::Backslash
        } else {
            Escape::Outside
        },
        Escape::Backslash => behind_backslash(c),
        Escape::Digits(left, code) => if 1 < left {
            Escape::Digits(left - 1, with_digit(code, c))
        } else {
            Escape::Outside
        },
    }
}

// Adds the characters that end with this one.
fn push_meant(out: &mut String, escape: Escape, c: char) -> Result<(), Memory>
    ensures { OnOk result (string_bytes out.new ≡ string_bytes out.old ++ flat_map encode_utf8 (meant escape c)) }
{
    match escape {
        Escape::Outside => if c != '\\' {
            out.push(c)?;
        },
        Escape::Backslash => if c != 'u' && c != 'U' {
            out.push(escaped(c))?;
        },
        Escape::Digits(left, code) => if left <= 1 {
            out.push(character(with_digit(code, c)))?;
        },
    }
    Ok(())
}

/// What the text of a string or of an IRI reference stands for.
pub(crate) fn text_meant(alloc: Global, text: &str) -> Result<Text, Memory>
    ensures { IfOk result (λ t. t ≡ text_meant text.now) }
{
    let mut out = String::new(alloc);
    let mut escape = Escape::Outside;
    for c in text.chars() {
        push_meant(&mut out, escape, c)?;
        escape = behind(escape, c);
    }
    Ok(Text::from_string(out))
}

/// A local name without the backslashes of its escapes.
pub(crate) fn local_meant(alloc: Global, text: &str) -> Result<Text, Memory>
    ensures { IfOk result (λ t. t ≡ local_meant text.now) }
{
    let mut out = String::new(alloc);
    for c in text.chars() {
        if c != '\\' {
            out.push(c)?;
        }
    }
    Ok(Text::from_string(out))
}
