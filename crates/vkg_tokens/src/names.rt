ghost use Rattle.std.specs.Prelude.{◌≡◌};
ghost use Rattle.vkg_tokens.specs.Names.{name_begin, in_prefix, behind_prefix_dot, escape_begin, local_begin, in_local, in_blank, name_step};

use crate::characters::{
    is_escaped_sign, is_label_start, is_name_part, is_prefix_start, is_word_letter,
};

/// What was read of a word, a prefixed name or a blank node's label.
#[derive(Clone, Copy)]
pub enum Name {
    /// Letters and `_`, a letter first.
    Word,
    /// What begins a prefix and is no word.
    Prefix,
    PrefixDot,
    /// A prefix and its colon.
    Colon,
    Local,
    LocalDot,
    Percent,
    PercentDigit,
    Backslash,
    /// `_` alone.
    LowLine,
    /// Letters and `_`, a `_` first.
    LowWord,
    /// `_:`, which is no label yet.
    BlankColon,
    Blank,
    BlankDot,
}

pub fn begin(c: char) -> Option<Name>
    ensures { result ≡ name_begin c }
{
    if c == ':' {
        Some(Name::Colon)
    } else if c.is_ascii_alphabetic() {
        Some(Name::Word)
    } else if c == '_' {
        Some(Name::LowLine)
    } else if is_prefix_start(c) {
        Some(Name::Prefix)
    } else {
        None
    }
}

fn in_prefix(c: char) -> Option<Name>
    ensures { result ≡ in_prefix c }
{
    if is_name_part(c) {
        Some(Name::Prefix)
    } else if c == '.' {
        Some(Name::PrefixDot)
    } else if c == ':' {
        Some(Name::Colon)
    } else {
        None
    }
}

fn behind_prefix_dot(c: char) -> Option<Name>
    ensures { result ≡ behind_prefix_dot c }
{
    if is_name_part(c) {
        Some(Name::Prefix)
    } else if c == '.' {
        Some(Name::PrefixDot)
    } else {
        None
    }
}

fn escape_begin(c: char) -> Option<Name>
    ensures { result ≡ escape_begin c }
{
    if c == '%' {
        Some(Name::Percent)
    } else if c == '\\' {
        Some(Name::Backslash)
    } else {
        None
    }
}

fn local_begin(c: char) -> Option<Name>
    ensures { result ≡ local_begin c }
{
    if is_label_start(c) || c == ':' {
        Some(Name::Local)
    } else {
        escape_begin(c)
    }
}

fn in_local(c: char) -> Option<Name>
    ensures { result ≡ in_local c }
{
    if is_name_part(c) || c == ':' {
        Some(Name::Local)
    } else if c == '.' {
        Some(Name::LocalDot)
    } else {
        escape_begin(c)
    }
}

fn in_blank(c: char) -> Option<Name>
    ensures { result ≡ in_blank c }
{
    if is_name_part(c) {
        Some(Name::Blank)
    } else if c == '.' {
        Some(Name::BlankDot)
    } else {
        None
    }
}

fn in_word(c: char) -> Option<Name>
    ensures { result ≡ name_step Name.Word c }
{
    if is_word_letter(c) {
        Some(Name::Word)
    } else {
        in_prefix(c)
    }
}

fn behind_low_line(c: char) -> Option<Name>
    ensures { result ≡ name_step Name.LowLine c }
{
    if c == ':' {
        Some(Name::BlankColon)
    } else if is_word_letter(c) {
        Some(Name::LowWord)
    } else {
        None
    }
}

pub fn step(state: Name, c: char) -> Option<Name>
    ensures { result ≡ name_step state c }
{
    match state {
        Name::Word => in_word(c),
        Name::Prefix => in_prefix(c),
        Name::PrefixDot => behind_prefix_dot(c),
        Name::Colon => local_begin(c),
        Name::Local | Name::LocalDot => in_local(c),
        Name::Percent => if c.is_ascii_hexdigit() {
            Some(Name::PercentDigit)
        } else {
            None
        },
        Name::PercentDigit => if c.is_ascii_hexdigit() {
            Some(Name::Local)
        } else {
            None
        },
        Name::Backslash => if is_escaped_sign(c) {
            Some(Name::Local)
        } else {
            None
        },
        Name::LowLine => behind_low_line(c),
        Name::LowWord => if is_word_letter(c) {
            Some(Name::LowWord)
        } else {
            None
        },
        Name::BlankColon => if is_label_start(c) {
            Some(Name::Blank)
        } else {
            None
        },
        Name::Blank | Name::BlankDot => in_blank(c),
    }
}
