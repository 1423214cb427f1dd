ghost use Rattle.std.specs.Prelude.{◌≡◌, ◌+◌, ◌*◌, ◌<◌, true, Some, None, if◌then◌else◌};
ghost use Rattle.std.specs.Char.{is_ascii_hexdigit, digit_value};
ghost use lib.Utf8.{scalar};
ghost use Rattle.vkg_tokens.specs.Characters.{is_base, is_base_or_low_line, is_label_start, is_variable_part, is_name_part, is_word_letter, is_escaped_sign, is_iri_part, is_escaped_letter, code_point_begin, code_point_more};

/// A numeric escape so far: how many digits are left, and the value of those read.
#[derive(Clone, Copy)]
pub struct CodePoint {
    pub left: usize,
    pub value: u32,
}

#[tactic(auto, unfolding(crate::specs::Characters::is_base))]
fn is_base(c: u32) -> bool
    ensures { result ≡ is_base c }
{
    (0x41 <= c && c <= 0x5a)
        || (0x61 <= c && c <= 0x7a)
        || (0xc0 <= c && c <= 0xd6)
        || (0xd8 <= c && c <= 0xf6)
        || (0xf8 <= c && c <= 0x2ff)
        || (0x370 <= c && c <= 0x37d)
        || (0x37f <= c && c <= 0x1fff)
        || (0x200c <= c && c <= 0x200d)
        || (0x2070 <= c && c <= 0x218f)
        || (0x2c00 <= c && c <= 0x2fef)
        || (0x3001 <= c && c <= 0xd7ff)
        || (0xf900 <= c && c <= 0xfdcf)
        || (0xfdf0 <= c && c <= 0xfffd)
        || (0x10000 <= c && c <= 0xeffff)
}

#[tactic(auto, unfolding(crate::specs::Characters::is_base_or_low_line))]
pub fn is_base_or_low_line(c: char) -> bool
    ensures { result ≡ is_base_or_low_line c }
{
    is_base(c as u32) || c == '_'
}

/// A character that begins a prefix.
pub fn is_prefix_start(c: char) -> bool
    ensures { result ≡ is_base c }
{
    is_base(c as u32)
}

#[tactic(auto, unfolding(crate::specs::Characters::is_label_start))]
pub fn is_label_start(c: char) -> bool
    ensures { result ≡ is_label_start c }
{
    is_base_or_low_line(c) || ('0' <= c && c <= '9')
}

#[tactic(auto, unfolding(crate::specs::Characters::is_variable_part))]
pub fn is_variable_part(c: char) -> bool
    ensures { result ≡ is_variable_part c }
{
    is_label_start(c)
        || c == '\u{b7}'
        || ('\u{300}' <= c && c <= '\u{36f}')
        || ('\u{203f}' <= c && c <= '\u{2040}')
}

#[tactic(auto, unfolding(crate::specs::Characters::is_name_part))]
pub fn is_name_part(c: char) -> bool
    ensures { result ≡ is_name_part c }
{
    is_variable_part(c) || c == '-'
}

pub fn is_word_letter(c: char) -> bool
    ensures { result ≡ is_word_letter c }
{
    c.is_ascii_alphabetic() || c == '_'
}

#[tactic(auto, unfolding(crate::specs::Characters::is_escaped_sign))]
pub fn is_escaped_sign(c: char) -> bool
    ensures { result ≡ is_escaped_sign c }
{
    c == '_'
        || c == '~'
        || ('#' <= c && c <= '/')
        || c == '!'
        || c == ';'
        || c == '='
        || c == '?'
        || c == '@'
}

#[tactic(auto, unfolding(crate::specs::Characters::is_iri_part))]
pub fn is_iri_part(c: char) -> bool
    ensures { result ≡ is_iri_part c }
{
    ' ' < c
        && !(c == '"'
            || c == '<'
            || c == '>'
            || c == '\\'
            || c == '^'
            || c == '`'
            || ('{' <= c && c <= '}'))
}

#[tactic(auto, unfolding(crate::specs::Characters::is_escaped_letter))]
pub fn is_escaped_letter(c: char) -> bool
    ensures { result ≡ is_escaped_letter c }
{
    c == 't' || c == 'b' || c == 'n' || c == 'r' || c == 'f' || c == '"' || c == '\'' || c == '\\'
}

/// The character of a code point, if there is one.
pub fn character(code: u32) -> Option<char>
    ensures { result ≡ (if scalar code then Some code else None) }
{
    char::from_u32(code)
}

fn is_character(code: u32) -> bool
    ensures { result ≡ scalar code }
{
    character(code).is_some()
}

/// The value of a hexadecimal digit.
fn hex_value(c: char) -> u32
    requires { is_ascii_hexdigit c ≡ true }
    ensures value { result ≡ digit_value c }
    ensures below { result < 16 }
{
    c.to_digit(16).unwrap_or(0)
}

pub fn code_point_begin(c: char) -> Option<CodePoint>
    ensures { result ≡ code_point_begin c }
{
    if c == 'u' {
        Some(CodePoint { left: 4, value: 0 })
    } else if c == 'U' {
        Some(CodePoint { left: 8, value: 0 })
    } else {
        None
    }
}

#[tactic(auto, unfolding(crate::specs::Characters::code_point_more))]
pub fn code_point_more(of: CodePoint, c: char) -> Option<CodePoint>
    ensures { result ≡ code_point_more of c }
{
    if !c.is_ascii_hexdigit() || 0x10fff < of.value {
        return None;
    }
    let value = of.value * 16 + hex_value(c);
    if 1 < of.left || is_character(value) {
        Some(CodePoint {
            left: of.left.saturating_sub(1),
            value,
        })
    } else {
        None
    }
}
