ghost use Rattle.std.specs.Prelude.{◌≡◌, option_map};
ghost use Rattle.vkg_tokens.specs.Strings.{quoted_begin, in_quotes, behind_digit, behind_backslash, quoted_step};
ghost use Rattle.vkg_tokens.specs.Characters.{code_point_more};

use crate::characters::{CodePoint, code_point_begin, code_point_more, is_escaped_letter};

/// What closes a string: its quote once, or in a long one three times.
#[derive(Clone, Copy)]
pub struct Quotes {
    pub mark: char,
    pub is_long: bool,
}

/// What was read of a string.
#[derive(Clone, Copy)]
pub enum Quoted {
    /// The opening quote.
    Opened(char),
    /// Two quotes: the empty string, unless a third one follows.
    Emptied(char),
    /// Within the string; so many bare quotes of the opening kind came last.
    Inside(Quotes, usize),
    /// Behind a backslash.
    Escape(Quotes),
    /// Within the digits of a numeric escape.
    Digits(Quotes, CodePoint),
    Closed,
}

pub fn begin(c: char) -> Option<Quoted>
    ensures { result ≡ quoted_begin c }
{
    if c == '"' || c == '\'' {
        Some(Quoted::Opened(c))
    } else {
        None
    }
}

fn in_quotes(of: Quotes, quotes: usize, c: char) -> Option<Quoted>
    ensures { result ≡ in_quotes of quotes c }
{
    if c == of.mark {
        if of.is_long && quotes < 2 {
            Some(Quoted::Inside(of, quotes + 1))
        } else {
            Some(Quoted::Closed)
        }
    } else if c == '\\' {
        Some(Quoted::Escape(of))
    } else if !of.is_long && (c == '\n' || c == '\r') {
        None
    } else {
        Some(Quoted::Inside(of, 0))
    }
}

fn behind_digit(of: Quotes, point: CodePoint) -> Quoted
    ensures { result ≡ behind_digit of point }
{
    if point.left == 0 {
        Quoted::Inside(of, 0)
    } else {
        Quoted::Digits(of, point)
    }
}

fn in_digits(of: Quotes, point: CodePoint, c: char) -> Option<Quoted>
    ensures { result ≡ option_map (behind_digit of) (code_point_more point c) }
{
    match code_point_more(point, c) {
        None => None,
        Some(next) => Some(behind_digit(of, next)),
    }
}

fn behind_backslash(of: Quotes, c: char) -> Option<Quoted>
    ensures { result ≡ behind_backslash of c }
{
    if is_escaped_letter(c) {
        return Some(Quoted::Inside(of, 0));
    }
    match code_point_begin(c) {
        None => None,
        Some(point) => Some(Quoted::Digits(of, point)),
    }
}

fn behind_opening(mark: char, c: char) -> Option<Quoted>
    ensures { result ≡ quoted_step (Quoted.Opened mark) c }
{
    if c == mark {
        Some(Quoted::Emptied(mark))
    } else {
        in_quotes(
            Quotes {
                mark,
                is_long: false,
            },
            0,
            c,
        )
    }
}

fn behind_two(mark: char, c: char) -> Option<Quoted>
    ensures { result ≡ quoted_step (Quoted.Emptied mark) c }
{
    if c == mark {
        Some(Quoted::Inside(
            Quotes {
                mark,
                is_long: true,
            },
            0,
        ))
    } else {
        None
    }
}

pub fn step(state: Quoted, c: char) -> Option<Quoted>
    ensures { result ≡ quoted_step state c }
{
    match state {
        Quoted::Opened(mark) => behind_opening(mark, c),
        Quoted::Emptied(mark) => behind_two(mark, c),
        Quoted::Inside(of, quotes) => in_quotes(of, quotes, c),
        Quoted::Escape(of) => behind_backslash(of, c),
        Quoted::Digits(of, point) => in_digits(of, point, c),
        Quoted::Closed => None,
    }
}
