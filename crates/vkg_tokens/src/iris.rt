ghost use Rattle.std.specs.Prelude.{◌≡◌, option_map};
ghost use Rattle.vkg_tokens.specs.Characters.{code_point_begin, code_point_more};
ghost use Rattle.vkg_tokens.specs.Iris.{in_iri, behind_iri_digit, iri_step};

use crate::characters::{CodePoint, code_point_begin, code_point_more, is_iri_part};

/// What was read of an IRI in angle brackets, or of a sign that begins with `<`.
#[derive(Clone, Copy)]
pub enum IriRef {
    Less,
    LessEqual,
    Inside,
    /// Behind a backslash.
    Escape,
    /// Within the digits of a numeric escape.
    Digits(CodePoint),
    Closed,
}

fn in_iri(c: char) -> Option<IriRef>
    ensures { result ≡ in_iri c }
{
    if c == '>' {
        Some(IriRef::Closed)
    } else if c == '\\' {
        Some(IriRef::Escape)
    } else if is_iri_part(c) {
        Some(IriRef::Inside)
    } else {
        None
    }
}

fn behind_digit(point: CodePoint) -> IriRef
    ensures { result ≡ behind_iri_digit point }
{
    if point.left == 0 {
        IriRef::Inside
    } else {
        IriRef::Digits(point)
    }
}

fn behind_backslash(c: char) -> Option<IriRef>
    ensures { result ≡ option_map IriRef.Digits (code_point_begin c) }
{
    match code_point_begin(c) {
        None => None,
        Some(point) => Some(IriRef::Digits(point)),
    }
}

fn in_digits(point: CodePoint, c: char) -> Option<IriRef>
    ensures { result ≡ option_map behind_iri_digit (code_point_more point c) }
{
    match code_point_more(point, c) {
        None => None,
        Some(next) => Some(behind_digit(next)),
    }
}

pub fn step(state: IriRef, c: char) -> Option<IriRef>
    ensures { result ≡ iri_step state c }
{
    match state {
        IriRef::Less => if c == '=' {
            Some(IriRef::LessEqual)
        } else {
            in_iri(c)
        },
        IriRef::LessEqual | IriRef::Inside => in_iri(c),
        IriRef::Escape => behind_backslash(c),
        IriRef::Digits(point) => in_digits(point, c),
        IriRef::Closed => None,
    }
}
