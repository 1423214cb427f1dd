ghost use Rattle.std.specs.Prelude.{◌≡◌, fold};
ghost use Rattle.vkg_terms.specs.TemplateParts.{standing as standing_of};
ghost use Rattle.vkg_terms.specs.Standing.{after_character as front_after_character, after_hole as front_after_hole, after_part as front_after_part, at_colon as front_at_colon, decided};

use crate::absolute::is_scheme_character;
use crate::template::{Part, Standing};

/// What a template has shown so far of the IRIs that it makes.
#[derive(Clone, Copy)]
pub(crate) enum Front {
    Empty,
    /// A letter, and then what may stand in a scheme (RFC 3986, 3.1).
    Scheme,
    /// What may stand in a scheme, but no letter first.
    NoScheme,
    /// What may stand in a scheme, with a column in it.
    Hole,
    Absolute,
    Relative,
    Doubtful,
}

/// Whether the IRIs of a template are absolute, by its text alone. They are where a scheme (RFC 3986, 3.1) and its `:`
/// stand in front of the first hole; they are relative where what stands before the first `:` is no scheme, or there is
/// no `:`; and it is doubtful where that could be a scheme but has a hole in it.
pub fn standing(template: &[Part]) -> Standing
    ensures { result ≡ standing_of template.now }
{
    decide(front_of(template))
}

fn front_of(template: &[Part]) -> Front
    ensures { result ≡ fold front_after_part Front.Empty template.now }
{
    let mut front = Front::Empty;
    for part in template {
        front = after_part(front, part);
    }
    front
}

fn decide(front: Front) -> Standing
    ensures { result ≡ decided front }
{
    match front {
        Front::Absolute => Standing::Absolute,
        Front::Doubtful => Standing::Doubtful,
        _ => Standing::Relative,
    }
}

fn after_part(front: Front, part: &Part) -> Front
    ensures { result ≡ front_after_part front part.now }
{
    match part {
        Part::Fixed(text) => after_text(front, text.as_str().as_bytes()),
        Part::Hole(_) => after_hole(front),
    }
}

fn after_hole(front: Front) -> Front
    ensures { result ≡ front_after_hole front }
{
    match front {
        Front::Absolute => Front::Absolute,
        Front::Relative => Front::Relative,
        Front::Doubtful => Front::Doubtful,
        _ => Front::Hole,
    }
}

fn after_text(front: Front, text: &[u8]) -> Front
    ensures { result ≡ fold front_after_character front text.now }
{
    let mut front = front;
    for b in text {
        front = after_character(front, *b);
    }
    front
}

fn after_character(front: Front, b: u8) -> Front
    ensures { result ≡ front_after_character front b }
{
    match front {
        Front::Absolute => Front::Absolute,
        Front::Relative => Front::Relative,
        Front::Doubtful => Front::Doubtful,
        _ if b == b':' => at_colon(front),
        _ if !is_scheme_character(b) => Front::Relative,
        Front::Empty if b.is_ascii_alphabetic() => Front::Scheme,
        Front::Empty => Front::NoScheme,
        _ => front,
    }
}

fn at_colon(front: Front) -> Front
    ensures { result ≡ front_at_colon front }
{
    match front {
        Front::Scheme => Front::Absolute,
        Front::Hole => Front::Doubtful,
        _ => Front::Relative,
    }
}
