// The characters that no hole's text holds.
ghost use Rattle.std.specs.Prelude.{◌≡◌, chars};
ghost use Rattle.std.specs.List.{list_any};
ghost use Rattle.vkg_terms.specs.Safe.{is_safe_character};
ghost use Rattle.vkg_match.specs.Cut.{are_parted, has_break as holds_break, is_break as is_break_of, is_separable};

use vkg_expr::{Piece, Sort};
use vkg_terms::is_unreserved_char;

fn is_safe(c: char) -> bool
    ensures { result ≡ is_safe_character c }
{
    is_unreserved_char(c) || c == '%'
}

fn is_iri_break(c: char) -> bool
    ensures { result ≡ is_break_of Sort.OfIri c }
{
    !is_safe(c)
}

/// Whether no hole's text in a text of this sort holds the character.
pub fn is_break(sort: &Sort, c: char) -> bool
    ensures { result ≡ is_break_of sort.now c }
{
    match sort {
        Sort::OfIri => is_iri_break(c),
        Sort::OfBlank => false,
        Sort::OfLit(_) => false,
    }
}

#[tactic(auto, using(vkg_lists::proofs::Heads::any_more))]
fn has_break(text: &str) -> bool
    ensures { result ≡ holds_break text.now }
{
    let mut found = false;
    for c in text.chars() {
        found = found || is_iri_break(c);
    }
    found
}

/// Whether between any two holes of an IRI's text stands a character that the IRI-safe form of no text holds (R2RML, 7.3).
pub fn separable(pieces: &[Piece]) -> bool
    ensures { result ≡ is_separable pieces.now }
{
    let mut parted = true;
    for piece in pieces {
        match piece {
            Piece::Chars(text) => parted = parted || has_break(text.as_str()),
            Piece::Hole(_, _) => {
                if !parted {
                    return false;
                }
                parted = false;
            }
        }
    }
    true
}
