// The text between the quotes of a literal (RDF 1.1 N-Quads, 4, STRING_LITERAL_QUOTE and ECHAR).
ghost use Rattle.std.specs.Prelude.{◌≡◌, ℕ, List, [], ◌∷◌, ◌++◌, ◌<◌, ◌≤◌, length, chars, flat_map, IfOk, IfSome, IsNone, IsUtf8, MatchOption};
ghost use Rattle.vkg_terms.specs.NQuads.{escaped};
ghost use Rattle.vkg_plain.specs.Reading.{Reads};

use crate::read_fault::ReadFault;
use std::alloc::Global;
use vkg_base::Text;

/// The lexical form of a literal behind its opening quote, and what stands behind the closing one: the first quote that no
/// backslash stands before, since a language tag or a label further on may hold quotes too.
pub(crate) fn lexical_form(alloc: Global, text: &str) -> Result<(Text, &str), ReadFault>
    ensures value { (form : List ℕ) (rest : List ℕ) → IsUtf8 form → text.now ≡ flat_map escaped (chars form) ++ 34 ∷ rest → Reads result form rest }
    ensures shorter { IfOk result (λ p. length p.1.now ≤ length text.now) }
{
    let mut form = String::new(alloc);
    let mut rest = text;
    while let Some((c, behind)) = next_character(rest) {
        form.push(c)?;
        rest = behind;
    }
    match rest.strip_prefix('"') {
        Some(behind) => Ok((Text::from_string(form), behind)),
        None => Err(ReadFault::NoQuads),
    }
}

/// The character that a literal goes on with, escaped or as it is, and what stands behind it. There is none at the closing
/// quote.
fn next_character(text: &str) -> Option<(char, &str)>
    ensures value { (c : ℕ) (rest : List ℕ) → text.now ≡ escaped c ++ rest → MatchOption result ⊥ (λ p. (p.0 ≡ c) × (p.1.now ≡ rest)) }
    ensures closing { (rest : List ℕ) → text.now ≡ 34 ∷ rest → IsNone result }
    ensures shorter { IfSome result (λ p. length p.1.now < length text.now) }
{
    let mut characters = text.chars();
    match characters.next()? {
        '"' => None,
        '\\' => {
            let letter = characters.next()?;
            Some((meant(letter), characters.as_str()))
        }
        c => Some((c, characters.as_str())),
    }
}

/// The character whose escape is a backslash and this letter.
fn meant(letter: char) -> char
    ensures { (c : ℕ) → escaped c ≡ 92 ∷ letter ∷ [] → result ≡ c }
{
    match letter {
        'n' => '\n',
        'r' => '\r',
        't' => '\t',
        _ => letter,
    }
}
