// The functions on strings (SPARQL 1.1 Query, 17.4.3); `None` is an error.
ghost use Rattle.std.specs.Prelude.{◌≡◌, IfOk, chars, length, nat_eq};
ghost use Rattle.std.specs.List.{ends_with, starts_with};
ghost use Rattle.vkg_values.specs.Strings.{are_compatible as compatible, count_term, has_part as has_part_in, is_string as is_string_literal, length_of as length_of_term, on_strings};

use itoa::Buffer;
use std::alloc::Global;
use vkg_base::{Memory, Text};
use vkg_terms::vocabulary::XSD_INTEGER;
use vkg_terms::{Annotation, Term};

/// STRLEN (17.4.3.2): how many characters a string has.
pub(crate) fn length_of(alloc: Global, term: &Term) -> Result<Option<Term>, Memory>
    ensures { IfOk result (λ o. o ≡ length_of_term term.now) }
{
    match term {
        Term::Lit(text, annotation) => if is_string(annotation) {
            count_of(alloc, character_count(text.as_str()))
        } else {
            Ok(None)
        },
        _ => Ok(None),
    }
}

#[tactic(auto, using(std::proofs::lemmas::Str::chars_from_encodes))]
fn character_count(text: &str) -> usize
    ensures { result ≡ length (chars text.now) }
{
    text.chars().count()
}

fn is_string(annotation: &Annotation) -> bool
    ensures { result ≡ is_string_literal annotation.now }
{
    match annotation {
        Annotation::Plain | Annotation::Lang(_) => true,
        Annotation::Typed(_) => false,
    }
}

/// The literal of a count.
#[tactic(auto, using(crate::proofs::Widths::fits))]
pub(crate) fn count_of(alloc: Global, count: usize) -> Result<Option<Term>, Memory>
    ensures { IfOk result (λ o. o ≡ count_term count) }
{
    let mut buffer = Buffer::new();
    let digits = Text::new(alloc, buffer.format(count))?;
    let datatype = Text::new(alloc, XSD_INTEGER)?;
    Ok(Some(Term::Lit(digits, Annotation::typed(datatype))))
}

/// Whether two strings are compatible (17.4.3.1.2): the second is plain, or both have one tag.
fn are_compatible(a: &Annotation, b: &Annotation) -> bool
    ensures { result ≡ compatible a.now b.now }
{
    match (a, b) {
        (Annotation::Plain, Annotation::Plain) => true,
        (Annotation::Lang(_), Annotation::Plain) => true,
        (Annotation::Lang(tag), Annotation::Lang(other)) => tag.as_str() == other.as_str(),
        _ => false,
    }
}

/// STRSTARTS (17.4.3.6).
pub(crate) fn starts(a: &Term, b: &Term) -> Option<bool>
    ensures { result ≡ on_strings (starts_with nat_eq) a.now b.now }
{
    match (a, b) {
        (Term::Lit(text, a), Term::Lit(part, b)) => if are_compatible(a, b) {
            Some(has_start(text.as_str(), part.as_str()))
        } else {
            None
        },
        _ => None,
    }
}

/// STRENDS (17.4.3.7).
pub(crate) fn ends(a: &Term, b: &Term) -> Option<bool>
    ensures { result ≡ on_strings (ends_with nat_eq) a.now b.now }
{
    match (a, b) {
        (Term::Lit(text, a), Term::Lit(part, b)) => if are_compatible(a, b) {
            Some(has_end(text.as_str(), part.as_str()))
        } else {
            None
        },
        _ => None,
    }
}

/// CONTAINS (17.4.3.8).
pub(crate) fn contains(a: &Term, b: &Term) -> Option<bool>
    ensures { result ≡ on_strings has_part_in a.now b.now }
{
    match (a, b) {
        (Term::Lit(text, a), Term::Lit(part, b)) => if are_compatible(a, b) {
            Some(has_part(text.as_str(), part.as_str()))
        } else {
            None
        },
        _ => None,
    }
}

#[tactic(auto, using(std::proofs::lemmas::Str::Pattern::starts_text))]
fn has_start(text: &str, part: &str) -> bool
    ensures { result ≡ starts_with nat_eq text.now part.now }
{
    text.starts_with(part)
}

#[tactic(auto, using(std::proofs::lemmas::Str::Pattern::ends_text))]
fn has_end(text: &str, part: &str) -> bool
    ensures { result ≡ ends_with nat_eq text.now part.now }
{
    text.ends_with(part)
}

#[tactic(auto, using(crate::proofs::Parts::contains_part))]
fn has_part(text: &str, part: &str) -> bool
    ensures { result ≡ has_part_in text.now part.now }
{
    text.contains(part)
}
