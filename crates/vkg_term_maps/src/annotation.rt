ghost use Rattle.std.specs.Prelude.{◌≡◌, IfOk, map, string_bytes};
ghost use Rattle.std.specs.Char.{to_ascii_lowercase};
ghost use Rattle.vkg_term_maps.specs.Languages.{is_language_tag as language_tag, is_tag_character as tag_character, tag_from};
ghost use Rattle.vkg_term_maps.specs.TermMaps.{annotation_of as annotation_of_values, of_datatype as annotation_of_datatype, of_language as annotation_of_language, text_of as text_of_term, tagged as tagged_by};

use crate::values::Values;
use crate::vocabulary::RDF_LANG_STRING;
use std::alloc::Global;
use vkg_base::{Memory, Text};
use vkg_terms::{Annotation, Term};

/// The annotation that a language or a datatype makes, the default where there is neither; none where there is more than
/// one of both, or a bad one (R2RML, 7.5 and 7.6).
pub(crate) fn annotation_of(
    alloc: Global,
    default: Annotation,
    languages: &Values,
    datatypes: &Values,
) -> Result<Option<Annotation>, Memory>
    ensures { IfOk result (λ a. a ≡ annotation_of_values default languages.now datatypes.now) }
{
    match (languages, datatypes) {
        (Values::Absent, Values::Absent) => Ok(Some(default)),
        (Values::One(language), Values::Absent) => of_language(alloc, language),
        (Values::Absent, Values::One(datatype)) => of_datatype(datatype),
        _ => Ok(None),
    }
}

fn of_datatype(datatype: &Term) -> Result<Option<Annotation>, Memory>
    ensures { IfOk result (λ a. a ≡ annotation_of_datatype datatype.now) }
{
    match datatype {
        Term::Iri(iri) => {
            if iri.as_str() == RDF_LANG_STRING {
                return Ok(None);
            }
            Ok(Some(Annotation::typed(iri.copy()?)))
        }
        _ => Ok(None),
    }
}

fn of_language(alloc: Global, language: &Term) -> Result<Option<Annotation>, Memory>
    ensures { IfOk result (λ a. a ≡ annotation_of_language (text_of_term language.now)) }
{
    match language {
        Term::Lit(tag, Annotation::Plain) => tagged(alloc, tag.as_str()),
        _ => Ok(None),
    }
}

fn tagged(alloc: Global, tag: &str) -> Result<Option<Annotation>, Memory>
    ensures { IfOk result (λ a. a ≡ tagged_by tag.now) }
{
    if !is_language_tag(tag.as_bytes()) {
        return Ok(None);
    }
    let lower = tag.to_ascii_lowercase(alloc)?;
    Ok(Some(Annotation::Lang(Text::from_string(lower))))
}

/// Whether a text is a language tag (Turtle, 6.5, LANGTAG without its `@`).
fn is_language_tag(text: &[u8]) -> bool
    ensures { result ≡ language_tag text.now }
{
    let mut first = true;
    let mut some = false;
    for b in text {
        if *b == b'-' {
            if !some {
                return false;
            }
            first = false;
            some = false;
        } else {
            if !is_tag_character(first, *b) {
                return false;
            }
            some = true;
        }
    }
    some
}

fn is_tag_character(first: bool, b: u8) -> bool
    ensures { result ≡ tag_character first b }
{
    b.is_ascii_alphabetic() || (!first && b.is_ascii_digit())
}
