// One term of a line (RDF 1.1 N-Quads, 4), in the very form in which `dump` writes it: a blank stands behind each.
ghost use Rattle.std.specs.Prelude.{◌≡◌, ℕ, List, ◌∷◌, ◌++◌, ◌<◌, true, codes, length, IfOk, IfSome, MatchOption};
ghost use Rattle.std.specs.List.{list_all};
ghost use Rattle.vkg_terms.specs.NQuads.{annotation_text, bracketed};
ghost use Rattle.vkg_terms.specs.Writable.{is_visible};
ghost use Rattle.vkg_terms.specs.declared.term.Annotation.{Annotation as AnyAnnotation};
ghost use Rattle.vkg_plain.specs.Reading.{Gives, IsHeldAnnotation, ReadsLiteral, ReadsTerm};

use crate::literal_reader::lexical_form;
use crate::read_fault::ReadFault;
use std::alloc::Global;
use vkg_base::Text;
use vkg_terms::{Annotation, Term};

/// A term, and what stands behind its blank.
pub(crate) fn term(alloc: Global, text: &str) -> Result<(Term, &str), ReadFault>
    ensures value { ReadsTerm text.now result }
    ensures shorter { IfOk result (λ p. length p.1.now < length text.now) }
{
    if let Some(text) = text.strip_prefix('"') {
        return literal(alloc, text);
    }
    let Some((front, rest)) = cut(text) else {
        return Err(ReadFault::NoQuads);
    };
    let term = name(alloc, front)?;
    Ok((term, rest))
}

/// A literal behind its opening quote, and what stands behind its blank.
fn literal(alloc: Global, text: &str) -> Result<(Term, &str), ReadFault>
    ensures value { ReadsLiteral text.now result }
    ensures shorter { IfOk result (λ p. length p.1.now < length text.now) }
{
    let (form, text) = lexical_form(alloc, text)?;
    let Some((front, rest)) = cut(text) else {
        return Err(ReadFault::NoQuads);
    };
    let annotation = annotation(alloc, front)?;
    Ok((Term::Lit(form, annotation), rest))
}

/// What stands before the first blank, and behind it.
fn cut(text: &str) -> Option<(&str, &str)>
    ensures value { (front : List ℕ) (rest : List ℕ) → list_all is_visible front ≡ true → text.now ≡ front ++ 32 ∷ rest → MatchOption result ⊥ (λ p. (p.0.now ≡ front) × (p.1.now ≡ rest)) }
    ensures shorter { IfSome result (λ p. length p.1.now < length text.now) }
{
    text.split_once(' ')
}

/// An IRI or a blank node.
fn name(alloc: Global, text: &str) -> Result<Term, ReadFault>
    ensures iri { (iri : List ℕ) → text.now ≡ bracketed iri → Gives result (Term.Iri iri) }
    ensures blank { (label : List ℕ) → text.now ≡ codes "_:" ++ label → Gives result (Term.Blank label) }
{
    match text.strip_prefix("_:") {
        Some(label) => Ok(Term::Blank(Text::new(alloc, label)?)),
        None => Ok(Term::Iri(iri(alloc, text)?)),
    }
}

fn iri(alloc: Global, text: &str) -> Result<Text, ReadFault>
    ensures { (iri : List ℕ) → text.now ≡ bracketed iri → Gives result iri }
{
    let Some(text) = text.strip_prefix('<') else {
        return Err(ReadFault::NoQuads);
    };
    let Some(text) = text.strip_suffix('>') else {
        return Err(ReadFault::NoQuads);
    };
    Ok(Text::new(alloc, text)?)
}

/// What stands behind the closing quote of a literal.
fn annotation(alloc: Global, text: &str) -> Result<Annotation, ReadFault>
    ensures { (a : AnyAnnotation) → IsHeldAnnotation a → text.now ≡ annotation_text a → Gives result a }
{
    if text.is_empty() {
        return Ok(Annotation::Plain);
    }
    if let Some(tag) = text.strip_prefix('@') {
        return Ok(Annotation::Lang(Text::new(alloc, tag)?));
    }
    let Some(datatype) = text.strip_prefix("^^") else {
        return Err(ReadFault::NoQuads);
    };
    Ok(Annotation::typed(iri(alloc, datatype)?))
}
