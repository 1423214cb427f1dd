ghost use Rattle.std.specs.Prelude.{◌≡◌, IfOk, if◌then◌else◌};
ghost use Rattle.vkg_values.specs.Known.{widest};
ghost use Rattle.vkg_values.specs.Operators.{datatype_of as datatype_name, is_number as is_number_value, str_of, tag_of, take_value, test_value};

use crate::compare::is_literal;
use crate::known::known_value;
use crate::operator::{Take, Test};
use crate::strings::length_of;
use std::alloc::Global;
use vkg_base::{Memory, Text};
use vkg_cells::Cell;
use vkg_terms::{Annotation, Term};

/// What a test of one term gives (SPARQL 1.1 Query, 17.4.2).
pub fn test_of(alloc: Global, test: Test, term: &Term) -> Result<bool, Memory>
    ensures { IfOk result (λ b. b ≡ test_value widest test term.now) }
{
    match test {
        Test::IsIri => Ok(matches!(term, Term::Iri(_))),
        Test::IsBlank => Ok(matches!(term, Term::Blank(_))),
        Test::IsLiteral => Ok(is_literal(term)),
        Test::IsNumeric => Ok(is_number(&known_value(alloc, term)?)),
    }
}

fn is_number(value: &Option<Cell>) -> bool
    ensures { result ≡ is_number_value value.now }
{
    match value {
        Some(Cell::Int(_)) | Some(Cell::Dec(_)) => true,
        _ => false,
    }
}

/// The term that is taken from a term (SPARQL 1.1 Query, 17.4.2.5 to 17.4.2.7 and 17.4.3.2); `None` is an error.
pub fn take_of(alloc: Global, take: Take, term: &Term) -> Result<Option<Term>, Memory>
    ensures { IfOk result (λ o. o ≡ take_value take term.now) }
{
    match (take, term) {
        (Take::Str, term) => text_of(term),
        (Take::Lang, Term::Lit(_, annotation)) => Ok(Some(plain(tag(alloc, annotation)?))),
        (Take::Lang, _) => Ok(None),
        (Take::Datatype, Term::Lit(_, annotation)) => Ok(Some(Term::Iri(datatype(
            alloc, annotation,
        )?))),
        (Take::Datatype, _) => Ok(None),
        (Take::Length, term) => length_of(alloc, term),
    }
}

fn plain(text: Text) -> Term
    ensures { result ≡ Term.Lit text Annotation.Plain }
{
    Term::Lit(text, Annotation::Plain)
}

fn text_of(term: &Term) -> Result<Option<Term>, Memory>
    ensures { IfOk result (λ o. o ≡ str_of term.now) }
{
    match term {
        Term::Iri(iri) => Ok(Some(plain(iri.copy()?))),
        Term::Lit(text, _) => Ok(Some(plain(text.copy()?))),
        Term::Blank(_) => Ok(None),
    }
}

fn tag(alloc: Global, annotation: &Annotation) -> Result<Text, Memory>
    ensures { IfOk result (λ t. t ≡ tag_of annotation.now) }
{
    match annotation {
        Annotation::Lang(tag) => tag.copy(),
        _ => Text::new(alloc, ""),
    }
}

fn datatype(alloc: Global, annotation: &Annotation) -> Result<Text, Memory>
    ensures { IfOk result (λ t. t ≡ datatype_name annotation.now) }
{
    match annotation {
        Annotation::Plain => Text::new(alloc, "http://www.w3.org/2001/XMLSchema#string"),
        Annotation::Lang(_) => Text::new(
            alloc,
            "http://www.w3.org/1999/02/22-rdf-syntax-ns#langString",
        ),
        Annotation::Typed(datatype) => datatype.iri().copy(),
    }
}
