ghost use Rattle.std.specs.Prelude.{◌≡◌, codes};
ghost use Rattle.std.specs.Bool.{then_some};
ghost use Rattle.std.specs.Option.{option_copied};
ghost use Rattle.vkg_terms.specs.Vocabulary.{xsd};
ghost use Rattle.vkg_cells.specs.Moment.{is_date};
ghost use Rattle.vkg_cells.specs.Order.{HasNumber};
ghost use Rattle.vkg_values.specs.Known.{literal_value, moment_of, truth_of, typed_value, widest};
ghost use Rattle.vkg_order.specs.Lent.{lent_key};
ghost use Rattle.vkg_order.specs.Values.{known_key, sort_key as key_of};

use crate::moment::{is_day, moment_form};
use vkg_cells::{Cell, is_too_wide, is_well_typed};
use vkg_terms::vocabulary::{XSD_BOOLEAN, XSD_DATE, XSD_DATE_TIME, XSD_DECIMAL, XSD_INTEGER};
use vkg_terms::{Annotation, Term};

/// What a value is sorted by, lent: its class, and what decides within it.
#[derive(Clone, Copy)]
pub(crate) enum SortKey<'a> {
    Unbound,
    Blank(&'a str),
    Iri(&'a str),
    /// A number as it is written.
    Number(&'a str),
    Plain(&'a str),
    Truth(bool),
    /// The form of a date and a time.
    Moment(&'a [u8]),
    Date(&'a str),
    /// A literal without a known value.
    Other(&'a str, &'a Annotation),
}

pub(crate) fn value_key(value: Option<&Term>) -> SortKey<'_>
    ensures value { lent_key result ≡ key_of (option_copied value.entry) }
    ensures number { HasNumber (lent_key result).1 }
{
    match value {
        None => SortKey::Unbound,
        Some(Term::Blank(label)) => SortKey::Blank(label.as_str()),
        Some(Term::Iri(iri)) => SortKey::Iri(iri.as_str()),
        Some(Term::Lit(text, annotation)) => literal_key(text.as_str(), annotation),
    }
}

fn literal_key<'a>(text: &'a str, annotation: &'a Annotation) -> SortKey<'a>
    ensures value { lent_key result ≡ known_key text.now annotation.now (literal_value widest text.now annotation.now) }
    ensures number { HasNumber (lent_key result).1 }
{
    match annotation {
        Annotation::Plain => SortKey::Plain(text),
        Annotation::Lang(_) => SortKey::Other(text, annotation),
        Annotation::Typed(datatype) => typed_key(datatype.iri().as_str(), text, annotation),
    }
}

/// The key of a literal that is read as one of this datatype.
fn typed_key<'a>(datatype: &str, text: &'a str, annotation: &'a Annotation) -> SortKey<'a>
    ensures value { lent_key result ≡ known_key text.now annotation.now (typed_value widest datatype.now text.now) }
    ensures number { HasNumber (lent_key result).1 }
{
    if datatype == XSD_INTEGER {
        integer_key(text, annotation)
    } else if datatype == XSD_DECIMAL {
        decimal_key(text, annotation)
    } else if datatype == XSD_BOOLEAN {
        truth_key(text, annotation)
    } else if datatype == XSD_DATE {
        day_key(text, annotation)
    } else if datatype == XSD_DATE_TIME {
        moment_key(text, annotation)
    } else {
        SortKey::Other(text, annotation)
    }
}

#[tactic(auto, using(crate::proofs::Numbers::decimals))]
fn integer_key<'a>(text: &'a str, annotation: &'a Annotation) -> SortKey<'a>
    ensures value { lent_key result ≡ known_key text.now annotation.now (typed_value widest (xsd (codes "integer")) text.now) }
    ensures number { HasNumber (lent_key result).1 }
{
    if is_well_typed(XSD_INTEGER, text) && !is_too_wide(XSD_INTEGER, text) {
        SortKey::Number(text)
    } else {
        SortKey::Other(text, annotation)
    }
}

fn decimal_key<'a>(text: &'a str, annotation: &'a Annotation) -> SortKey<'a>
    ensures value { lent_key result ≡ known_key text.now annotation.now (typed_value widest (xsd (codes "decimal")) text.now) }
    ensures number { HasNumber (lent_key result).1 }
{
    if is_well_typed(XSD_DECIMAL, text) && !is_too_wide(XSD_DECIMAL, text) {
        SortKey::Number(text)
    } else {
        SortKey::Other(text, annotation)
    }
}

fn truth_key<'a>(text: &'a str, annotation: &'a Annotation) -> SortKey<'a>
    ensures value { lent_key result ≡ known_key text.now annotation.now (truth_of text.now) }
    ensures number { HasNumber (lent_key result).1 }
{
    if text == "true" || text == "1" {
        SortKey::Truth(true)
    } else if text == "false" || text == "0" {
        SortKey::Truth(false)
    } else {
        SortKey::Other(text, annotation)
    }
}

fn day_key<'a>(text: &'a str, annotation: &'a Annotation) -> SortKey<'a>
    ensures value { lent_key result ≡ known_key text.now annotation.now (then_some (is_date text.now) (Cell.Date text.now)) }
    ensures number { HasNumber (lent_key result).1 }
{
    if is_day(text) {
        SortKey::Date(text)
    } else {
        SortKey::Other(text, annotation)
    }
}

fn moment_key<'a>(text: &'a str, annotation: &'a Annotation) -> SortKey<'a>
    ensures value { lent_key result ≡ known_key text.now annotation.now (moment_of text.now) }
    ensures number { HasNumber (lent_key result).1 }
{
    match moment_form(text) {
        Some(form) => SortKey::Moment(form),
        None => SortKey::Other(text, annotation),
    }
}
