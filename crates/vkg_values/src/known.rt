ghost use Rattle.std.specs.Prelude.{◌≡◌, IfOk, IfSome, ◌==◌};
ghost use Rattle.std.specs.List.{list_any};
ghost use Rattle.std.specs.Result.{result_ok};
ghost use Rattle.vkg_cells.specs.Field.{cell_of_field};
ghost use Rattle.vkg_cells.specs.Order.{HasNumber};
ghost use Rattle.vkg_values.specs.Known.{known, literal_value, moment_of, truth_of, typed_value, widest};

use std::alloc::Global;
use vkg_base::{Memory, Text};
use vkg_cells::{Cell, FieldFault, SqlType, read_cell};
use vkg_terms::vocabulary::{XSD_BOOLEAN, XSD_DATE, XSD_DATE_TIME, XSD_DECIMAL, XSD_INTEGER};
use vkg_terms::{Annotation, Term};

/// The known value of a term, if it has one: a cell that equals another exactly where the values are equal.
pub fn known_value(alloc: Global, term: &Term) -> Result<Option<Cell>, Memory>
    ensures value { IfOk result (λ c. c ≡ known widest term.now) }
    ensures number { IfOk result (λ c. IfSome c HasNumber) }
{
    match term {
        Term::Lit(text, annotation) => literal(alloc, text.as_str(), annotation),
        Term::Iri(_) | Term::Blank(_) => Ok(None),
    }
}

fn literal(alloc: Global, text: &str, annotation: &Annotation) -> Result<Option<Cell>, Memory>
    ensures value { IfOk result (λ c. c ≡ literal_value widest text.now annotation.now) }
    ensures number { IfOk result (λ c. IfSome c HasNumber) }
{
    match annotation {
        Annotation::Plain => Ok(Some(Cell::Text(Text::new(alloc, text)?))),
        Annotation::Lang(_) => Ok(None),
        Annotation::Typed(datatype) => typed(alloc, datatype.iri().as_str(), text),
    }
}

#[tactic(auto, using(crate::proofs::Numbers::known_number))]
fn typed(alloc: Global, datatype: &str, text: &str) -> Result<Option<Cell>, Memory>
    ensures value { IfOk result (λ c. c ≡ typed_value widest datatype.now text.now) }
    ensures number { IfOk result (λ c. IfSome c HasNumber) }
{
    if datatype == XSD_INTEGER {
        field(alloc, SqlType::Int, text)
    } else if datatype == XSD_DECIMAL {
        field(alloc, SqlType::Dec, text)
    } else if datatype == XSD_BOOLEAN {
        Ok(truth(text))
    } else if datatype == XSD_DATE {
        field(alloc, SqlType::Date, text)
    } else if datatype == XSD_DATE_TIME {
        moment(alloc, text)
    } else {
        Ok(None)
    }
}

/// The cell of a field, if it is one.
fn field(alloc: Global, kind: SqlType, text: &str) -> Result<Option<Cell>, Memory>
    ensures value { IfOk result (λ c. c ≡ result_ok (cell_of_field kind text.now)) }
    ensures number { IfOk result (λ c. IfSome c HasNumber) }
{
    match read_cell(alloc, kind, text) {
        Ok(cell) => Ok(Some(cell)),
        Err(FieldFault::BadValue) => Ok(None),
        Err(FieldFault::TooWide) => Ok(None),
        Err(FieldFault::Memory) => Err(Memory),
    }
}

fn truth(text: &str) -> Option<Cell>
    ensures value { result ≡ truth_of text.now }
    ensures number { IfSome result HasNumber }
{
    if text == "true" || text == "1" {
        Some(Cell::Bool(true))
    } else if text == "false" || text == "0" {
        Some(Cell::Bool(false))
    } else {
        None
    }
}

fn moment(alloc: Global, text: &str) -> Result<Option<Cell>, Memory>
    ensures value { IfOk result (λ c. c ≡ moment_of text.now) }
    ensures number { IfOk result (λ c. IfSome c HasNumber) }
{
    if has_t(text.as_bytes()) {
        field(alloc, SqlType::Stamp, text)
    } else {
        Ok(None)
    }
}

fn has_t(text: &[u8]) -> bool
    ensures { result ≡ list_any (λ b. b == 84) text.now }
{
    text.iter().any(|b| *b == b'T')
}
