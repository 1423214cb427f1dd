ghost use Rattle.std.specs.Prelude.{◌≡◌, ◌&&◌, IfOk, not, false, if◌then◌else◌};
ghost use Rattle.vkg_cells.specs.WellTyped.{is_well_typed as well_typed};
ghost use Rattle.vkg_values.specs.Known.{widest};
ghost use Rattle.vkg_values.specs.Operators.{ebv, has_truth as has_truth_datatype, is_some_text as is_some, truth_of_unknown, truth_of_value};

use crate::known::known_value;
use std::alloc::Global;
use vkg_base::Memory;
use vkg_cells::{Cell, is_well_typed};
use vkg_terms::{Annotation, Term};

/// The effective boolean value of a term (SPARQL 1.1 Query, 17.2.2); `None` is an error.
pub fn effective_truth(alloc: Global, term: &Term) -> Result<Option<bool>, Memory>
    ensures { IfOk result (λ o. o ≡ ebv widest term.now) }
{
    match known_value(alloc, term)? {
        Some(value) => Ok(truth_of(&value)),
        None => Ok(truth_of_other(term)),
    }
}

fn truth_of(value: &Cell) -> Option<bool>
    ensures { result ≡ truth_of_value value.now }
{
    match value {
        Cell::Bool(truth) => Some(*truth),
        Cell::Int(form) | Cell::Dec(form) => Some(form.as_str() != "0"),
        Cell::Text(text) => Some(is_some_text(text.as_str())),
        _ => None,
    }
}

/// The truth of a term without a known value.
fn truth_of_other(term: &Term) -> Option<bool>
    ensures { result ≡ truth_of_unknown term.now }
{
    match term {
        Term::Lit(text, Annotation::Lang(_)) => Some(is_some_text(text.as_str())),
        Term::Lit(text, Annotation::Typed(datatype)) => {
            truth_of_form(datatype.iri().as_str(), text.as_str())
        }
        _ => None,
    }
}

fn truth_of_form(datatype: &str, text: &str) -> Option<bool>
    ensures { result ≡ (if has_truth_datatype datatype.now && not (well_typed datatype.now text.now) then Some false else None) }
{
    if has_truth(datatype) && !is_well_typed(datatype, text) {
        Some(false)
    } else {
        None
    }
}

fn has_truth(datatype: &str) -> bool
    ensures { result ≡ has_truth_datatype datatype.now }
{
    datatype == "http://www.w3.org/2001/XMLSchema#boolean"
        || datatype == "http://www.w3.org/2001/XMLSchema#integer"
        || datatype == "http://www.w3.org/2001/XMLSchema#decimal"
}

fn is_some_text(text: &str) -> bool
    ensures { result ≡ is_some text.now }
{
    !text.is_empty()
}
