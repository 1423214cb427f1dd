// The texts and cells that make a given text.
ghost use Rattle.std.specs.Prelude.{◌≡◌, IfOk, Some, None, if◌then◌else◌};
ghost use Rattle.std.specs.Str.{bytes_eq, is_utf8};
ghost use Rattle.vkg_cells.specs.Form.{lexical_form};
ghost use Rattle.vkg_cells.specs.Order.{same_form};
ghost use Rattle.vkg_match.specs.Sources.{cell_with as cell_of_form, labelled_of as text_labelled, source_of as text_made_safe, text_if};
ghost use Rattle.vkg_terms.specs.Label.{blank_label as label_of};

use hex::FromHexError;
use percent_encoding::percent_decode;
use std::alloc::Global;
use vkg_base::{Memory, Text};
use vkg_cells::{Cell, FieldFault, SqlType, form, read_cell};
use vkg_terms::{blank_label, iri_safe};

fn as_text(octets: Vec<u8>) -> Option<Text>
    ensures { result ≡ (if is_utf8 octets.items then Some octets.items else None) }
{
    match String::from_utf8(octets) {
        Ok(text) => Some(Text::from_string(text)),
        Err(_) => None,
    }
}

/// The text whose IRI-safe form this is, if there is one (R2RML, 7.3).
pub fn source_of(alloc: Global, safe: &str) -> Result<Option<Text>, Memory>
    ensures { IfOk result (λ o. o ≡ text_made_safe safe.now) }
{
    let mut octets = Vec::new(alloc);
    percent_decode(safe.as_bytes()).append_to(&mut octets)?;
    let Some(text) = as_text(octets) else {
        return Ok(None);
    };
    let again = iri_safe(alloc, text.as_str())?;
    if again.as_str() == safe {
        Ok(Some(text))
    } else {
        Ok(None)
    }
}

/// The text whose blank node has this label, if there is one (R2RML, 11.2).
pub fn labelled_of(alloc: Global, label: &str) -> Result<Option<Text>, Memory>
    ensures { IfOk result (λ o. o ≡ text_labelled label.now) }
{
    match label.as_bytes() {
        [] => Ok(None),
        [_, digits @ ..] => match hex::decode(alloc, digits) {
            Ok(octets) => text_with_label(alloc, octets, label),
            Err(FromHexError::OutOfMemory) => Err(Memory),
            Err(_) => Ok(None),
        },
    }
}

fn text_with_label(alloc: Global, octets: Vec<u8>, label: &str) -> Result<Option<Text>, Memory>
    ensures { IfOk result (λ o. o ≡ text_if octets.items (bytes_eq (label_of octets.items) label.now)) }
{
    let Some(text) = as_text(octets) else {
        return Ok(None);
    };
    let again = blank_label(alloc, text.as_str())?;
    if again.as_str() == label {
        Ok(Some(text))
    } else {
        Ok(None)
    }
}

fn has_form(cell: &Cell, text: &str) -> bool
    ensures { result ≡ same_form (lexical_form cell.now) (Some text.now) }
{
    match form(cell) {
        Some(found) => found == text,
        None => false,
    }
}

/// The cell of a kind whose lexical form this is, if there is one (R2RML, 10.2).
pub fn cell_with(alloc: Global, kind: SqlType, text: &str) -> Result<Option<Cell>, Memory>
    ensures { IfOk result (λ o. o ≡ cell_of_form kind text.now) }
{
    match read_cell(alloc, kind, text) {
        Ok(cell) => {
            if has_form(&cell, text) {
                Ok(Some(cell))
            } else {
                Ok(None)
            }
        }
        Err(FieldFault::Memory) => Err(Memory),
        Err(_) => Ok(None),
    }
}
