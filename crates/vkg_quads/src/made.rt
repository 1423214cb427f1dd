// The term that a term map makes of a row.
ghost use Rattle.std.specs.Prelude.{◌≡◌, ◌++◌, IfOk, OnOk, Option, Some, None, if◌then◌else◌, option_map, string_bytes};
ghost use Rattle.std.specs.Option.{option_copied};
ghost use Rattle.vkg_lists.specs.Options.{joined};
ghost use Rattle.vkg_schema.specs.Rows.{cell_at};
ghost use Rattle.vkg_cells.specs.Form.{lexical_form};
ghost use Rattle.vkg_maps.specs.Terms.{term_of, where_value, term_from, literal as literal_of, against as against_base, template_value, piece_text, put as put_text};

use std::alloc::Global;
use vkg_base::{Memory, Text};
use vkg_cells::{is_too_wide, is_well_typed};
use vkg_maps::{Piece, TermFault, TermMap, TermType};
use vkg_tables::TableRow;
use vkg_terms::{Annotation, Term, blank_label, iri_safe, is_absolute};

/// A term, none, or a data error.
pub type Made = Result<Option<Term>, TermFault>;

/// The term that a term map makes of a row.
pub fn made_term(
    alloc: Global,
    base: &str,
    map: &TermMap,
    row: &TableRow<'_>,
) -> Result<Made, Memory>
    ensures { IfOk result (λ m. m ≡ term_of base.now map.now row.now) }
{
    match map {
        TermMap::Constant(term) => Ok(Ok(Some(term.copy()?))),
        TermMap::Column(column, sort) => match form_at(row, *column) {
            None => Ok(Ok(None)),
            Some(text) => {
                let text = against(alloc, base, sort, text)?;
                made_of(alloc, sort, text)
            }
        },
        TermMap::Template(pieces, sort) => match value_of(alloc, sort, row, pieces.as_slice())? {
            None => Ok(Ok(None)),
            Some(text) => made_of(alloc, sort, text),
        },
    }
}

/// The lexical form of a cell, lent.
fn form_at<'a>(row: &TableRow<'a>, column: usize) -> Option<&'a str>
    ensures { option_copied result ≡ lexical_form (cell_at row.now column) }
{
    row.cell(column).form()
}

fn against(alloc: Global, base: &str, sort: &TermType, text: &str) -> Result<String, Memory>
    ensures { IfOk result (λ s. string_bytes s ≡ against_base base.now sort.now text.now) }
{
    match sort {
        TermType::Iri => {
            if is_absolute(text) {
                return Ok(String::from_str(alloc, text)?);
            }
            let mut all = String::from_str(alloc, base)?;
            all.push_str(text)?;
            Ok(all)
        }
        TermType::Blank => Ok(String::from_str(alloc, text)?),
        TermType::Literal(_) => Ok(String::from_str(alloc, text)?),
    }
}

fn made_of(alloc: Global, sort: &TermType, text: String) -> Result<Made, Memory>
    ensures { IfOk result (λ m. m ≡ term_from sort.now (string_bytes text)) }
{
    match sort {
        TermType::Iri => {
            if is_absolute(text.as_str()) {
                Ok(Ok(Some(Term::Iri(Text::from_string(text)))))
            } else {
                Ok(Err(TermFault::NotIri))
            }
        }
        TermType::Blank => {
            let label = blank_label(alloc, text.as_str())?;
            Ok(Ok(Some(Term::Blank(Text::from_string(label)))))
        }
        TermType::Literal(annotation) => literal(text, annotation),
    }
}

fn literal(text: String, annotation: &Annotation) -> Result<Made, Memory>
    ensures { IfOk result (λ m. m ≡ literal_of (string_bytes text) annotation.now) }
{
    if let Annotation::Typed(datatype) = annotation {
        if !is_well_typed(datatype.iri().as_str(), text.as_str()) {
            return Ok(Err(TermFault::IllTyped));
        }
        if is_too_wide(datatype.iri().as_str(), text.as_str()) {
            return Ok(Err(TermFault::TooWide));
        }
    }
    let annotation = annotation.copy()?;
    Ok(Ok(Some(Term::Lit(Text::from_string(text), annotation))))
}

fn value_of(
    alloc: Global,
    sort: &TermType,
    row: &TableRow<'_>,
    pieces: &[Piece],
) -> Result<Option<String>, Memory>
    ensures { IfOk result (λ o. option_map string_bytes o ≡ template_value sort.now row.now pieces.now) }
{
    let mut all = String::new(alloc);
    for piece in pieces {
        let there = add_piece(alloc, &mut all, sort, row, piece)?;
        if !there {
            return Ok(None);
        }
    }
    Ok(Some(all))
}

/// Adds the text of a piece, and says whether there is one.
fn add_piece(
    alloc: Global,
    all: &mut String,
    sort: &TermType,
    row: &TableRow<'_>,
    piece: &Piece,
) -> Result<bool, Memory>
    ensures { IfOk result (λ there. joined (Some (string_bytes all.old)) (piece_text sort.now row.now piece.now) ≡ (if there then Some (string_bytes all.new) else None)) }
{
    match piece {
        Piece::Fixed(text) => {
            all.push_str(text.as_str())?;
            Ok(true)
        }
        Piece::Column(column) => match form_at(row, *column) {
            None => Ok(false),
            Some(text) => {
                add_value(alloc, all, sort, text)?;
                Ok(true)
            }
        },
    }
}

fn add_value(alloc: Global, all: &mut String, sort: &TermType, text: &str) -> Result<(), Memory>
    ensures { OnOk result (string_bytes all.new ≡ string_bytes all.old ++ put_text sort.now text.now) }
{
    match sort {
        TermType::Iri => all.push_str(iri_safe(alloc, text)?.as_str())?,
        TermType::Blank => all.push_str(text)?,
        TermType::Literal(_) => all.push_str(text)?,
    }
    Ok(())
}
