ghost use Rattle.std.specs.Prelude.{◌≡◌, IfOk, ◌∷◌};
ghost use Rattle.vkg_lists.specs.Results.{mapped};
ghost use Rattle.vkg_term_maps.specs.TermMaps.{Gives, by_standing as map_by_standing, of_pieces as map_of_pieces, piece_of as piece_of_part, pieces_of as pieces_of_parts, template_map as map_of_parts, type_of as type_of_sort};
ghost use Rattle.vkg_terms.specs.Name.{template_read};

use crate::columns::column_of;
use crate::error::{TermMapError, TermMapFault};
use crate::place::Role;
use crate::term_type::{Properties, Sort, sort_of, type_of};
use std::alloc::Global;
use vkg_base::{Items, Memory, Text};
use vkg_maps::{Piece, TermMap};
use vkg_schema::Column;
use vkg_terms::{Annotation, Part, Standing, TemplateFault, read_template, standing};

/// The template-valued term map of a template's text (R2RML, 7.3).
pub(crate) fn template_map(
    alloc: Global,
    role: Role,
    properties: &Properties,
    columns: &[Column],
    base: &str,
    text: &str,
) -> Result<TermMap, TermMapError>
    ensures { Gives (map_of_parts role properties.now columns.now base.now (template_read text.now)) result }
{
    match read_template(alloc, text) {
        Err(TemplateFault::Memory) => Err(TermMapError::Memory),
        Err(TemplateFault::BadTemplate) => Err(TermMapError::Fault(TermMapFault::BadTemplate)),
        Ok(template) => {
            let parts = template.as_slice();
            let pieces = pieces_of(alloc, columns, parts)?;
            of_pieces(alloc, role, properties, base, standing(parts), pieces)
        }
    }
}

fn of_pieces(
    alloc: Global,
    role: Role,
    properties: &Properties,
    base: &str,
    stand: Standing,
    pieces: Option<Items<Piece>>,
) -> Result<TermMap, TermMapError>
    ensures { Gives (map_of_pieces role properties.now base.now stand pieces) result }
{
    match pieces {
        None => Err(TermMapError::Fault(TermMapFault::UnknownColumn)),
        Some(pieces) => {
            let sort = sort_of(role, properties.is_annotated(), &properties.types);
            by_standing(alloc, base, properties, pieces, stand, sort)
        }
    }
}

/// Of a template for IRIs it is to be known whether they are absolute. The base stands before relative ones.
fn by_standing(
    alloc: Global,
    base: &str,
    properties: &Properties,
    pieces: Items<Piece>,
    stand: Standing,
    sort: Option<Sort>,
) -> Result<TermMap, TermMapError>
    ensures { Gives (map_by_standing base.now properties.now pieces stand sort) result }
{
    match (stand, sort) {
        (Standing::Doubtful, Some(Sort::Iri)) => {
            Err(TermMapError::Fault(TermMapFault::DoubtfulTemplate))
        }
        (Standing::Relative, Some(Sort::Iri)) => {
            let pieces = behind_base(alloc, base, pieces)?;
            made(alloc, properties, pieces, sort)
        }
        _ => made(alloc, properties, pieces, sort),
    }
}

fn made(
    alloc: Global,
    properties: &Properties,
    pieces: Items<Piece>,
    sort: Option<Sort>,
) -> Result<TermMap, TermMapError>
    ensures { Gives (mapped (TermMap.Template pieces) (type_of_sort Annotation.Plain properties.now sort)) result }
{
    let term_type = type_of(alloc, Annotation::Plain, properties, sort)?;
    Ok(TermMap::Template(pieces, term_type))
}

fn behind_base(alloc: Global, base: &str, pieces: Items<Piece>) -> Result<Items<Piece>, Memory>
    ensures { IfOk result (λ all. all ≡ Piece.Fixed base.now ∷ pieces) }
{
    let mut all = Items::new(alloc);
    all.push(Piece::Fixed(Text::new(alloc, base)?))?;
    all.append(pieces)?;
    Ok(all)
}

/// The pieces of a template over a table with these columns, none where a name is that of no column.
fn pieces_of(
    alloc: Global,
    columns: &[Column],
    parts: &[Part],
) -> Result<Option<Items<Piece>>, Memory>
    ensures { IfOk result (λ pieces. pieces ≡ pieces_of_parts columns.now parts.now) }
{
    let mut pieces = Items::new(alloc);
    for part in parts {
        match piece_of(columns, part)? {
            None => return Ok(None),
            Some(piece) => pieces.push(piece)?,
        }
    }
    Ok(Some(pieces))
}

fn piece_of(columns: &[Column], part: &Part) -> Result<Option<Piece>, Memory>
    ensures { IfOk result (λ piece. piece ≡ piece_of_part columns.now part.now) }
{
    match part {
        Part::Fixed(text) => Ok(Some(Piece::Fixed(text.copy()?))),
        Part::Hole(name) => match column_of(columns, name.as_str()) {
            None => Ok(None),
            Some(column) => Ok(Some(Piece::Column(column))),
        },
    }
}
