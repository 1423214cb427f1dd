// A term map as an expression over a row.
ghost use Rattle.std.specs.Prelude.{◌≡◌, ◌+◌, ◌<◌, [], ◌∷◌, IfOk, flat_map, length, map};
ghost use Rattle.vkg_lists.specs.Lists.{AllBelow};
ghost use Rattle.vkg_maps.specs.Within.{IsOver, piece_columns};
ghost use Rattle.vkg_expr.specs.TermExprs.{moved_piece, moved_term};
ghost use Rattle.vkg_row_rules.specs.RowTerms.{column_term as term_of_column, hole as hole_of, kind_at as kind_of_column, piece_of as piece_expr_of, row_term as term_over_row, sort_of as sort_of_type};

use std::alloc::Global;
use vkg_base::{Items, Memory, Text};
use vkg_cells::SqlType;
use vkg_expr::{Piece, Sort, TermExpr};
use vkg_maps::{Piece as TemplatePiece, TermMap, TermType};

/// The expression of a term map over columns of these kinds, which has to be over such rows.
pub fn row_term(
    alloc: Global,
    base: &Text,
    kinds: &[SqlType],
    map: &TermMap,
) -> Result<TermExpr, Memory>
    requires { IsOver kinds.now map.now }
    ensures { IfOk result (λ e. e ≡ term_over_row base.now kinds.now map.now) }
{
    let before = Items::new(alloc);
    term_behind(alloc, base, kinds, before.as_slice(), map)
}

/// The expression of a term map over columns of these kinds, which stand behind those of `before`.
pub fn term_behind(
    alloc: Global,
    base: &Text,
    kinds: &[SqlType],
    before: &[SqlType],
    map: &TermMap,
) -> Result<TermExpr, Memory>
    requires { IsOver kinds.now map.now }
    ensures { IfOk result (λ e. e ≡ moved_term (length before.now) (term_over_row base.now kinds.now map.now)) }
{
    match map {
        TermMap::Constant(term) => Ok(TermExpr::Fixed(term.copy()?)),
        TermMap::Column(column, term_type) => {
            column_term(alloc, base, kinds, before, *column, term_type)
        }
        TermMap::Template(pieces, term_type) => {
            let pieces = pieces_behind(alloc, kinds, before, pieces.as_slice())?;
            Ok(TermExpr::Made(sort_of(term_type)?, pieces))
        }
    }
}

fn column_term(
    alloc: Global,
    base: &Text,
    kinds: &[SqlType],
    before: &[SqlType],
    column: usize,
    term_type: &TermType,
) -> Result<TermExpr, Memory>
    requires { column < length kinds.now }
    ensures { IfOk result (λ e. e ≡ moved_term (length before.now) (term_of_column base.now kinds.now column term_type.now)) }
{
    let kind = kind_at(kinds, column);
    let place = place_behind(kinds, before, column);
    match term_type {
        TermType::Iri => Ok(TermExpr::Resolved(base.copy()?, place, kind)),
        TermType::Blank => alone(alloc, Sort::OfBlank, Piece::Hole(place, kind)),
        TermType::Literal(annotation) => alone(
            alloc,
            Sort::OfLit(annotation.copy()?),
            Piece::Hole(place, kind),
        ),
    }
}

fn alone(alloc: Global, sort: Sort, piece: Piece) -> Result<TermExpr, Memory>
    ensures { IfOk result (λ e. e ≡ TermExpr.Made sort (piece ∷ [])) }
{
    let mut pieces = Items::new(alloc);
    pieces.push(piece)?;
    Ok(TermExpr::Made(sort, pieces))
}

fn sort_of(term_type: &TermType) -> Result<Sort, Memory>
    ensures { IfOk result (λ sort. sort ≡ sort_of_type term_type.now) }
{
    match term_type {
        TermType::Iri => Ok(Sort::OfIri),
        TermType::Blank => Ok(Sort::OfBlank),
        TermType::Literal(annotation) => Ok(Sort::OfLit(annotation.copy()?)),
    }
}

fn pieces_behind(
    alloc: Global,
    kinds: &[SqlType],
    before: &[SqlType],
    pieces: &[TemplatePiece],
) -> Result<Items<Piece>, Memory>
    requires { AllBelow (length kinds.now) (flat_map piece_columns pieces.now) }
    ensures { IfOk result (λ ps. ps ≡ map (moved_piece (length before.now)) (map (piece_expr_of kinds.now) pieces.now)) }
{
    let mut out = Items::new(alloc);
    for piece in pieces {
        out.push(piece_behind(kinds, before, piece)?)?;
    }
    Ok(out)
}

fn piece_behind(
    kinds: &[SqlType],
    before: &[SqlType],
    piece: &TemplatePiece,
) -> Result<Piece, Memory>
    requires { AllBelow (length kinds.now) (piece_columns piece.now) }
    ensures { IfOk result (λ p. p ≡ moved_piece (length before.now) (piece_expr_of kinds.now piece.now)) }
{
    match piece {
        TemplatePiece::Fixed(text) => Ok(Piece::Chars(text.copy()?)),
        TemplatePiece::Column(column) => {
            let place = place_behind(kinds, before, *column);
            Ok(Piece::Hole(place, kind_at(kinds, *column)))
        }
    }
}

/// The kind of a column, and Text where there is none.
fn kind_at(kinds: &[SqlType], column: usize) -> SqlType
    ensures { result ≡ kind_of_column kinds.now column }
{
    match kinds.get(column) {
        Some(kind) => *kind,
        None => SqlType::Text,
    }
}

/// The place of a column of these kinds behind the columns of `before`.
fn place_behind(kinds: &[SqlType], before: &[SqlType], column: usize) -> usize
    requires { column < length kinds.now }
    ensures { result ≡ column + length before.now }
{
    column + before.len()
}
