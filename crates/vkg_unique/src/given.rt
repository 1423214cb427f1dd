// The columns whose cells the value of an expression gives back.
ghost use Rattle.std.specs.Prelude.{◌≡◌, ◌∷◌, [], ◌&&◌, ◌||◌, IfOk, if◌then◌else◌};
ghost use Rattle.std.specs.List.{list_all};
ghost use Rattle.std.specs.Option.{option_map_or};
ghost use Rattle.std.specs.Str.{is_utf8};
ghost use Rattle.vkg_expr.specs.Seen.{expr_seen};
ghost use Rattle.vkg_unique.specs.Recovered.{given_back as given_by_value, given_by_term as given_by_terms, hole_columns as columns_of_holes, is_good_at as good_at, is_one as is_single, is_parted as parted, is_readable as readable, is_text as text_piece};

use std::alloc::Global;
use vkg_base::{Items, Memory};
use vkg_cells::SqlType;
use vkg_equalities::{flag_at, recognised};
use vkg_expr::{Expr, Piece, Sort, TermExpr};
use vkg_match::separable;

/// The columns whose cells the value of an expression over columns of these kinds gives back: columns of tables that are never NULL.
pub fn given_back(
    alloc: Global,
    tables: &[bool],
    sure: &[bool],
    kinds: &[SqlType],
    e: &Expr,
) -> Result<Items<usize>, Memory>
    ensures { IfOk result (λ cs. cs ≡ given_by_value (good_at tables.now sure.now) kinds.now (expr_seen e.now)) }
{
    match e {
        Expr::Col(column) => single(alloc, *column),
        _ => {
            let term = recognised(alloc, kinds, e)?;
            given_by(alloc, tables, sure, term)
        }
    }
}

fn single(alloc: Global, column: usize) -> Result<Items<usize>, Memory>
    ensures { IfOk result (λ cs. cs ≡ column ∷ []) }
{
    let mut one = Items::new(alloc);
    one.push(column)?;
    Ok(one)
}

/// Those that the term gives back, if there is one.
fn given_by(
    alloc: Global,
    tables: &[bool],
    sure: &[bool],
    term: Option<TermExpr>,
) -> Result<Items<usize>, Memory>
    ensures { IfOk result (λ cs. cs ≡ option_map_or (given_by_terms (good_at tables.now sure.now)) term []) }
{
    match term {
        None => Ok(Items::new(alloc)),
        Some(term) => given_by_term(alloc, tables, sure, &term),
    }
}

fn given_by_term(
    alloc: Global,
    tables: &[bool],
    sure: &[bool],
    term: &TermExpr,
) -> Result<Items<usize>, Memory>
    ensures { IfOk result (λ cs. cs ≡ given_by_terms (good_at tables.now sure.now) term.now) }
{
    match term {
        TermExpr::Fixed(_) => Ok(Items::new(alloc)),
        TermExpr::Made(sort, pieces) => given_by_pieces(
            alloc,
            tables,
            sure,
            sort,
            pieces.as_slice(),
        ),
        TermExpr::Resolved(_, _, _) => Ok(Items::new(alloc)),
    }
}

/// The columns of the holes of a text of this sort, if the texts of the holes can be read off it.
fn given_by_pieces(
    alloc: Global,
    tables: &[bool],
    sure: &[bool],
    sort: &Sort,
    pieces: &[Piece],
) -> Result<Items<usize>, Memory>
    ensures { IfOk result (λ cs. cs ≡ (if list_all (good_at tables.now sure.now) (columns_of_holes pieces.now) && readable sort.now pieces.now then columns_of_holes pieces.now else [])) }
{
    let columns = hole_columns(alloc, pieces)?;
    if !all_good(tables, sure, columns.as_slice()) {
        return Ok(Items::new(alloc));
    }
    if !is_readable(sort, pieces, columns.as_slice()) {
        return Ok(Items::new(alloc));
    }
    Ok(columns)
}

/// The columns of the holes, in the order of the text.
fn hole_columns(alloc: Global, pieces: &[Piece]) -> Result<Items<usize>, Memory>
    ensures { IfOk result (λ cs. cs ≡ columns_of_holes pieces.now) }
{
    let mut columns = Items::new(alloc);
    for piece in pieces {
        match piece {
            Piece::Chars(_) => {}
            Piece::Hole(column, _) => columns.push(*column)?,
        }
    }
    Ok(columns)
}

/// Whether each column is one of a table and never NULL.
fn all_good(tables: &[bool], sure: &[bool], columns: &[usize]) -> bool
    ensures { result ≡ list_all (good_at tables.now sure.now) columns.now }
{
    for column in columns {
        if !is_good_at(tables, sure, *column) {
            return false;
        }
    }
    true
}

fn is_good_at(tables: &[bool], sure: &[bool], column: usize) -> bool
    ensures { result ≡ good_at tables.now sure.now column }
{
    flag_at(tables, column) && flag_at(sure, column)
}

/// Whether the texts of the holes, which have these columns, can be read off the text of the pieces.
#[tactic(auto, using(crate::proofs::OneColumn::one_alone, crate::proofs::OneColumn::none_or_more))]
fn is_readable(sort: &Sort, pieces: &[Piece], columns: &[usize]) -> bool
    ensures { result ≡ (is_single columns.now || parted sort.now pieces.now) }
{
    if columns.len() == 1 {
        return true;
    }
    is_parted(sort, pieces)
}

/// Whether the pieces make an IRI in which between any two holes stands a character that no IRI-safe text holds.
fn is_parted(sort: &Sort, pieces: &[Piece]) -> bool
    ensures { result ≡ parted sort.now pieces.now }
{
    match sort {
        Sort::OfIri => are_texts(pieces) && separable(pieces),
        Sort::OfBlank => false,
        Sort::OfLit(_) => false,
    }
}

fn are_texts(pieces: &[Piece]) -> bool
    ensures { result ≡ list_all text_piece pieces.now }
{
    for piece in pieces {
        if !is_text_piece(piece) {
            return false;
        }
    }
    true
}

fn is_text_piece(piece: &Piece) -> bool
    ensures { result ≡ text_piece piece.now }
{
    match piece {
        Piece::Chars(text) => is_text(text.as_str()),
        Piece::Hole(_, _) => true,
    }
}

/// A constant of the program is a text; a definition's may be any bytes.
fn is_text(text: &str) -> bool
    ensures { result ≡ is_utf8 text.now }
{
    let _text = text.len();
    true
}
