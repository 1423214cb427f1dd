// Expressions that make terms in the forms that are compared.
ghost use Rattle.std.specs.Prelude.{◌≡◌, ◌∷◌, [], IfOk, map, option_and_then, option_map, slice_get};
ghost use Rattle.std.specs.Option.{option_copied, option_or};
ghost use Rattle.vkg_expr.specs.declared.term_expr.Sort.TheVariants.{OfIri};
ghost use Rattle.vkg_expr.specs.declared.term_expr.TermExpr.TheVariants.{Fixed, Made, Resolved};
ghost use Rattle.vkg_expr.specs.Expr.{exprs};
ghost use Rattle.vkg_expr.specs.Seen.{expr_seen};
ghost use Rattle.vkg_equalities.specs.Recognised.{as_column as column_in, as_form as form_in, as_hole as hole_in, as_safe as safe_in, as_text as text_of_expr, composed as composed_of, hole as hole_at, piece as piece_of, pieces as pieces_of, recognised as recognised_of, resolved as resolved_of, several as several_of, term_in as term_of_kind, text_in as text_of_kind};

use std::alloc::Global;
use vkg_base::{Items, Memory, Text, at};
use vkg_cells::{Cell, SqlType};
use vkg_expr::{Expr, Piece, Sort, TermExpr};
use vkg_terms::Term;

fn as_column(e: &Expr) -> Option<usize>
    ensures { result ≡ column_in (expr_seen e.now) }
{
    match e {
        Expr::Col(column) => Some(*column),
        _ => None,
    }
}

fn as_form(e: &Expr) -> Option<usize>
    ensures { result ≡ form_in (expr_seen e.now) }
{
    match e {
        Expr::Lex(e) => as_column(e),
        _ => None,
    }
}

fn as_safe(e: &Expr) -> Option<usize>
    ensures { result ≡ safe_in (expr_seen e.now) }
{
    match e {
        Expr::IriSafe(e) => as_form(e),
        _ => None,
    }
}

fn text_in(kind: SqlType, cell: &Cell) -> Option<&str>
    ensures { option_copied result ≡ text_of_kind kind cell.now }
{
    match (kind, cell) {
        (SqlType::Text, Cell::Text(text)) => Some(text.as_str()),
        _ => None,
    }
}

fn term_in(kind: SqlType, cell: &Cell) -> Option<&Term>
    ensures { option_copied result ≡ term_of_kind kind cell.now }
{
    match (kind, cell) {
        (SqlType::Term, Cell::Term(term)) => Some(term),
        _ => None,
    }
}

fn as_text(e: &Expr) -> Option<&str>
    ensures { option_copied result ≡ text_of_expr (expr_seen e.now) }
{
    match e {
        Expr::Const(cell, kind) => text_in(*kind, cell),
        _ => None,
    }
}

/// The column of a hole in a text of this sort.
fn as_hole(sort: &Sort, e: &Expr) -> Option<usize>
    ensures { result ≡ hole_in sort.now (expr_seen e.now) }
{
    match sort {
        Sort::OfIri => as_safe(e),
        Sort::OfBlank => as_form(e),
        Sort::OfLit(_) => as_form(e),
    }
}

fn hole(kinds: &[SqlType], column: Option<usize>) -> Option<Piece>
    ensures { result ≡ option_and_then (hole_at kinds.now) column }
{
    let Some(column) = column else {
        return None;
    };
    match at(kinds, column) {
        None => None,
        Some(kind) => Some(Piece::Hole(column, *kind)),
    }
}

fn piece(alloc: Global, kinds: &[SqlType], sort: &Sort, e: &Expr) -> Result<Option<Piece>, Memory>
    ensures { IfOk result (λ o. o ≡ piece_of kinds.now sort.now (expr_seen e.now)) }
{
    match as_text(e) {
        Some(text) => Ok(Some(Piece::Chars(Text::new(alloc, text)?))),
        None => Ok(hole(kinds, as_hole(sort, e))),
    }
}

#[tactic(auto, using(vkg_lists::proofs::Onto::onto_rules))]
fn pieces(
    alloc: Global,
    kinds: &[SqlType],
    sort: &Sort,
    list: &[Expr],
) -> Result<Option<Items<Piece>>, Memory>
    ensures { IfOk result (λ o. o ≡ pieces_of kinds.now sort.now (exprs (map expr_seen list.now))) }
{
    let mut found = Items::new(alloc);
    for e in list {
        let Some(one) = piece(alloc, kinds, sort, e)? else {
            return Ok(None);
        };
        found.push(one)?;
    }
    Ok(Some(found))
}

/// Two pieces or more.
#[tactic(auto, using(crate::proofs::Lists::several_few, crate::proofs::Lists::several_many))]
fn several(sort: Sort, pieces: Option<Items<Piece>>) -> Option<TermExpr>
    ensures { result ≡ option_and_then (several_of sort) pieces }
{
    let Some(pieces) = pieces else {
        return None;
    };
    if pieces.len() < 2 {
        return None;
    }
    Some(TermExpr::Made(sort, pieces))
}

fn lone(alloc: Global, sort: Sort, piece: Option<Piece>) -> Result<Option<TermExpr>, Memory>
    ensures { IfOk result (λ o. o ≡ option_map (λ p. Made sort (p ∷ [])) piece) }
{
    let Some(piece) = piece else {
        return Ok(None);
    };
    let mut pieces = Items::new(alloc);
    pieces.push(piece)?;
    Ok(Some(TermExpr::Made(sort, pieces)))
}

/// A Concat of pieces, or one alone.
fn composed(
    alloc: Global,
    kinds: &[SqlType],
    sort: Sort,
    e: &Expr,
) -> Result<Option<TermExpr>, Memory>
    ensures { IfOk result (λ o. o ≡ composed_of kinds.now sort (expr_seen e.now)) }
{
    match e {
        Expr::Concat(list) => {
            let found = pieces(alloc, kinds, &sort, list.as_slice())?;
            Ok(several(sort, found))
        }
        _ => {
            let found = piece(alloc, kinds, &sort, e)?;
            lone(alloc, sort, found)
        }
    }
}

fn over_base(
    base: &Text,
    kinds: &[SqlType],
    column: Option<usize>,
) -> Result<Option<TermExpr>, Memory>
    ensures { IfOk result (λ o. o ≡ option_and_then (λ k. option_map (Resolved base.now k) (slice_get kinds.now k)) column) }
{
    let Some(column) = column else {
        return Ok(None);
    };
    match at(kinds, column) {
        None => Ok(None),
        Some(kind) => Ok(Some(TermExpr::Resolved(base.copy()?, column, *kind))),
    }
}

/// A column's form over a base.
fn resolved(kinds: &[SqlType], e: &Expr) -> Result<Option<TermExpr>, Memory>
    ensures { IfOk result (λ o. o ≡ resolved_of kinds.now (expr_seen e.now)) }
{
    match e {
        Expr::IriOf(base, e) => over_base(base, kinds, as_form(e)),
        _ => Ok(None),
    }
}

fn iri(alloc: Global, kinds: &[SqlType], e: &Expr) -> Result<Option<TermExpr>, Memory>
    ensures { IfOk result (λ o. o ≡ option_or (resolved_of kinds.now (expr_seen e.now)) (composed_of kinds.now OfIri (expr_seen e.now))) }
{
    match resolved(kinds, e)? {
        Some(term) => Ok(Some(term)),
        None => composed(alloc, kinds, Sort::OfIri, e),
    }
}

fn fixed(kind: SqlType, cell: &Cell) -> Result<Option<TermExpr>, Memory>
    ensures { IfOk result (λ o. o ≡ option_map Fixed (term_of_kind kind cell.now)) }
{
    match term_in(kind, cell) {
        None => Ok(None),
        Some(term) => Ok(Some(TermExpr::Fixed(term.copy()?))),
    }
}

/// The term that an expression over columns of these kinds makes, if it has one of the forms that are compared.
pub fn recognised(alloc: Global, kinds: &[SqlType], e: &Expr) -> Result<Option<TermExpr>, Memory>
    ensures { IfOk result (λ o. o ≡ recognised_of kinds.now (expr_seen e.now)) }
{
    match e {
        Expr::Const(cell, kind) => fixed(*kind, cell),
        Expr::MakeIri(e) => iri(alloc, kinds, e),
        Expr::MakeBlank(e) => composed(alloc, kinds, Sort::OfBlank, e),
        Expr::MakeLit(e, annotation) => {
            let sort = Sort::OfLit(annotation.copy()?);
            composed(alloc, kinds, sort, e)
        }
        _ => Ok(None),
    }
}
