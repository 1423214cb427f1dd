// Expressions that are compared.
ghost use Rattle.std.specs.Prelude.{◌≡◌, IfOk, map};
ghost use Rattle.vkg_expr.specs.Expr.{Col, Lex};
ghost use Rattle.vkg_expr.specs.Seen.{expr_seen};
ghost use Rattle.vkg_expr.specs.TermExprs.{piece_expr as expr_of_piece, pieces_expr as expr_of_pieces, text_const};

use std::alloc::Global;
use vkg_base::{Box, Items, Memory, Text};
use vkg_cells::{Cell, SqlType};
use vkg_expr::{Expr, Piece, Sort};

/// A column.
pub fn column(alloc: Global, at: usize) -> Result<Box<Expr>, Memory>
    ensures { IfOk result (λ e. expr_seen e ≡ Col at) }
{
    Box::new(alloc, Expr::Col(at))
}

/// The lexical form of a column.
pub fn form_of_column(alloc: Global, at: usize) -> Result<Box<Expr>, Memory>
    ensures { IfOk result (λ e. expr_seen e ≡ Lex (Col at)) }
{
    Box::new(alloc, Expr::Lex(column(alloc, at)?))
}

/// A text.
pub fn text_constant(alloc: Global, text: &str) -> Result<Expr, Memory>
    ensures { IfOk result (λ e. expr_seen e ≡ text_const text.now) }
{
    Ok(Expr::Const(Cell::Text(Text::new(alloc, text)?), SqlType::Text))
}

/// A piece as a text: a hole's lexical form, which is made IRI-safe in an IRI (R2RML, 7.3).
fn piece_expr(alloc: Global, sort: &Sort, piece: &Piece) -> Result<Expr, Memory>
    ensures { IfOk result (λ e. expr_seen e ≡ expr_of_piece sort.now piece.now) }
{
    match (piece, sort) {
        (Piece::Chars(text), _) => text_constant(alloc, text.as_str()),
        (Piece::Hole(at, _), Sort::OfIri) => Ok(Expr::IriSafe(form_of_column(alloc, *at)?)),
        (Piece::Hole(at, _), Sort::OfBlank) => Ok(Expr::Lex(column(alloc, *at)?)),
        (Piece::Hole(at, _), Sort::OfLit(_)) => Ok(Expr::Lex(column(alloc, *at)?)),
    }
}

fn piece_exprs(alloc: Global, sort: &Sort, pieces: &[Piece]) -> Result<Items<Expr>, Memory>
    ensures { IfOk result (λ es. map expr_seen es ≡ map (expr_of_piece sort.now) pieces.now) }
{
    let mut parts = Items::new(alloc);
    for piece in pieces {
        parts.push(piece_expr(alloc, sort, piece)?)?;
    }
    Ok(parts)
}

/// The text that pieces make.
pub fn pieces_expr(alloc: Global, sort: &Sort, pieces: &[Piece]) -> Result<Expr, Memory>
    ensures { IfOk result (λ e. expr_seen e ≡ expr_of_pieces sort.now pieces.now) }
{
    match pieces {
        [] => text_constant(alloc, ""),
        [piece] => piece_expr(alloc, sort, piece),
        [_, _, ..] => Ok(Expr::Concat(piece_exprs(alloc, sort, pieces)?)),
    }
}
