// Equalities of two terms as equalities of columns, forms or texts.
ghost use Rattle.std.specs.Prelude.{◌≡◌, ◌<◌, IfOk, IfSome, length, map, option_map, slice_set};
ghost use Rattle.std.specs.List.{list_all};
ghost use Rattle.std.specs.Str.{is_utf8};
ghost use Rattle.vkg_expr.specs.Seen.{expr_seen};
ghost use Rattle.vkg_match.specs.Seen.{verdict_seen};
ghost use Rattle.vkg_equalities.specs.Decided.{both_compared as both_of, compared as compared_of, decided as decided_of, is_fine as fine, is_fine_piece as fine_piece, verdict_expr as expr_of_verdict};
ghost use Rattle.vkg_equalities.specs.TableColumns.{flag_at as flag_of};
ghost use Rattle.vkg_equalities.specs.TermEquality.{decided_in as decided_in_condition, first_changed};

use crate::conditions::{and_of, conjuncts};
use crate::recognition::recognised;
use crate::table_columns::flag_at;
use std::alloc::Global;
use std::mem;
use vkg_base::{Box, Memory};
use vkg_cells::{Cell, SqlType};
use vkg_expr::{Expr, Piece, TermExpr, copy_exprs};
use vkg_match::{Verdict, verdict};

/// Whether a hole is a flagged column.
fn is_fine_piece(flags: &[bool], piece: &Piece) -> bool
    ensures { result ≡ fine_piece (flag_of flags.now) piece.now }
{
    match piece {
        Piece::Chars(text) => is_text(text.as_str()),
        Piece::Hole(column, _) => flag_at(flags, *column),
    }
}

/// A constant of the program is a text; a definition's may be any bytes.
fn is_text(text: &str) -> bool
    ensures { result ≡ is_utf8 text.now }
{
    let _text = text.len();
    true
}

fn are_fine_pieces(flags: &[bool], pieces: &[Piece]) -> bool
    ensures { result ≡ list_all (fine_piece (flag_of flags.now)) pieces.now }
{
    for piece in pieces {
        if !is_fine_piece(flags, piece) {
            return false;
        }
    }
    true
}

/// Whether the holes that are compared by cells or forms are flagged columns.
fn is_fine(flags: &[bool], e: &TermExpr) -> bool
    ensures { result ≡ fine (flag_of flags.now) e.now }
{
    match e {
        TermExpr::Fixed(term) => is_text(term.name()),
        TermExpr::Made(_, pieces) => are_fine_pieces(flags, pieces.as_slice()),
        TermExpr::Resolved(_, _, _) => true,
    }
}

/// The term that an expression makes, if it is one over flagged columns.
fn compared(
    alloc: Global,
    flags: &[bool],
    kinds: &[SqlType],
    e: &Expr,
) -> Result<Option<TermExpr>, Memory>
    ensures { IfOk result (λ o. o ≡ compared_of (flag_of flags.now) kinds.now (expr_seen e.now)) }
{
    let Some(term) = recognised(alloc, kinds, e)? else {
        return Ok(None);
    };
    if !is_fine(flags, &term) {
        return Ok(None);
    }
    Ok(Some(term))
}

/// A verdict as one conjunct.
fn verdict_expr(verdict: Verdict) -> Expr
    ensures { expr_seen result ≡ expr_of_verdict (verdict_seen verdict) }
{
    match verdict {
        Verdict::Never => Expr::Const(Cell::Bool(false), SqlType::Bool),
        Verdict::All(equalities) => and_of(equalities),
    }
}

/// The verdict on two terms as one conjunct.
fn both_compared(
    alloc: Global,
    e: Option<TermExpr>,
    f: Option<TermExpr>,
) -> Result<Option<Expr>, Memory>
    ensures { IfOk result (λ o. option_map expr_seen o ≡ both_of e f) }
{
    let Some(e) = e else {
        mem::drop(f);
        return Ok(None);
    };
    let Some(f) = f else {
        mem::drop(e);
        return Ok(None);
    };
    let found = verdict(alloc, &e, &f);
    mem::drop(e);
    mem::drop(f);
    Ok(Some(verdict_expr(found?)))
}

/// An equality of two terms over columns of these kinds, of which the flagged ones are columns of tables, as its verdict.
pub fn decided(
    alloc: Global,
    flags: &[bool],
    kinds: &[SqlType],
    c: &Expr,
) -> Result<Option<Expr>, Memory>
    ensures { IfOk result (λ o. option_map expr_seen o ≡ decided_of (flag_of flags.now) kinds.now (expr_seen c.now)) }
{
    match c {
        Expr::Same(a, b) => {
            let e = compared(alloc, flags, kinds, a)?;
            let f = compared(alloc, flags, kinds, b)?;
            both_compared(alloc, e, f)
        }
        _ => Ok(None),
    }
}

/// A condition over columns of these kinds, of which the flagged ones are columns of tables, with its first conjunct decided that
/// can be, if there is one.
#[tactic(auto, unfolding(crate::specs::TermEquality::decided_in))]
pub fn decided_in(
    alloc: Global,
    flags: &[bool],
    kinds: &[SqlType],
    c: &Expr,
) -> Result<Option<Box<Expr>>, Memory>
    ensures { IfOk result (λ o. option_map expr_seen o ≡ decided_in_condition flags.now kinds.now (expr_seen c.now)) }
{
    let list = conjuncts(c);
    let Some((place, d)) = first_decided(alloc, flags, kinds, list)? else {
        return Ok(None);
    };
    let d = Box::new(alloc, d)?;
    let mut all = copy_exprs(alloc, list)?;
    all.set(place, d.into_inner());
    Ok(Some(Box::new(alloc, and_of(all))?))
}

/// The place of the first conjunct that is decided, and what stands for it.
fn first_decided(
    alloc: Global,
    flags: &[bool],
    kinds: &[SqlType],
    list: &[Expr],
) -> Result<Option<(usize, Expr)>, Memory>
    ensures within { IfOk result (λ o. IfSome o (λ p. p.0 < length list.now)) }
    ensures value { IfOk result (λ o. first_changed (decided_of (flag_of flags.now) kinds.now) (map expr_seen list.now) ≡ option_map (λ p. map expr_seen (slice_set list.now p.0 p.1)) o) }
{
    for i in 0..list.len() {
        if let Some(d) = decided(alloc, flags, kinds, &list[i])? {
            return Ok(Some((i, d)));
        }
    }
    Ok(None)
}
