// The verdict of one segment.
ghost use Rattle.std.specs.Prelude.{◌≡◌, IfOk};
ghost use Rattle.std.specs.Option.{option_copied};
ghost use Rattle.vkg_match.specs.Seen.{verdict_seen};
ghost use Rattle.vkg_match.specs.Verdict.{constant_agrees as constant_verdict, constant_of, hole_makes as hole_verdict, hole_text as text_in_hole, holes_agree as holes_verdict, holes_or_texts as holes_or_texts_verdict, lone_hole as hole_alone, segment as segment_verdict, texts_agree as texts_verdict, where_cell as cell_verdict};

use crate::answer::{Verdict, when, where_same};
use crate::exprs::{column, form_of_column, pieces_expr};
use crate::sources::{cell_with, source_of};
use std::alloc::Global;
use vkg_base::{Box, Memory, Text};
use vkg_cells::{Cell, SqlType};
use vkg_expr::{Expr, Piece, Sort, same_family};

/// The text of one constant alone.
fn constant(pieces: &[Piece]) -> Option<&str>
    ensures { option_copied result ≡ constant_of pieces.now }
{
    match pieces {
        [] => Some(""),
        [Piece::Chars(text)] => Some(text.as_str()),
        [Piece::Hole(_, _)] => None,
        [_, _, ..] => None,
    }
}

/// The hole that stands alone.
fn lone_hole(pieces: &[Piece]) -> Option<(usize, SqlType)>
    ensures { result ≡ hole_alone pieces.now }
{
    match pieces {
        [] => None,
        [Piece::Chars(_)] => None,
        [Piece::Hole(at, kind)] => Some((*at, *kind)),
        [_, _, ..] => None,
    }
}

fn texts_agree(alloc: Global, sort: &Sort, ps: &[Piece], qs: &[Piece]) -> Result<Verdict, Memory>
    ensures { IfOk result (λ v. verdict_seen v ≡ texts_verdict sort.now ps.now qs.now) }
{
    let a = Box::new(alloc, pieces_expr(alloc, sort, ps)?)?;
    let b = Box::new(alloc, pieces_expr(alloc, sort, qs)?)?;
    where_same(alloc, a, b)
}

fn hole_text(alloc: Global, sort: &Sort, text: &str) -> Result<Option<Text>, Memory>
    ensures { IfOk result (λ o. o ≡ text_in_hole sort.now text.now) }
{
    match sort {
        Sort::OfIri => source_of(alloc, text),
        Sort::OfBlank => Ok(Some(Text::new(alloc, text)?)),
        Sort::OfLit(_) => Ok(Some(Text::new(alloc, text)?)),
    }
}

fn where_cell(alloc: Global, hole: (usize, SqlType), cell: Option<Cell>) -> Result<Verdict, Memory>
    ensures { IfOk result (λ v. verdict_seen v ≡ cell_verdict hole cell) }
{
    match cell {
        None => Ok(Verdict::Never),
        Some(cell) => {
            let constant = Box::new(alloc, Expr::Const(cell, hole.1))?;
            where_same(alloc, column(alloc, hole.0)?, constant)
        }
    }
}

fn hole_makes(
    alloc: Global,
    sort: &Sort,
    hole: (usize, SqlType),
    text: &str,
) -> Result<Verdict, Memory>
    ensures { IfOk result (λ v. verdict_seen v ≡ hole_verdict sort.now hole text.now) }
{
    let Some(text) = hole_text(alloc, sort, text)? else {
        return Ok(Verdict::Never);
    };
    let cell = cell_with(alloc, hole.1, text.as_str())?;
    where_cell(alloc, hole, cell)
}

fn holes_agree(alloc: Global, h: (usize, SqlType), i: (usize, SqlType)) -> Result<Verdict, Memory>
    ensures { IfOk result (λ v. verdict_seen v ≡ holes_verdict h i) }
{
    if same_family(h.1, i.1) {
        where_same(alloc, column(alloc, h.0)?, column(alloc, i.0)?)
    } else {
        where_same(
            alloc,
            form_of_column(alloc, h.0)?,
            form_of_column(alloc, i.0)?,
        )
    }
}

fn constant_agrees(
    alloc: Global,
    sort: &Sort,
    ps: &[Piece],
    qs: &[Piece],
    hole: Option<(usize, SqlType)>,
    text: &str,
) -> Result<Verdict, Memory>
    ensures { IfOk result (λ v. verdict_seen v ≡ constant_verdict sort.now ps.now qs.now hole text.now) }
{
    match hole {
        Some(hole) => hole_makes(alloc, sort, hole, text),
        None => texts_agree(alloc, sort, ps, qs),
    }
}

fn holes_or_texts(alloc: Global, sort: &Sort, ps: &[Piece], qs: &[Piece]) -> Result<Verdict, Memory>
    ensures { IfOk result (λ v. verdict_seen v ≡ holes_or_texts_verdict sort.now ps.now qs.now (hole_alone ps.now) (hole_alone qs.now)) }
{
    match (lone_hole(ps), lone_hole(qs)) {
        (Some(h), Some(i)) => holes_agree(alloc, h, i),
        (Some(_), None) => texts_agree(alloc, sort, ps, qs),
        (None, _) => texts_agree(alloc, sort, ps, qs),
    }
}

/// The verdict of one segment, whose constants are joined.
#[tactic(auto, unfolding(crate::specs::Verdict::segment))]
pub fn segment(alloc: Global, sort: &Sort, ps: &[Piece], qs: &[Piece]) -> Result<Verdict, Memory>
    ensures { IfOk result (λ v. verdict_seen v ≡ segment_verdict sort.now ps.now qs.now) }
{
    match (constant(ps), constant(qs)) {
        (Some(s), Some(t)) => Ok(when(alloc, s == t)),
        (Some(s), None) => constant_agrees(alloc, sort, ps, qs, lone_hole(qs), s),
        (None, Some(t)) => constant_agrees(alloc, sort, ps, qs, lone_hole(ps), t),
        (None, None) => holes_or_texts(alloc, sort, ps, qs),
    }
}
