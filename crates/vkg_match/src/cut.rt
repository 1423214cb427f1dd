// A composed text, cut where no hole's text can reach.
ghost use Rattle.std.specs.Prelude.{◌≡◌, ◌++◌, ◌∷◌, [], IfOk, string_bytes, fold, chars};
ghost use Rattle.vkg_match.specs.Cut.{cut_at as cut_after, cut_character as character_cut, cut_piece as piece_cut, cut_pieces as pieces_cut, last_pieces as end_of, text_pieces, uncut, with_character as character_added};

use crate::breaks::is_break;
use std::alloc::Global;
use std::marker::Model;
use vkg_base::{Items, Memory, Text};
use vkg_cells::SqlType;
use vkg_expr::{Piece, Sort};

/// The pieces before a break, and the break.
#[derive(Drop)]
pub struct Segment {
    pub pieces: Items<Piece>,
    pub mark: char,
}

/// The segments that end at a break, and behind them some pieces and a text.
#[derive(Drop)]
pub struct Cut {
    done: Items<Segment>,
    pieces: Items<Piece>,
    text: String,
}

impl Model for Cut {
    ghost use Rattle.std.specs.Prelude.{string_bytes};
    ghost use Rattle.vkg_match.specs.Cut.{Cut};

    ghost Value = { Cut };

    ghost view = { λ c. record { done = c.done; pieces = c.pieces; text = string_bytes c.text } };
}

impl Cut {
    /// Nothing.
    pub fn new(alloc: Global) -> Cut
        ensures { result ≡ uncut }
    {
        Cut {
            done: Items::new(alloc),
            pieces: Items::new(alloc),
            text: String::new(alloc),
        }
    }

    /// The segments that end at a break, and the last one.
    pub fn into_segments(self) -> Result<(Items<Segment>, Items<Piece>), Memory>
        ensures { IfOk result (λ r. (r.0 ≡ self.done) × (r.1 ≡ end_of self)) }
    {
        let Cut { done, pieces, text } = self;
        let last = with_text(pieces, text)?;
        Ok((done, last))
    }
}

/// The pieces and behind them a text, where it is not empty.
fn with_text(pieces: Items<Piece>, text: String) -> Result<Items<Piece>, Memory>
    ensures { IfOk result (λ ps. ps ≡ pieces ++ text_pieces (string_bytes text)) }
{
    if text.as_str() == "" {
        return Ok(pieces);
    }
    let mut pieces = pieces;
    pieces.push(Piece::Chars(Text::from_string(text)))?;
    Ok(pieces)
}

fn cut_at(alloc: Global, cut: Cut, mark: char) -> Result<Cut, Memory>
    ensures { IfOk result (λ r. r ≡ cut_after cut mark) }
{
    let Cut { done, pieces, text } = cut;
    let mut done = done;
    let pieces = with_text(pieces, text)?;
    done.push(Segment { pieces, mark })?;
    Ok(Cut {
        done,
        pieces: Items::new(alloc),
        text: String::new(alloc),
    })
}

fn with_character(cut: Cut, c: char) -> Result<Cut, Memory>
    ensures { IfOk result (λ r. r ≡ character_added cut c) }
{
    let Cut { done, pieces, text } = cut;
    let mut text = text;
    text.push(c)?;
    Ok(Cut { done, pieces, text })
}

#[tactic(auto, unfolding(crate::specs::Cut::cut_character))]
fn cut_character(alloc: Global, sort: &Sort, cut: Cut, c: char) -> Result<Cut, Memory>
    ensures { IfOk result (λ r. r ≡ character_cut sort.now cut c) }
{
    if is_break(sort, c) {
        cut_at(alloc, cut, c)
    } else {
        with_character(cut, c)
    }
}

fn cut_text(alloc: Global, sort: &Sort, cut: Cut, text: &str) -> Result<Cut, Memory>
    ensures { IfOk result (λ r. r ≡ fold (character_cut sort.now) cut (chars text.now)) }
{
    let mut so_far = cut;
    for c in text.chars() {
        so_far = cut_character(alloc, sort, so_far, c)?;
    }
    Ok(so_far)
}

fn with_hole(alloc: Global, cut: Cut, at: usize, kind: SqlType) -> Result<Cut, Memory>
    ensures { IfOk result (λ r. r ≡ record { done = cut.done; pieces = end_of cut ++ Piece.Hole at kind ∷ []; text = [] }) }
{
    let Cut { done, pieces, text } = cut;
    let mut pieces = with_text(pieces, text)?;
    pieces.push(Piece::Hole(at, kind))?;
    Ok(Cut {
        done,
        pieces,
        text: String::new(alloc),
    })
}

#[tactic(auto, unfolding(crate::specs::Cut::cut_piece))]
fn cut_piece(alloc: Global, sort: &Sort, cut: Cut, piece: &Piece) -> Result<Cut, Memory>
    ensures { IfOk result (λ r. r ≡ piece_cut sort.now cut piece.now) }
{
    match piece {
        Piece::Chars(text) => cut_text(alloc, sort, cut, text.as_str()),
        Piece::Hole(at, kind) => with_hole(alloc, cut, *at, *kind),
    }
}

/// The text of pieces, cut at the breaks of its constants.
pub fn cut_pieces(alloc: Global, sort: &Sort, pieces: &[Piece]) -> Result<Cut, Memory>
    ensures { IfOk result (λ r. r ≡ pieces_cut sort.now pieces.now) }
{
    let mut so_far = Cut::new(alloc);
    for piece in pieces {
        so_far = cut_piece(alloc, sort, so_far, piece)?;
    }
    Ok(so_far)
}

/// One constant, cut at its breaks.
#[tactic(auto, unfolding(crate::specs::Cut::cut_piece))]
pub fn cut_constant(alloc: Global, sort: &Sort, text: &str) -> Result<Cut, Memory>
    ensures { IfOk result (λ r. r ≡ pieces_cut sort.now (Piece.Chars text.now ∷ [])) }
{
    cut_text(alloc, sort, Cut::new(alloc), text)
}
