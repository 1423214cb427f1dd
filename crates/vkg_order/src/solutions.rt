// The solutions of a query in the asked order.
ghost use Rattle.std.specs.Prelude.{◌≡◌, IfOk, IsPermutation, IsSorted, drop, map, string_bytes};
ghost use Rattle.std.specs.Option.{option_cmp};
ghost use Rattle.vkg_terms.specs.Same.{term_cmp};
ghost use Rattle.vkg_order.specs.Listed.{at_most, sliced as sliced_of};
ghost use Rattle.vkg_order.specs.Ranked.{found_cmp, candidate_of, ranked as ranked_of, terms_cmp};
ghost use Rattle.vkg_order.specs.Values.{bound as bound_of};

use crate::modifiers::{Direction, Modifiers, Slice};
use crate::offer::order_cells;
use std::cmp::Ordering;
use std::marker::Model;
use vkg_base::Memory;
use vkg_cells::{Cell, order};

/// A solution of a query: the cells of its terms and, behind them, those of its keys, with its line.
#[derive(Drop)]
pub struct Candidate {
    width: usize,
    cells: Vec<Cell>,
    line: String,
}

impl Model for Candidate {
    ghost use Rattle.std.specs.Prelude.{string_bytes};
    ghost use Rattle.vkg_order.specs.Ranked.{Found, candidate_of};

    ghost Value = { Found };

    ghost view = { λ c. candidate_of c.width c.cells.items (string_bytes c.line) };
}

impl Candidate {
    /// The solution whose first cells, so many, are its terms.
    pub fn new(width: usize, cells: Vec<Cell>, line: String) -> Candidate
        ensures { result ≡ candidate_of width cells.items (string_bytes line) }
    {
        Candidate { width, cells, line }
    }

    /// The cells of the terms, and behind them those of the keys.
    pub fn cells(&self) -> &[Cell]
        ensures { map bound_of result.now ≡ self.now.terms }
    {
        self.cells.as_slice()
    }

    fn keys(&self) -> &[Cell]
        ensures { map bound_of result.now ≡ self.now.entry.keys }
    {
        behind(self.cells.as_slice(), self.width)
    }

    fn line(&self) -> &str
        ensures { result.now ≡ self.now.entry.line }
    {
        self.line.as_str()
    }

    /// The order of two solutions: by their keys, then by their lines, and last by their terms.
    fn order(&self, other: &Candidate, directions: &[Direction]) -> Ordering
        ensures { result ≡ found_cmp directions.now self.now other.now }
    {
        order_cells(directions, self.keys(), other.keys())
            .then(self.line().cmp(other.line()))
            .then(order_places(self.cells(), other.cells()))
    }
}

#[tactic(auto, using(std::proofs::lemmas::List::drop_all))]
fn behind(cells: &[Cell], width: usize) -> &[Cell]
    ensures { result.now ≡ drop width cells.now }
{
    if width <= cells.len() {
        &cells[width..]
    } else {
        &[]
    }
}

/// The order of the terms of two solutions.
fn order_places(a: &[Cell], b: &[Cell]) -> Ordering
    ensures { result ≡ terms_cmp (map bound_of a.now) (map bound_of b.now) }
{
    match a {
        [] => match b {
            [] => Ordering::Equal,
            [_, ..] => Ordering::Less,
        },
        [x, xs @ ..] => match b {
            [] => Ordering::Greater,
            [y, ys @ ..] => order_place(x, y).then(order_places(xs, ys)),
        },
    }
}

fn order_place(a: &Cell, b: &Cell) -> Ordering
    ensures { result ≡ option_cmp term_cmp (bound_of a.now) (bound_of b.now) }
{
    match a {
        Cell::Term(_) => match b {
            Cell::Term(_) => order(a, b),
            _ => Ordering::Greater,
        },
        _ => match b {
            Cell::Term(_) => Ordering::Less,
            _ => Ordering::Equal,
        },
    }
}

/// The solutions that are asked, in the asked order; of one that is there more than once each is asked.
pub fn ranked(modifiers: &Modifiers, candidates: Vec<Candidate>) -> Result<Vec<Candidate>, Memory>
    ensures { IfOk result (λ found. map (λ f. f.terms) found.items ≡ ranked_of modifiers.now candidates.items) }
{
    let mut found = candidates;
    sort(modifiers.directions.as_slice(), &mut found);
    sliced(modifiers.slice, found)
}

fn sort(directions: &[Direction], found: &mut Vec<Candidate>)
    ensures same { IsPermutation found.old.items found.new.items }
    ensures sorted { IsSorted (found_cmp directions.now) found.new.items }
{
    found.sort_unstable_by(|a, b| a.order(b, directions));
}

fn sliced(slice: Slice, found: Vec<Candidate>) -> Result<Vec<Candidate>, Memory>
    ensures { IfOk result (λ asked. asked.items ≡ sliced_of slice found.items) }
{
    let mut found = found;
    let start = found.len().min(slice.offset as usize);
    let mut asked = found.split_off(start)?;
    cut(slice.limit, &mut asked);
    Ok(asked)
}

/// Keeps as many as the limit is, if there is one.
fn cut(limit: Option<u32>, found: &mut Vec<Candidate>)
    ensures { found.new.items ≡ at_most limit found.old.items }
{
    if let Some(limit) = limit {
        found.truncate(limit as usize);
    }
}
