ghost use Rattle.std.specs.Prelude.{◌≡◌, List, map, string_bytes};
ghost use Rattle.std.specs.Option.{option_copied};
ghost use Rattle.vkg_terms.specs.declared.term.Term.{Term};
ghost use Rattle.vkg_order.specs.Entries.{directed_cmp, entry_cmp, entry_of, first_value, keys_cmp, other_values};
ghost use Rattle.vkg_order.specs.Kept.{line_first_cmp};
ghost use Rattle.vkg_order.specs.Values.{bound as bound_of};

use crate::modifiers::Direction;
use crate::values::{bound, order_values};
use std::cmp::Ordering;
use std::marker::Model;
use vkg_cells::Cell;
use vkg_terms::Term;

/// An entry of an answer: the cells of its keys, and its line.
#[derive(Drop)]
pub(crate) struct Offer {
    keys: Vec<Cell>,
    line: String,
}

impl Model for Offer {
    ghost use Rattle.std.specs.Prelude.{string_bytes};
    ghost use Rattle.vkg_order.specs.Entries.{Entry, entry_of};

    ghost Value = { Entry };

    ghost view = { λ o. entry_of o.keys.items (string_bytes o.line) };
}

impl Offer {
    pub(crate) fn new(keys: Vec<Cell>, line: String) -> Offer
        ensures { result ≡ entry_of keys.items (string_bytes line) }
    {
        Offer { keys, line }
    }

    pub(crate) fn line(&self) -> &str
        ensures { result.now ≡ self.now.line }
    {
        self.line.as_str()
    }

    pub(crate) fn into_line(self) -> String
        ensures { string_bytes result ≡ self.line }
    {
        let Offer { keys, line } = self;
        std::mem::drop(keys);
        line
    }

    /// The order of two entries: by their keys, and last by their lines.
    pub(crate) fn order(&self, other: &Offer, directions: &[Direction]) -> Ordering
        ensures { result ≡ entry_cmp directions.now self.now other.now }
    {
        order_cells(directions, self.keys.as_slice(), other.keys.as_slice()).then(
            self.line().cmp(other.line()),
        )
    }

    /// The order of two entries by their lines, and last by their keys.
    pub(crate) fn order_by_line(&self, other: &Offer, directions: &[Direction]) -> Ordering
        ensures { result ≡ line_first_cmp directions.now self.now other.now }
    {
        self.line().cmp(other.line()).then(order_cells(
            directions,
            self.keys.as_slice(),
            other.keys.as_slice(),
        ))
    }
}

pub(crate) fn order_cells(directions: &[Direction], a: &[Cell], b: &[Cell]) -> Ordering
    ensures { result ≡ keys_cmp directions.now (map bound_of a.now) (map bound_of b.now) }
{
    match directions {
        [] => Ordering::Equal,
        [direction, directions @ ..] => order_directed(*direction, first(a), first(b)).then(
            order_cells(directions, others(a), others(b)),
        ),
    }
}

fn order_directed(direction: Direction, a: Option<&Term>, b: Option<&Term>) -> Ordering
    ensures { result ≡ directed_cmp direction (option_copied a.entry) (option_copied b.entry) }
{
    match direction {
        Direction::Ascending => order_values(a, b),
        Direction::Descending => order_values(b, a),
    }
}

/// The value of the first key.
fn first(cells: &[Cell]) -> Option<&Term>
    ensures { option_copied result ≡ first_value (map bound_of cells.now) }
{
    match cells {
        [] => None,
        [cell, ..] => bound(cell),
    }
}

fn others(cells: &[Cell]) -> &[Cell]
    ensures { map bound_of result.now ≡ other_values (map bound_of cells.now) }
{
    match cells {
        [] => &[],
        [_, cells @ ..] => cells,
    }
}
