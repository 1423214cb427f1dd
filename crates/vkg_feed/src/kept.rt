ghost use Rattle.std.specs.Prelude.{◌≡◌, ◌∷◌, ◌++◌, [], ℕ, List, true, false, OnOk, string_bytes};
ghost use Rattle.vkg_hash.specs.Groups.{group};
ghost use Rattle.vkg_index.specs.Keys.{row_text};
ghost use Rattle.vkg_feed.specs.Kept.{Sink, keep, places};

use crate::distinct::is_there;
use std::alloc::Global;
use std::collections::HashMap;
use std::marker::Model;
use vkg_base::{Items, Memory};
use vkg_cells::Cell;
use vkg_eval::Row;
use vkg_hash::{Groups, Seed, put};
use vkg_index::text_of_row;

/// The rows that come out of some steps: each, or each once.
#[derive(Drop)]
pub struct Kept {
    once: bool,
    rows: Items<Items<Cell>>,
    groups: Groups,
}

impl Model for Kept {
    ghost use Rattle.vkg_feed.specs.Kept.{IsIndexed, Sink};

    ghost Value = { Sink };

    ghost view = { λ k. record { once = k.once; rows = k.rows } };

    ghost invariant = { λ k. IsIndexed k.once k.rows k.groups };
}

impl Kept {
    /// Keeps each row.
    pub fn each(alloc: Global) -> Kept
        ensures { result ≡ record { once = false; rows = [] } }
    {
        Kept {
            once: false,
            rows: Items::new(alloc),
            groups: HashMap::with_hasher(alloc, Seed::new(0)),
        }
    }

    /// Keeps each row once, where it first comes, found by a hash of this seed; NULL is equal to NULL here.
    pub fn once(alloc: Global, seed: Seed) -> Kept
        ensures { result ≡ record { once = true; rows = [] } }
    {
        Kept {
            once: true,
            rows: Items::new(alloc),
            groups: HashMap::with_hasher(alloc, seed),
        }
    }

    /// Takes one more row. At want of memory rows may be lost.
    pub fn push(&mut self, alloc: Global, row: &Row<'_>) -> Result<(), Memory>
        ensures { OnOk result (self.new ≡ keep self.old (row.now ∷ [])) }
    {
        let cells = row.to_cells(alloc)?;
        if self.once {
            return self.push_new(alloc, cells);
        }
        self.rows.push(cells)
    }

    fn push_new(&mut self, alloc: Global, cells: Items<Cell>) -> Result<(), Memory>
        requires { self.old.once ≡ true }
        ensures { OnOk result (self.new ≡ keep self.old (cells ∷ [])) }
    {
        let text = text_of_row(alloc, cells.as_slice())?;
        let (rows, key) = (self.rows.as_slice(), text.as_str());
        if is_there(&self.groups, rows, key, cells.as_slice()) {
            return Ok(());
        }
        match add_row(&mut self.rows, &mut self.groups, text, cells) {
            Ok(()) => Ok(()),
            Err(error) => {
                self.rows = Items::new(alloc);
                let seed = *self.groups.hasher();
                self.groups = HashMap::with_hasher(alloc, seed);
                Err(error)
            }
        }
    }

    /// The rows.
    pub fn into_rows(self) -> Items<Items<Cell>>
        ensures { result ≡ self.rows }
    {
        self.rows
    }
}

/// Adds a row, and its place to the index at its text.
fn add_row(
    rows: &mut Items<Items<Cell>>,
    groups: &mut Groups,
    text: String,
    cells: Items<Cell>,
) -> Result<(), Memory>
    requires text { string_bytes text ≡ row_text cells }
    requires index { (q : List ℕ) → group groups.old q ≡ places 0 q rows.old }
    ensures rows { OnOk result (rows.new ≡ rows.old ++ cells ∷ []) }
    ensures index { OnOk result ((q : List ℕ) → group groups.new q ≡ places 0 q rows.new) }
{
    put(groups, text, rows.len())?;
    rows.push(cells)
}
