ghost use Rattle.std.specs.Prelude.{◌≡◌, ◌∷◌, ◌++◌, [], IfOk, OnOk, OnErr, length, map, string_bytes};
ghost use Rattle.vkg_order.specs.Entries.{entry_of};
ghost use Rattle.vkg_order.specs.Kept.{StandFor};
ghost use Rattle.vkg_order.specs.Listed.{IsWithin, at_most, listed, sliced};

use crate::held::{enter, settle};
use crate::modifiers::{Modifiers, Slice};
use crate::offer::Offer;
use std::alloc::Global;
use std::marker::Model;
use vkg_base::{Lines, Memory};
use vkg_cells::Cell;

/// Takes the entries of an answer in any order, and gives the lines that are asked, in the asked order.
///
/// With a limit it never holds more entries than OFFSET and LIMIT together.
#[derive(Drop)]
pub struct Keeper {
    modifiers: Modifiers,
    held: Vec<Offer>,
    /// Whether they stand in the asked order.
    is_sorted: bool,
}

impl Model for Keeper {
    ghost use Rattle.vkg_order.specs.Kept.{IsSound, Kept};

    ghost Value = { Kept };

    ghost view = { λ k. record { modifiers = k.modifiers; held = k.held.items } };

    ghost invariant = { λ k. IsSound k.modifiers k.held.items k.is_sorted };
}

impl Keeper {
    /// A keeper that holds nothing.
    pub fn new(alloc: Global, modifiers: Modifiers) -> Keeper
        ensures asked { result.modifiers ≡ modifiers }
        ensures none { result.held ≡ [] }
    {
        let is_sorted = !modifiers.slice.has_room(0);
        Keeper {
            modifiers,
            held: Vec::new(alloc),
            is_sorted,
        }
    }

    /// How many entries are held.
    pub fn len(&self) -> usize
        ensures count { result ≡ length self.now.held }
        ensures within { IsWithin self.now.modifiers.slice result }
    {
        self.held.len()
    }

    /// Takes an entry, the cells of its keys and its line. A key without a cell has no value. At want of memory the entry is dropped.
    pub fn offer(&mut self, keys: Vec<Cell>, line: String) -> Result<(), Memory>
        ensures asked { self.new.modifiers ≡ self.old.modifiers }
        ensures ok { OnOk result (StandFor self.old.modifiers self.new.held (self.old.held ++ entry_of keys.items (string_bytes line) ∷ [])) }
        ensures err { OnErr result (self.new ≡ self.old) }
    {
        let offer = Offer::new(keys, line);
        if self.is_sorted {
            return enter(&self.modifiers, &mut self.held, offer);
        }
        self.held.push(offer)?;
        if !self.modifiers.slice.has_room(self.held.len()) {
            settle(&self.modifiers, &mut self.held);
            self.is_sorted = true;
        }
        Ok(())
    }

    /// The lines that are asked of the entries that were offered.
    pub fn finish(self, alloc: Global) -> Result<Lines, Memory>
        ensures { IfOk result (λ lines. lines ≡ listed self.modifiers self.held) }
    {
        let Keeper {
            modifiers,
            held,
            is_sorted: _,
        } = self;
        listed_lines(alloc, &modifiers, held)
    }
}

fn listed_lines(alloc: Global, modifiers: &Modifiers, held: Vec<Offer>) -> Result<Lines, Memory>
    ensures { IfOk result (λ lines. lines ≡ listed modifiers.now held.items) }
{
    let mut held = held;
    settle(modifiers, &mut held);
    sliced_lines(alloc, modifiers.slice, held)
}

fn sliced_lines(alloc: Global, slice: Slice, held: Vec<Offer>) -> Result<Lines, Memory>
    ensures { IfOk result (λ lines. lines ≡ sliced slice (map (λ e. e.line) held.items)) }
{
    let mut held = held;
    let start = held.len().min(slice.offset as usize);
    let mut asked = held.split_off(start)?;
    cut(slice.limit, &mut asked);
    lines_of(alloc, asked)
}

/// Keeps as many entries as the limit is, if there is one.
fn cut(limit: Option<u32>, held: &mut Vec<Offer>)
    ensures { map (λ e. e.line) held.new.items ≡ at_most limit (map (λ e. e.line) held.old.items) }
{
    if let Some(limit) = limit {
        held.truncate(limit as usize);
    }
}

fn lines_of(alloc: Global, held: Vec<Offer>) -> Result<Lines, Memory>
    ensures { IfOk result (λ lines. lines ≡ map (λ e. e.line) held.items) }
{
    let mut lines = Lines::new(alloc);
    for offer in held {
        lines.push(offer.into_line())?;
    }
    Ok(lines)
}
