ghost use Rattle.std.specs.Prelude.{◌≡◌, [], ◌≤◌, IfOk, OnErr, OnOk, length};
ghost use Rattle.std.specs.List.{AllZip};
ghost use Rattle.vkg_store.specs.Held.{ArePut, CanTake, IsNumberOf, IsPut, KeepsRows, whole};
ghost use Rattle.vkg_store.specs.Stored.{Extends, stored_at};

use crate::lent::{lend, number_at};
use crate::texts::Texts;
use std::alloc::Global;
use vkg_base::Memory;
use vkg_cells::{Cell, CellRef, SqlType, form};

/// A column: of each row the number of its cell. A number behind those of the rows stands for nothing.
#[derive(Drop)]
pub struct StoredColumn {
    pub kind: SqlType,
    pub numbers: Vec<u32>,
}

impl StoredColumn {
    /// The cell of a row, lent, and NULL past the last number.
    pub fn cell<'a>(&self, texts: &'a Texts, row: usize) -> CellRef<'a>
        ensures { result ≡ stored_at texts.now row (whole self.now) }
    {
        lend(texts, self.kind, number_at(self.numbers.as_slice(), row))
    }

    /// Puts a cell behind so many rows. Want of memory leaves the rows as they were.
    pub fn put(
        &mut self,
        alloc: Global,
        texts: &mut Texts,
        rows: usize,
        cell: &Cell,
    ) -> Result<(), Memory>
        requires { CanTake rows self.old cell.now }
        ensures ok { OnOk result (IsPut texts.new rows self.old cell.now self.new) }
        ensures err { OnErr result (KeepsRows rows self.old self.new) }
        ensures extends { Extends texts.old texts.new }
    {
        self.numbers.truncate(rows);
        let number = number_of(alloc, texts, cell)?;
        self.numbers.push(number)?;
        Ok(())
    }
}

/// The number of a cell, whose lexical form is interned.
fn number_of(alloc: Global, texts: &mut Texts, cell: &Cell) -> Result<u32, Memory>
    ensures stands { IfOk result (IsNumberOf texts.new cell.now) }
    ensures bound { IfOk result (λ n. n ≤ length texts.new) }
    ensures extends { Extends texts.old texts.new }
{
    match form(cell) {
        Some(form) => texts.intern(alloc, form),
        None => Ok(0),
    }
}

/// Puts the cells of a row behind so many rows. Want of memory leaves the rows as they were.
pub fn put_row(
    alloc: Global,
    texts: &mut Texts,
    columns: &mut Vec<StoredColumn>,
    rows: usize,
    row: &[Cell],
) -> Result<(), Memory>
    requires { AllZip (CanTake rows) columns.old.items row.now }
    ensures ok { OnOk result (ArePut texts.new rows (length row.now) columns.old.items row.now columns.new.items) }
    ensures err { OnErr result (AllZip (KeepsRows rows) columns.old.items columns.new.items) }
    ensures extends { Extends texts.old texts.new }
{
    for (k, cell) in row.iter().enumerate() {
        columns[k].put(alloc, texts, rows, cell)?;
    }
    Ok(())
}
