ghost use Rattle.std.specs.Prelude.{◌≡◌, ◌<◌, Some, length, slice_get};
ghost use Rattle.vkg_store.specs.Stored.{column_seen};

use crate::lent::{lend, number_at};
use crate::texts::Texts;
use std::marker::Model;
use vkg_cells::{CellRef, SqlType};

/// A column of a stored table, lent. It is seen as the list of its cells.
#[derive(Drop)]
pub struct Column<'a> {
    kind: SqlType,
    numbers: &'a [u32],
    rows: usize,
    texts: &'a Texts,
}

impl<'a> Model for Column<'a> {
    ghost use Rattle.std.specs.Prelude.{List};
    ghost use Rattle.vkg_cells.specs.declared.cell.Cell.{Cell};
    ghost use Rattle.vkg_store.specs.Stored.{column_seen};

    ghost Value = { List Cell };

    ghost view = { λ c. column_seen c.texts.now (record { kind = c.kind; numbers = c.numbers.now }) c.rows };
}

impl<'a> Column<'a> {
    /// A column of so many rows.
    pub(crate) fn new(
        kind: SqlType,
        numbers: &'a [u32],
        rows: usize,
        texts: &'a Texts,
    ) -> Column<'a>
        ensures { result ≡ column_seen texts.now (record { kind = kind; numbers = numbers.now }) rows }
    {
        Column {
            kind,
            numbers,
            rows,
            texts,
        }
    }

    /// The cell of a row.
    pub fn get(&self, row: usize) -> CellRef<'a>
        requires { row < length self.now }
        ensures { slice_get self.now row ≡ Some result }
    {
        lend(self.texts, self.kind, number_at(self.numbers, row))
    }
}
