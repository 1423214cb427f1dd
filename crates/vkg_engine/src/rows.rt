ghost use Rattle.std.specs.Prelude.{◌≡◌, ◌<◌, ◌==◌, IfOk, length, map, slice_get, Some};

use std::alloc::Global;
use std::marker::Model;
use vkg_base::{Items, Memory};
use vkg_cells::Cell;

/// A list of rows, each a list of cells.
#[derive(Drop)]
pub struct Rows {
    rows: Vec<Vec<Cell>>,
}

impl Model for Rows {
    ghost use Rattle.std.specs.Prelude.{List, map};
    ghost use Rattle.vkg_cells.specs.declared.cell.Cell.{Cell};

    ghost Value = { List (List Cell) };

    ghost view = { λ r. map (λ row. row.items) r.rows.items };
}

impl Rows {
    pub(crate) fn from_items(alloc: Global, items: Items<Items<Cell>>) -> Result<Rows, Memory>
        ensures { IfOk result (λ r. r ≡ items) }
    {
        let mut rows = Vec::new(alloc);
        for row in items.into_vec() {
            rows.push(row.into_vec())?;
        }
        Ok(Rows { rows })
    }

    pub fn len(&self) -> usize
        ensures { result ≡ length self.now }
    {
        self.rows.len()
    }

    pub fn is_empty(&self) -> bool
        ensures { result ≡ (length self.now == 0) }
    {
        self.rows.is_empty()
    }

    /// The cells of a row.
    pub fn row(&self, i: usize) -> &[Cell]
        requires { i < length self.now }
        ensures { slice_get self.now i ≡ Some result.now }
    {
        self.rows[i].as_slice()
    }

    /// The rows as lists of cells.
    pub fn into_list(self) -> Vec<Vec<Cell>>
        ensures { map (λ row. row.items) result.items ≡ self }
    {
        let Rows { rows } = self;
        rows
    }
}
