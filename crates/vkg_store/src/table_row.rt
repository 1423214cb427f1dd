ghost use Rattle.std.specs.Prelude.{◌≡◌, ◌<◌, [], Some, length, map, slice_get};
ghost use Rattle.vkg_schema.specs.Rows.{cell_at};
ghost use Rattle.vkg_store.specs.Stored.{table_seen};

use crate::column::Column;
use crate::stored_column::StoredColumn;
use crate::stored_table::StoredTable;
use crate::texts::Texts;
use std::marker::Model;
use vkg_cells::{CellRef, SqlType};
use vkg_hash::Seed;

/// The rows of a stored table, lent. They are seen as the list of the rows.
#[derive(Drop)]
pub struct TableRows<'a> {
    rows: usize,
    columns: &'a [StoredColumn],
    texts: &'a Texts,
}

impl<'a> Model for TableRows<'a> {
    ghost use Rattle.std.specs.Prelude.{List};
    ghost use Rattle.vkg_schema.specs.Rows.{Row};
    ghost use Rattle.vkg_store.specs.Held.{table_held};
    ghost use Rattle.vkg_store.specs.Stored.{table_seen};

    ghost Value = { List Row };

    ghost view = { λ r. table_seen r.texts.now (table_held r.rows r.columns.now) };
}

impl<'a> TableRows<'a> {
    /// The rows of a table whose numbers are those of these texts.
    pub fn new(table: &'a StoredTable, texts: &'a Texts) -> TableRows<'a>
        ensures { result ≡ table_seen texts.now table.now }
    {
        TableRows {
            rows: table.rows,
            columns: table.columns.as_slice(),
            texts,
        }
    }

    /// No rows.
    pub fn none(texts: &'a Texts) -> TableRows<'a>
        ensures { result ≡ [] }
    {
        TableRows {
            rows: 0,
            columns: &[],
            texts,
        }
    }

    /// How many rows there are.
    pub fn len(&self) -> usize
        ensures { result ≡ length self.now }
    {
        self.rows
    }

    /// A seed for hashes of what stands in the rows.
    pub fn seed(&self) -> Seed {
        self.texts.seed()
    }

    /// The row at a place.
    pub fn row(&self, at: usize) -> TableRow<'a>
        requires { at < length self.now }
        ensures { slice_get self.now at ≡ Some result }
    {
        TableRow {
            columns: self.columns,
            texts: self.texts,
            at,
        }
    }

    /// The cells of a column, and NULL in each row past the last column.
    pub fn column(&self, at: usize) -> Column<'a>
        ensures { result ≡ map (λ row. cell_at row at) self.now }
    {
        match vkg_base::at(self.columns, at) {
            Some(column) => Column::new(
                column.kind,
                column.numbers.as_slice(),
                self.rows,
                self.texts,
            ),
            None => Column::new(SqlType::Text, &[], self.rows, self.texts),
        }
    }
}

/// A row of a stored table, lent. It is seen as the list of its cells.
#[derive(Drop)]
pub struct TableRow<'a> {
    columns: &'a [StoredColumn],
    texts: &'a Texts,
    at: usize,
}

impl<'a> Model for TableRow<'a> {
    ghost use Rattle.std.specs.Prelude.{map};
    ghost use Rattle.vkg_schema.specs.Rows.{Row};
    ghost use Rattle.vkg_store.specs.Held.{whole};
    ghost use Rattle.vkg_store.specs.Stored.{row_at};

    ghost Value = { Row };

    ghost view = { λ r. row_at r.texts.now (map whole r.columns.now) r.at };
}

impl<'a> TableRow<'a> {
    /// The cell of a column, and NULL past the last column.
    pub fn cell(&self, column: usize) -> CellRef<'a>
        ensures { result ≡ cell_at self.now column }
    {
        match vkg_base::at(self.columns, column) {
            Some(column) => column.cell(self.texts, self.at),
            None => CellRef::null(),
        }
    }

    /// How many cells there are.
    pub fn len(&self) -> usize
        ensures { result ≡ length self.now }
    {
        self.columns.len()
    }
}
