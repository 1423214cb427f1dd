ghost use Rattle.std.specs.Prelude.{◌≡◌, ◌<◌, [], Ok, None, IfOk, IfErr, OnOk, OnErr, length, map};
ghost use Rattle.std.specs.List.{AllZip};
ghost use Rattle.vkg_schema.specs.Meets.{FitsColumn, MeetsSchema};
ghost use Rattle.vkg_schema.specs.Rows.{cell_at, rows_of};
ghost use Rattle.vkg_tables.specs.Checks.{key_fault, reference_fault};
ghost use Rattle.vkg_tables.specs.Kept.{AreStored, tables_seen};
ghost use Rattle.vkg_tables.specs.Seen.{FailsWith, HoldsCells, Tells, cell_of, columns_of, loaded, with_row, without_rows};

use crate::checks::{find_key_fault, find_reference_fault, rows_at};
use crate::fault::{FileError, TableError, TableFault};
use crate::load::read_file;
use std::alloc::Global;
use std::marker::Model;
use std::mem;
use vkg_base::{Items, Memory};
use vkg_cells::Cell;
use vkg_hash::Seed;
use vkg_schema::Schema;
use vkg_store::{Column, StoredTable, TableRows, Texts};

/// A schema, and of each of its tables the rows, kept by columns as numbers of texts. Tables, rows and columns count from 0
/// in calls.
#[derive(Drop)]
pub struct Database {
    schema: Schema,
    texts: Texts,
    tables: Items<StoredTable>,
}

impl Model for Database {
    ghost use Rattle.std.specs.Prelude.{List};
    ghost use Rattle.vkg_schema.specs.declared.table.Table.{Table};
    ghost use Rattle.vkg_tables.specs.Kept.{IsKept, tables_seen};
    ghost use Rattle.vkg_tables.specs.Seen.{Seen};

    ghost Value = { Seen };

    ghost view = { λ d. record { schema = d.schema; tables = tables_seen d.texts d.tables } };

    ghost invariant = { λ d. IsKept d.schema d.texts d.tables };
}

impl Database {
    /// A database of a schema, whose tables have no rows.
    pub fn new(alloc: Global, schema: &Schema) -> Result<Database, Memory>
        ensures { IfOk result (λ d. d ≡ without_rows schema.now) }
    {
        Database::with_seed(alloc, schema, Seed::new(0))
    }

    /// The same, whose texts and keys will be found by hashes of this seed.
    pub fn with_seed(alloc: Global, schema: &Schema, seed: Seed) -> Result<Database, Memory>
        ensures { IfOk result (λ d. d ≡ without_rows schema.now) }
    {
        let tables = empty_tables(alloc, schema)?;
        let schema = schema.copy()?;
        let texts = Texts::new(alloc, seed);
        Ok(Database {
            schema,
            texts,
            tables,
        })
    }

    /// The seed of the hashes.
    pub fn seed(&self) -> Seed {
        self.texts.seed()
    }

    pub fn schema(&self) -> &Schema
        ensures { result.now ≡ self.now.schema }
    {
        &self.schema
    }

    /// The rows of a table, and none past the last table.
    pub fn table(&self, table: usize) -> TableRows<'_>
        ensures rows { result ≡ rows_of self.now.tables table }
        ensures holds { HoldsCells self.now.schema self.now.tables }
    {
        rows_at(&self.texts, self.tables.as_slice(), table)
    }

    /// A column of a table.
    pub fn column(&self, table: usize, column: usize) -> Column<'_>
        requires table { table < length self.now.schema }
        requires column { column < length (columns_of self.now.schema table) }
        ensures { result ≡ map (λ row. cell_at row column) (rows_of self.now.tables table) }
    {
        self.table(table).column(column)
    }

    /// How many rows a table has.
    pub fn rows(&self, table: usize) -> usize
        ensures { result ≡ length (rows_of self.now.tables table) }
    {
        self.table(table).len()
    }

    /// How many columns a table has.
    pub fn columns(&self, table: usize) -> usize
        ensures { result ≡ length (columns_of self.now.schema table) }
    {
        match self.schema.tables().get(table) {
            Some(table) => table.columns.len(),
            None => 0,
        }
    }

    /// A copy of a cell.
    pub fn cell(&self, table: usize, row: usize, column: usize) -> Result<Cell, Memory>
        requires row { row < length (rows_of self.now.tables table) }
        requires column { column < length (columns_of self.now.schema table) }
        ensures { IfOk result (λ c. c ≡ cell_of self.now table row column) }
    {
        let row = self.table(table).row(row);
        row.cell(column).to_cell(self.tables.alloc())
    }

    /// Reads a file in CSV (RFC 4180), and puts its rows in place of those of a table. An error changes nothing.
    pub fn load_table(
        &mut self,
        alloc: Global,
        table: usize,
        bytes: &[u8],
    ) -> Result<(), TableError>
        requires { table < length self.old.schema }
        ensures ok { OnOk result (loaded self.old table bytes.now ≡ Ok self.new) }
        ensures fault { IfErr result (FailsWith (loaded self.old table bytes.now)) }
        ensures err { OnErr result (self.new ≡ self.old) }
    {
        let columns = self.schema.tables()[table].columns.as_slice();
        match read_file(alloc, columns, bytes, &mut self.texts) {
            Ok(stored) => {
                self.tables.set(table, stored);
                Ok(())
            }
            Err(FileError::Fault(fault)) => Err(TableError::Fault(TableFault {
                check: fault.check,
                table: table + 1,
                row: fault.row,
                column: fault.column,
            })),
            Err(FileError::Memory) => Err(TableError::Memory),
        }
    }

    /// Puts a row behind those of a table. Want of memory changes nothing.
    pub fn push_row(&mut self, table: usize, row: Vec<Cell>) -> Result<(), Memory>
        requires table { table < length self.old.schema }
        requires row { AllZip FitsColumn (columns_of self.old.schema table) row.items }
        ensures ok { OnOk result (self.new ≡ with_row self.old table row.items) }
        ensures err { OnErr result (self.new ≡ self.old) }
    {
        let alloc = self.tables.alloc();
        let mut tables = mem::replace(&mut self.tables, Items::new(alloc)).into_vec();
        let pushed = tables[table].push(alloc, &mut self.texts, row.as_slice());
        self.tables = Items::from_vec(tables);
        pushed
    }

    /// That no two rows of a table agree on a whole key (SQL-92, 4.10.2).
    pub fn check_keys(&self, alloc: Global) -> Result<(), TableError>
        ensures ok { OnOk result (key_fault self.now.schema self.now.tables ≡ None) }
        ensures fault { IfErr result (Tells (key_fault self.now.schema self.now.tables)) }
    {
        match find_key_fault(
            alloc,
            self.schema.tables(),
            &self.texts,
            self.tables.as_slice(),
        ) {
            Ok(None) => Ok(()),
            Ok(Some(fault)) => Err(TableError::Fault(fault)),
            Err(Memory) => Err(TableError::Memory),
        }
    }

    /// That each row without NULL in a foreign key has a row that it refers to (SQL-92, 4.10.2). Where no key is repeated
    /// either, the database meets its schema.
    pub fn check_references(&self, alloc: Global) -> Result<(), TableError>
        ensures ok { OnOk result (reference_fault self.now.schema self.now.tables ≡ None) }
        ensures meets { OnOk result (key_fault self.now.schema self.now.tables ≡ None → MeetsSchema self.now.schema self.now.tables) }
        ensures fault { IfErr result (Tells (reference_fault self.now.schema self.now.tables)) }
    {
        match find_reference_fault(
            alloc,
            self.schema.tables(),
            &self.texts,
            self.tables.as_slice(),
        ) {
            Ok(None) => Ok(()),
            Ok(Some(fault)) => Err(TableError::Fault(fault)),
            Err(Memory) => Err(TableError::Memory),
        }
    }
}

fn empty_tables(alloc: Global, schema: &Schema) -> Result<Items<StoredTable>, Memory>
    ensures stored { IfOk result (AreStored [] schema.now) }
    ensures none { IfOk result (λ ts. tables_seen [] ts ≡ map (λ t. []) schema.now) }
{
    let mut tables = Items::new(alloc);
    for table in schema.tables() {
        let stored = StoredTable::new(alloc, table.columns.as_slice())?;
        tables.push(stored)?;
    }
    Ok(tables)
}
