ghost use Rattle.std.specs.Prelude.{◌≡◌, ◌++◌, ◌∷◌, [], ℕ, List, IfOk, OnErr, OnOk, map};
ghost use Rattle.std.specs.List.{AllByRecursion, AllZip};
ghost use Rattle.vkg_schema.specs.declared.table.Column.{Column};
ghost use Rattle.vkg_schema.specs.Meets.{FitsColumn, IsColumn};
ghost use Rattle.vkg_store.specs.Held.{held, without_rows};
ghost use Rattle.vkg_store.specs.Stored.{Extends, IsStored, table_seen};

use crate::stored_column::{StoredColumn, put_row};
use crate::texts::Texts;
use std::alloc::Global;
use std::marker::Model;
use vkg_base::Memory;
use vkg_cells::Cell;
use vkg_schema::Column;

/// A table kept as columns of numbers of texts. It is seen as how many rows it has, and of each column its kind and the
/// numbers of the rows.
#[derive(Drop)]
pub struct StoredTable {
    pub(crate) rows: usize,
    pub(crate) columns: Vec<StoredColumn>,
}

impl Model for StoredTable {
    ghost use Rattle.std.specs.List.{AllByRecursion};
    ghost use Rattle.vkg_store.specs.Stored.{TableNumbers};
    ghost use Rattle.vkg_store.specs.Held.{HasRows, table_held};

    ghost Value = { TableNumbers };

    ghost view = { λ t. table_held t.rows t.columns.items };

    ghost invariant = { λ t. AllByRecursion (HasRows t.rows) t.columns.items };
}

impl StoredTable {
    /// A table of these columns, without rows.
    pub fn new(alloc: Global, columns: &[Column]) -> Result<StoredTable, Memory>
        requires { AllByRecursion IsColumn columns.now }
        ensures empty { IfOk result (λ t. (texts : List (List ℕ)) → table_seen texts t ≡ []) }
        ensures stored { IfOk result (λ t. (texts : List (List ℕ)) → IsStored texts columns.now t) }
    {
        let columns = empty_columns(alloc, columns)?;
        Ok(StoredTable { rows: 0, columns })
    }

    /// Puts a row behind the others; of its texts only the new ones are copied. Want of memory leaves the table as it was.
    pub fn push(&mut self, alloc: Global, texts: &mut Texts, row: &[Cell]) -> Result<(), Memory>
        requires { (columns : List Column) × IsStored texts.old columns self.old × AllZip FitsColumn columns row.now }
        ensures ok { OnOk result (table_seen texts.new self.new ≡ table_seen texts.old self.old ++ row.now ∷ []) }
        ensures err { OnErr result (self.new ≡ self.old) }
        ensures stored { (columns : List Column) → IsStored texts.old columns self.old → IsStored texts.new columns self.new }
        ensures extends { Extends texts.old texts.new }
    {
        let rows = self.rows;
        let Some(more) = rows.checked_add(1) else {
            return Err(Memory);
        };
        put_row(alloc, texts, &mut self.columns, rows, row)?;
        self.rows = more;
        Ok(())
    }
}

fn empty_columns(alloc: Global, columns: &[Column]) -> Result<Vec<StoredColumn>, Memory>
    ensures { IfOk result (λ v. map (held 0) v.items ≡ map without_rows columns.now) }
{
    let mut kept = Vec::new(alloc);
    for column in columns {
        kept.push(StoredColumn {
            kind: column.kind,
            numbers: Vec::new(alloc),
        })?;
    }
    Ok(kept)
}
