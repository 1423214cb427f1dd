// What tables of a schema have.
ghost use Rattle.std.specs.Prelude.{◌≡◌};
ghost use Rattle.vkg_keys.specs.Keys.{is_full_column as is_never_null};
ghost use Rattle.vkg_key_lefts.specs.Tables.{is_full_at as full_at, keys_of as keys_of_table, references_of as references_of_table};

use vkg_base::at;
use vkg_schema::{Key, Reference, Schema, Table};

/// The keys of a table, and none where the schema does not have it.
pub fn keys_of(schema: &Schema, table: usize) -> &[Key]
    ensures { result.now ≡ keys_of_table schema.now table }
{
    match at(schema.tables(), table) {
        Some(table) => table.keys.as_slice(),
        None => &[],
    }
}

/// Its foreign keys.
pub fn references_of(schema: &Schema, table: usize) -> &[Reference]
    ensures { result.now ≡ references_of_table schema.now table }
{
    match at(schema.tables(), table) {
        Some(table) => table.references.as_slice(),
        None => &[],
    }
}

/// Whether the table has the column, and it is not NULL.
pub fn is_full_column(table: &Table, column: usize) -> bool
    ensures { result ≡ is_never_null table.now column }
{
    match at(table.columns.as_slice(), column) {
        Some(column) => column.not_null,
        None => false,
    }
}

/// Whether a table has the column, and it is not NULL.
pub fn is_full_at(schema: &Schema, table: usize, column: usize) -> bool
    ensures { result ≡ full_at schema.now table column }
{
    match at(schema.tables(), table) {
        Some(table) => is_full_column(table, column),
        None => false,
    }
}
