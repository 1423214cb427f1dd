// What tables of a schema have.
ghost use Rattle.std.specs.Prelude.{◌≡◌};
ghost use Rattle.vkg_schema.specs.Kinds.{columns_of as columns_of_table};
ghost use Rattle.vkg_key_joins.specs.Tables.{keys_of as keys_of_table, references_of as references_of_table};

use vkg_base::at;
use vkg_schema::{Column, Key, Reference, Schema};

/// The columns of a table, and none where the schema does not have it.
pub fn columns_of(schema: &Schema, table: usize) -> &[Column]
    ensures { result.now ≡ columns_of_table schema.now table }
{
    match at(schema.tables(), table) {
        Some(table) => table.columns.as_slice(),
        None => &[],
    }
}

/// Its keys.
pub fn keys_of(schema: &Schema, table: usize) -> &[Key]
    ensures { result.now ≡ keys_of_table schema.now table }
{
    match at(schema.tables(), table) {
        Some(table) => table.keys.as_slice(),
        None => &[],
    }
}

/// Its foreign keys.
pub fn references_of(schema: &Schema, table: usize) -> &[Reference]
    ensures { result.now ≡ references_of_table schema.now table }
{
    match at(schema.tables(), table) {
        Some(table) => table.references.as_slice(),
        None => &[],
    }
}
