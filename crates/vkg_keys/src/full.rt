// Keys without NULL.
ghost use Rattle.std.specs.Prelude.{◌≡◌};
ghost use Rattle.vkg_keys.specs.Keys.{is_full as has_no_nullable, is_full_column as is_never_null};

use vkg_base::at;
use vkg_schema::{Key, Table};

/// Whether no column of the key may be NULL.
pub fn is_full(table: &Table, key: &Key) -> bool
    ensures { result ≡ has_no_nullable table.now key.now }
{
    key.columns
        .as_slice()
        .iter()
        .all(|column| is_full_column(table, *column))
}

/// Whether the table has the column, and it is not NULL.
fn is_full_column(table: &Table, column: usize) -> bool
    ensures { result ≡ is_never_null table.now column }
{
    match at(table.columns.as_slice(), column) {
        Some(column) => column.not_null,
        None => false,
    }
}
