// A field of a record, and its cell.
ghost use Rattle.std.specs.Prelude.{◌≡◌};
ghost use Rattle.csv.specs.Records.{fields_of};
ghost use Rattle.vkg_tables.specs.Field.{field_of, stands_for_null};
ghost use Rattle.vkg_tables.specs.Steps.{Gives, field_cell as cell_of_text};

use crate::fault::{FileError, at};
use csv::StringRecord;
use std::alloc::Global;
use vkg_cells::{Cell, FieldFault, SqlType, read_cell};
use vkg_schema::Column;

/// The field at a place, and an empty text past the end.
pub fn field_at(fields: &StringRecord, place: usize) -> &str
    ensures { result.now ≡ field_of (fields_of fields.now) place }
{
    match fields.get(place) {
        Some(text) => text,
        None => "",
    }
}

/// Whether a field of a kind is NULL.
fn is_null_field(kind: SqlType, text: &str) -> bool
    ensures { result ≡ stands_for_null kind text.now }
{
    text == "\\N" || text == "" && !matches!(kind, SqlType::Text)
}

/// The cell of a field under a column.
pub fn read_field(
    alloc: Global,
    column: &Column,
    row: usize,
    place: usize,
    text: &str,
) -> Result<Cell, FileError>
    ensures { Gives (cell_of_text column.now row place text.now) result }
{
    if is_null_field(column.kind, text) {
        return if column.not_null {
            Err(at(7, row, place))
        } else {
            Ok(Cell::Null)
        };
    }
    match read_cell(alloc, column.kind, text) {
        Ok(cell) => Ok(cell),
        Err(FieldFault::BadValue) => Err(at(6, row, place)),
        Err(FieldFault::TooWide) => Err(at(8, row, place)),
        Err(FieldFault::Memory) => Err(FileError::Memory),
    }
}
