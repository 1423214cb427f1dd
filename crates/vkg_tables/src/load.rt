// The rows of a table file.
ghost use Rattle.std.specs.Prelude.{◌≡◌, ◌<◌, ◌+◌, IfOk, IfErr, Ok, length, map};
ghost use Rattle.csv.specs.Records.{fields_of};
ghost use Rattle.std.specs.List.{AllByRecursion};
ghost use Rattle.vkg_schema.specs.Meets.{IsColumn};
ghost use Rattle.vkg_store.specs.Stored.{Extends, IsStored};
ghost use Rattle.vkg_tables.specs.Kept.{GivesTable};
ghost use Rattle.vkg_tables.specs.Steps.{FailsAs, Gives, cells_from, file_records, place_in, row_from, rows_from, table_from};
ghost use Rattle.vkg_tables.specs.TableFile.{table_of_bytes};
ghost use Rattle.vkg_tables.specs.Texts.{AreTexts};

use crate::fault::{FileError, at};
use crate::field::{field_at, read_field};
use crate::header::{Header, header_fault, texts_of};
use crate::records::{text_of, text_records};
use csv::{ByteRecord, StringRecord};
use std::alloc::Global;
use std::collections::VecDeque;
use vkg_base::{Items, Memory};
use vkg_cells::Cell;
use vkg_schema::Column;
use vkg_store::{StoredTable, Texts};

/// The most bytes of a file: of a table (T11), and of every other file that the program reads.
pub const MOST_BYTES: usize = 2_147_483_647;

// The cells of a row, in the order of the schema's columns.
fn read_cells(
    alloc: Global,
    columns: &[Column],
    header: &Header,
    row: usize,
    fields: &StringRecord,
) -> Result<Items<Cell>, FileError>
    requires { header.now.places.items ≡ map (λ c. place_in header.now.names c) columns.now }
    ensures { Gives (cells_from header.now.names columns.now row 1 (fields_of fields.now)) result }
{
    let places = header.places.as_slice();
    let mut cells = Items::new(alloc);
    for (i, column) in columns.iter().enumerate() {
        let cell = read_field(alloc, column, row, i + 1, field_at(fields, places[i]))?;
        cells.push(cell)?;
    }
    Ok(cells)
}

fn read_row(
    alloc: Global,
    columns: &[Column],
    header: &Header,
    row: usize,
    fields: &StringRecord,
) -> Result<Items<Cell>, FileError>
    requires { header.now.places.items ≡ map (λ c. place_in header.now.names c) columns.now }
    ensures { Gives (row_from header.now.names columns.now row (fields_of fields.now)) result }
{
    if fields.len() != header.names.len() {
        return Err(at(4, row, 0));
    }
    read_cells(alloc, columns, header, row, fields)
}

// The number of the next row.
fn next_row(row: usize) -> Result<usize, Memory>
    ensures { IfOk result (λ n. n ≡ row + 1) }
{
    match row.checked_add(1) {
        Some(next) => Ok(next),
        None => Err(Memory),
    }
}

// The rows of the records, which are numbered from 1. Each is stored as it is read, and its record dropped.
fn read_rows(
    alloc: Global,
    columns: &[Column],
    header: &Header,
    records: VecDeque<ByteRecord>,
    texts: &mut Texts,
) -> Result<StoredTable, FileError>
    requires places { header.now.places.items ≡ map (λ c. place_in header.now.names c) columns.now }
    requires columns { AllByRecursion IsColumn columns.now }
    requires texts { AreTexts (map fields_of records.items) }
    ensures rows { GivesTable texts.new (rows_from header.now.names columns.now 1 (map fields_of records.items)) result }
    ensures stored { IfOk result (IsStored texts.new columns.now) }
    ensures extends { Extends texts.old texts.new }
{
    let mut table = StoredTable::new(alloc, columns)?;
    let mut last = 0;
    for record in records {
        let row = next_row(last)?;
        let fields = text_of(record);
        let cells = read_row(alloc, columns, header, row, &fields)?;
        table.push(alloc, texts, cells.as_slice())?;
        last = row;
    }
    Ok(table)
}

fn read_table(
    alloc: Global,
    columns: &[Column],
    records: Vec<ByteRecord>,
    texts: &mut Texts,
) -> Result<StoredTable, FileError>
    requires columns { AllByRecursion IsColumn columns.now }
    requires texts { AreTexts (map fields_of records.items) }
    ensures rows { GivesTable texts.new (table_from columns.now (map fields_of records.items)) result }
    ensures stored { IfOk result (IsStored texts.new columns.now) }
    ensures extends { Extends texts.old texts.new }
{
    let mut records = VecDeque::from_vec(records);
    let Some(first) = records.pop_front() else {
        return Err(at(1, 0, 0));
    };
    let names = texts_of(alloc, &text_of(first))?;
    if let Some(fault) = header_fault(columns, names.as_slice()) {
        return Err(FileError::Fault(fault));
    }
    let header = Header::new(alloc, columns, names)?;
    read_rows(alloc, columns, &header, records, texts)
}

// The records of a file.
fn read_records(alloc: Global, bytes: &[u8]) -> Result<Vec<ByteRecord>, FileError>
    ensures ok { IfOk result (λ v. file_records bytes.now ≡ Ok (map fields_of v.items)) }
    ensures texts { IfOk result (λ v. AreTexts (map fields_of v.items)) }
    ensures err { IfErr result (λ e. FailsAs (file_records bytes.now) e) }
{
    if bytes.len() > MOST_BYTES {
        return Err(at(11, 0, 0));
    }
    let Ok(text) = str::from_utf8(bytes) else {
        return Err(at(5, 0, 0));
    };
    Ok(text_records(alloc, text)?)
}

/// The rows of a file, stored as numbers of the texts. Texts that an error leaves behind are no cell's.
pub fn read_file(
    alloc: Global,
    columns: &[Column],
    bytes: &[u8],
    texts: &mut Texts,
) -> Result<StoredTable, FileError>
    requires { AllByRecursion IsColumn columns.now }
    ensures rows { GivesTable texts.new (table_of_bytes columns.now bytes.now) result }
    ensures stored { IfOk result (IsStored texts.new columns.now) }
    ensures extends { Extends texts.old texts.new }
{
    let records = read_records(alloc, bytes)?;
    read_table(alloc, columns, records, texts)
}
