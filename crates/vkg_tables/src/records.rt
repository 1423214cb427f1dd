// The records of a text in CSV (RFC 4180), as the crate `csv` reads them.
ghost use Rattle.std.specs.Prelude.{◌≡◌, IfOk, map};
ghost use Rattle.csv.specs.Reading.{NotLengths, default_config, error_kind, records, strip_bom};
ghost use Rattle.csv.specs.Records.{AllText, fields_of};
ghost use Rattle.vkg_tables.specs.Texts.{AreTexts};

use csv::{ByteRecord, Error, ReaderBuilder, StringRecord};
use std::alloc::Global;
use vkg_base::Memory;

// A reader over bytes in memory fails by want of memory, or by records of unequal lengths, which a flexible reader admits.
fn want_of_memory(error: Error) -> Memory
    requires { NotLengths (error_kind error) }
{
    let _ = error;
    Memory
}

// Every record of the bytes, with the first.
fn byte_records(alloc: Global, text: &[u8]) -> Result<Vec<ByteRecord>, Memory>
    ensures { IfOk result (λ v. map fields_of v.items ≡ records default_config (strip_bom text.now)) }
{
    let rdr = ReaderBuilder::new()
        .has_headers(false)
        .flexible(true)
        .from_reader(alloc, text);
    let mut rows = Vec::new(alloc);
    for row in rdr.into_byte_records() {
        let row = match row {
            Ok(row) => row,
            Err(error) => return Err(want_of_memory(error)),
        };
        if rows.push(row).is_err() {
            return Err(Memory);
        }
    }
    Ok(rows)
}

/// Every record of a text, the header row too; their fields are texts. A first byte order mark is dropped.
pub fn text_records(alloc: Global, text: &str) -> Result<Vec<ByteRecord>, Memory>
    ensures records { IfOk result (λ v. map fields_of v.items ≡ records default_config (strip_bom text.now)) }
    ensures texts { IfOk result (λ v. AreTexts (map fields_of v.items)) }
{
    byte_records(alloc, text.as_bytes())
}

/// The text of a record whose fields are texts.
pub fn text_of(row: ByteRecord) -> StringRecord
    requires { AllText (fields_of row) }
    ensures { fields_of result ≡ fields_of row }
{
    match StringRecord::from_byte_record(row) {
        Ok(row) => row,
        Err(_) => unreachable!(),
    }
}
