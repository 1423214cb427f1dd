// The header of a table file.
ghost use Rattle.std.specs.Prelude.{◌≡◌, ◌==◌, not, IfOk, position, map, count_by, length};
ghost use Rattle.std.specs.List.{list_any, position_or_len};
ghost use Rattle.std.specs.Str.{bytes_eq};
ghost use Rattle.csv.specs.Records.{fields_of};
ghost use Rattle.vkg_tables.specs.Steps.{header_fault as fault_of_header, not_once, place_in, unknown};

use crate::fault::FileFault;
use crate::field::field_at;
use csv::StringRecord;
use std::alloc::Global;
use vkg_base::{Items, Memory, Text};
use vkg_schema::Column;

/// The names that a header gives, and where each column of the schema stands among them.
#[derive(Drop)]
pub struct Header {
    pub names: Items<Text>,
    pub places: Vec<usize>,
}

impl Header {
    pub fn new(alloc: Global, columns: &[Column], names: Items<Text>) -> Result<Header, Memory>
        ensures { IfOk result (λ h. (h.names ≡ names) × (h.places.items ≡ map (λ c. place_in names c) columns.now)) }
    {
        let places = places(alloc, columns, names.as_slice())?;
        Ok(Header { names, places })
    }
}

fn is_column(columns: &[Column], name: &str) -> bool
    ensures { result ≡ list_any (λ c. bytes_eq c.name name.now) columns.now }
{
    columns.iter().any(|c| c.name.as_str() == name)
}

fn find_unknown(columns: &[Column], header: &[Text]) -> Option<usize>
    ensures { result ≡ unknown columns.now header.now }
{
    header.iter().position(|f| !is_column(columns, f.as_str()))
}

fn count_named(header: &[Text], name: &str) -> usize
    ensures { result ≡ count_by (λ f. bytes_eq f name.now) header.now }
{
    header.iter().filter(|f| f.as_str() == name).count()
}

fn find_not_once(columns: &[Column], header: &[Text]) -> Option<usize>
    ensures { result ≡ not_once columns.now header.now }
{
    columns
        .iter()
        .position(|c| !(count_named(header, c.name.as_str()) == 1))
}

fn find_field(header: &[Text], name: &str) -> Option<usize>
    ensures { result ≡ position (λ f. bytes_eq f name.now) header.now }
{
    header.iter().position(|f| f.as_str() == name)
}

fn place_of(header: &[Text], column: &Column) -> usize
    ensures { result ≡ place_in header.now column.now }
{
    match find_field(header, column.name.as_str()) {
        Some(place) => place,
        None => header.len(),
    }
}

fn places(alloc: Global, columns: &[Column], header: &[Text]) -> Result<Vec<usize>, Memory>
    ensures { IfOk result (λ v. v.items ≡ map (λ c. place_in header.now c) columns.now) }
{
    Ok(columns.iter().map(|c| place_of(header, c)).collect(alloc)?)
}

pub fn header_fault(columns: &[Column], header: &[Text]) -> Option<FileFault>
    ensures { result ≡ fault_of_header columns.now header.now }
{
    if let Some(place) = find_unknown(columns, header) {
        return Some(FileFault {
            check: 2,
            row: 0,
            column: place + 1,
        });
    }
    match find_not_once(columns, header) {
        Some(place) => Some(FileFault {
            check: 3,
            row: 0,
            column: place + 1,
        }),
        None => None,
    }
}

/// The texts of a record.
pub fn texts_of(alloc: Global, fields: &StringRecord) -> Result<Items<Text>, Memory>
    ensures { IfOk result (λ r. r ≡ fields_of fields.now) }
{
    let mut texts = Items::new(alloc);
    for i in 0..fields.len() {
        texts.push(Text::new(alloc, field_at(fields, i))?)?;
    }
    Ok(texts)
}
