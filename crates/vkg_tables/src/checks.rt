ghost use Rattle.std.specs.Prelude.{◌≡◌, ◌<◌, ◌+◌, IfOk, List, length, Option, Some, None, option_map};
ghost use Rattle.std.specs.List.{AllByRecursion};
ghost use Rattle.vkg_schema.specs.Rows.{rows_of};
ghost use Rattle.std.specs.Prelude.{slice_get};
ghost use Rattle.vkg_tables.specs.Checks.{broken_references, key_fault, reference_fault, repeated_keys};
ghost use Rattle.vkg_tables.specs.Firsts.{earlier as earlier_of};
ghost use Rattle.vkg_tables.specs.Kept.{tables_seen};
ghost use Rattle.vkg_tables.specs.Parts.{HasNoTerm};

use crate::fault::TableFault;
use crate::keys::{first_orphan, first_repeat};
use std::alloc::Global;
use vkg_base::Memory;
use vkg_schema::Table;
use vkg_store::{StoredTable, TableRows, Texts};

// The place of the lesser row; of one row, the former.
fn earlier(a: Option<(usize, usize)>, b: Option<(usize, usize)>) -> Option<(usize, usize)>
    ensures { result ≡ earlier_of a b }
{
    match (a, b) {
        (None, b) => b,
        (Some(a), None) => Some(a),
        (Some(a), Some(b)) => { if b.0 < a.0 { Some(b) } else { Some(a) } }
    }
}

fn with_number(row: Option<usize>, number: usize) -> Option<(usize, usize)>
    ensures { result ≡ option_map (λ r. (r, number)) row }
{
    match row {
        Some(row) => Some((row, number)),
        None => None,
    }
}

// The least row that repeats a key, and the first key that it repeats.
fn key_place(
    alloc: Global,
    table: &Table,
    rows: &TableRows<'_>,
) -> Result<Option<(usize, usize)>, Memory>
    requires { AllByRecursion HasNoTerm rows.now }
    ensures { IfOk result (λ o. o ≡ slice_get (repeated_keys table.now rows.now) 0) }
{
    let mut least = None;
    for (k, key) in table.keys.as_slice().iter().enumerate() {
        let row = first_repeat(alloc, rows, key.columns.as_slice())?;
        least = earlier(least, with_number(row, k + 1));
    }
    Ok(least)
}

// The least row that refers to no row, and the first foreign key by which it does.
fn reference_place(
    alloc: Global,
    texts: &Texts,
    tables: &[StoredTable],
    table: &Table,
    rows: &TableRows<'_>,
) -> Result<Option<(usize, usize)>, Memory>
    requires { AllByRecursion HasNoTerm rows.now }
    ensures { IfOk result (λ o. o ≡ slice_get (broken_references (tables_seen texts.now tables.now) table.now rows.now) 0) }
{
    let mut least = None;
    for (k, reference) in table.references.as_slice().iter().enumerate() {
        let targets = rows_at(texts, tables, reference.table);
        let row = first_orphan(alloc, rows, &targets, reference.pairs.as_slice())?;
        least = earlier(least, with_number(row, k + 1));
    }
    Ok(least)
}

/// The rows of a table, and none past the last table.
pub fn rows_at<'a>(texts: &'a Texts, tables: &'a [StoredTable], table: usize) -> TableRows<'a>
    ensures { result ≡ rows_of (tables_seen texts.now tables.now) table }
{
    match tables.get(table) {
        Some(stored) => TableRows::new(stored, texts),
        None => TableRows::none(texts),
    }
}

pub fn find_key_fault(
    alloc: Global,
    schema: &[Table],
    texts: &Texts,
    tables: &[StoredTable],
) -> Result<Option<TableFault>, Memory>
    requires terms { AllByRecursion (AllByRecursion HasNoTerm) (tables_seen texts.now tables.now) }
    requires both { length tables.now ≡ length schema.now }
    ensures { IfOk result (λ o. o ≡ key_fault schema.now (tables_seen texts.now tables.now)) }
{
    for (i, table) in schema.iter().enumerate() {
        let rows = TableRows::new(&tables[i], texts);
        if let Some((row, key)) = key_place(alloc, table, &rows)? {
            return Ok(Some(TableFault {
                check: 9,
                table: i + 1,
                row,
                column: key,
            }));
        }
    }
    Ok(None)
}

pub fn find_reference_fault(
    alloc: Global,
    schema: &[Table],
    texts: &Texts,
    tables: &[StoredTable],
) -> Result<Option<TableFault>, Memory>
    requires terms { AllByRecursion (AllByRecursion HasNoTerm) (tables_seen texts.now tables.now) }
    requires both { length tables.now ≡ length schema.now }
    ensures { IfOk result (λ o. o ≡ reference_fault schema.now (tables_seen texts.now tables.now)) }
{
    for (i, table) in schema.iter().enumerate() {
        let rows = TableRows::new(&tables[i], texts);
        if let Some((row, key)) = reference_place(alloc, texts, tables, table, &rows)? {
            return Ok(Some(TableFault {
                check: 10,
                table: i + 1,
                row,
                column: key,
            }));
        }
    }
    Ok(None)
}
