ghost use Rattle.std.specs.Prelude.{◌≡◌, ◌≢◌, IfOk, None, List, ℕ, map, option_map, string_bytes};
ghost use Rattle.vkg_cells.specs.Form.{lexical_form};
ghost use Rattle.std.specs.List.{AllByRecursion, list_any};
ghost use Rattle.vkg_tables.specs.Firsts.{first_repeat as first_repeat_of, first_orphan as first_orphan_of};
ghost use Rattle.vkg_tables.specs.Parts.{HasNoTerm, all_parts, is_missing, part as part_of_cell, parts as parts_of_row, texts_eq, texts_of};

use indexmap::IndexSet;
use std::alloc::Global;
use vkg_base::Memory;
use vkg_cells::{CellRef, key_parts};
use vkg_hash::Seed;
use vkg_store::{TableRow, TableRows};

// The text by which a cell of a table is found. NULL has none.
fn part(alloc: Global, cell: &CellRef<'_>) -> Result<Option<String>, Memory>
    ensures { IfOk result (λ o. option_map string_bytes o ≡ part_of_cell cell.now) }
{
    match cell.form() {
        None => Ok(None),
        Some(_) => first_part(alloc, cell),
    }
}

// The first of the two texts by which a cell that has a form is found.
fn first_part(alloc: Global, cell: &CellRef<'_>) -> Result<Option<String>, Memory>
    requires { lexical_form cell.now ≢ None }
    ensures { IfOk result (λ o. option_map string_bytes o ≡ part_of_cell cell.now) }
{
    let Some((text, _)) = key_parts(alloc, cell)? else {
        return Ok(None);
    };
    Ok(Some(text))
}

// The texts by which a row's columns are found, none where one is NULL.
fn parts(
    alloc: Global,
    row: &TableRow<'_>,
    columns: &[usize],
) -> Result<Option<Vec<String>>, Memory>
    ensures { IfOk result (λ o. option_map (λ v. map string_bytes v.items) o ≡ parts_of_row columns.now row.now) }
{
    let mut out = Vec::with_capacity(alloc, columns.len())?;
    for column in columns {
        let cell = row.cell(*column);
        let Some(text) = part(alloc, &cell)? else {
            return Ok(None);
        };
        out.push(text)?;
    }
    Ok(Some(out))
}

/// The first row that agrees with an earlier one on a whole key.
pub fn first_repeat(
    alloc: Global,
    rows: &TableRows<'_>,
    key: &[usize],
) -> Result<Option<usize>, Memory>
    requires { AllByRecursion HasNoTerm rows.now }
    ensures { IfOk result (λ o. o ≡ first_repeat_of key.now rows.now) }
{
    let mut seen: IndexSet<Vec<String>, Seed> = IndexSet::with_hasher(alloc, rows.seed());
    for i in 0..rows.len() {
        let row = rows.row(i);
        let Some(found) = parts(alloc, &row, key)? else {
            continue;
        };
        let (_, is_new) = seen.insert_full(found)?;
        if !is_new {
            return Ok(Some(i + 1));
        }
    }
    Ok(None)
}

// The texts by which the rows are found.
fn known_parts(
    alloc: Global,
    rows: &TableRows<'_>,
    columns: &[usize],
) -> Result<IndexSet<Vec<String>, Seed>, Memory>
    ensures { IfOk result (λ s. (found : List (List ℕ)) → list_any (texts_eq found) (texts_of s.keys) ≡ list_any (texts_eq found) (all_parts columns.now rows.now)) }
{
    let mut known: IndexSet<Vec<String>, Seed> = IndexSet::with_hasher(alloc, rows.seed());
    for i in 0..rows.len() {
        let row = rows.row(i);
        let Some(found) = parts(alloc, &row, columns)? else {
            continue;
        };
        known.insert_full(found)?;
    }
    Ok(known)
}

// Whether the row refers to no row of those that are known.
fn is_orphan(
    alloc: Global,
    row: &TableRow<'_>,
    children: &[usize],
    known: &IndexSet<Vec<String>, Seed>,
) -> Result<bool, Memory>
    ensures { IfOk result (λ b. b ≡ is_missing (parts_of_row children.now row.now) (texts_of known.now.keys)) }
{
    let Some(found) = parts(alloc, row, children)? else {
        return Ok(false);
    };
    Ok(!known.contains(found.as_slice()))
}

/// The first of each pair of columns.
pub fn child_columns(alloc: Global, pairs: &[(usize, usize)]) -> Result<Vec<usize>, Memory>
    ensures { IfOk result (λ v. v.items ≡ map (λ p. p.0) pairs.now) }
{
    Ok(pairs.iter().map(|p| p.0).collect(alloc)?)
}

/// The second of each pair of columns.
pub fn parent_columns(alloc: Global, pairs: &[(usize, usize)]) -> Result<Vec<usize>, Memory>
    ensures { IfOk result (λ v. v.items ≡ map (λ p. p.1) pairs.now) }
{
    Ok(pairs.iter().map(|p| p.1).collect(alloc)?)
}

/// The first row that refers to no row.
pub fn first_orphan(
    alloc: Global,
    rows: &TableRows<'_>,
    targets: &TableRows<'_>,
    pairs: &[(usize, usize)],
) -> Result<Option<usize>, Memory>
    requires { AllByRecursion HasNoTerm rows.now }
    ensures { IfOk result (λ o. o ≡ first_orphan_of pairs.now targets.now rows.now) }
{
    let children = child_columns(alloc, pairs)?;
    let parents = parent_columns(alloc, pairs)?;
    let known = known_parts(alloc, targets, parents.as_slice())?;
    for i in 0..rows.len() {
        let row = rows.row(i);
        if is_orphan(alloc, &row, children.as_slice(), &known)? {
            return Ok(Some(i + 1));
        }
    }
    Ok(None)
}
