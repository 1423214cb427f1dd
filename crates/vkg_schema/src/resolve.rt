ghost use Rattle.std.specs.Prelude.{◌≡◌, ◌∷◌, ◌++◌, [], IfOk, Some, slice_get, map, position};
ghost use Rattle.std.specs.List.{list_any};
ghost use Rattle.vkg_ddl.specs.NameChecks.{matches};
ghost use Rattle.vkg_schema.specs.Resolve.{is_primary, column_at, columns_at, place_of, places_of, key_at, keys_at, table_place, place_at, pair_at, pairs_at, target_pairs, reference_at, table_at, schema_of};

use crate::table::{Column, Key, Reference, Table};
use std::alloc::Global;
use vkg_base::{Items, Memory};
use vkg_ddl::{
    Name, WrittenColumn, WrittenKey, WrittenReference, WrittenTable, column_kind, column_place,
    matches, primary_of, table_named,
};

fn names_it(c: &WrittenColumn, names: &[Name]) -> bool
    ensures { result ≡ list_any (λ n. matches n c.now.name) names.now }
{
    names.iter().any(|n| matches(n, &c.name))
}

fn is_primary(keys: &[WrittenKey], c: &WrittenColumn) -> bool
    ensures { result ≡ is_primary keys.now c.now }
{
    keys.iter()
        .any(|k| k.primary && names_it(c, k.columns.as_slice()))
}

fn column_at(keys: &[WrittenKey], c: &WrittenColumn) -> Result<Column, Memory>
    ensures { IfOk result (λ r. r ≡ column_at keys.now c.now) }
{
    let name = c.name.text.copy()?;
    Ok(Column {
        name,
        kind: column_kind(c),
        not_null: c.not_null || is_primary(keys, c),
    })
}

fn columns_at(
    alloc: Global,
    keys: &[WrittenKey],
    columns: &[WrittenColumn],
) -> Result<Items<Column>, Memory>
    ensures { IfOk result (λ r. r ≡ columns_at keys.now columns.now) }
{
    let mut out = Items::new(alloc);
    for c in columns {
        out.push(column_at(keys, c)?)?;
    }
    Ok(out)
}

fn place_of(columns: &[WrittenColumn], n: &Name) -> usize
    ensures { result ≡ place_of columns.now n.now }
{
    column_place(columns, n).unwrap_or(0)
}

fn places_of(
    alloc: Global,
    columns: &[WrittenColumn],
    names: &[Name],
) -> Result<Items<usize>, Memory>
    ensures { IfOk result (λ r. r ≡ places_of columns.now names.now) }
{
    let places = names.iter().map(|n| place_of(columns, n)).collect(alloc)?;
    Ok(Items::from_vec(places))
}

fn key_at(alloc: Global, columns: &[WrittenColumn], k: &WrittenKey) -> Result<Key, Memory>
    ensures { IfOk result (λ r. r ≡ key_at columns.now k.now) }
{
    let places = places_of(alloc, columns, k.columns.as_slice())?;
    Ok(Key {
        primary: k.primary,
        columns: places,
    })
}

fn keys_at(
    alloc: Global,
    columns: &[WrittenColumn],
    keys: &[WrittenKey],
) -> Result<Items<Key>, Memory>
    ensures { IfOk result (λ r. r ≡ keys_at columns.now keys.now) }
{
    let mut out = Items::new(alloc);
    for k in keys {
        out.push(key_at(alloc, columns, k)?)?;
    }
    Ok(out)
}

fn table_position(tables: &[WrittenTable], n: &Name) -> Option<usize>
    ensures { result ≡ position (λ t. matches n.now t.name) tables.now }
{
    tables.iter().position(|t| matches(n, &t.name))
}

fn table_place(tables: &[WrittenTable], n: &Name) -> usize
    ensures { result ≡ table_place tables.now n.now }
{
    table_position(tables, n).unwrap_or(0)
}

fn place_at(columns: &[WrittenColumn], names: &[Name], i: usize) -> usize
    ensures { result ≡ place_at columns.now (slice_get names.now i) }
{
    match names.get(i) {
        None => 0,
        Some(n) => place_of(columns, n),
    }
}

fn pair_at(
    left_columns: &[WrittenColumn],
    right_columns: &[WrittenColumn],
    left: &[Name],
    right: &[Name],
    i: usize,
) -> (usize, usize)
    ensures { result ≡ pair_at left_columns.now right_columns.now left.now right.now i }
{
    (
        place_at(left_columns, left, i),
        place_at(right_columns, right, i),
    )
}

fn pairs_at(
    alloc: Global,
    left_columns: &[WrittenColumn],
    right_columns: &[WrittenColumn],
    left: &[Name],
    right: &[Name],
) -> Result<Items<(usize, usize)>, Memory>
    ensures { IfOk result (λ r. r ≡ pairs_at left_columns.now right_columns.now left.now right.now) }
{
    let mut out = Items::new(alloc);
    for i in 0..left.len() {
        out.push(pair_at(left_columns, right_columns, left, right, i))?;
    }
    Ok(out)
}

fn target_pairs(
    alloc: Global,
    child: &WrittenTable,
    t: &WrittenTable,
    r: &WrittenReference,
) -> Result<Items<(usize, usize)>, Memory>
    ensures { IfOk result (λ p. p ≡ target_pairs child.now t.now r.now) }
{
    let targets = r.targets.as_slice();
    let left = child.columns.as_slice();
    let right = t.columns.as_slice();
    let names = r.columns.as_slice();
    if targets.len() == 0 {
        match primary_of(t.keys.as_slice()) {
            None => pairs_at(alloc, left, right, names, &[]),
            Some(k) => pairs_at(alloc, left, right, names, k.columns.as_slice()),
        }
    } else {
        pairs_at(alloc, left, right, names, targets)
    }
}

fn reference_at(
    alloc: Global,
    tables: &[WrittenTable],
    child: &WrittenTable,
    r: &WrittenReference,
) -> Result<Reference, Memory>
    ensures { IfOk result (λ x. x ≡ reference_at tables.now child.now r.now) }
{
    let pairs = match table_named(tables, &r.table) {
        None => Items::new(alloc),
        Some(t) => target_pairs(alloc, child, t, r)?,
    };
    Ok(Reference {
        table: table_place(tables, &r.table),
        pairs,
    })
}

fn references_at(
    alloc: Global,
    tables: &[WrittenTable],
    child: &WrittenTable,
) -> Result<Items<Reference>, Memory>
    ensures { IfOk result (λ x. x ≡ map (reference_at tables.now child.now) child.now.references) }
{
    let mut out = Items::new(alloc);
    for r in child.references.as_slice() {
        out.push(reference_at(alloc, tables, child, r)?)?;
    }
    Ok(out)
}

fn table_at(alloc: Global, tables: &[WrittenTable], t: &WrittenTable) -> Result<Table, Memory>
    ensures { IfOk result (λ x. x ≡ table_at tables.now t.now) }
{
    let name = t.name.text.copy()?;
    let columns = columns_at(alloc, t.keys.as_slice(), t.columns.as_slice())?;
    let keys = keys_at(alloc, t.columns.as_slice(), t.keys.as_slice())?;
    let references = references_at(alloc, tables, t)?;
    Ok(Table {
        name,
        columns,
        keys,
        references,
    })
}

/// The tables of a schema, with their names resolved.
pub fn resolve(alloc: Global, tables: &[WrittenTable]) -> Result<Items<Table>, Memory>
    ensures { IfOk result (λ x. x ≡ schema_of tables.now) }
{
    let mut out = Items::new(alloc);
    for t in tables {
        out.push(table_at(alloc, tables, t)?)?;
    }
    Ok(out)
}
