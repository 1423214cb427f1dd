ghost use Rattle.std.specs.Prelude.{◌≡◌, slice_get};
ghost use Rattle.std.specs.List.{list_any};
ghost use Rattle.vkg_lists.specs.Places.{lesser, least_of};
ghost use Rattle.vkg_ddl.specs.NameChecks.{same_name, table_again, table_twice, column_again, column_twice_in, column_twice, name_again, name_twice, twice_in_table, key_column_twice, primary_again, primary_twice_in, primary_twice};

use crate::columns::Columns;
use crate::matching::{any_one_column, same_name};
use crate::name::Name;
use crate::written::{WrittenColumn, WrittenKey, WrittenTable};
use vkg_base::{lesser, place_if};

fn any_table(seen: &[WrittenTable], n: &Name) -> bool
    ensures { result ≡ list_any (λ u. same_name n.now u.name) seen.now }
{
    seen.iter().any(|u| same_name(n, &u.name))
}

fn table_again(tables: &[WrittenTable], i: usize) -> Option<usize>
    ensures { result ≡ table_again tables.now (slice_get tables.now i) i }
{
    match tables.get(i) {
        None => None,
        Some(t) => place_if(any_table(&tables[..i], &t.name), t.name.at),
    }
}

pub fn table_twice(tables: &[WrittenTable]) -> Option<usize>
    ensures { result ≡ table_twice tables.now }
{
    (0..tables.len()).fold(None, |best, i| lesser(best, table_again(tables, i)))
}

fn any_column(seen: &[WrittenColumn], n: &Name) -> bool
    ensures { result ≡ list_any (λ d. same_name n.now d.name) seen.now }
{
    seen.iter().any(|d| same_name(n, &d.name))
}

fn column_again(columns: &[WrittenColumn], i: usize) -> Option<usize>
    ensures { result ≡ column_again columns.now (slice_get columns.now i) i }
{
    match columns.get(i) {
        None => None,
        Some(c) => place_if(any_column(&columns[..i], &c.name), c.name.at),
    }
}

fn column_twice_in(columns: &[WrittenColumn]) -> Option<usize>
    ensures { result ≡ column_twice_in columns.now }
{
    (0..columns.len()).fold(None, |best, i| lesser(best, column_again(columns, i)))
}

pub fn column_twice(tables: &[WrittenTable]) -> Option<usize>
    ensures { result ≡ column_twice tables.now }
{
    tables.iter().fold(
        None,
        |best, t| lesser(best, column_twice_in(t.columns.as_slice())),
    )
}

fn name_again(columns: &Columns, names: &[Name], i: usize) -> Option<usize>
    ensures { result ≡ name_again columns.now names.now (slice_get names.now i) i }
{
    match names.get(i) {
        None => None,
        Some(n) => place_if(any_one_column(columns, n, &names[..i]), n.at),
    }
}

pub fn name_twice(columns: &Columns, names: &[Name]) -> Option<usize>
    ensures { result ≡ name_twice columns.now names.now }
{
    (0..names.len()).fold(None, |best, i| lesser(best, name_again(columns, names, i)))
}

fn twice_in(columns: &Columns, t: &WrittenTable) -> Option<usize>
    ensures { result ≡ lesser (least_of (λ k. name_twice columns.now k.columns) t.now.keys) (least_of (λ r. name_twice columns.now r.columns) t.now.references) }
{
    let in_keys = t.keys.as_slice().iter().fold(None, |best, k| {
        lesser(best, name_twice(columns, k.columns.as_slice()))
    });
    let in_references = t.references.as_slice().iter().fold(None, |best, r| {
        lesser(best, name_twice(columns, r.columns.as_slice()))
    });
    lesser(in_keys, in_references)
}

fn twice_in_table(t: &WrittenTable) -> Option<usize>
    ensures { result ≡ twice_in_table t.now }
{
    let columns = Columns::new(t.columns.alloc(), t.columns.as_slice());
    twice_in(&columns, t)
}

pub fn key_column_twice(tables: &[WrittenTable]) -> Option<usize>
    ensures { result ≡ key_column_twice tables.now }
{
    tables
        .iter()
        .fold(None, |best, t| lesser(best, twice_in_table(t)))
}

fn any_primary(seen: &[WrittenKey]) -> bool
    ensures { result ≡ list_any (λ j. j.primary) seen.now }
{
    seen.iter().any(|j| j.primary)
}

fn primary_again(keys: &[WrittenKey], i: usize) -> Option<usize>
    ensures { result ≡ primary_again keys.now (slice_get keys.now i) i }
{
    match keys.get(i) {
        None => None,
        Some(k) => place_if(k.primary && any_primary(&keys[..i]), k.first.at),
    }
}

fn primary_twice_in(keys: &[WrittenKey]) -> Option<usize>
    ensures { result ≡ primary_twice_in keys.now }
{
    (0..keys.len()).fold(None, |best, i| lesser(best, primary_again(keys, i)))
}

pub fn primary_twice(tables: &[WrittenTable]) -> Option<usize>
    ensures { result ≡ primary_twice tables.now }
{
    tables.iter().fold(
        None,
        |best, t| lesser(best, primary_twice_in(t.keys.as_slice())),
    )
}
