ghost use Rattle.std.specs.Prelude.{◌≡◌, Some, find, slice_get};
ghost use Rattle.vkg_ddl.specs.ReferenceChecks.{are_columns, columns_fault, targets_in, at_target, columns_wrong, same_columns, are_key, key_fault, no_key, family_named, over_families, family_fault, families_differ};
ghost use Rattle.vkg_ddl.specs.NameChecks.{matches, one_column};
ghost use Rattle.vkg_lists.specs.Places.{least_of};
ghost use Rattle.std.specs.List.{list_any, list_all};

use crate::columns::Columns;
use crate::matching::{any_one_column, column_named, primary_of, table_named, unknown_columns};
use crate::name::Name;
use crate::twice::name_twice;
use crate::types::column_kind;
use crate::written::{WrittenColumn, WrittenKey, WrittenReference, WrittenTable};
use vkg_base::{lesser, place_if};
use vkg_cells::family;

// The columns of a table, with a table of their names where many names are looked for.
fn columns_for<'a>(t: &'a WrittenTable, names: usize) -> Columns<'a>
    ensures { result ≡ t.now.columns }
{
    let columns = t.columns.as_slice();
    if names < 32 {
        Columns::plain(t.columns.alloc(), columns)
    } else {
        Columns::new(t.columns.alloc(), columns)
    }
}

fn are_columns(t: &WrittenTable, left: &[Name], right: &[Name]) -> bool
    ensures { result ≡ are_columns t.now left.now right.now }
{
    let columns = columns_for(t, right.len());
    right.len() == left.len()
        && unknown_columns(&columns, right).is_none()
        && name_twice(&columns, right).is_none()
}

fn columns_fault_of(t: &WrittenTable, r: &WrittenReference, right: &[Name]) -> Option<usize>
    ensures { result ≡ columns_fault t.now r.now (Some right.now) }
{
    place_if(!are_columns(t, r.columns.as_slice(), right), r.first.at)
}

fn columns_fault(t: &WrittenTable, r: &WrittenReference) -> Option<usize>
    ensures { result ≡ columns_fault t.now r.now (targets_in t.now r.now) }
{
    let targets = r.targets.as_slice();
    if targets.len() == 0 {
        match primary_of(t.keys.as_slice()) {
            None => None,
            Some(k) => columns_fault_of(t, r, k.columns.as_slice()),
        }
    } else {
        columns_fault_of(t, r, targets)
    }
}

fn columns_at(tables: &[WrittenTable], r: &WrittenReference) -> Option<usize>
    ensures { result ≡ at_target columns_fault (find (λ u. matches r.now.table u.name) tables.now) r.now }
{
    match table_named(tables, &r.table) {
        None => None,
        Some(t) => columns_fault(t, r),
    }
}

fn columns_in(tables: &[WrittenTable], references: &[WrittenReference]) -> Option<usize>
    ensures { result ≡ least_of (λ r. at_target columns_fault (find (λ u. matches r.table u.name) tables.now) r) references.now }
{
    references
        .iter()
        .fold(None, |best, r| lesser(best, columns_at(tables, r)))
}

pub fn columns_wrong(tables: &[WrittenTable]) -> Option<usize>
    ensures { result ≡ columns_wrong tables.now }
{
    tables.iter().fold(
        None,
        |best, t| lesser(best, columns_in(tables, t.references.as_slice())),
    )
}

fn all_among(columns: &Columns, xs: &[Name], ys: &[Name]) -> bool
    ensures { result ≡ list_all (λ x. list_any (one_column columns.now x) ys.now) xs.now }
{
    xs.iter().all(|x| any_one_column(columns, x, ys))
}

fn same_columns(columns: &Columns, xs: &[Name], ys: &[Name]) -> bool
    ensures { result ≡ same_columns columns.now xs.now ys.now }
{
    all_among(columns, xs, ys) && all_among(columns, ys, xs)
}

fn is_any(columns: &Columns, names: &[Name], keys: &[WrittenKey]) -> bool
    ensures { result ≡ list_any (λ k. same_columns columns.now names.now k.columns) keys.now }
{
    keys.iter()
        .any(|k| same_columns(columns, names, k.columns.as_slice()))
}

fn are_key(t: &WrittenTable, names: &[Name]) -> bool
    ensures { result ≡ are_key t.now names.now }
{
    let columns = columns_for(t, names.len().saturating_mul(t.keys.len()));
    is_any(&columns, names, t.keys.as_slice())
}

fn key_fault_of(t: &WrittenTable, r: &WrittenReference, right: &[Name]) -> Option<usize>
    ensures { result ≡ key_fault t.now r.now (Some right.now) }
{
    place_if(!are_key(t, right), r.first.at)
}

fn key_fault(t: &WrittenTable, r: &WrittenReference) -> Option<usize>
    ensures { result ≡ key_fault t.now r.now (targets_in t.now r.now) }
{
    let targets = r.targets.as_slice();
    if targets.len() == 0 {
        match primary_of(t.keys.as_slice()) {
            None => Some(r.first.at),
            Some(k) => key_fault_of(t, r, k.columns.as_slice()),
        }
    } else {
        key_fault_of(t, r, targets)
    }
}

fn key_at(tables: &[WrittenTable], r: &WrittenReference) -> Option<usize>
    ensures { result ≡ at_target key_fault (find (λ u. matches r.now.table u.name) tables.now) r.now }
{
    match table_named(tables, &r.table) {
        None => None,
        Some(t) => key_fault(t, r),
    }
}

fn keys_in(tables: &[WrittenTable], references: &[WrittenReference]) -> Option<usize>
    ensures { result ≡ least_of (λ r. at_target key_fault (find (λ u. matches r.table u.name) tables.now) r) references.now }
{
    references
        .iter()
        .fold(None, |best, r| lesser(best, key_at(tables, r)))
}

pub fn no_key(tables: &[WrittenTable]) -> Option<usize>
    ensures { result ≡ no_key tables.now }
{
    tables.iter().fold(
        None,
        |best, t| lesser(best, keys_in(tables, t.references.as_slice())),
    )
}

fn family_of(columns: &[WrittenColumn], n: &Name) -> u8
    ensures { result ≡ family_named columns.now (Some n.now) }
{
    match column_named(columns, n) {
        None => 0,
        Some(c) => family(column_kind(c)),
    }
}

fn family_named(columns: &[WrittenColumn], names: &[Name], i: usize) -> u8
    ensures { result ≡ family_named columns.now (slice_get names.now i) }
{
    match names.get(i) {
        None => 0,
        Some(n) => family_of(columns, n),
    }
}

fn over_families(
    left_columns: &[WrittenColumn],
    right_columns: &[WrittenColumn],
    left: &[Name],
    right: &[Name],
) -> bool
    ensures { result ≡ over_families left_columns.now right_columns.now left.now right.now }
{
    (0..left.len()).any(|i| family_named(left_columns, left, i)
        != family_named(right_columns, right, i))
}

fn family_fault_of(
    child: &WrittenTable,
    t: &WrittenTable,
    r: &WrittenReference,
    right: &[Name],
) -> Option<usize>
    ensures { result ≡ family_fault child.now t.now r.now (Some right.now) }
{
    let differ = over_families(
        child.columns.as_slice(),
        t.columns.as_slice(),
        r.columns.as_slice(),
        right,
    );
    place_if(differ, r.first.at)
}

fn family_fault(child: &WrittenTable, t: &WrittenTable, r: &WrittenReference) -> Option<usize>
    ensures { result ≡ family_fault child.now t.now r.now (targets_in t.now r.now) }
{
    let targets = r.targets.as_slice();
    if targets.len() == 0 {
        match primary_of(t.keys.as_slice()) {
            None => None,
            Some(k) => family_fault_of(child, t, r, k.columns.as_slice()),
        }
    } else {
        family_fault_of(child, t, r, targets)
    }
}

fn family_at_target(
    tables: &[WrittenTable],
    child: &WrittenTable,
    r: &WrittenReference,
) -> Option<usize>
    ensures { result ≡ at_target (family_fault child.now) (find (λ u. matches r.now.table u.name) tables.now) r.now }
{
    match table_named(tables, &r.table) {
        None => None,
        Some(t) => family_fault(child, t, r),
    }
}

fn families_in(tables: &[WrittenTable], child: &WrittenTable) -> Option<usize>
    ensures { result ≡ least_of (λ r. at_target (family_fault child.now) (find (λ u. matches r.table u.name) tables.now) r) child.now.references }
{
    child.references.as_slice().iter().fold(
        None,
        |best, r| lesser(best, family_at_target(tables, child, r)),
    )
}

pub fn families_differ(tables: &[WrittenTable]) -> Option<usize>
    ensures { result ≡ families_differ tables.now }
{
    tables
        .iter()
        .fold(None, |best, t| lesser(best, families_in(tables, t)))
}
