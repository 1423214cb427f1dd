ghost use Rattle.std.specs.Prelude.{◌≡◌, Some, find, nat_eq};
ghost use Rattle.vkg_ddl.specs.NameChecks.{same_name, matches, text_matches, names_column, unknown_column, column_place, one_column};
ghost use Rattle.std.specs.Option.{option_copied};
ghost use Rattle.vkg_lists.specs.Options.{both_pass};
ghost use Rattle.vkg_lists.specs.Places.{least_of};
ghost use Rattle.std.specs.List.{list_any};

use crate::columns::Columns;
use crate::name::Name;
use crate::written::{WrittenColumn, WrittenKey, WrittenTable};
use vkg_base::{at, lesser, place_if};

pub fn same_name(a: &Name, b: &Name) -> bool
    ensures { result ≡ same_name a.now b.now }
{
    a.text.as_str().eq_ignore_ascii_case(b.text.as_str())
}

pub fn matches(n: &Name, declared: &Name) -> bool
    ensures { result ≡ matches n.now declared.now }
{
    text_matches(n.text.as_str(), n.delimited, declared.text.as_str())
}

/// Whether a name with this text means what is declared with the other.
pub fn text_matches(text: &str, delimited: bool, declared: &str) -> bool
    ensures { result ≡ text_matches text.now delimited declared.now }
{
    if delimited {
        text == declared
    } else {
        text.eq_ignore_ascii_case(declared)
    }
}

pub fn table_named<'a>(tables: &'a [WrittenTable], n: &Name) -> Option<&'a WrittenTable>
    ensures { option_copied result ≡ find (λ u. matches n.now u.name) tables.now }
{
    tables.iter().find(|u| matches(n, &u.name))
}

pub fn column_named<'a>(columns: &'a [WrittenColumn], n: &Name) -> Option<&'a WrittenColumn>
    ensures { option_copied result ≡ find (λ c. matches n.now c.name) columns.now }
{
    columns.iter().find(|c| matches(n, &c.name))
}

pub fn primary_of(keys: &[WrittenKey]) -> Option<&WrittenKey>
    ensures { option_copied result ≡ find (λ k. k.primary) keys.now }
{
    keys.iter().find(|k| k.primary)
}

fn names_column(columns: &Columns, n: &Name) -> bool
    ensures { result ≡ names_column columns.now n.now }
{
    columns.place(n).is_some()
}

fn unknown_column(columns: &Columns, n: &Name) -> Option<usize>
    ensures { result ≡ unknown_column columns.now n.now }
{
    place_if(!names_column(columns, n), n.at)
}

pub fn unknown_columns(columns: &Columns, names: &[Name]) -> Option<usize>
    ensures { result ≡ least_of (unknown_column columns.now) names.now }
{
    names
        .iter()
        .fold(None, |best, n| lesser(best, unknown_column(columns, n)))
}

/// The place of the first column that has the name.
pub fn column_place(columns: &[WrittenColumn], n: &Name) -> Option<usize>
    ensures { result ≡ column_place columns.now n.now }
{
    columns.iter().position(|c| matches(n, &c.name))
}

fn is_place(found: Option<usize>, place: usize) -> bool
    ensures { result ≡ both_pass nat_eq (Some place) found }
{
    match found {
        None => false,
        Some(other) => place == other,
    }
}

// Whether a name means the column at this place. That column is tried first, since most names mean another.
fn is_at(columns: &Columns, place: usize, n: &Name) -> bool
    ensures { result ≡ both_pass nat_eq (Some place) (column_place columns.now n.now) }
{
    match at(columns.as_slice(), place) {
        None => false,
        Some(c) => matches(n, &c.name) && is_place(columns.place(n), place),
    }
}

/// Whether one of these names means the same column. The column is found once.
pub fn any_one_column(columns: &Columns, n: &Name, seen: &[Name]) -> bool
    ensures { result ≡ list_any (one_column columns.now n.now) seen.now }
{
    match columns.place(n) {
        None => false,
        Some(place) => seen.iter().any(|b| is_at(columns, place, b)),
    }
}
