ghost use Rattle.std.specs.Prelude.{◌≡◌};
ghost use Rattle.vkg_ddl.specs.NameChecks.{unknown_columns, unknown_in_table, key_column_unknown, names_table, unknown_target, table_unknown};
ghost use Rattle.vkg_lists.specs.Places.{lesser, least_of};

use crate::columns::Columns;
use crate::matching::{matches, unknown_columns};
use crate::name::Name;
use crate::written::{WrittenReference, WrittenTable};
use vkg_base::{lesser, place_if};

fn unknown_in(columns: &Columns, t: &WrittenTable) -> Option<usize>
    ensures { result ≡ lesser (least_of (λ k. unknown_columns columns.now k.columns) t.now.keys) (least_of (λ r. unknown_columns columns.now r.columns) t.now.references) }
{
    let in_keys = t.keys.as_slice().iter().fold(None, |best, k| {
        lesser(best, unknown_columns(columns, k.columns.as_slice()))
    });
    let in_references = t.references.as_slice().iter().fold(None, |best, r| {
        lesser(best, unknown_columns(columns, r.columns.as_slice()))
    });
    lesser(in_keys, in_references)
}

fn unknown_in_table(t: &WrittenTable) -> Option<usize>
    ensures { result ≡ unknown_in_table t.now }
{
    let columns = Columns::new(t.columns.alloc(), t.columns.as_slice());
    unknown_in(&columns, t)
}

pub fn key_column_unknown(tables: &[WrittenTable]) -> Option<usize>
    ensures { result ≡ key_column_unknown tables.now }
{
    tables
        .iter()
        .fold(None, |best, t| lesser(best, unknown_in_table(t)))
}

fn names_table(tables: &[WrittenTable], n: &Name) -> bool
    ensures { result ≡ names_table tables.now n.now }
{
    tables.iter().any(|t| matches(n, &t.name))
}

fn unknown_target(tables: &[WrittenTable], r: &WrittenReference) -> Option<usize>
    ensures { result ≡ unknown_target tables.now r.now }
{
    place_if(!names_table(tables, &r.table), r.table.at)
}

fn unknown_targets(tables: &[WrittenTable], references: &[WrittenReference]) -> Option<usize>
    ensures { result ≡ least_of (unknown_target tables.now) references.now }
{
    references
        .iter()
        .fold(None, |best, r| lesser(best, unknown_target(tables, r)))
}

pub fn table_unknown(tables: &[WrittenTable]) -> Option<usize>
    ensures { result ≡ table_unknown tables.now }
{
    tables.iter().fold(None, |best, t| {
        lesser(best, unknown_targets(tables, t.references.as_slice()))
    })
}
