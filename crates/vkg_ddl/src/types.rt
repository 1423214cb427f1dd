ghost use Rattle.std.specs.Prelude.{◌≡◌, is_none};
ghost use Rattle.vkg_ddl.specs.TypeChecks.{column_kind, unknown_type, type_unknown, capped, takes_one, takes_two, takes, wrong_numbers, precision_wrong};
ghost use Rattle.vkg_lists.specs.Places.{least_of};

use crate::name::Name;
use crate::type_word::kind_named;
use crate::written::{WrittenColumn, WrittenTable};
use vkg_base::{lesser, place_if};
use vkg_cells::SqlType;

fn is_no_kind(kind: Option<SqlType>) -> bool
    ensures { result ≡ is_none kind }
{
    kind.is_none()
}

fn unknown_type(c: &WrittenColumn) -> Option<usize>
    ensures { result ≡ unknown_type c.now }
{
    place_if(is_no_kind(kind_named(c.kind.text.as_str())), c.kind.at)
}

fn unknown_types(columns: &[WrittenColumn]) -> Option<usize>
    ensures { result ≡ least_of unknown_type columns.now }
{
    columns
        .iter()
        .fold(None, |best, c| lesser(best, unknown_type(c)))
}

pub fn type_unknown(tables: &[WrittenTable]) -> Option<usize>
    ensures { result ≡ type_unknown tables.now }
{
    tables.iter().fold(
        None,
        |best, t| lesser(best, unknown_types(t.columns.as_slice())),
    )
}

fn capped(digits: &str) -> usize
    ensures { result ≡ capped digits.now }
{
    digits.as_bytes().iter().fold(0, |n: usize, d| {
        n.saturating_mul(10)
            .saturating_add(usize::from(d.saturating_sub(48)))
            .min(4294967296)
    })
}

fn takes_one(kind: SqlType, n: usize) -> bool
    ensures { result ≡ takes_one kind n }
{
    match kind {
        SqlType::Text | SqlType::Bin => 1 <= n && n <= 2147483647,
        SqlType::Dec => 1 <= n && n <= 38,
        SqlType::Stamp | SqlType::Time => n <= 9,
        _ => false,
    }
}

fn takes_two(kind: SqlType, p: usize, s: usize) -> bool
    ensures { result ≡ takes_two kind p s }
{
    match kind {
        SqlType::Dec => 1 <= p && p <= 38 && s <= p,
        _ => false,
    }
}

fn takes(kind: SqlType, numbers: &[Name]) -> bool
    ensures { result ≡ takes kind numbers.now }
{
    match numbers {
        [] => true,
        [p] => takes_one(kind, capped(p.text.as_str())),
        [p, s] => takes_two(kind, capped(p.text.as_str()), capped(s.text.as_str())),
        _ => false,
    }
}

fn wrong_numbers(c: &WrittenColumn) -> Option<usize>
    ensures { result ≡ wrong_numbers c.now }
{
    let taken = match kind_named(c.kind.text.as_str()) {
        None => true,
        Some(kind) => takes(kind, c.numbers.as_slice()),
    };
    place_if(!taken, c.kind.at)
}

fn all_wrong_numbers(columns: &[WrittenColumn]) -> Option<usize>
    ensures { result ≡ least_of wrong_numbers columns.now }
{
    columns
        .iter()
        .fold(None, |best, c| lesser(best, wrong_numbers(c)))
}

pub fn precision_wrong(tables: &[WrittenTable]) -> Option<usize>
    ensures { result ≡ precision_wrong tables.now }
{
    tables.iter().fold(
        None,
        |best, t| lesser(best, all_wrong_numbers(t.columns.as_slice())),
    )
}

/// The kind of a column whose type is known.
pub fn column_kind(c: &WrittenColumn) -> SqlType
    ensures { result ≡ column_kind c.now }
{
    kind_named(c.kind.text.as_str()).unwrap_or(SqlType::Text)
}
