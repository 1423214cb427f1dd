// Whether a row is one of some.
ghost use Rattle.std.specs.Prelude.{◌≡◌, Some, false, filter_map, slice_get};
ghost use Rattle.std.specs.List.{list_any};
ghost use Rattle.std.specs.Option.{option_map_or};
ghost use Rattle.vkg_hash.specs.Groups.{group};
ghost use Rattle.vkg_plan.specs.Rows.{one_cell, one_row};

use vkg_base::Items;
use vkg_cells::Cell;
use vkg_hash::{Groups, numbers_of};

/// Whether the row is one of those that the index has at the text.
pub fn is_there(index: &Groups, rows: &[Items<Cell>], text: &str, row: &[Cell]) -> bool
    ensures { result ≡ list_any (λ s. one_row s row.now) (filter_map (slice_get rows.now) (group index.now text.now)) }
{
    is_any(rows, numbers_of(index, text), row)
}

/// Whether the row is one of the numbered ones.
fn is_any(rows: &[Items<Cell>], numbers: &[usize], row: &[Cell]) -> bool
    ensures { result ≡ list_any (λ s. one_row s row.now) (filter_map (slice_get rows.now) numbers.now) }
{
    for n in numbers {
        if is_at(rows, *n, row) {
            return true;
        }
    }
    false
}

fn is_at(rows: &[Items<Cell>], n: usize, row: &[Cell]) -> bool
    ensures { result ≡ option_map_or (λ s. one_row s row.now) (slice_get rows.now n) false }
{
    match rows.get(n) {
        None => false,
        Some(other) => same_rows(other.as_slice(), row),
    }
}

fn same_rows(a: &[Cell], b: &[Cell]) -> bool
    ensures { result ≡ one_row a.now b.now }
{
    if a.len() != b.len() {
        return false;
    }
    for i in 0..a.len() {
        if !same_cells(&a[i], &b[i]) {
            return false;
        }
    }
    true
}

/// Whether they are one cell: of one kind and one form, or both NULL.
fn same_cells(a: &Cell, b: &Cell) -> bool
    ensures { result ≡ one_cell a.now b.now }
{
    match (a, b) {
        (Cell::Null, Cell::Null) => true,
        (Cell::Text(s), Cell::Text(t)) => s.as_str() == t.as_str(),
        (Cell::Int(s), Cell::Int(t)) => s.as_str() == t.as_str(),
        (Cell::Dec(s), Cell::Dec(t)) => s.as_str() == t.as_str(),
        (Cell::Bool(s), Cell::Bool(t)) => *s == *t,
        (Cell::Date(s), Cell::Date(t)) => s.as_str() == t.as_str(),
        (Cell::Stamp(s), Cell::Stamp(t)) => s.as_str() == t.as_str(),
        (Cell::Bin(s), Cell::Bin(t)) => s.as_str() == t.as_str(),
        (Cell::Time(s), Cell::Time(t)) => s.as_str() == t.as_str(),
        (Cell::Term(s), Cell::Term(t)) => s.same(t),
        _ => false,
    }
}
