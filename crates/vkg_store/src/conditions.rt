ghost use Rattle.std.specs.Prelude.{◌≡◌};
ghost use Rattle.vkg_schema.specs.Rows.{agree as rows_agree, equal_at as rows_equal_at};

use crate::table_row::TableRow;
use vkg_cells::same_ref;

/// Whether two rows are equal at each pair of columns, the one of the first row and the other of the second.
pub fn agree(conditions: &[(usize, usize)], row: &TableRow<'_>, other: &TableRow<'_>) -> bool
    ensures { result ≡ rows_agree conditions.now row.now other.now }
{
    conditions.iter().all(|pair| equal_at(row, other, *pair))
}

#[tactic(auto, unfolding(vkg_schema::specs::Rows::equal_at))]
fn equal_at(row: &TableRow<'_>, other: &TableRow<'_>, pair: (usize, usize)) -> bool
    ensures { result ≡ rows_equal_at row.now other.now pair }
{
    match same_ref(&row.cell(pair.0), &other.cell(pair.1)) {
        Some(known) => known,
        None => false,
    }
}
