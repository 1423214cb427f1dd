ghost use Rattle.std.specs.Prelude.{◌≡◌, IfOk};

use std::alloc::Global;
use vkg_base::{Items, Memory};
use vkg_terms::Term;

fn copy_value(value: &Option<Term>) -> Result<Option<Term>, Memory>
    ensures { IfOk result (λ copied. copied ≡ value.now) }
{
    match value {
        Some(term) => Ok(Some(term.copy()?)),
        None => Ok(None),
    }
}

fn copy_row(alloc: Global, row: &[Option<Term>]) -> Result<Items<Option<Term>>, Memory>
    ensures { IfOk result (λ copied. copied ≡ row.now) }
{
    let mut copied = Items::new(alloc);
    for value in row {
        copied.push(copy_value(value)?)?;
    }
    Ok(copied)
}

/// The same rows of a table.
pub fn copy_rows(
    alloc: Global,
    rows: &[Items<Option<Term>>],
) -> Result<Items<Items<Option<Term>>>, Memory>
    ensures { IfOk result (λ copied. copied ≡ rows.now) }
{
    let mut copied = Items::new(alloc);
    for row in rows {
        copied.push(copy_row(alloc, row.as_slice())?)?;
    }
    Ok(copied)
}
