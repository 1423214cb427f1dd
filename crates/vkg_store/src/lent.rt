ghost use Rattle.std.specs.Prelude.{◌≡◌};
ghost use Rattle.vkg_store.specs.Stored.{form_cell, number_at, stored};

use crate::texts::Texts;
use vkg_cells::{CellRef, SqlType};

/// The cell of a number, lent.
pub fn lend(texts: &Texts, kind: SqlType, number: u32) -> CellRef<'_>
    ensures { result ≡ stored texts.now kind number }
{
    if number == 0 {
        return CellRef::null();
    }
    match texts.text((number - 1) as usize) {
        Some(form) => of_form(kind, form),
        None => of_form(kind, ""),
    }
}

/// The cell of a kind that has this lexical form, lent.
fn of_form(kind: SqlType, form: &str) -> CellRef<'_>
    ensures { result ≡ form_cell kind form.now }
{
    match kind {
        SqlType::Text => CellRef::text(form),
        SqlType::Int => CellRef::int(form),
        SqlType::Dec => CellRef::dec(form),
        SqlType::Bool => CellRef::truth(form == "true"),
        SqlType::Date => CellRef::date(form),
        SqlType::Stamp => CellRef::stamp(form),
        SqlType::Bin => CellRef::bin(form),
        SqlType::Time => CellRef::time(form),
        SqlType::Term => CellRef::null(),
    }
}

/// The number of a row, and that of NULL past the last.
pub fn number_at(numbers: &[u32], row: usize) -> u32
    ensures { result ≡ number_at numbers.now row }
{
    match numbers.get(row) {
        Some(number) => *number,
        None => 0,
    }
}
