ghost use Rattle.std.specs.Prelude.{◌≡◌, ◌⊎◌, ◌++◌, IfOk, IfErr, Ok, Err};
ghost use Rattle.vkg_cells.specs.Field.{cell_of_field};
ghost use Rattle.vkg_cells.specs.Number.{after_point, without_trailing_zeros};
ghost use Rattle.vkg_cells.specs.declared.cell.FieldFault.TheVariants.{Memory as OutOfMemory};

use crate::cell::{Cell, FieldFault, SqlType};
use crate::moment::{clock_parts, is_clock};
use crate::number::{is_digits, push_fraction, trim_trailing_zeros};
use std::alloc::Global;
use vkg_base::Text;

/// The cell of the parts of a time of day.
fn time_of_parts(alloc: Global, clock: &str, fraction: &str) -> Result<Cell, FieldFault>
    ensures ok { IfOk result (λ c. c ≡ Cell.Time (clock.now ++ after_point (without_trailing_zeros fraction.now))) }
    ensures err { IfErr result (λ e. e ≡ OutOfMemory) }
{
    let mut out = String::new(alloc);
    out.push_str(clock)?;
    push_fraction(&mut out, trim_trailing_zeros(fraction))?;
    Ok(Cell::Time(Text::from_string(out)))
}

/// The cell of a text that is a time of day.
pub fn read_time(alloc: Global, text: &str) -> Result<Cell, FieldFault>
    ensures ok { IfOk result (λ c. cell_of_field SqlType.Time text.now ≡ Ok c) }
    ensures err { IfErr result (λ e. (e ≡ OutOfMemory) ⊎ (cell_of_field SqlType.Time text.now ≡ Err e)) }
{
    match clock_parts(text) {
        None => {
            if !is_clock(text.as_bytes()) {
                return Err(FieldFault::BadValue);
            }
            time_of_parts(alloc, text, "")
        }
        Some((clock, fraction)) => {
            if !(is_clock(clock.as_bytes())
                && is_digits(fraction.as_bytes())
                && fraction.len() <= 9)
            {
                return Err(FieldFault::BadValue);
            }
            time_of_parts(alloc, clock, fraction)
        }
    }
}
