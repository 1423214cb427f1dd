// The text of an order and a slice.
ghost use Rattle.std.specs.Prelude.{◌≡◌, ◌∷◌, ◌++◌, ◌<◌, ◌^◌, IfOk, OnOk, codes, suc, string_bytes};
ghost use Rattle.vkg_sqltext.specs.OrderText.{direction_text as text_of_direction, key_text, keys_text, limit_text, more_keys_text, offset_text, order_text as text_of_order};

use crate::lists::push_number;
use std::alloc::Global;
use vkg_base::Memory;
use vkg_order::{Direction, Modifiers};

/// What is written behind the text of a query's plan: ORDER BY with the column of each key, which stand from this one on, LIMIT and
/// OFFSET, each where it is asked.
pub fn order_text(alloc: Global, first: usize, modifiers: &Modifiers) -> Result<String, Memory>
    ensures { IfOk result (λ s. string_bytes s ≡ text_of_order first modifiers.now) }
{
    let mut out = String::new(alloc);
    push_keys(&mut out, first, modifiers.directions.as_slice())?;
    push_limit(&mut out, modifiers.slice.limit)?;
    push_offset(&mut out, modifiers.slice.offset)?;
    Ok(out)
}

fn push_keys(out: &mut String, first: usize, directions: &[Direction]) -> Result<(), Memory>
    ensures { OnOk result (string_bytes out.new ≡ string_bytes out.old ++ keys_text first directions.now) }
{
    match directions {
        [] => Ok(()),
        [direction, rest @ ..] => push_some_keys(out, first, *direction, rest),
    }
}

fn push_some_keys(
    out: &mut String,
    first: usize,
    direction: Direction,
    rest: &[Direction],
) -> Result<(), Memory>
    ensures { OnOk result (string_bytes out.new ≡ string_bytes out.old ++ keys_text first (direction ∷ rest.now)) }
{
    out.push_str(" ORDER BY ")?;
    push_key(out, first as u128, direction)?;
    push_more_keys(out, first, rest)
}

/// The keys behind the first one, whose column is this one.
fn push_more_keys(out: &mut String, first: usize, directions: &[Direction]) -> Result<(), Memory>
    ensures { OnOk result (string_bytes out.new ≡ string_bytes out.old ++ more_keys_text (suc first) directions.now) }
{
    for i in 0..directions.len() {
        out.push_str(", ")?;
        push_key(out, first as u128 + 1 + i as u128, directions[i])?;
    }
    Ok(())
}

fn push_key(out: &mut String, column: u128, direction: Direction) -> Result<(), Memory>
    requires { column < 2 ^ 127 }
    ensures { OnOk result (string_bytes out.new ≡ string_bytes out.old ++ key_text column direction) }
{
    out.push_str("c")?;
    push_number(out, column + 1)?;
    out.push_str(direction_text(direction))?;
    Ok(())
}

fn direction_text(direction: Direction) -> &'static str
    ensures { result.now ≡ text_of_direction direction }
{
    match direction {
        Direction::Ascending => " ASC",
        Direction::Descending => " DESC",
    }
}

fn push_limit(out: &mut String, limit: Option<u32>) -> Result<(), Memory>
    ensures { OnOk result (string_bytes out.new ≡ string_bytes out.old ++ limit_text limit) }
{
    match limit {
        None => Ok(()),
        Some(limit) => {
            out.push_str(" LIMIT ")?;
            push_number(out, limit as u128)
        }
    }
}

fn push_offset(out: &mut String, offset: u32) -> Result<(), Memory>
    ensures { OnOk result (string_bytes out.new ≡ string_bytes out.old ++ offset_text offset) }
{
    if offset == 0 {
        return Ok(());
    }
    out.push_str(" OFFSET ")?;
    push_number(out, offset as u128)
}
