// What ASK writes (SPARQL 1.1, 16.3).
ghost use Rattle.std.specs.Prelude.{◌≡◌, [], ◌∷◌, IfOk, codes, if◌then◌else◌};

use std::alloc::Global;
use vkg_base::{Lines, Memory};

/// Whether there is a solution: `true` or `false`.
pub fn ask_lines(alloc: Global, is_yes: bool) -> Result<Lines, Memory>
    ensures { IfOk result (λ lines. lines ≡ (if is_yes then codes "true" else codes "false") ∷ []) }
{
    let mut lines = Lines::new(alloc);
    lines.push(String::from_str(alloc, word(is_yes))?)?;
    Ok(lines)
}

fn word(is_yes: bool) -> &'static str
    ensures { result.now ≡ (if is_yes then codes "true" else codes "false") }
{
    if is_yes { "true" } else { "false" }
}
