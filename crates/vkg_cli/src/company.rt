// The text of `gen`.
ghost use Rattle.std.specs.Prelude.{◌≡◌, ◌<◌, ◌≤◌, IfErr, IfOk};
ghost use Rattle.vkg_cli.specs.declared.stops.Stop.TheVariants.{Memory as OutOfMemory};
ghost use Rattle.vkg_gen.specs.Report.{IsReport};

use crate::Stop;
use std::alloc::Global;
use vkg_base::{Lines, Memory};
use vkg_gen::report;

/// The text of `gen`: the report on the company of `n` employees.
pub fn text_of_gen(alloc: Global, n: usize) -> Result<Lines, Stop>
    requires some { 0 < n }
    requires limit { n ≤ 100000 }
    ensures report { IfOk result (IsReport n) }
    ensures kind { IfErr result (λ why. why ≡ OutOfMemory) }
{
    match report(alloc, n) {
        Ok(lines) => Ok(lines),
        Err(Memory) => Err(Stop::Memory),
    }
}
