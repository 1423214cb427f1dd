// Lists of solutions.
ghost use Rattle.std.specs.Prelude.{◌≡◌, ◌∷◌, [], ◌++◌, IfOk, OnOk};

use crate::solution::{Solution, copy_solution};
use std::alloc::Global;
use vkg_base::{Items, Memory};

/// One solution.
pub fn one(alloc: Global, solution: Solution) -> Result<Items<Solution>, Memory>
    ensures { IfOk result (λ rows. rows ≡ solution ∷ []) }
{
    let mut rows = Items::new(alloc);
    rows.push(solution)?;
    Ok(rows)
}

/// The solutions of the one, and then those of the other.
pub fn union(left: Items<Solution>, right: Items<Solution>) -> Result<Items<Solution>, Memory>
    ensures { IfOk result (λ rows. rows ≡ left ++ right) }
{
    let mut rows = left;
    rows.append(right)?;
    Ok(rows)
}

/// Adds a copy of each.
pub fn add_all(alloc: Global, out: &mut Items<Solution>, rows: &[Solution]) -> Result<(), Memory>
    ensures { OnOk result (out.new ≡ out.old ++ rows.now) }
{
    for row in rows {
        out.push(copy_solution(alloc, row.as_slice())?)?;
    }
    Ok(())
}
