// The solutions of a table (SPARQL 1.1, 18.2.2.6, the data of VALUES).
ghost use Rattle.std.specs.Prelude.{◌≡◌, IfOk, OnOk, map, slice_set};
ghost use Rattle.vkg_algebra.specs.Solutions.{row_solution as solution_of};

use crate::quad::copy_place;
use crate::solution::{Solution, unbound};
use std::alloc::Global;
use vkg_base::{Items, Memory};
use vkg_terms::Term;

/// The solution of each row, among so many variables and labels.
pub fn table(
    alloc: Global,
    width: usize,
    variables: &[usize],
    rows: &[Items<Option<Term>>],
) -> Result<Items<Solution>, Memory>
    ensures { IfOk result (λ out. out ≡ map (solution_of width variables.now) rows.now) }
{
    let mut out = Items::new(alloc);
    for row in rows {
        out.push(row_solution(alloc, width, variables, row.as_slice())?)?;
    }
    Ok(out)
}

/// Each variable is bound to its value, if it has one.
fn row_solution(
    alloc: Global,
    width: usize,
    variables: &[usize],
    row: &[Option<Term>],
) -> Result<Solution, Memory>
    ensures { IfOk result (λ s. s ≡ solution_of width variables.now row.now) }
{
    let Some((variable, variables)) = variables.split_first() else {
        return unbound(alloc, width);
    };
    let Some((value, row)) = row.split_first() else {
        return unbound(alloc, width);
    };
    let mut solution = row_solution(alloc, width, variables, row)?;
    let term = copy_place(value)?;
    set(&mut solution, *variable, term);
    Ok(solution)
}

/// A variable has this value, or none; one that is not there stays so.
pub fn set(solution: &mut Solution, variable: usize, value: Option<Term>)
    ensures { solution.new ≡ slice_set solution.old variable value }
{
    if variable < solution.len() {
        solution.set(variable, value);
    }
}
