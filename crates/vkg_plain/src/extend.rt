// Solutions in which one more variable has a value (SPARQL 1.1, 18.5, Extend).
ghost use Rattle.std.specs.Prelude.{◌≡◌, IfErr, IfOk, map, true};
ghost use Rattle.std.specs.List.{list_any};
ghost use Rattle.vkg_sparql.specs.Seen.{condition_seen};
ghost use Rattle.vkg_algebra.specs.Solutions.{extended as extended_by};
ghost use Rattle.vkg_algebra.specs.Values.{expression_value};
ghost use Rattle.vkg_plain.specs.Asks.{asks};

use crate::conditions::value;
use crate::fault::PlainFault;
use crate::solution::{Solution, copy_solution};
use crate::table::set;
use std::alloc::Global;
use vkg_base::Items;
use vkg_sparql::Condition;
use vkg_terms::Term;

/// Each solution with the value of an expression at a variable; where that is an error the variable is unbound.
pub fn extend(
    alloc: Global,
    variable: usize,
    condition: &Condition,
    rows: &[Solution],
) -> Result<Items<Solution>, PlainFault>
    ensures value { IfOk result (λ out. out ≡ map (λ s. extended_by variable (expression_value (condition_seen condition.now) s) s) rows.now) }
    ensures wide { IfErr result (λ f. f ≡ PlainFault.WideNumber → list_any (asks (condition_seen condition.now)) rows.now ≡ true) }
{
    let mut out = Items::new(alloc);
    for row in rows {
        out.push(extended(alloc, variable, condition, row.as_slice())?)?;
    }
    Ok(out)
}

fn extended(
    alloc: Global,
    variable: usize,
    condition: &Condition,
    row: &[Option<Term>],
) -> Result<Solution, PlainFault>
    ensures value { IfOk result (λ s. s ≡ extended_by variable (expression_value (condition_seen condition.now) row.now) row.now) }
    ensures wide { IfErr result (λ f. f ≡ PlainFault.WideNumber → asks (condition_seen condition.now) row.now ≡ true) }
{
    let value = value(alloc, condition, row)?;
    let mut solution = copy_solution(alloc, row)?;
    set(&mut solution, variable, value);
    Ok(solution)
}
