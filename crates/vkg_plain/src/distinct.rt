// Each solution once (SPARQL 1.1, 18.5, Distinct).
ghost use Rattle.std.specs.Prelude.{◌≡◌, ◌∷◌, IfOk, filter, not};
ghost use Rattle.std.specs.Option.{option_eq};
ghost use Rattle.vkg_lists.specs.Sets.{distinct};
ghost use Rattle.vkg_terms.specs.Same.{term_eq};
ghost use Rattle.vkg_algebra.specs.Answer.{solution_eq};

use crate::solution::{Solution, copy_solution};
use std::alloc::Global;
use vkg_base::{Items, Memory};
use vkg_terms::Term;

/// Each solution once, where it first stands.
pub fn once_each(alloc: Global, rows: &[Solution]) -> Result<Items<Solution>, Memory>
    ensures { IfOk result (λ out. out ≡ distinct solution_eq rows.now) }
{
    let mut out = Items::new(alloc);
    let mut i = rows.len();
    while i > 0 {
        i -= 1;
        out = before(alloc, rows[i].as_slice(), out.as_slice())?;
    }
    Ok(out)
}

/// The solution, and then the others.
fn before(alloc: Global, row: &[Option<Term>], rows: &[Solution]) -> Result<Items<Solution>, Memory>
    ensures { IfOk result (λ out. out ≡ row.now ∷ filter (λ s. not (solution_eq row.now s)) rows.now) }
{
    let mut out = Items::new(alloc);
    out.push(copy_solution(alloc, row)?)?;
    for other in rows {
        if !same_solutions(row, other.as_slice()) {
            out.push(copy_solution(alloc, other.as_slice())?)?;
        }
    }
    Ok(out)
}

fn same_solutions(a: &[Option<Term>], b: &[Option<Term>]) -> bool
    ensures { result ≡ solution_eq a.now b.now }
{
    if a.len() != b.len() {
        return false;
    }
    for i in 0..a.len() {
        if !same_places(&a[i], &b[i]) {
            return false;
        }
    }
    true
}

/// Whether both are the same term, or neither is one.
pub fn same_places(a: &Option<Term>, b: &Option<Term>) -> bool
    ensures { result ≡ option_eq term_eq a.now b.now }
{
    match (a, b) {
        (None, None) => true,
        (Some(a), Some(b)) => a.same(b),
        _ => false,
    }
}
