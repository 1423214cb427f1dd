// The solutions that those of another do not take away (SPARQL 1.1, 18.5, Minus).
ghost use Rattle.std.specs.Prelude.{◌≡◌, ◌&&◌, [], ◌∷◌, ◌++◌, IfOk, OnOk, not};
ghost use Rattle.std.specs.List.{list_all};
ghost use Rattle.std.specs.Option.{option_copied};
ghost use Rattle.vkg_algebra.specs.Solutions.{both_bound as both_are_bound, compatible as compatible_maps, minus as minus_of, shares as shares_variable};

use crate::solution::{Solution, compatible, copy_solution, lookup};
use std::alloc::Global;
use vkg_base::{Items, Memory};
use vkg_terms::Term;

/// The solutions that with each of the second are incompatible or have no variable in common.
pub fn minus(alloc: Global, ls: &[Solution], rs: &[Solution]) -> Result<Items<Solution>, Memory>
    ensures { IfOk result (λ rows. rows ≡ minus_of ls.now rs.now) }
{
    let mut out = Items::new(alloc);
    for l in ls {
        add_if_staying(alloc, &mut out, l.as_slice(), rs)?;
    }
    Ok(out)
}

fn add_if_staying(
    alloc: Global,
    out: &mut Items<Solution>,
    l: &[Option<Term>],
    rs: &[Solution],
) -> Result<(), Memory>
    ensures { OnOk result (out.new ≡ out.old ++ minus_of (l.now ∷ []) rs.now) }
{
    if stays(l, rs) {
        out.push(copy_solution(alloc, l)?)?;
    }
    Ok(())
}

fn stays(l: &[Option<Term>], rs: &[Solution]) -> bool
    ensures { result ≡ list_all (λ r. not (compatible_maps l.now r && shares_variable l.now r)) rs.now }
{
    for r in rs {
        if takes_away(l, r.as_slice()) {
            return false;
        }
    }
    true
}

fn takes_away(l: &[Option<Term>], r: &[Option<Term>]) -> bool
    ensures { result ≡ (compatible_maps l.now r.now && shares_variable l.now r.now) }
{
    compatible(l, r) && shares(l, r)
}

/// Whether some variable is bound in both.
#[tactic(auto, using(crate::proofs::Maps::shares_more))]
fn shares(l: &[Option<Term>], r: &[Option<Term>]) -> bool
    ensures { result ≡ shares_variable l.now r.now }
{
    for i in 0..l.len() {
        if both_bound(lookup(l, i), lookup(r, i)) {
            return true;
        }
    }
    false
}

fn both_bound(a: Option<&Term>, b: Option<&Term>) -> bool
    ensures { result ≡ both_are_bound (option_copied a.entry) (option_copied b.entry) }
{
    match (a, b) {
        (Some(_), Some(_)) => true,
        _ => false,
    }
}
