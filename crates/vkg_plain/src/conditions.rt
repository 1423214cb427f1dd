// The value of a condition in a solution (SPARQL 1.1, 17), and the solutions of which it is true (18.5, Filter).
ghost use Rattle.std.specs.Prelude.{◌≡◌, IfErr, IfOk, IsOkAnd, map, fold, filter, true};
ghost use Rattle.std.specs.List.{list_any};
ghost use Rattle.vkg_sparql.specs.Seen.{condition_seen};
ghost use Rattle.vkg_algebra.specs.Seen.{condition_seen_if_any};
ghost use Rattle.vkg_schema.specs.Rows.{is_known_true};
ghost use Rattle.vkg_algebra.specs.Values.{expression_value, holds as holds_in, holds_if_any as holds_in_if_any};
ghost use Rattle.vkg_plain.specs.Asks.{asks, asks_if_any, asks_truth};
ghost use Rattle.vkg_plain.specs.Chains.{both_value, either_value};
ghost use Rattle.vkg_plain.specs.Wide.{are_asked, is_chain_asked};

use crate::fault::PlainFault;
use crate::solution::{Solution, copied, copy_solution, lookup};
use crate::truths::{
    both, compared, either, negated, same_terms, taken, tested, truth, truth_term,
};
use std::alloc::Global;
use vkg_base::{Box, Items};
use vkg_sparql::Condition;
use vkg_terms::Term;

/// Whether a condition is true in a solution; an error is not.
pub fn holds(
    alloc: Global,
    condition: &Condition,
    solution: &[Option<Term>],
) -> Result<bool, PlainFault>
    ensures value { IfOk result (λ b. b ≡ holds_in (condition_seen condition.now) solution.now) }
    ensures wide { IfErr result (λ f. f ≡ PlainFault.WideNumber → asks_truth (condition_seen condition.now) solution.now ≡ true) }
{
    let value = value(alloc, condition, solution)?;
    Ok(is_true(truth(alloc, &value)?))
}

fn is_true(truth: Option<bool>) -> bool
    ensures { result ≡ is_known_true truth }
{
    match truth {
        Some(truth) => truth,
        None => false,
    }
}

/// A condition that is left out is true.
pub fn holds_if_any(
    alloc: Global,
    condition: &Option<Box<Condition>>,
    solution: &[Option<Term>],
) -> Result<bool, PlainFault>
    ensures value { IfOk result (λ b. b ≡ holds_in_if_any (condition_seen_if_any condition.now) solution.now) }
    ensures wide { IfErr result (λ f. f ≡ PlainFault.WideNumber → asks_if_any (condition_seen_if_any condition.now) solution.now ≡ true) }
{
    match condition {
        Some(condition) => holds(alloc, condition, solution),
        None => Ok(true),
    }
}

/// The solutions of which a condition is true.
pub fn kept(
    alloc: Global,
    condition: &Condition,
    rows: &[Solution],
) -> Result<Items<Solution>, PlainFault>
    ensures value { IfOk result (λ out. out ≡ filter (holds_in (condition_seen condition.now)) rows.now) }
    ensures wide { IfErr result (λ f. f ≡ PlainFault.WideNumber → list_any (asks_truth (condition_seen condition.now)) rows.now ≡ true) }
{
    let mut out = Items::new(alloc);
    for row in rows {
        if holds(alloc, condition, row.as_slice())? {
            out.push(copy_solution(alloc, row.as_slice())?)?;
        }
    }
    Ok(out)
}

/// The value of an expression; none is an error.
#[cycle(value)]
pub fn value(
    alloc: Global,
    condition: &Condition,
    solution: &[Option<Term>],
) -> Result<Option<Term>, PlainFault>
    ensures value { IfOk result (λ v. v ≡ expression_value (condition_seen condition.now) solution.now) }
    ensures wide { IfErr result (λ f. f ≡ PlainFault.WideNumber → asks (condition_seen condition.now) solution.now ≡ true) }
{
    match condition {
        Condition::Variable(variable) => Ok(copied(lookup(solution, *variable))?),
        Condition::Constant(term) => Ok(Some(term.copy()?)),
        Condition::Bound(variable) => {
            let is_bound = lookup(solution, *variable).is_some();
            Ok(Some(truth_term(alloc, is_bound)?))
        }
        Condition::Test(test, a) => tested(alloc, *test, value(alloc, a, solution)),
        Condition::Take(take, a) => taken(alloc, *take, value(alloc, a, solution)),
        Condition::Compare(compare, a, b) => compared(
            alloc,
            *compare,
            value(alloc, a, solution),
            value(alloc, b, solution),
        ),
        Condition::SameTerm(a, b) => same_terms(
            alloc,
            value(alloc, a, solution),
            value(alloc, b, solution),
        ),
        Condition::Not(a) => negated(alloc, value(alloc, a, solution)),
        Condition::And(first, more) => all_of(
            alloc,
            value(alloc, first, solution),
            values(alloc, more.as_slice(), solution),
        ),
        Condition::Or(first, more) => any_of(
            alloc,
            value(alloc, first, solution),
            values(alloc, more.as_slice(), solution),
        ),
    }
}

/// The values of some conditions.
#[cycle(value)]
fn values(
    alloc: Global,
    conditions: &[Condition],
    solution: &[Option<Term>],
) -> Result<Items<Option<Term>>, PlainFault>
    ensures value { IfOk result (λ vs. vs ≡ map (λ c. expression_value (condition_seen c) solution.now) conditions.now) }
    ensures wide { IfErr result (λ f. f ≡ PlainFault.WideNumber → list_any (λ c. asks (condition_seen c) solution.now) conditions.now ≡ true) }
{
    let mut found = Items::new(alloc);
    for condition in conditions {
        found.push(value(alloc, condition, solution)?)?;
    }
    Ok(found)
}

/// The value of a chain of `&&`, joined from the left.
fn all_of(
    alloc: Global,
    first: Result<Option<Term>, PlainFault>,
    more: Result<Items<Option<Term>>, PlainFault>,
) -> Result<Option<Term>, PlainFault>
    ensures value { IfOk result (λ v. IsOkAnd first (λ w. IsOkAnd more (λ vs. v ≡ fold both_value w vs))) }
    ensures wide { IfErr result (λ f. f ≡ PlainFault.WideNumber → is_chain_asked first more ≡ true) }
{
    let first = first?;
    let more = more?;
    all_behind(alloc, first, more.as_slice())
}

fn all_behind(
    alloc: Global,
    first: Option<Term>,
    more: &[Option<Term>],
) -> Result<Option<Term>, PlainFault>
    ensures value { IfOk result (λ v. v ≡ fold both_value first more.now) }
    ensures wide { IfErr result (λ f. f ≡ PlainFault.WideNumber → are_asked first more.now ≡ true) }
{
    let mut all = first;
    for next in more {
        all = both(alloc, &all, next)?;
    }
    Ok(all)
}

/// The value of a chain of `||`, joined from the left.
fn any_of(
    alloc: Global,
    first: Result<Option<Term>, PlainFault>,
    more: Result<Items<Option<Term>>, PlainFault>,
) -> Result<Option<Term>, PlainFault>
    ensures value { IfOk result (λ v. IsOkAnd first (λ w. IsOkAnd more (λ vs. v ≡ fold either_value w vs))) }
    ensures wide { IfErr result (λ f. f ≡ PlainFault.WideNumber → is_chain_asked first more ≡ true) }
{
    let first = first?;
    let more = more?;
    any_behind(alloc, first, more.as_slice())
}

fn any_behind(
    alloc: Global,
    first: Option<Term>,
    more: &[Option<Term>],
) -> Result<Option<Term>, PlainFault>
    ensures value { IfOk result (λ v. v ≡ fold either_value first more.now) }
    ensures wide { IfErr result (λ f. f ≡ PlainFault.WideNumber → are_asked first more.now ≡ true) }
{
    let mut any = first;
    for next in more {
        any = either(alloc, &any, next)?;
    }
    Ok(any)
}
