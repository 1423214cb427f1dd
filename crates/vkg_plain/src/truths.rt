// What the operators make of terms, where an error has none (SPARQL 1.1, 17).
ghost use Rattle.std.specs.Prelude.{◌≡◌, ◌||◌, IfErr, IfOk, IsOkAnd, Some, None, true, false, option_and_then, option_map};
ghost use Rattle.vkg_cells.specs.WellTyped.{is_wide_number as is_wide_term};
ghost use Rattle.vkg_terms.specs.Same.{term_eq};
ghost use Rattle.vkg_values.specs.Logic.{not3};
ghost use Rattle.vkg_values.specs.Operators.{compare_value, ebv, on_two, take_value, test_value};
ghost use Rattle.vkg_algebra.specs.Values.{truth as truth_of_value, truth_term as term_of_truth};
ghost use Rattle.vkg_plain.specs.Asks.{is_wide};
ghost use Rattle.vkg_plain.specs.Chains.{both_value, either_value};
ghost use Rattle.vkg_plain.specs.Wide.{has_failed, is_asked};

use crate::fault::PlainFault;
use std::alloc::Global;
use vkg_base::{Memory, Text};
use vkg_cells::is_wide_number;
use vkg_terms::vocabulary::XSD_BOOLEAN;
use vkg_terms::{Annotation, Term};
use vkg_values::{
    Compare, Take, Test, compare_terms, conjunction, disjunction, effective_truth, negation,
    take_of, test_of,
};

/// The literal of a truth.
pub fn truth_term(alloc: Global, truth: bool) -> Result<Term, Memory>
    ensures { IfOk result (λ t. t ≡ term_of_truth truth) }
{
    let text = Text::new(alloc, if truth { "true" } else { "false" })?;
    let datatype = Text::new(alloc, XSD_BOOLEAN)?;
    Ok(Term::Lit(text, Annotation::typed(datatype)))
}

fn term_if_any(alloc: Global, truth: Option<bool>) -> Result<Option<Term>, Memory>
    ensures { IfOk result (λ o. o ≡ option_map term_of_truth truth) }
{
    match truth {
        Some(truth) => Ok(Some(truth_term(alloc, truth)?)),
        None => Ok(None),
    }
}

/// The value of a term is known where it is no number of more than 38 digits.
fn known(term: &Term) -> Result<(), PlainFault>
    ensures value { IfOk result (λ _. is_wide_term term.now ≡ false) }
    ensures wide { IfErr result (λ f. f ≡ PlainFault.WideNumber → is_wide_term term.now ≡ true) }
{
    if is_wide_number(term) {
        Err(PlainFault::WideNumber)
    } else {
        Ok(())
    }
}

/// The effective boolean value of what may be an error (17.2.2).
#[tactic(auto, using(vkg_values::proofs::Narrow::ebv_narrow))]
pub fn truth(alloc: Global, value: &Option<Term>) -> Result<Option<bool>, PlainFault>
    ensures value { IfOk result (λ b. b ≡ truth_of_value value.now) }
    ensures wide { IfErr result (λ f. f ≡ PlainFault.WideNumber → is_wide value.now ≡ true) }
{
    match value {
        Some(term) => {
            known(term)?;
            Ok(effective_truth(alloc, term)?)
        }
        None => Ok(None),
    }
}

pub fn tested(
    alloc: Global,
    test: Test,
    value: Result<Option<Term>, PlainFault>,
) -> Result<Option<Term>, PlainFault>
    ensures value { IfOk result (λ o. IsOkAnd value (λ v. o ≡ option_map (λ t. term_of_truth (test_value None test t)) v)) }
    ensures wide { IfErr result (λ f. f ≡ PlainFault.WideNumber → is_asked value ≡ true) }
{
    match value? {
        Some(term) => Ok(Some(truth_term(alloc, test_term(alloc, test, &term)?)?)),
        None => Ok(None),
    }
}

#[tactic(auto, using(vkg_values::proofs::Narrow::test_narrow))]
fn test_term(alloc: Global, test: Test, term: &Term) -> Result<bool, PlainFault>
    ensures value { IfOk result (λ b. b ≡ test_value None test term.now) }
    ensures wide { IfErr result (λ f. f ≡ PlainFault.WideNumber → is_wide_term term.now ≡ true) }
{
    known(term)?;
    Ok(test_of(alloc, test, term)?)
}

pub fn taken(
    alloc: Global,
    take: Take,
    value: Result<Option<Term>, PlainFault>,
) -> Result<Option<Term>, PlainFault>
    ensures value { IfOk result (λ o. IsOkAnd value (λ v. o ≡ option_and_then (take_value take) v)) }
    ensures wide { IfErr result (λ f. f ≡ PlainFault.WideNumber → has_failed value ≡ true) }
{
    match value? {
        Some(term) => Ok(take_of(alloc, take, &term)?),
        None => Ok(None),
    }
}

pub fn compared(
    alloc: Global,
    compare: Compare,
    a: Result<Option<Term>, PlainFault>,
    b: Result<Option<Term>, PlainFault>,
) -> Result<Option<Term>, PlainFault>
    ensures value { IfOk result (λ o. IsOkAnd a (λ v. IsOkAnd b (λ w. o ≡ option_map term_of_truth (on_two (compare_value None compare) v w)))) }
    ensures wide { IfErr result (λ f. f ≡ PlainFault.WideNumber → (is_asked a || is_asked b) ≡ true) }
{
    let a = a?;
    let b = b?;
    Ok(term_if_any(alloc, compare_values(alloc, compare, &a, &b)?)?)
}

fn compare_values(
    alloc: Global,
    compare: Compare,
    a: &Option<Term>,
    b: &Option<Term>,
) -> Result<Option<bool>, PlainFault>
    ensures value { IfOk result (λ o. o ≡ on_two (compare_value None compare) a.now b.now) }
    ensures wide { IfErr result (λ f. f ≡ PlainFault.WideNumber → (is_wide a.now || is_wide b.now) ≡ true) }
{
    match (a, b) {
        (Some(s), Some(t)) => compare_known(alloc, compare, s, t),
        _ => Ok(None),
    }
}

#[tactic(auto, using(vkg_values::proofs::Narrow::compare_narrow))]
fn compare_known(
    alloc: Global,
    compare: Compare,
    s: &Term,
    t: &Term,
) -> Result<Option<bool>, PlainFault>
    ensures value { IfOk result (λ o. o ≡ compare_value None compare s.now t.now) }
    ensures wide { IfErr result (λ f. f ≡ PlainFault.WideNumber → (is_wide_term s.now || is_wide_term t.now) ≡ true) }
{
    known(s)?;
    known(t)?;
    Ok(compare_terms(alloc, compare, s, t)?)
}

pub fn same_terms(
    alloc: Global,
    a: Result<Option<Term>, PlainFault>,
    b: Result<Option<Term>, PlainFault>,
) -> Result<Option<Term>, PlainFault>
    ensures value { IfOk result (λ o. IsOkAnd a (λ v. IsOkAnd b (λ w. o ≡ option_map term_of_truth (on_two (λ t u. Some (term_eq t u)) v w)))) }
    ensures wide { IfErr result (λ f. f ≡ PlainFault.WideNumber → (has_failed a || has_failed b) ≡ true) }
{
    let a = a?;
    let b = b?;
    Ok(term_if_any(alloc, same_values(&a, &b))?)
}

fn same_values(a: &Option<Term>, b: &Option<Term>) -> Option<bool>
    ensures { result ≡ on_two (λ t u. Some (term_eq t u)) a.now b.now }
{
    match (a, b) {
        (Some(s), Some(t)) => Some(s.same(t)),
        _ => None,
    }
}

pub fn negated(
    alloc: Global,
    value: Result<Option<Term>, PlainFault>,
) -> Result<Option<Term>, PlainFault>
    ensures value { IfOk result (λ o. IsOkAnd value (λ v. o ≡ option_map term_of_truth (not3 (truth_of_value v)))) }
    ensures wide { IfErr result (λ f. f ≡ PlainFault.WideNumber → is_asked value ≡ true) }
{
    let value = value?;
    Ok(term_if_any(alloc, negation(truth(alloc, &value)?))?)
}

pub fn both(alloc: Global, a: &Option<Term>, b: &Option<Term>) -> Result<Option<Term>, PlainFault>
    ensures value { IfOk result (λ o. o ≡ both_value a.now b.now) }
    ensures wide { IfErr result (λ f. f ≡ PlainFault.WideNumber → (is_wide a.now || is_wide b.now) ≡ true) }
{
    let a = truth(alloc, a)?;
    let b = truth(alloc, b)?;
    Ok(term_if_any(alloc, conjunction(a, b))?)
}

pub fn either(alloc: Global, a: &Option<Term>, b: &Option<Term>) -> Result<Option<Term>, PlainFault>
    ensures value { IfOk result (λ o. o ≡ either_value a.now b.now) }
    ensures wide { IfErr result (λ f. f ≡ PlainFault.WideNumber → (is_wide a.now || is_wide b.now) ≡ true) }
{
    let a = truth(alloc, a)?;
    let b = truth(alloc, b)?;
    Ok(term_if_any(alloc, disjunction(a, b))?)
}
