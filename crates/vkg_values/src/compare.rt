ghost use Rattle.std.specs.Prelude.{◌≡◌, IfOk, IfSome};
ghost use Rattle.std.specs.Option.{option_copied};
ghost use Rattle.vkg_cells.specs.Order.{HasNumber, order as order_of};
ghost use Rattle.vkg_values.specs.Known.{known as value_of, widest};
ghost use Rattle.vkg_values.specs.Operators.{compare_value, compared, compared_values, equal, equal_where, is_literal as is_literal_term, is_one_sort as are_of_one_sort, term_equal};

use crate::known::known_value;
use crate::logic::negation;
use crate::operator::Compare;
use crate::strings::{contains, ends, starts};
use std::alloc::Global;
use std::cmp::Ordering;
use std::mem;
use vkg_base::Memory;
use vkg_cells::{Cell, order};
use vkg_terms::Term;

/// What a comparison of two terms gives (SPARQL 1.1 Query, 17.3), or STRSTARTS, STRENDS or CONTAINS of them (17.4.3); `None` is an error.
pub fn compare_terms(
    alloc: Global,
    operator: Compare,
    a: &Term,
    b: &Term,
) -> Result<Option<bool>, Memory>
    ensures { IfOk result (λ o. o ≡ compare_value widest operator a.now b.now) }
{
    match operator {
        Compare::Equal => Ok(equal_terms(a, b, order_terms(alloc, a, b)?)),
        Compare::NotEqual => Ok(negation(equal_terms(a, b, order_terms(alloc, a, b)?))),
        Compare::Less => Ok(order_terms(alloc, a, b)?.map(|o| o.is_lt())),
        Compare::Greater => Ok(order_terms(alloc, a, b)?.map(|o| o.is_gt())),
        Compare::LessOrEqual => Ok(order_terms(alloc, a, b)?.map(|o| o.is_le())),
        Compare::GreaterOrEqual => Ok(order_terms(alloc, a, b)?.map(|o| o.is_ge())),
        Compare::Starts => Ok(starts(a, b)),
        Compare::Ends => Ok(ends(a, b)),
        Compare::Contains => Ok(contains(a, b)),
    }
}

/// The order of the known values of two terms, where they are of one sort.
fn order_terms(alloc: Global, a: &Term, b: &Term) -> Result<Option<Ordering>, Memory>
    ensures { IfOk result (λ o. o ≡ compared widest a.now b.now) }
{
    let value = known_value(alloc, a)?;
    let order = order_after(alloc, &value, b);
    mem::drop(value);
    order
}

// Cells are let go by a call: a drop where a function is left is written out there, with that of each kind of cell.

/// The order of a value and the known value of a term.
fn order_after(alloc: Global, value: &Option<Cell>, b: &Term) -> Result<Option<Ordering>, Memory>
    requires { IfSome value.now HasNumber }
    ensures { IfOk result (λ o. o ≡ compared_values value.now (value_of widest b.now)) }
{
    let other = known_value(alloc, b)?;
    let order = order_known(value, &other);
    mem::drop(other);
    Ok(order)
}

fn order_known(a: &Option<Cell>, b: &Option<Cell>) -> Option<Ordering>
    requires first { IfSome a.now HasNumber }
    requires second { IfSome b.now HasNumber }
    ensures { result ≡ compared_values a.now b.now }
{
    match (a, b) {
        (Some(c), Some(d)) => order_values(c, d),
        _ => None,
    }
}

fn order_values(c: &Cell, d: &Cell) -> Option<Ordering>
    requires first { HasNumber c.now }
    requires second { HasNumber d.now }
    ensures { result ≡ compared_values (Some c.now) (Some d.now) }
{
    if is_one_sort(c, d) {
        Some(order(c, d))
    } else {
        None
    }
}

fn is_one_sort(c: &Cell, d: &Cell) -> bool
    ensures { result ≡ are_of_one_sort c.now d.now }
{
    match (c, d) {
        (Cell::Text(_), Cell::Text(_)) => true,
        (Cell::Int(_), Cell::Int(_)) => true,
        (Cell::Int(_), Cell::Dec(_)) => true,
        (Cell::Dec(_), Cell::Int(_)) => true,
        (Cell::Dec(_), Cell::Dec(_)) => true,
        (Cell::Bool(_), Cell::Bool(_)) => true,
        (Cell::Date(_), Cell::Date(_)) => true,
        (Cell::Stamp(_), Cell::Stamp(_)) => true,
        _ => false,
    }
}

fn equal_terms(a: &Term, b: &Term, by_value: Option<Ordering>) -> Option<bool>
    ensures { result ≡ equal_where a.now b.now by_value }
{
    match by_value {
        Some(order) => Some(order.is_eq()),
        None => equal_as_terms(a, b),
    }
}

/// Whether they are one term; of two other literals that is an error (SPARQL 1.1 Query, 17.4.1.7).
fn equal_as_terms(a: &Term, b: &Term) -> Option<bool>
    ensures { result ≡ term_equal a.now b.now }
{
    if a.same(b) {
        Some(true)
    } else if is_literal(a) && is_literal(b) {
        None
    } else {
        Some(false)
    }
}

pub(crate) fn is_literal(term: &Term) -> bool
    ensures { result ≡ is_literal_term term.now }
{
    matches!(term, Term::Lit(_, _))
}
