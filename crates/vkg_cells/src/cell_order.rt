ghost use Rattle.std.specs.Prelude.{◌≡◌, ◌*◌, ◌^◌, IsTrue};
ghost use Rattle.std.specs.Cmp.{IsTotalOrder};
ghost use Rattle.std.specs.Ordering.{nat_cmp};
ghost use Rattle.vkg_cells.specs.Laws.{IsEqualWhereSame};
ghost use Rattle.vkg_cells.specs.Number.{is_decimal, number_cmp, scale, size};
ghost use Rattle.vkg_cells.specs.Order.{HasNumber, order as order_of};

use crate::cell::Cell;
use crate::cell_ref::{CellRef, Lent};
use crate::compare::family_of;
use crate::number::{fraction, is_below_zero, trim_leading_zeros, trim_trailing_zeros, whole};
use crate::term_order::order_terms;
use std::cmp::Ordering;

/// The order of two cells: NULL, then the families in their order, each by value.
///
/// It is total, and two cells of kinds are equal in it exactly where they are the same. Asked of cells whose numbers are
/// written as xsd:decimal, as those of each cell that was read are.
pub fn order(a: &Cell, b: &Cell) -> Ordering
    requires first { HasNumber a.now }
    requires second { HasNumber b.now }
    ensures value { result ≡ order_of a.now b.now }
    ensures total { IsTotalOrder order_of }
    ensures equal { IsEqualWhereSame a.now b.now result }
{
    order_ref(&CellRef::of(a), &CellRef::of(b))
}

/// The order of two lent cells, as `order` has it.
pub fn order_ref(a: &CellRef<'_>, b: &CellRef<'_>) -> Ordering
    requires first { HasNumber a.now }
    requires second { HasNumber b.now }
    ensures value { result ≡ order_of a.now b.now }
    ensures total { IsTotalOrder order_of }
    ensures equal { IsEqualWhereSame a.now b.now result }
{
    order_lent(a, b)
}

fn order_lent(a: &CellRef<'_>, b: &CellRef<'_>) -> Ordering
    requires first { HasNumber a.now }
    requires second { HasNumber b.now }
    ensures { result ≡ order_of a.now b.now }
{
    match (a.lent, b.lent) {
        (Lent::Text(x), Lent::Text(y)) => x.cmp(&y),
        (Lent::Int(x), Lent::Int(y)) => order_numbers(x, y),
        (Lent::Int(x), Lent::Dec(y)) => order_numbers(x, y),
        (Lent::Dec(x), Lent::Int(y)) => order_numbers(x, y),
        (Lent::Dec(x), Lent::Dec(y)) => order_numbers(x, y),
        (Lent::Bool(x), Lent::Bool(y)) => x.cmp(&y),
        (Lent::Date(x), Lent::Date(y)) => x.cmp(&y),
        (Lent::Stamp(x), Lent::Stamp(y)) => x.cmp(&y),
        (Lent::Bin(x), Lent::Bin(y)) => x.cmp(&y),
        (Lent::Time(x), Lent::Time(y)) => x.cmp(&y),
        (Lent::Term(x), Lent::Term(y)) => order_terms(x, y),
        _ => family_of(a).cmp(&family_of(b)),
    }
}

/// The order of two numbers by their values.
fn order_numbers(a: &str, b: &str) -> Ordering
    requires first { IsTrue (is_decimal a.now) }
    requires second { IsTrue (is_decimal b.now) }
    ensures { result ≡ number_cmp a.now b.now }
{
    match (is_below_zero(a), is_below_zero(b)) {
        (false, false) => order_sizes(a, b),
        (true, true) => order_sizes(b, a),
        (true, false) => Ordering::Less,
        (false, true) => Ordering::Greater,
    }
}

/// The order of two numbers without their signs.
fn order_sizes(a: &str, b: &str) -> Ordering
    requires first { IsTrue (is_decimal a.now) }
    requires second { IsTrue (is_decimal b.now) }
    ensures { result ≡ nat_cmp (size a.now * 10 ^ scale b.now) (size b.now * 10 ^ scale a.now) }
{
    let (a_whole, b_whole) = (trim_leading_zeros(whole(a)), trim_leading_zeros(whole(b)));
    let a_fraction = trim_trailing_zeros(fraction(a));
    let b_fraction = trim_trailing_zeros(fraction(b));
    a_whole
        .len()
        .cmp(&b_whole.len())
        .then(a_whole.cmp(&b_whole))
        .then(a_fraction.cmp(&b_fraction))
}
