ghost use Rattle.std.specs.Prelude.{◌≡◌};
ghost use Rattle.std.specs.Cmp.{IsTotalOrder};
ghost use Rattle.std.specs.Option.{option_copied};
ghost use Rattle.vkg_cells.specs.Order.{HasNumber};
ghost use Rattle.vkg_order.specs.Lent.{lent_key};
ghost use Rattle.vkg_order.specs.Values.{IsByOperator, bound as bound_of, key_cmp, value_cmp};

use crate::marks::order_literals;
use crate::sort_key::{SortKey, value_key};
use std::cmp::Ordering;
use vkg_cells::{Cell, CellRef, order_ref};
use vkg_terms::Term;

/// The order of two values of a key (SPARQL 1.1, 15.1): no value, blank nodes, IRIs, literals. A cell that is no term is no value.
///
/// It takes no memory. It is a total preorder: of two values one comes first, or they tie, as `7` and `07` do.
pub fn compare(a: &Cell, b: &Cell) -> Ordering
    ensures value { result ≡ value_cmp (bound_of a.now) (bound_of b.now) }
    ensures total { IsTotalOrder value_cmp }
    ensures operator { IsByOperator }
{
    order_values(bound(a), bound(b))
}

/// The term that a cell is, if it is one.
pub(crate) fn bound(cell: &Cell) -> Option<&Term>
    ensures { option_copied result ≡ bound_of cell.now }
{
    match cell {
        Cell::Term(term) => Some(term),
        _ => None,
    }
}

#[tactic(auto, unfolding(crate::specs::Values::value_cmp))]
pub(crate) fn order_values(a: Option<&Term>, b: Option<&Term>) -> Ordering
    ensures { result ≡ value_cmp (option_copied a.entry) (option_copied b.entry) }
{
    order_keys(value_key(a), value_key(b))
}

fn order_keys(a: SortKey<'_>, b: SortKey<'_>) -> Ordering
    requires first { HasNumber (lent_key a).1 }
    requires second { HasNumber (lent_key b).1 }
    ensures { result ≡ key_cmp (lent_key a.entry) (lent_key b.entry) }
{
    match (a, b) {
        (SortKey::Blank(x), SortKey::Blank(y)) => x.cmp(&y),
        (SortKey::Iri(x), SortKey::Iri(y)) => x.cmp(&y),
        (SortKey::Number(x), SortKey::Number(y)) => order_ref(&CellRef::dec(x), &CellRef::dec(y)),
        (SortKey::Plain(x), SortKey::Plain(y)) => x.cmp(&y),
        (SortKey::Truth(x), SortKey::Truth(y)) => x.cmp(&y),
        (SortKey::Moment(x), SortKey::Moment(y)) => x.cmp(&y),
        (SortKey::Date(x), SortKey::Date(y)) => x.cmp(&y),
        (SortKey::Other(s, x), SortKey::Other(t, y)) => order_literals(s, x, t, y),
        _ => class(a).cmp(&class(b)),
    }
}

/// The place of a key's class among the classes.
fn class(key: SortKey<'_>) -> u8
    ensures { result ≡ (lent_key key.entry).0 }
{
    match key {
        SortKey::Unbound => 0,
        SortKey::Blank(_) => 1,
        SortKey::Iri(_) => 2,
        SortKey::Number(_) => 3,
        SortKey::Plain(_) => 4,
        SortKey::Truth(_) => 5,
        SortKey::Moment(_) => 6,
        SortKey::Date(_) => 7,
        SortKey::Other(_, _) => 8,
    }
}
