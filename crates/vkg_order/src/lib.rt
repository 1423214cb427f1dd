//! The order of an answer: how the values of keys are compared, and the lines that ORDER BY, DISTINCT, OFFSET and LIMIT leave.
//!
//! Follows SPARQL 1.1 Query, 15 and 18.5 (OrderBy, Distinct, Slice); what 15.1 leaves open is ordered by `specs/Values.antt`.
//! `compare` takes no memory and is a total preorder; where the operator `<` has an answer, it is the same. A `Keeper` is offered
//! the entries of an answer one by one, and gives the lines that `specs/Listed.antt` defines for all of them, whatever their
//! order. With a limit it holds no more entries than OFFSET and LIMIT together; an offer that is refused for want of memory
//! leaves it as it was. `ranked` gives the solutions themselves that are asked, in the asked order (`specs/Ranked.antt`).
//!
//! Stands on vkg_lists for orders and lemmas, on vkg_base for lines and want of memory, on vkg_terms and vkg_cells for values, and
//! on vkg_values for the literals whose value is known.
#![tactic(auto)]

mod held;
mod keeper;
mod marks;
mod modifiers;
mod moment;
mod offer;
mod solutions;
mod sort_key;
mod values;

pub use keeper::Keeper;
pub use modifiers::{Direction, Modifiers, Slice};
pub use solutions::{Candidate, ranked};
pub use values::compare;
