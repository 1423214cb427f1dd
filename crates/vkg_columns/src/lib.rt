//! Expressions with others in the place of their columns, columns moved to the right, and conditions joined.
//!
//! Follows vkg_expr's definitions of putting in, moving and joining (`specs/Strict.antt`, `specs/Logic.antt`), which say how an
//! expression over the columns of a part of a product reads over the whole product. `put`, `moved` and `and_then` compute exactly
//! these. The lemmas of `proofs/` say that they keep values, kinds and the rows for which a condition holds.
//!
//! Stands on vkg_expr for expressions, their kinds and their values.
#![tactic(auto)]

mod conditions;
mod moving;
mod putting;

pub use conditions::and_then;
pub use moving::moved;
pub use putting::put;
