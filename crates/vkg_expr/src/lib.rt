//! Expressions over a row of cells: their kinds, and what their values are.
//!
//! An expression of a plan composes texts and terms of cells (R2RML, 7 and 11), compares cells as SQL does, and asks terms as
//! the operators of SPARQL 1.1 Query, 17, do. What SQL calls unknown and what SPARQL calls an error is NULL. `typed` gives the
//! kind of an expression over columns of some kinds; its value on a row is defined here, and given by `eval` of vkg_eval. What makes a term
//! and what is negated is shared: a copy of the expression has it once more without room of its own.
//!
//! Stands on vkg_cells for cells, vkg_values for the operators on terms, and vkg_schema for rows.
#![tactic(auto)]

mod expr;
mod kinds;
mod shared;
mod strict;
mod term_expr;
mod typing;

pub use expr::{Expr, Operator, copy_boxed, copy_exprs, copy_shared};
pub use kinds::{same_family, same_kind};
pub use shared::Shared;
pub use strict::{is_null, nulls_on_null};
pub use term_expr::{Piece, Sort, TermExpr};
pub use typing::{typed, typed_each};
