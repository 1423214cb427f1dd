//! The values of expressions over a row of cells.
//!
//! A `Row` is a register of cells, lent or computed. `evaluated` gives the value of an expression that is typed on a row, and lends
//! it where it is a column or a constant: what SQL calls unknown and what SPARQL calls an error is NULL. Over columns whose kinds the
//! cells have, the value is NULL or of the expression's kind. `holds` tests a condition, and `all_hold` some in turn.
//!
//! Stands on vkg_expr for expressions and what their values are, vkg_cells and vkg_schema for cells and rows, vkg_terms and
//! vkg_values for terms and the operators on them, and vkg_lists.
#![tactic(auto)]

mod cells;
mod conditions;
mod evaluation;
mod lists;
mod row;
mod steps;
mod value;

pub use conditions::{all_hold, holds};
pub use evaluation::{eval, evaluated, made};
pub use row::Row;
pub use value::Value;
