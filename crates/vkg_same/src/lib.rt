//! Whether two expressions are one, part by part.
//!
//! `same_expr` and `same_exprs` tell exactly whether two expressions, and two lists of them, are equal, as `equal_exprs` says:
//! rules ask it of conditions and of plans, of which what is said a second time adds nothing. Constants are one where their
//! cells are of one kind and one form, as SQL's DISTINCT takes cells.
//!
//! Stands on vkg_expr for expressions, and on vkg_plan for when two cells are one.
#![tactic(auto)]

mod laws;
mod same;

pub use laws::equal_exprs;
pub use same::{same_expr, same_exprs};
