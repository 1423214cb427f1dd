//! When two expressions that make terms make one and the same term (R2RML, 7.3 and 11.2).
//!
//! `verdict` says that they never do, or names equalities of cells, lexical forms or texts, all of which are true exactly where
//! they do: on every row whose cells fit the columns' kinds, whatever is NULL. Two IRIs are cut at the characters that no IRI-safe
//! text holds, and compared from cut to cut. `separable` says whether such a character stands between any two columns of a text.
//!
//! Stands on vkg_expr for expressions, on vkg_cells for lexical forms, and on vkg_terms for the IRI-safe form and labels, which
//! `percent_encoding` and `hex` undo.
#![tactic(auto)]

mod answer;
mod breaks;
mod cut;
mod exprs;
mod segment;
mod sorts;
mod sources;
mod terms;

pub use answer::Verdict;
pub use breaks::separable;
pub use exprs::pieces_expr;
pub use terms::verdict;
