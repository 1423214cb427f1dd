//! Which plan stands for an algebra over the quad rules of a mapping.
//!
//! Follows SPARQL 1.1 Query Language (W3C Recommendation of 2013), 18.5 and 18.6, and R2RML (2012), 8, 9 and 11: each triple pattern
//! is the union of the rules that may make its triples, each row once, and the operators of the algebra are those of plans.
//! `specs/Unfolded` says which plan, `specs/StandsFor` what it is good for, `specs/FineRows` what that asks of a database.
//!
//! Over rules that fit the tables (`specs/FittingRules`) every such plan is well typed, with a column of terms for each variable
//! (`laws::term_columns`). That it stands for its algebra is a law of `vkg_answers`, and `vkg_unfold` computes it.
//!
//! Stands on `vkg_algebra` (algebras and their variables), `vkg_row_rules` (rules over rows), `vkg_match` (the verdict on a graph's
//! name), `vkg_expr` and `vkg_plan`.
#![tactic(auto)]

pub mod laws;
mod mode;

pub use mode::Mode;
