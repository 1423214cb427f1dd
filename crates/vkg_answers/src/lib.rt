//! What the plan of a query is good for: its rows are the answer.
//!
//! Follows SPARQL 1.1 Query Language (W3C Recommendation of 2013), 18.5 and 18.6, and R2RML (2012), 9 and 11. The functions of `laws` compute
//! nothing; what they ensure is that the unfolded plan of an algebra stands for it over every dataset that rules make, and that the plan
//! of a query gives its solutions, so that its rows as lines are the answer.
//!
//! Stands on `vkg_unfolded` (plans of algebras), `vkg_row_rules` (rules over rows), `vkg_algebra` (what a query means) and `vkg_plan` (rows).
#![tactic(auto)]

pub mod laws;
