//! The plan of a query over the quad rules of a mapping.
//!
//! Follows SPARQL 1.1 Query Language (W3C Recommendation of 2013), 18.5 and 18.6, and R2RML (2012), 8, 9 and 11: each triple pattern
//! is the union of the rules that may make its triples, each row once, and the operators of the algebra are those of plans.
//! `vkg_unfolded` says which plan, and what it is good for.
//!
//! `unfold` answers exactly that plan for an algebra in a mode, which stands for the algebra over every database whose rows are fine;
//! `start_plan` answers that of a query, whose rows are its solutions. `left_plan` is the plan of an OPTIONAL over those of its
//! sides, and `same_or_unbound` the condition under which two rows agree on a variable.
//!
//! The terms of each rule are made once (`RuleTerms`) and shared by the members of all patterns, so that a member costs little more than its nodes.
//!
//! The functions recurse as deep as the algebra and its conditions. A query that is read has at most 64 open braces or brackets at a
//! place and 1,024 nodes, so a chain of joins or unions is at most that deep; chains of `&&` and `||` take no depth.
//!
//! Stands on `vkg_unfolded` (the plans and their modes), `vkg_answers` (what they are good for), `vkg_algebra` (algebras and their
//! variables), `vkg_row_rules` (rules over rows), `vkg_match` (the verdict on a graph's name), `vkg_expr` and `vkg_plan`.
#![tactic(auto)]

mod bgp;
mod columns;
mod conditions;
mod exprs;
mod extend;
mod graph;
mod graph_test;
mod minus;
mod named;
mod pattern;
mod query;
mod rule_terms;
mod table;
mod two;

pub use query::{start_plan, unfold};
pub use two::{left_plan, same_or_unbound};
