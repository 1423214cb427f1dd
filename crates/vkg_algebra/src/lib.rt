//! The algebra of SPARQL (SPARQL 1.1 Query Language, W3C Recommendation of 2013, 18), and the algebra of a query.
//!
//! The definitions in `specs/` say what a query means: solution mappings and the operators on them, the value of an
//! expression, the solutions of a basic graph pattern, the evaluation of an algebra over a dataset, the translation of a
//! query, and its answer. `translate` answers exactly the algebra that the translation defines, `visible` its variables by
//! first appearance, `header` the first line of an answer, `modifiers_of` what its order and slice are, `ask_lines` a yes or no, and
//! `construct_lines` the graph that a template makes of solutions. The functions of `laws` ensure, in the words of the standard,
//! what compatible mappings, a left join and the instances of a basic graph pattern are, that one line is one solution, and what a graph is made of.
//!
//! Stands on `vkg_lists` (rows as maps, sets), `vkg_base` (lists and boxes), `vkg_terms` and `vkg_values` (terms and the
//! operators on them), `vkg_maps` (quads of a dataset), `vkg_order` (the order of an answer) and `vkg_sparql` (queries).
#![tactic(auto)]

mod algebra;
mod ask;
mod construct;
mod filters;
mod header_line;
mod join;
pub mod laws;
mod modifiers;
mod selected;
mod tabs;
mod translation;
mod visible_variables;

pub use algebra::{Algebra, Var};
pub use ask::ask_lines;
pub use construct::construct_lines;
pub use header_line::header;
pub use modifiers::modifiers_of;
pub use selected::{each_once, selected_count, selected_variables};
pub use tabs::tabbed;
pub use translation::translate;
pub use visible_variables::{variables_of_patterns, visible};
