//! Queries answered by plans over the tables.
//!
//! Follows SPARQL 1.1 Query Language (W3C Recommendation of 2013), 16 and 18.2.5, and SPARQL 1.1 Query Results CSV and TSV Formats
//! (2013), 4. `rewrite` gives the plan of a query over a mapping, without reading a table: the normal form of the plan of its
//! algebra, which `laws::rewritten_is_an_end` says of the definition. `result_lines` gives what is written of a plan's rows: of SELECT their lines in
//! the order that the query asks and then that of their bytes, without a repeat under DISTINCT, and the slice of them, of ASK a yes or no, of CONSTRUCT
//! a graph; `answer_lines` runs the plan, and its lines are the answer to the query over the dataset of the mapping.
//!
//! Stands on `vkg_algebra` (the algebra of a query and its meaning), `vkg_row_rules` and `vkg_unfold` (the plan of an algebra),
//! `vkg_order` (the order of an answer), `vkg_normal` (the normal form of a plan), `vkg_quads` (the rules of a mapping) and `vkg_engine` (the rows of a plan).
#![tactic(auto)]

mod answer;
mod graph;
pub mod laws;
mod lines;
mod rewriting;

pub use answer::answer_lines;
pub use lines::result_lines;
pub use rewriting::rewrite;
