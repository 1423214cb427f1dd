//! The plain evaluation of a query: its algebra over a list of quads, operator by operator, by nested loops.
//!
//! Follows SPARQL 1.1 Query Language (W3C Recommendation of 2013), 18.3 to 18.6 and 18.2.5, and reads the lines of RDF 1.1
//! N-Quads that `dump` writes. `evaluate` answers exactly the solutions of an algebra, and `answer` those of a query, in the
//! order of the definitions in `vkg_algebra`; only where a condition asks for the value of a number of more than 38 digits may that be
//! a fault. `read_quads` answers the quads whose lines a text is, and a fault only where there are none, and `solution_lines` what
//! is written of solutions: a table, a yes or no, or a graph.
//! It is for tests: it looks at each pair of solutions, and reads no mapping and no table.
//!
//! Stands on `vkg_algebra` (the algebra, and what it means), `vkg_values` (the operators on terms), `vkg_terms` (terms and
//! their texts), and `thiserror`.
#![tactic(auto)]

mod answering;
mod conditions;
mod distinct;
mod evaluation;
mod extend;
mod fault;
mod graphs;
mod joins;
mod left;
mod lines;
mod literal_reader;
mod minus;
mod patterns;
mod quad;
mod read_fault;
mod reader;
mod rows;
mod solution;
mod table;
mod term_reader;
mod truths;

pub use answering::answer;
pub use evaluation::evaluate;
pub use fault::PlainFault;
pub use lines::solution_lines;
pub use quad::Quad;
pub use read_fault::ReadFault;
pub use reader::read_quads;
pub use solution::Solution;
