//! SPARQL queries (SPARQL 1.1 Query Language, W3C Recommendation of 2013), in the profile of this project: SELECT, ASK and
//! CONSTRUCT over basic graph patterns, OPTIONAL, UNION, GRAPH, FILTER, MINUS, VALUES and BIND, with ORDER BY, LIMIT and OFFSET.
//!
//! A query is kept as it is written, with its variables and blank node labels numbered. The definitions in `specs/` say
//! what each type stands for as a tree that computes; copies are equal to what they copy.
//!
//! Stands on `vkg_base` (lists and boxes), `vkg_terms` (terms) and `vkg_values` (the operators of filters), on
//! `vkg_tokens` and `vkg_grammar` for tokens and trees.
#![tactic(auto)]

mod all_triples;
mod blocks;
mod body;
mod checks;
mod condition;
mod condition_reader;
mod environment;
mod fault;
mod grammar_table;
mod group_reader;
mod lexeme;
mod literals;
mod meaning;
mod names;
mod nodes;
mod order_reader;
mod pattern;
mod query;
mod query_reader;
mod query_triples;
mod reading;
mod rows;
mod scope_reader;
mod scopes;
mod symbols;
mod table_reader;
mod triple_reader;

pub use blocks::Blocks;
pub use checks::Check;
pub use condition::{Condition, copy_conditions};
pub use environment::Environment;
pub use fault::{QueryError, QueryFault};
pub use grammar_table::SPARQL;
pub use group_reader::{read_group, read_groups};
pub use lexeme::Lexeme;
pub use meaning::{Meaning, TripleTokens};
pub use names::{Named, Names};
pub use nodes::{Nodes, Stretch};
pub use pattern::{GraphName, Node, TriplePattern, copy_patterns};
pub use query::{Form, Key, Part, Query, Selected, Slice};
pub use reading::{is_determined, read_query};
pub use rows::copy_rows;
pub use scopes::Scope;
