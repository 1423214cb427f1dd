//! R2RML mappings whose names are resolved to places of tables and columns, and what they stand for.
//!
//! Follows R2RML (W3C Recommendation of 2012): term maps and their terms (7, 10, 11), triples maps (6), referencing object
//! maps (8), graphs (9), the output dataset (11) and data errors (4.3). The definitions in `specs/` say which quads a
//! mapping gives over a database (`quad_rules`, `dataset`) and which of its terms can not be made (`data_faults`); the
//! crates above promise to compute them. Here stand the types, and copies that are equal to what they copy.
//!
//! Stands on `vkg_schema` (places, rows), `vkg_cells` (lexical forms), `vkg_terms` (terms) and `thiserror`.
#![tactic(auto)]

mod data_fault;
mod mapping;
mod quad_rule;
mod term_map;

pub use data_fault::{DataFault, TermFault};
pub use mapping::{Mapping, ObjectMap, PredicateObjectMap, TriplesMap};
pub use quad_rule::{Join, QuadRule};
pub use term_map::{Piece, TermMap, TermType};
