//! R2RML mappings read out of a graph of triples.
//!
//! Follows R2RML (W3C Recommendation of 2012): logical tables (5), triples maps with their subject and predicate-object
//! maps (6), referencing object maps (8) and graph maps (9). `read_mapping` answers the mapping that a graph is over a
//! schema, its names resolved to places, or the graph's least fault: the number of the least triples map that has one, and
//! there the least check that fails. The definition `mapping_of` says which; `specs/Faults.antt` says of each check where
//! it fails, and the contract says that the answer is the least of these, and that a mapping that is read has none.
//!
//! Stands on `vkg_term_maps` (the graph and its term maps), `vkg_maps` (mappings and their quad rules), `vkg_schema` (names
//! of tables) and `vkg_turtle` (triples).
#![tactic(auto)]

mod checked;
mod gathered;
pub mod laws;
mod logical_table;
mod map_check;
mod map_error;
mod map_node;
mod mapping;
mod maps;
mod object_maps;
mod past_limit;
mod predicate_object_map;
mod referencing_map;
mod rule_limit;
mod subject_map;
mod term_maps;
mod triples_map;
mod vocabulary;

pub use map_error::{MapError, MapFault};
pub use mapping::read_mapping;
