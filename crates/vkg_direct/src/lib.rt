//! The direct mapping of a schema as an R2RML mapping.
//!
//! Follows A Direct Mapping of Relational Data to RDF (W3C Recommendation of 2012). `direct` gives one triples map for each
//! table. Its contract says, for every database that meets the schema, that no term of the mapping is a data error and that
//! the mapping's dataset is the direct graph, which `specs/DirectGraph.antt` defines from rows alone.
//!
//! Stands on `vkg_maps` (mappings and their datasets) and `vkg_schema`.
#![tactic(auto)]

mod direct_error;
mod iris;
pub mod laws;
mod mapping;
mod rule_limit;
mod triples_map;

pub use direct_error::DirectError;
pub use mapping::direct;
