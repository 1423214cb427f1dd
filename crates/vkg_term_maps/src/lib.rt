//! The term maps of an R2RML mapping graph.
//!
//! Follows R2RML (W3C Recommendation of 2012): the mapping graph (4.1), term maps (7) and the natural datatypes of columns
//! (10). `Graph` holds the triples of a mapping document and finds them by their subjects. `read_term_map` answers the
//! term map that stands at a place, its names resolved to columns and its defaults filled in, or the first of the checks
//! on term maps that fails there. The definitions in `specs/` say which it is.
//!
//! Stands on `vkg_maps` (term maps), `vkg_schema` (columns), `vkg_turtle` (triples) and `vkg_terms` (templates).
#![tactic(auto)]

mod annotation;
mod columns;
mod error;
mod graph;
mod index;
mod kind;
mod place;
mod reading;
mod template_map;
mod term_type;
mod values;
pub mod vocabulary;

pub use columns::{column_of, means};
pub use error::{TermMapError, TermMapFault};
pub use graph::Graph;
pub use place::{Place, Role};
pub use reading::read_term_map;
