//! The quads of a mapping over a database: its quad rules, its data errors and its dump.
//!
//! Follows R2RML (W3C Recommendation of 2012), 8 and 11, and RDF 1.1 N-Quads. `dump_lines` gives the line of each quad of the
//! dataset once, ascending by bytes; `scan_data` gives the least data error, and none exactly where there is none; `rules`
//! gives the quad rules. The definitions stand in `vkg_maps`; the pairs of rows of a join are found through an index of the
//! parent's rows, so that the work is about that of the rows and lines.
//!
//! Stands on `vkg_maps` (mappings and what they stand for), `vkg_tables` (the database) and `vkg_index` (rows by their keys).
#![tactic(auto)]

mod dump;
mod made;
mod quad;
mod rule_list;
mod scan;

pub use dump::dump_lines;
pub use made::{Made, made_term};
pub use rule_list::rules;
pub use scan::scan_data;
