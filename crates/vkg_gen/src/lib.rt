//! What `gen` writes of the generated company.
//!
//! Follows the standards that the crates below follow: A Direct Mapping of Relational Data to RDF (2012) gives the dataset,
//! SPARQL 1.1 Query Language (2013), 18, the solutions. `report` gives four lines with the number of the dump's lines and the
//! numbers of the solutions of three queries, as `specs/Report.antt` says.
//!
//! Stands on `vkg_company` (the generated company), `vkg_direct`, `vkg_quads`, `vkg_sparql` and `vkg_rewrite`.
#![tactic(auto)]

mod counts;
mod laws;
mod lines;

pub use laws::is_determined;
pub use lines::report;
