//! The tests of the crates of R2RML mappings.
//!
//! One module for each crate under test, over public functions alone, which it knows by their contracts. No library and no
//! program calls anything here: the gate proves each test as it does any function, and runs it. The tests stand apart from
//! the libraries since a crate with tests is proved twice, with them and without.
//!
//! - `vkg_term_maps`: the places of term maps in order, and constants.
//! - `vkg_r2rml`: a mapping read, and the fault of its second map; each fault is a case of `vkg_cases`.
#![tactic(auto)]

#[cfg(test)]
mod of_r2rml;
#[cfg(test)]
mod of_term_maps;
