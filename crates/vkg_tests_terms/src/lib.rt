//! The tests of the crates of terms and cells.
//!
//! One module for each crate under test, over public functions alone, which it knows by their contracts. No library and no
//! program calls anything here: the gate proves each test as it does any function, and runs it. The tests stand apart from
//! the libraries since a crate with tests is proved twice, with them and without.
//!
//! - `vkg_base`: files, sinks and lines in memory and of the system, and the containers.
//! - `vkg_hash`: hashes of a seed, and numbers grouped by texts.
//! - `vkg_terms`: texts of terms, IRIs resolved and made safe, labels, names and templates.
//! - `vkg_cells`: fields of every kind read or refused, forms, natural datatypes, well-typed literals, the order.
//! - `vkg_values`: literals compared and asked, and errors as a third value.
//! - `vkg_index`: rows grouped by the texts of their keys.
#![tactic(auto)]

#[cfg(test)]
mod of_base;
#[cfg(test)]
mod of_cells;
#[cfg(test)]
mod of_hash;
#[cfg(test)]
mod of_index;
#[cfg(test)]
mod of_terms;
#[cfg(test)]
mod of_values;
