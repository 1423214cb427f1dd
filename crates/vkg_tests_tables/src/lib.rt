//! The tests of the crates of tables and quads.
//!
//! One module for each crate under test, over public functions alone, which it knows by their contracts. No library and no
//! program calls anything here: the gate proves each test as it does any function, and runs it. The tests stand apart from
//! the libraries since a crate with tests is proved twice, with them and without.
//!
//! - `vkg_index`: the rows of a table grouped by the texts of their keys.
//! - `vkg_tables`: the rows that an error leaves; the faults of files, keys and references are cases of `vkg_cases`.
//! - `vkg_direct`: the direct mapping of a schema, or its fault.
//! - `vkg_company`: the generated company.
//! - `vkg_quads`: the terms that term maps make or refuse.
#![tactic(auto)]

#[cfg(test)]
mod fields;
#[cfg(test)]
mod of_company;
#[cfg(test)]
mod of_direct;
#[cfg(test)]
mod of_index;
#[cfg(test)]
mod of_quads;
#[cfg(test)]
mod of_tables;
#[cfg(test)]
mod told;
