//! The tests of the crates of queries and the top call.
//!
//! One module for each crate under test, over public functions alone, which it knows by their contracts. No library and no
//! program calls anything here: the gate proves each test as it does any function, and runs it. The tests stand apart from
//! the libraries since a crate with tests is proved twice, with them and without.
//!
//! - `vkg_algebra`: the variables of an algebra, and its laws.
//! - `vkg_plain`: the plain evaluation over a few quads.
//! - `vkg_gen`: the report on the generated company.
//! - `vkg_cli`: the top call where a load or a write fails; its other answers are cases of `vkg_cases`.
#![tactic(auto)]

#[cfg(test)]
mod of_algebra;
#[cfg(test)]
mod of_cli;
#[cfg(test)]
mod of_gen;
#[cfg(test)]
mod of_plain;
#[cfg(test)]
mod written;
