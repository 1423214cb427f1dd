//! The tests of the crates of readers of texts.
//!
//! One module for each crate under test, over public functions alone, which it knows by their contracts. No library and no
//! program calls anything here: the gate proves each test as it does any function, and runs it. The tests stand apart from
//! the libraries since a crate with tests is proved twice, with them and without.
//!
//! - `vkg_tokens`: tokens of the data definition language, of Turtle and of SPARQL.
//! - `vkg_grammar`: a grammar that is LL(1) and one that is not, parsed texts and their faults.
//! - `vkg_turtle`: the triples of documents, and each fault with its place.
//! - `vkg_sparql`: queries read, each fault with its place; the limits are cases of `vkg_cases`.
//! - `vkg_schema`: schemas read, each fault with its place; the limits are cases of `vkg_cases`.
#![tactic(auto)]

#[cfg(test)]
mod of_grammar;
#[cfg(test)]
mod of_schema;
#[cfg(test)]
mod of_sparql;
#[cfg(test)]
mod of_tokens;
#[cfg(test)]
mod of_turtle;
#[cfg(test)]
mod told;
