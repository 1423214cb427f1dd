//! The tests of the crates of rules that rewrite plans.
//!
//! One module for each crate under test, over public functions alone, which it knows by their contracts. No library and no
//! program calls anything here: the gate proves each test as it does any function, and runs it. The tests stand apart from
//! the libraries since a crate with tests is proved twice, with them and without.
//!
//! - `vkg_shapes`, and the rules of rules of `vkg_rules`: plans and what each rule makes of them, as texts.
//! - `vkg_conditions`, `vkg_nulls`, `vkg_unions`, `vkg_equalities`, `vkg_moves`, `vkg_lifts`, `vkg_spreads`, `vkg_antis`, `vkg_key_joins`,
//!   `vkg_unique`, `vkg_sure` and `vkg_key_lefts`: the same of their rules.
#![tactic(auto)]

#[cfg(test)]
mod made;
#[cfg(test)]
mod of_antis;
#[cfg(test)]
mod of_comparisons;
#[cfg(test)]
mod of_conditions;
#[cfg(test)]
mod of_equalities;
#[cfg(test)]
mod of_key_joins;
#[cfg(test)]
mod of_key_lefts;
#[cfg(test)]
mod of_known;
#[cfg(test)]
mod of_lifts;
#[cfg(test)]
mod of_moves;
#[cfg(test)]
mod of_nulls;
#[cfg(test)]
mod of_shapes;
#[cfg(test)]
mod of_spreads;
#[cfg(test)]
mod of_sure;
#[cfg(test)]
mod of_told;
#[cfg(test)]
mod of_unions;
#[cfg(test)]
mod of_unique;
