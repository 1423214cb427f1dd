//! The tests of the crates of expressions and plans.
//!
//! One module for each crate under test, over public functions alone, which it knows by their contracts. No library and no
//! program calls anything here: the gate proves each test as it does any function, and runs it. The tests stand apart from
//! the libraries since a crate with tests is proved twice, with them and without.
//!
//! - `vkg_expr`: each form of expressions with its kind and its value, and ill-typed ones.
//! - `vkg_plan`: plans checked, and ill-typed ones.
//! - `vkg_match`: when two templates make one IRI.
//! - `vkg_engine`: each node of plans with its rows, a join of many rows to one each, and the steps of a scan.
//! - `vkg_sqltext`: each form of expressions and each node of plans with its text.
#![tactic(auto)]

#[cfg(test)]
mod made;
#[cfg(test)]
mod of_engine;
#[cfg(test)]
mod of_expr;
#[cfg(test)]
mod of_joins;
#[cfg(test)]
mod of_match;
#[cfg(test)]
mod of_plan;
#[cfg(test)]
mod of_sqltext;
#[cfg(test)]
mod of_steps;
