//! The rules over rows of a mapping are what plans and their theorem ask for.
//!
//! A mapping is within a well-formed schema (R2RML, 4.1), and a database meets the schema and has no data error (R2RML, 4.3): then each
//! row of each rule is fine, so that the theorem on unfolded plans speaks of this database, and each rule fits the schema, so that the
//! plans are well typed.
//!
//! Stands on `vkg_row_rules` (the rules), `vkg_match` (when two terms are never one) and `vkg_unfolded` (what is asked).
#![tactic(auto)]

mod laws;

pub use laws::{fine_rows, fitting_rules};
