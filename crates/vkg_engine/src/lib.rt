//! The engine: the rows of a plan over a database, one at a time.
//!
//! `run` gives the bag of rows that vkg_plan defines for a plan (SQL-92, 7 and 8, with SPARQL's operators on terms). Each row is driven up
//! through the steps of the nodes above it, so that only build sides, the rows of a DISTINCT and the answer are held. A join finds the rows
//! that its condition links to a row by an index of their keys, and DISTINCT finds a row's repeats by an index of texts. `Steps` counts the rows
//! of tables and the pairs of rows that are looked at.
//!
//! Stands on vkg_driven for the order of the rows, vkg_feed for steps and build sides, vkg_plan for plans, and vkg_tables for the database.
#![tactic(auto)]

mod producing;
mod rows;
mod running;
mod sides;
mod widths;

pub use rows::Rows;
pub use running::{run, run_uncounted};
pub use vkg_feed::Steps;
