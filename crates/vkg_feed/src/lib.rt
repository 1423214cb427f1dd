//! A row on its way up through the steps of the nodes above it.
//!
//! `feed` sends a row through a stack of steps and hands what comes out to a `Kept`, which keeps each row, or each row once. One row is
//! alive at a time for each step. A `Build` is the right side of a join: its own rows, or the numbers of rows of a table, with an index by
//! exact keys of those on which the conjuncts over this side hold, so that a row is put side by side with no row of another key.
//!
//! `Steps` counts: one for each pair of rows looked at.
//!
//! Stands on vkg_driven for what steps make of rows, vkg_conjuncts for keys, vkg_eval for rows and conditions, vkg_index for the texts of
//! rows, and vkg_tables for the database.
#![tactic(auto)]

mod both;
mod build;
mod counter;
mod distinct;
mod feeding;
mod index;
mod kept;
mod meeting;
mod numbers;
mod partners;
mod side;
mod step;

pub use build::{Build, built};
pub use counter::Steps;
pub use feeding::{feed, feed_rows};
pub use kept::Kept;
pub use side::{Side, push_table_row};
pub use step::Step;
