//! Rows found by their cells: the texts of rows and of keys, and an index of rows by a key.
//!
//! Two rows that agree on the columns of a key have one text there, and a NULL has none, as in a join of SQL-92 (7.5) and of R2RML (8);
//! `grouped` gives for each text exactly the rows that have it. So partners are found by hashing, without a look at all pairs of
//! rows. A text need not belong to one row alone: who asks an index tests what it finds. `grouped_lent` and `key_of_lent` are the same
//! of the rows of a table, which are lent.
//!
//! Stands on vkg_store for lent rows, vkg_schema for rows, vkg_cells and vkg_terms for what stands in them, and vkg_base for groups of
//! numbers.
#![tactic(auto)]

mod index;
mod keys;
mod lent;
mod parts;

pub use index::grouped;
pub use keys::{key_of, text_of_row};
pub use lent::{grouped_lent, key_of_lent};
