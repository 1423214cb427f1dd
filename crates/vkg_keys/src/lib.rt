//! Keys of tables in joins: which columns a condition ties, which columns of a key may be NULL, and the members of a join when one
//! of them is gone.
//!
//! Follows SQL-92 for keys and foreign keys (4.10.2, 11.7 and 11.8) and for equality (8.2), to which NULL is equal to nothing. `are_tied`
//! says exactly whether a condition ties two columns, `is_full` whether a key has no column that may be NULL; `scans` gives the Scans among
//! the members of a join, and `renamed` the columns of the members when one of them is gone. The lemmas of `proofs/` say what keys do to
//! rows: of the rows of a table at most one agrees with a row on a key, exactly one is referred to by a row without NULL in a foreign key,
//! and so a second scan of a table, or of one that is referred to, adds nothing to a product that such a condition selects from.
//!
//! Stands on vkg_plan for plans and their rows, on vkg_schema for keys and foreign keys, and on vkg_columns for expressions with others
//! put in.
#![tactic(auto)]

mod full;
mod members;
mod scanning;
mod ties;

pub use full::is_full;
pub use members::{kinds, renamed, scan_columns, widths};
pub use scanning::{ScanAt, before, behind, others, scans};
pub use ties::{are_tied, is_column};
