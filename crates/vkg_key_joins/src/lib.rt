//! Two rules on joins over keys: a second scan of a table that a key ties to the first goes, and so does the scan of a table of which
//! nothing is used but the columns of a foreign key.
//!
//! Follows SQL-92 and SQL:1999 for keys and foreign keys (4.10.2 and 11.8) and for equality (8.2): rows of a table that agree on a key
//! are one row, a row without NULL in a foreign key refers to exactly one row, and NULL is equal to nothing. Each rule is a `Rewrite` of
//! vkg_rules: its definition in `specs/` says what it makes of a plan, `apply` makes exactly that, and its two laws say that it keeps the
//! plan's columns and its bag of rows over every database that meets the schema, and that it makes the plan's weight less.
//!
//! - `SelfJoin`: of two scans of one table in a join whose rows are to agree on a key the later goes; a column of the key that may
//!   be NULL is still asked to be equal to itself, so rows with NULL there are not kept.
//! - `ParentJoin`: below a projection the table that a foreign key refers to goes; the columns of the foreign key are asked not to be NULL.
//!
//! `names_given`, `are_all_tied`, `are_of_one_kind` and `all_tied_to` say what is used of a table that is referred to, and name its columns in the other.
//!
//! Stands on vkg_keys for keys in joins and for the columns of the members that are left, on vkg_rules for rules and their laws, and
//! on vkg_columns for expressions with others put in.
#![tactic(auto)]

mod parent_join;
mod parent_names;
mod parent_use;
mod self_join;
mod tables;
mod without_scan;

pub use parent_join::ParentJoin;
pub use parent_names::all_tied_to;
pub use parent_use::{are_all_tied, are_of_one_kind, names_given};
pub use self_join::SelfJoin;
pub use tables::columns_of;
