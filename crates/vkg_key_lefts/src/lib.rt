//! Four rules on left joins over keys: one back to a row that the left side has already goes, or loses the member of its right side that is that row; one by a
//! foreign key of which nothing else is used goes; and one by a foreign key without NULL is a join.
//!
//! Follows SQL-92 and SQL:1999 for left joins (7.5), keys and foreign keys (4.10.2 and 11.8) and equality (8.2): a left join fills up its right
//! columns alone with NULLs, rows of a table that agree on a key are one row, and a row without NULL in a foreign key refers to one. Each rule is a
//! `Rewrite` of vkg_rules: its definition in `specs/` says what it makes of a plan, `apply` makes exactly that, and its two laws say that it keeps the
//! plan's columns and its bag of rows over every database that meets the schema, and that it makes the plan's weight less.
//!
//! - `SelfLeft`: below a projection a left join to a table goes that stands in its left side, where the condition ties a key and asks for nothing but
//!   columns that are not NULL, and each expression that names a right column is NULL where it fails; the right columns are named in the left.
//! - `SelfLeftMember`: so of a member of a join on the right, where others stay: it goes, and its columns are named in the left.
//! - `ParentLeft`: below a projection a left join to a table goes that a foreign key of its left side refers to, where the condition asks for the foreign key and
//!   nothing else, and of the table nothing is used but the columns that it refers to.
//! - `ReferenceLeft`: a left join to a table is a join, where a foreign key of its left side refers to the table, has no NULL, and is all that the
//!   condition asks for.
//! - `standing`: the Scans whose columns are in each row of a plan, as `specs/Standing.antt` has them; their law is in `specs/StandingLaw.antt`.
//!
//! Stands on vkg_keys for keys in joins, on vkg_key_joins for the kinds of a Scan and what is used of a table that is referred to, on vkg_nulls for when a strict expression is NULL, and on
//! vkg_rules for rules and their laws.
#![tactic(auto)]

mod columns;
mod kept;
mod names;
mod parent_left;
mod parent_use;
mod reference_left;
mod self_left;
mod self_left_member;
pub mod standing;
mod tables;

pub use columns::named_columns;
pub use kept::is_left;
pub use names::{put_each, renamed};
pub use parent_left::ParentLeft;
pub use reference_left::ReferenceLeft;
pub use self_left::{SelfLeft, ties_key};
pub use self_left_member::SelfLeftMember;
