//! The rule on equalities of terms: a conjunct that asks two terms to be the same becomes equalities of columns, forms or texts.
//!
//! Follows R2RML, 7.3 and 11.2, on the terms that a template makes, and SQL-92, 8.2, on equality. `vkg_match` says when two terms
//! over the columns of a row are the same; its verdict is exact where the columns hold cells that some field of a table is read
//! as. `table_columns` in `specs/TableColumns.antt` says which columns of a plan these are. So the rule, `TermEquality`, keeps a
//! plan's columns and its bag of rows over every database that meets the schema, and leaves fewer equalities of terms.
//!
//! - `recognised`: the term that an expression makes, if it has one of the forms that are compared.
//! - `are_table_columns`: of each column of a plan whether it is a column of a table.
//! - `decided`: an equality of two such terms over such columns, as its verdict.
//! - `condition_kinds`, `condition_columns`: the columns over which the condition of a plan's first node is, and which of them are such.
//! - `TermEquality`: the first conjunct of a condition that is decided, in its place.
//!
//! Stands on vkg_match for verdicts, on vkg_rules for rules and their laws, on vkg_columns for conditions, and on vkg_conditions for
//! a node under another one.
#![tactic(auto)]

mod conditions;
mod deciding;
mod recognition;
mod table_columns;
mod term_equality;

pub use conditions::may_decide;
pub use deciding::decided;
pub use recognition::recognised;
pub use table_columns::{are_table_columns, flag_at};
pub use term_equality::{TermEquality, condition_columns, condition_kinds};
