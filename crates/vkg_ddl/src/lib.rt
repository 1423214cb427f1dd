//! The text of a schema: the tables as they are written, and what is wrong with them.
//!
//! Follows a part of SQL-92: definitions of tables with their columns, keys and foreign keys (11.3 to 11.8). `read_written`
//! gives the tables that the one derivation of a text says, or where the text fails; `first_fault` gives the first check, S03
//! to S14, that fails of them, and its least place.
//!
//! Stands on `vkg_tokens` and `vkg_grammar` (tokens and derivations), `vkg_cells` (kinds of columns) and `vkg_base` (texts, lists).
#![tactic(auto)]

mod columns;
mod faults;
mod grammar_table;
mod limits;
mod matching;
mod name;
mod reading;
mod role;
mod symbols;
mod targets;
mod twice;
mod type_word;
mod types;
mod unknown;
mod written;

pub use faults::first_fault;
pub use grammar_table::{DDL, ROLES};
pub use matching::{column_place, matches, primary_of, table_named, text_matches};
pub use name::Name;
pub use reading::{TextFault, read_written};
pub use role::Role;
pub use type_word::kind_named;
pub use types::column_kind;
pub use written::{WrittenColumn, WrittenKey, WrittenReference, WrittenTable};
