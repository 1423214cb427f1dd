//! Tables: a database is a schema and of each of its tables the rows.
//!
//! A table file is CSV (RFC 4180) as the crate `csv` reads it, with a header that names every column once, in any order. A
//! field becomes the cell of its column's kind; `\N` is NULL, and so is an empty field of every kind but text. `load_table`
//! gives exactly the rows of the file or its first fault, `check_keys` and `check_references` the first row that breaks a key
//! or a foreign key (SQL-92, 4.10.2), and after both the database meets its schema. Their cost is near linear in the rows.
//! Rows are kept by columns as numbers of texts, and each is stored as it is read; `table` and `column` lend them cell by cell.
//!
//! It stands on vkg_base, vkg_cells and vkg_schema, on vkg_store for tables by columns, on `csv`, and on `indexmap` for the
//! sets of keys.
#![tactic(auto)]

mod checks;
mod database;
mod fault;
mod field;
mod header;
mod keys;
mod load;
mod records;

pub use database::Database;
pub use fault::{TableError, TableFault};
pub use keys::{child_columns, parent_columns};
pub use load::MOST_BYTES;
pub use vkg_store::{Column, TableRow, TableRows, agree};
