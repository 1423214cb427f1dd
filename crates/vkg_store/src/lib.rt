//! Tables kept as columns of numbers of interned texts, and their rows and columns lent cell by cell.
//!
//! Each text is kept once for all tables, under a number (string interning), and a table keeps of each column the numbers
//! of its cells' lexical forms (a column store, dictionary encoded). A stored table stands for exactly the rows that were
//! put into it, in their order; an error leaves it as it was, and more texts change no row. `TableRows`, `TableRow` and
//! `Column` lend rows and cells without a copy, and are seen as the list of rows, the row and the list of cells.
//!
//! It stands on vkg_schema for columns and rows, vkg_cells for cells and lent cells, vkg_base for want of memory, and on
//! `indexmap` for the texts by their numbers.
#![tactic(auto)]

mod column;
mod conditions;
mod lent;
mod stored_column;
mod stored_table;
mod table_row;
mod texts;

pub use column::Column;
pub use conditions::agree;
pub use stored_table::StoredTable;
pub use table_row::{TableRow, TableRows};
pub use texts::Texts;
