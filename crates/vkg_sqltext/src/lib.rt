//! The text of a plan over a schema, in the manner of SQL-92.
//!
//! `sql_text` gives exactly the text that `specs/Text.antt` defines: a name or a text within quotes has each of its quotes
//! doubled (SQL-92, 5.2 and 5.3), columns are named `c1`, `c2` and so on, and a node's members `t1`, `t2` and so on. `laws`
//! ensures that no two well-typed plans over one schema share a text. `order_text` gives what is written behind it: the order and the
//! slice of a query (`specs/OrderText.antt`).
//!
//! Stands on vkg_plan for plans, vkg_order for what a query asks of its order, vkg_schema for the names of tables, vkg_terms for the texts of terms, and vkg_lists.
#![tactic(auto)]

mod calls;
mod constants;
mod expr_texts;
pub mod laws;
mod lists;
mod nodes;
mod order_texts;
mod plan_texts;

pub use order_texts::order_text;
pub use plan_texts::sql_text;
