//! Plans over the tables of a schema: their columns, and the rows they stand for.
//!
//! A plan is an expression of relational algebra over bags, with SQL's three-valued conditions (SQL-92, 7 and 8). `well_typed`
//! decides whether a plan is one over a schema; a `CheckedPlan` is, and stays so. `specs/Rows.antt` defines a plan's rows over a
//! database by comprehension; their order does not count.
//!
//! Stands on vkg_expr for conditions and columns, and on vkg_schema for the tables.
#![tactic(auto)]

mod checked;
mod columns;
mod given;
mod kinds;
mod plan;

pub use checked::CheckedPlan;
pub use columns::column_kinds;
pub use given::given_kinds;
pub use kinds::{plan_kinds, well_typed};
pub use plan::{Plan, copy_plan_box, copy_plans};
