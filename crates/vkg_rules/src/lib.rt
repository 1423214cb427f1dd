//! Rules that rewrite plans, with laws: each keeps a plan's columns and its bag of rows over every database that meets the
//! schema, and makes the measure of plans less, so that rules end.
//!
//! Follows the equivalences of relational algebra over bags, with SQL's three-valued conditions (SQL-92, 7 and 8). A rule is a
//! `Rewrite`: `becomes` says what it makes of each plan, `apply` makes exactly that, and `keeps` and `falls` are its laws.
//! `Either` and `Everywhere` make rules of rules, and their laws follow from those of any rules. `specs/Measure.antt` defines
//! the measure.
//!
//! Stands on vkg_plan for plans and their rows, and on vkg_schema for the tables.
#![tactic(auto)]

mod answers;
mod either;
mod everywhere;
pub mod nodes;
mod places;
mod rewrite;

pub use answers::{Answer, answered, unchanged};
pub use either::Either;
pub use everywhere::Everywhere;
pub use places::last_turn;
pub use rewrite::{Fell, Rewrite};
