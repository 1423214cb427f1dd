//! Rules on anti joins: one that takes nothing away, and what stands on the right of one.
//!
//! Follows the equivalences of relational algebra over bags, as SQL-92 defines its nodes: conditions of three values (8.12), selections
//! (7.6) and select lists (7.9). Of the right side of an anti join only counts whether it has a row with which the condition is true.
//! Each rule is a `Rewrite` of vkg_rules: its definition in `specs/` says what it makes of a plan, `apply` makes exactly that, and its
//! two laws say that it keeps the plan's columns and its bag of rows over every database that meets the schema, and that it makes the
//! plan's weight less.
//!
//! - `AntiNothing`: by the constant false or NULL, or by no rows, nothing is taken away, and from no rows neither.
//! - `AntiRight`: a selection, a projection or a distinct on the right goes, and what it says stands in the condition.
//!
//! Stands on vkg_rules for rules and their laws, on vkg_moves and vkg_lifts for selections and projections beside other columns, and on
//! vkg_unions for rows whose repeats do not count.
#![tactic(auto)]

mod anti_nothing;
mod anti_right;

pub use anti_nothing::AntiNothing;
pub use anti_right::AntiRight;
