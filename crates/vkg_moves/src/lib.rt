//! Rules that move and merge nodes: one condition in the place of two, one projection in the place of two, and a join in the place of a
//! left join.
//!
//! Follows the equivalences of relational algebra over bags, as SQL-92 defines its nodes: selections (7.6), joins (7.5), select lists
//! (7.9) and conditions of three values (8.12). Each rule is a `Rewrite` of vkg_rules: its definition in `specs/` says what it makes of a
//! plan, `apply` makes exactly that, and its two laws say that it keeps the plan's columns and its bag of rows over every database that
//! meets the schema, and that it makes the plan's weight less.
//!
//! - `MergeSelects`: a condition over a selection or a join is one with its condition, one of a member stands in the join's, one on
//!   the right of a left join in the left join's; one on the left columns of a left join selects left rows.
//! - `MergeProjects`: a projection of a projection is one, and one of all columns in place is what it projects.
//! - `LeftToJoin`: a left join is the join where a condition over it fails on NULLs for the right row, as an operator of SPARQL's over one of its columns does.
//!
//! Stands on vkg_rules for rules and their laws, on vkg_columns for moved columns, expressions put in and joined conditions, and on
//! vkg_joins for products of which a part was kept by a test.
#![tactic(auto)]

mod answers;
mod columns;
pub mod kinds;
mod left_to_join;
mod merge_projects;
mod merge_selects;
mod taken_apart;
mod under_both;
mod unknown;

pub use left_to_join::LeftToJoin;
pub use merge_projects::MergeProjects;
pub use merge_selects::{MergeSelects, part_behind};
