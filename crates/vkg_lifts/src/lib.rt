//! A rule on projections: one below a selection, a join or a left join comes above it, so that conditions read the columns of
//! tables and projections meet.
//!
//! Follows the equivalences of relational algebra over bags, as SQL-92 defines its nodes: a select list (7.9) below FROM (7.4),
//! JOIN (7.5) and WHERE (7.6). `specs/LiftProjects.antt` says what the rule makes of a plan: the projection's expressions between the columns
//! beside it, and put into the condition. `specs/LiftProjectsLaw.antt` has its laws: the columns and the bag of rows stay over
//! every database that meets the schema, and the plan's weight is less.
//!
//! Stands on vkg_rules for rules and their laws, and on vkg_columns for expressions with others put in and for moved columns.
#![tactic(auto)]

mod between;
mod lift_projects;
mod members;
mod parts;
mod taken_out;
mod widths;

pub use lift_projects::LiftProjects;
pub use parts::exprs_between;
pub use widths::width;
