//! Rules on unions and on repeated rows: what a Distinct makes needless below it goes.
//!
//! Follows SQL-92, 7.9 (SELECT DISTINCT) and 7.10 (UNION ALL) over bags: below a Distinct the rows count, not how often each
//! stands. Each rule is a `Rewrite` of vkg_rules: its definition in `specs/` says what it makes of a plan, `apply` makes exactly
//! that, and its two laws say that it keeps the plan's columns and its bag of rows over every database that meets the schema,
//! and that it makes the plan's weight less.
//!
//! - `DistinctDistinct`: a Distinct anywhere below another is dropped.
//! - `EqualMembers`: below a Distinct the later of two equal members of a union is dropped.
//!
//! `same_plan` decides whether two plans are equal, as `equal_plans` says. `specs/Thinner.antt` is the law behind the first rule:
//! a step that keeps which rows a part of a plan gives, their repeats aside, keeps which rows the plan gives.
//!
//! Stands on vkg_rules for rules and their laws, on vkg_shapes for the kinds of unions, and on vkg_same for equal expressions.
#![tactic(auto)]

mod distinct_distinct;
mod equal_members;
mod key;
mod laws;
mod same;

pub use distinct_distinct::DistinctDistinct;
pub use equal_members::EqualMembers;
pub use laws::equal_plans;
pub use same::same_plan;
