//! A rule on joins: a join among the members of a join is opened, so that products of products become one product.
//!
//! Follows the equivalences of relational algebra over bags: a product of products is one product, and a selection on a part of
//! it is one on the whole (SQL-92, 7.4 and 7.6). `specs/JoinInJoin.antt` says what the rule makes of a plan, and
//! `specs/JoinInJoinLaw.antt` has its laws: the columns and the bag of rows stay over every database that meets the schema, and
//! the plan's weight is less.
//!
//! Stands on vkg_rules for rules and their laws, and on vkg_columns for moved columns and joined conditions.
#![tactic(auto)]

mod join_in_join;

pub use join_in_join::JoinInJoin;
