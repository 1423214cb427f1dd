//! Conditions that are decided: what is constant, repeated or nested in them goes, one step at a time.
//!
//! Follows SQL's three-valued truth (SQL-92, 8.2 and 8.12). `specs/Conditions.antt` has the steps on one expression,
//! `specs/SimplifyCondition.antt` the rule on plans: the first listed step that applies anywhere in a plan's own expressions, at its
//! first place. `specs/SimplifyConditionLaw.antt` has its laws: the columns and the bag of rows stay over every database that meets
//! the schema, and the size of the plan's expressions is less.
//!
//! `node_condition` has the condition of a plan's first node, and the node under another one, by which a rule moves what is below.
//!
//! Stands on vkg_expr for expressions, on vkg_same for equal ones, on vkg_plan for plans, and on vkg_rules for rules and their laws.
#![tactic(auto)]

mod cases;
mod change;
mod conjuncts;
pub mod junctions;
mod lists;
pub mod node_condition;
mod parts;
mod places;
mod simplify_condition;
mod strict;

pub use change::Change;
pub use places::first_place;
pub use simplify_condition::{SimplifyCondition, in_own};
pub use strict::{is_null, is_strict};
