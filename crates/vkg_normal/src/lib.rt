//! The list of rules that rewrite plans, in one place, and the normal form of a plan under them.
//!
//! Follows the equivalences of relational algebra over bags, with SQL's three-valued conditions (SQL-92, 7 and 8).
//! `specs/NormalForm.antt` defines the list and the normal form: the end of the rules, each step taken at the first subplan in
//! preorder that a rule changes, by the first such rule; rules of our own are asked behind the others, and once none of the others
//! applies anywhere. `normalise` computes it. It is the one plan that is reached so, no rule applies anywhere in it, and it has the
//! plan's columns and its bag of rows over every database that meets the schema; `normal_forms` is that law of the definition alone.
//! A new rule is a line in `specs/NormalForm.antt` and one in `order.rt`.
//!
//! Stands on vkg_shapes, vkg_moves, vkg_lifts, vkg_joins, vkg_spreads, vkg_unions, vkg_unique, vkg_key_joins, vkg_equalities, vkg_conditions,
//! vkg_nulls, vkg_sure and vkg_key_lefts for the rules, on vkg_rules for their laws and on vkg_steps for steps in place.
#![tactic(auto)]

mod all_rules;
mod first_rules;
mod laws;
mod normal_form;
mod order;

pub use all_rules::AllRules;
pub use first_rules::FirstRules;
pub use laws::normal_forms;
pub use normal_form::normalise;
pub use order::{Flatten, Rules, rules};
