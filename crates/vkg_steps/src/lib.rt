//! A rule at the first subplan that it changes, in place, and again and again until it changes none.
//!
//! `step_in` gives what `vkg_rules::Everywhere` gives and moves the plan's parts: only what the rule makes is new. It tells the
//! place of the change, before which nothing is left to do (`specs/Behind.antt`), and the next step begins there. So `normalise`,
//! which goes on to the end (`specs/Ends.antt` of vkg_rules), asks the rule at few subplans for each step. Left joins that stand one on
//! the left of another, and at which the rule rests (`Resting`), are not gone through again at each step (`specs/Spine.antt`).
//!
//! Stands on vkg_rules for rules and their laws.
#![tactic(auto)]

mod in_place;
mod normal;
mod resting;
mod spine;

pub use in_place::{Stepped, step_in};
pub use normal::normalise;
pub use resting::Resting;
