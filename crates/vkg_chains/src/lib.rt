//! Rules that rewrite plans, to their end: the steps of a rule until it gives none.
//!
//! Follows the equivalences of relational algebra over bags, as vkg_rules does. `Fix` takes a rule again and again; that it ends,
//! and both laws of it, follow from the laws of the rule (`specs/FixLaw.antt`), since each step makes the measure less.
//! `specs/Fix.antt` defines the steps, `specs/Ends.antt` what the end of a rule is that is taken everywhere in a plan.
//!
//! Stands on vkg_rules for rules and their laws.
#![tactic(auto)]

mod fix;

pub use fix::{Fix, foremost_of};
