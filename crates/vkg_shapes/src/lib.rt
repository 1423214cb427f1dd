//! Rules on the shapes of plans: conditions that are constant, plans without rows, and members that add nothing.
//!
//! Follows the equivalences of relational algebra over bags, as SQL-92 defines its nodes: selections (7.6), joins (7.5) and unions
//! (7.10), with conditions of three values (8.12). Each rule is a `Rewrite` of vkg_rules: its definition in `specs/` says what it
//! makes of a plan, `apply` makes exactly that, and its two laws say that it keeps the plan's columns and its bag of rows over
//! every database that meets the schema, and that it makes the plan's weight less.
//!
//! - `SelectTrue`: a selection by the constant true is what it selects from.
//! - `FalseCondition`: by the constant false or NULL there are no rows, or the left ones with NULLs.
//! - `PropagateEmpty`: what is made of no rows has none; a left join and a union lose that part.
//! - `FewMembers`: a join of one is a selection, and the row without columns is dropped from a join of more.
//! - `FlatUnion`: a union in a union is opened, and a union of one is that one.
//!
//! Stands on vkg_rules for rules and their laws, and on vkg_plan for plans, their columns and their rows.
#![tactic(auto)]

mod false_condition;
mod few_members;
mod flat_union;
mod parts;
mod propagate_empty;
mod select_true;
pub mod without;

pub use false_condition::{FalseCondition, is_never};
pub use few_members::FewMembers;
pub use flat_union::FlatUnion;
pub use propagate_empty::{PropagateEmpty, is_nothing};
pub use select_true::SelectTrue;
