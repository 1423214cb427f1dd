//! A rule on unions: a selection, a projection, a join or a left join over a union becomes the union of the same over each member.
//!
//! Follows the equivalences of relational algebra over bags: a union has the rows of all its members (SQL-92, 7.10), and these nodes
//! look at each row, or at each pair of rows, alone (7.5, 7.6 and 7.9). `specs/DistributeUnion.antt` says what the rule makes of a
//! plan, and `specs/DistributeUnionLaw.antt` has its laws: the columns and the bag of rows stay over every database that meets the
//! schema, and the plan's weight is less. A join is distributed where at most 64 joins without a union come of it in the end, a left
//! join over a union of at most 64 members.
//!
//! Stands on vkg_rules for rules and their laws, and on vkg_shapes for the kinds of unions.
#![tactic(auto)]

mod branches;
mod distribute_union;
mod nodes;
mod unions;

pub use distribute_union::DistributeUnion;
