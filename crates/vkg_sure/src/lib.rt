//! Four rules on what is sure of an expression: a test for NULL of a column that is never NULL is false, so is one beside what says so, a COALESCE
//! loses the members that are never its value, and a comparison with what is never a literal asks for one term.
//!
//! Follows SQL's NOT NULL columns (SQL-92, 11.7), its equality (SQL-92, 8.2), its test for NULL (SQL-92, 8.6) and its COALESCE (SQL-92, 6.9), and
//! SPARQL's `=` of terms (SPARQL 1.1 Query, 17.3 and 17.4.1.7).
//! `specs/NeverNull.antt` says which columns of a plan are NULL in none of its rows, through each of its nodes; `specs/NeverNullLaw.antt` that it
//! is so over every database that meets the schema. Each rule is a `Rewrite` of vkg_rules: its definition in `specs/` says what it makes of a plan,
//! `apply` makes exactly that, and its two laws say that the columns and the bag of rows stay, and that the size of the plan's expressions is less.
//!
//! - `SureNull`: the first test of such a column in a plan's own expressions is false.
//! - `FirstKnown`: the first COALESCE there that has such a member loses it. A member is never the value if it is NULL itself, stands there
//!   before, or stands behind one that is NULL in no row; of one member the COALESCE is that one. Where the first is NULL in no row, it is the value,
//!   also of COALESCEs one in another.
//! - `KnownMember`: in the first And there of which a member says of a column that it is not NULL, the first test for NULL of that column in
//!   another member is false.
//! - `TermComparison`: the first conjunct of a condition that compares by `=` two terms over columns of tables, of which one is an IRI or a blank
//!   node, becomes the verdict on them, as an equality of terms does, where the verdict is smaller.
//! - `OwnColumns`: of the columns over which a plan's own expressions are, whether they are never NULL, each told when it is asked for.
//!
//! Stands on vkg_nulls for the step on one test, on vkg_unique for what conditions say of NULL, on vkg_equalities for flags of columns and for
//! equalities of terms, on vkg_same for equal expressions, on vkg_conditions for changes at places of a plan's expressions, and on vkg_rules for rules and their laws.
#![tactic(auto)]

mod columns;
mod comparing;
mod first_known;
mod first_value;
mod known_member;
mod members;
mod never_null;
mod node_count;
mod own_columns;
mod placed;
mod sure_null;
mod term_comparison;
mod told;
mod told_members;

pub use first_known::FirstKnown;
pub use known_member::KnownMember;
pub use own_columns::OwnColumns;
pub use sure_null::SureNull;
pub use term_comparison::TermComparison;
