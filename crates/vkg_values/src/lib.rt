//! The values of literals, and what the operators of a query make of terms.
//!
//! Follows SPARQL 1.1 Query, 17, in this project's profile: known values are those of plain literals and of well-typed literals of
//! xsd:integer, decimal, boolean, date and dateTime, the last two without a zone, and a dateTime before 24:00:00 with at most nine
//! digits of a fraction. A string is a plain literal or one with a language tag. Each operator answers exactly what `specs/Operators.antt` defines; want of memory aside, none fails. An
//! error of the standard is the answer `None`.
//!
//! Stands on vkg_terms for terms and on vkg_cells for values: the known value of a literal is a cell; and on itoa for the decimal digits of
//! a number.
#![tactic(auto)]

mod compare;
mod known;
mod logic;
mod operator;
mod strings;
mod term_tests;
mod truth;

pub use compare::compare_terms;
pub use known::known_value;
pub use logic::{conjunction, disjunction, negation};
pub use operator::{Compare, Take, Test};
pub use term_tests::{take_of, test_of};
pub use truth::effective_truth;
