//! Tests for NULL that become tests of single columns that may be NULL, one step at a time.
//!
//! Follows SQL's test for NULL (SQL-92, 8.6) and its NOT NULL columns (SQL-92, 11.7). `specs/NullTests.antt` has the steps on one
//! expression, `specs/KnownColumns.antt` the columns of a plan that are never NULL, `specs/SimplifyNull.antt` the rule on plans:
//! the first listed step that applies anywhere in a plan's own expressions, at its first place. `specs/SimplifyNullLaw.antt` has
//! its laws: the columns and the bag of rows stay over every database that meets the schema, and the size of the plan's
//! expressions is less.
//!
//! Stands on vkg_conditions for changes at places of a plan's expressions, and on vkg_rules for rules and their laws.
#![tactic(auto)]

mod columns;
mod known_columns;
mod null_tests;
mod simplify_null;

pub use simplify_null::SimplifyNull;
