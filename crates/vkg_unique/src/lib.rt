//! Plans no two of whose rows are equal, and rules that rest on keys: a distinct over such a plan goes, and a left join of which nothing
//! is used.
//!
//! Follows SQL's keys (SQL-92, 4.10.2 and 11.7), DISTINCT (SQL-92, 7.9), left joins (SQL-92, 7.5), and the terms that a template makes (R2RML, 7.3 and 11.2).
//! `specs/Unique.antt` says which plans these are: by the keys of their tables, by what the values of expressions give back
//! (`specs/Recovered.antt`), and by terms that are never the same (`specs/Apart.antt`). `specs/UnusedLeft.antt` says which left joins
//! go. Both rules keep a plan's columns and its bag of rows over every database that meets the schema, and make the plan's weight less.
//!
//! - `is_unique`: whether a plan is one of these. `unique_rows` is the law: over each database that meets the schema no two rows of it
//!   are equal.
//! - `DistinctUnique`: a distinct over such a plan is that plan.
//! - `UnusedLeft`: a projection that uses left columns alone of a left join to a table goes over the left side, where the condition ties
//!   a key of the table.
//!
//! Stands on vkg_keys for rows by a key, on vkg_equalities for terms and verdicts, on vkg_nulls for strict expressions, and on
//! vkg_rules for rules and their laws.
#![tactic(auto)]

mod apart;
mod columns;
mod distinct_unique;
mod flags;
mod given;
mod keys_given;
mod kinds;
mod laws;
mod recovered;
mod sure;
mod unique;
mod unused_left;

pub use distinct_unique::DistinctUnique;
pub use laws::unique_rows;
pub use unique::is_unique;
pub use unused_left::UnusedLeft;
