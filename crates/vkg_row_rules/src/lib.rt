//! The quad rules of a mapping as expressions over rows.
//!
//! Follows R2RML (W3C Recommendation of 2012), 7, 8 and 11: each term map is the expression over a row that makes its term
//! (`RowRule`), so that a plan can compute terms without making a quad. Over a database that meets its schema and has no data error, the
//! quads of these rules are the dataset of the mapping.
//!
//! Stands on `vkg_maps` (quad rules, the dataset), `vkg_expr` (expressions that make terms) and `vkg_plan` (rows).
#![tactic(auto)]

mod laws;
mod row_rule;
mod row_terms;
mod rules;

pub use laws::datasets;
pub use row_rule::RowRule;
pub use rules::row_rules;
