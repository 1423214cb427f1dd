//! Laws that say in the words of the standards what definitions of the crates below say in the program's.
//!
//! Each is a function that does nothing, and its contract is the law. No code rests on them, so that they are proved again
//! with what they speak of alone.
//!
//! - `order_is_by_value`: the order of the cells of two fields is the order of the values that the fields write, for dates,
//!   moments and times of day (XML Schema 1.1 Part 2, 3.3.9, 3.3.7 and 3.3.8, in the calendar of ISO 8601) and for octets (3.3.15).
//! - `dot_segments_are_removed`: what `resolve` makes of a path is what the routine of RFC 3986, 5.2.4, makes of it.
//! - `ddl_tokens_are_productions`: the automaton of the data definition language takes the identifiers and integers of
//!   SQL-92, 5.2 and 5.3, and this language's signs and keywords, and nothing else.
//!
//! It stands on vkg_terms, vkg_cells and vkg_tokens, which it speaks of, on `hex` for the octets that digits write, and on
//! vkg_lists.
#![tactic(auto)]

mod by_value;
mod ddl_tokens;
mod dot_segments;

pub use by_value::order_is_by_value;
pub use ddl_tokens::ddl_tokens_are_productions;
pub use dot_segments::dot_segments_are_removed;
