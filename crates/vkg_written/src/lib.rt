//! Laws: what the mappings that are read make can be written in N-Quads, so that two quads have two lines.
//!
//! Each is a function that does nothing, and its contract is the law. No code rests on them.
//!
//! - `graphs`: a mapping that is read of triples whose objects can be written has term maps that can be written.
//! - `documents`: the objects of a Turtle document can be written.
//! - `mappings`: a mapping that is read of a Turtle document has term maps that can be written.
//! - `lines`: so the dump of such a mapping has as many lines as its dataset has quads.
//!
//! It stands on vkg_r2rml and vkg_quads and what these stand on, of whose definitions it speaks.
#![tactic(auto)]

mod reading;

pub use reading::{documents, graphs, lines, mappings};
