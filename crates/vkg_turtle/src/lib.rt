//! The triples of a Turtle document (RDF 1.1 Turtle), without collections.
//!
//! `read_turtle` gives exactly the triples of a document, in the order in which their objects begin, or names the first
//! fault. The grammar is LL(1), by a certificate; what a token means is noted while it is parsed, and the tokens change the
//! state of the standard's section 7, one after another. So nothing here recurses, however deep a document nests. A `Base` is
//! what references are resolved against (RFC 3986, 5.1); most references that set another move it in place.
//!
//! Stands on `vkg_tokens` and `vkg_grammar` for tokens and derivations, on `vkg_terms` for terms and IRIs, on `indexmap`
//! for prefixes and for repeated triples, on `itoa` for the labels of brackets.
#![tactic(auto)]

mod bad_place;
mod base;
mod document;
mod escape;
mod front;
mod grammar_table;
mod lexeme;
mod names;
mod parsing;
mod path;
mod places;
mod prefixes;
mod reading;
mod repeats;
mod role;
mod symbols;
mod triple;

pub use bad_place::first_bad;
pub use base::Base;
pub use document::{or_empty, typed};
pub use grammar_table::{ROLES, TURTLE};
pub use lexeme::{Word, between, lowered, word_of};
pub use names::{iri_named, prefix_of};
pub use prefixes::Prefixes;
pub use reading::{TurtleError, TurtleFault, is_determined, read_turtle};
pub use role::Role;
pub use triple::Triple;
