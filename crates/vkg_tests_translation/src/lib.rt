//! The test of the algebra of queries as they are written (SPARQL 1.1, 18.2.2).
//!
//! What `translate` of `vkg_algebra` makes of what `read_query` of `vkg_sparql` reads, compared as a whole value: each
//! operator with its parts, each triple pattern, condition and name. No library and no program calls anything here: the
//! gate proves the test as it does any function, and runs it. It stands apart from the other tests of queries since it needs
//! no more than these two crates and those below them.
#![tactic(auto)]

#[cfg(test)]
mod texts;
#[cfg(test)]
mod translated;
