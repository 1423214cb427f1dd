//! The tests of the order of answers: values compared, and the lines that a keeper gives.
//!
//! Over public functions of `vkg_order` alone, which it knows by their contracts; the gate proves each test as it does any
//! function, and runs it.
#![tactic(auto)]

#[cfg(test)]
mod of_order;
