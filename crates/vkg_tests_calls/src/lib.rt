//! The tests of whole calls on what goes wrong outside of them: loads, writes and texts.
//!
//! A call is made over files and sinks in memory, in which each load and each write may fail. The texts are of the company of
//! two tables. It knows `vkg` by its contract, which says the same of every store and every sink; here each single point is
//! seen. No library and no program calls anything here: the gate proves each test as it does any function, and runs it.
//!
//! - `loads`: each load fails; of several faults the first in the order of the loads is told, whatever becomes of its line.
//! - `writes`: each write fails, and takes none, some or all of its line; a room that ends.
//! - `prefixes`: a schema, a mapping and a query, cut off behind each of their bytes.
//!
//! It stands on `vkg_base` (stores, sinks, statuses) and `vkg_cli` (the top call).
#![tactic(auto)]

#[cfg(test)]
mod call;
#[cfg(test)]
mod company;
#[cfg(test)]
mod loads;
#[cfg(test)]
mod prefixes;
#[cfg(test)]
mod writes;
