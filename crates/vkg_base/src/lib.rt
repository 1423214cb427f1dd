//! What stands outside of the program and what every part of it shares: stores of files and sinks of bytes that count
//! their faults, in memory and of the system; lines of text that are made before the first is written; the statuses;
//! want of memory; the least of places; and the containers `Box`, `Items` and `Text`, which
//! contracts see as what they hold.
//!
//! It follows no standard but that texts are UTF-8. It promises: a fault is answered only where its count rose, lines are sorted by their bytes and written in order.
//! It stands on vkg_lists, and on itoa for the decimal digits of a number, and on thiserror for the texts of errors.
#![tactic(auto)]

mod boxed;
mod fixed_line;
mod host_sink;
mod host_store;
mod items;
mod line;
mod lines;
mod mem_sink;
mod mem_store;
mod memory;
mod places;
mod sink;
mod status;
mod store;
mod text;

pub use boxed::Box;
pub use fixed_line::FixedLine;
pub use host_sink::HostSink;
pub use host_store::HostStore;
pub use items::{Items, at};
pub use lines::Lines;
pub use mem_sink::MemSink;
pub use mem_store::MemStore;
pub use memory::Memory;
pub use places::{earlier, lesser, place_if};
pub use sink::{Failed, Sink, WriteFault};
pub use status::Status;
pub use store::{LoadFault, Store};
pub use text::Text;
