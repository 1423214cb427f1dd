use crate::plain::compare;
use std::alloc::{AllocError, AllocFailed, Global};
use vkg_base::{Failed, FixedLine, MemSink, Memory, Sink, Status, Store};
use vkg_cli::vkg;

/// Room for what one call writes.
pub const ROOM: usize = 1 << 20;

/// A case was not run to its end.
#[derive(Drop)]
pub struct Stopped;

impl From<Memory> for Stopped {
    fn from(_: Memory) -> Self {
        Stopped
    }
}

impl From<AllocError> for Stopped {
    fn from(_: AllocError) -> Self {
        Stopped
    }
}

impl<T: Drop> From<AllocFailed<T>> for Stopped {
    fn from(_: AllocFailed<T>) -> Self {
        Stopped
    }
}

impl From<Failed> for Stopped {
    fn from(_: Failed) -> Self {
        Stopped
    }
}

/// Makes the call of a line, and writes the case's name, what the call wrote and told, and its status; behind that of an answered
/// query, whether the plain evaluation over the dump gives the same answer.
pub fn run_case<S: Store, O: Sink>(
    alloc: Global,
    line: &str,
    store: &mut S,
    out: &mut O,
) -> Result<(), Stopped> {
    let mut words = Vec::new(alloc);
    for word in line.split_whitespace() {
        words.push(String::from_str(alloc, word)?)?;
    }
    let mut written = MemSink::with_room(alloc, ROOM, Vec::new(alloc))?;
    let mut told = MemSink::with_room(alloc, ROOM, Vec::new(alloc))?;
    let status = vkg(alloc, &words, store, &mut written, &mut told);
    out.write(b"== ")?;
    if let Some(name) = words.first() {
        out.write(name.as_bytes())?;
    }
    out.write(b"\n")?;
    out.write(written.taken())?;
    out.write(told.taken())?;
    let mut end = FixedLine::new();
    end.push_str("status ");
    end.push_number(u64::from(status.number()));
    end.push_str("\n");
    out.write(end.as_bytes())?;
    if status == Status::Done && is_query(&words) {
        let comparison = compare(alloc, &words, store, written.taken())?;
        out.write(comparison.line())?;
    }
    Ok(())
}

/// Whether the words ask for the answer to a query.
fn is_query(words: &[String]) -> bool {
    match words.get(1) {
        Some(word) => word.as_str() == "query",
        None => false,
    }
}
