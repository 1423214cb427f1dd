// The answer of a call of `query` beside the plain evaluation of its query over the quads that `dump` writes.
use crate::case::{ROOM, Stopped};
use std::alloc::Global;
use vkg_base::{Items, MemSink, Status, Store};
use vkg_cli::vkg;
use vkg_plain::{Quad, answer, read_quads, solution_lines};
use vkg_sparql::{Query, read_query};

/// The most bytes of a query's file that are read.
const LONGEST: u64 = 1 << 20;

/// What a comparison came to.
#[derive(Clone, Copy, Debug, PartialEq, Eq)]
pub enum Comparison {
    Same,
    Different,
    /// The call of `dump`, its text, the query's file or its evaluation had a fault.
    Unread,
}

impl Comparison {
    /// The line that says it.
    pub fn line(self) -> &'static [u8] {
        match self {
            Comparison::Same => b"same as the plain evaluation over the dump\n",
            Comparison::Different => b"not the plain evaluation over the dump\n",
            Comparison::Unread => b"no plain evaluation over the dump\n",
        }
    }
}

/// Compares what a call of `query` wrote with the plain evaluation over the dump.
pub fn compare<S: Store>(
    alloc: Global,
    words: &[String],
    store: &mut S,
    written: &[u8],
) -> Result<Comparison, Stopped> {
    let Some(quads) = dumped(alloc, words, store)? else {
        return Ok(Comparison::Unread);
    };
    let Some(query) = asked(alloc, words, store) else {
        return Ok(Comparison::Unread);
    };
    compare_with(alloc, &query, quads.as_slice(), written)
}

/// Compares what was written with the answer to a query over quads.
fn compare_with(
    alloc: Global,
    query: &Query,
    quads: &[Quad],
    written: &[u8],
) -> Result<Comparison, Stopped> {
    let Some(lines) = answered(alloc, query, quads)? else {
        return Ok(Comparison::Unread);
    };
    if lines.taken() == written {
        Ok(Comparison::Same)
    } else {
        Ok(Comparison::Different)
    }
}

/// The quads that the same call writes with `dump` in place of `query`.
fn dumped<S: Store>(
    alloc: Global,
    words: &[String],
    store: &mut S,
) -> Result<Option<Items<Quad>>, Stopped> {
    let words = dump_words(alloc, words)?;
    let mut written = MemSink::with_room(alloc, ROOM, Vec::new(alloc))?;
    let mut told = MemSink::with_room(alloc, ROOM, Vec::new(alloc))?;
    let status = vkg(alloc, &words, store, &mut written, &mut told);
    if status != Status::Done {
        return Ok(None);
    }
    let Ok(text) = String::from_utf8(written.taken().to_vec(alloc)?) else {
        return Ok(None);
    };
    Ok(read_quads(alloc, text.as_str()).ok())
}

/// The words with `dump` in place of `query`, and without the query's file.
fn dump_words(alloc: Global, words: &[String]) -> Result<Vec<String>, Stopped> {
    let mut found = Vec::new(alloc);
    let mut is_value = false;
    for word in words {
        let word = word.as_str();
        if is_value {
            is_value = false;
        } else if word == "--query" {
            is_value = true;
        } else if !word.starts_with("--query=") {
            let word = if word == "query" { "dump" } else { word };
            found.push(String::from_str(alloc, word)?)?;
        }
    }
    Ok(found)
}

/// The query of the call.
fn asked<S: Store>(alloc: Global, words: &[String], store: &mut S) -> Option<Query> {
    let file = value_of(words, "--query", "--query=")?;
    let base = value_of(words, "--base", "--base=")?;
    let bytes = store.load(alloc, file, LONGEST).ok()?;
    read_query(alloc, &bytes, base).ok()
}

/// The value of an option, in either spelling.
fn value_of<'w>(words: &'w [String], option: &str, joined: &str) -> Option<&'w str> {
    let mut is_value = false;
    for word in words {
        if is_value {
            return Some(word.as_str());
        }
        if let Some(value) = word.as_str().strip_prefix(joined) {
            return Some(value);
        }
        is_value = word.as_str() == option;
    }
    None
}

/// The bytes of the answer to a query over quads.
fn answered(alloc: Global, query: &Query, quads: &[Quad]) -> Result<Option<MemSink>, Stopped> {
    let Ok(rows) = answer(alloc, query, quads) else {
        return Ok(None);
    };
    let lines = solution_lines(alloc, query, rows.as_slice())?;
    let mut sink = MemSink::with_room(alloc, ROOM, Vec::new(alloc))?;
    match lines.write_all(&mut sink) {
        Ok(()) => Ok(Some(sink)),
        Err(_) => Ok(None),
    }
}
