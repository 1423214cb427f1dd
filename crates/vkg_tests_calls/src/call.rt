// One call over files and sinks in memory.
use std::alloc::Global;
use std::process::Abort;
use std::test::Fail;
use vkg_base::{MemSink, MemStore, Status};
use vkg_cli::vkg;

/// What is around a call.
#[derive(Clone, Copy)]
pub struct Around<'a> {
    /// The files, each with its name; the first of a name counts.
    pub files: &'a [(&'a str, &'a str)],
    /// The numbers of the loads that fail, from 1.
    pub loads: &'a [u64],
    /// The numbers of the writes that fail, from 1, and how many bytes each takes at most.
    pub writes: &'a [(u64, usize)],
    /// How many bytes the output takes.
    pub room: usize,
    /// How many bytes the standard error takes.
    pub line: usize,
}

/// How a call ended: its status, what it wrote and told, and how many loads failed.
#[derive(Drop)]
pub struct Ended {
    pub status: Status,
    pub out: Vec<u8>,
    pub err: Vec<u8>,
    pub faults: u64,
}

/// These files, where nothing fails and there is room for all that the tests write.
pub fn faultless<'a>(files: &'a [(&'a str, &'a str)]) -> Around<'a> {
    Around {
        files,
        loads: &[],
        writes: &[],
        room: 4000,
        line: 200,
    }
}

fn words_of(alloc: Global, words: &str) -> Result<Vec<String>, Fail> {
    let mut all = Vec::new(alloc);
    for word in words.split_whitespace() {
        all.push(String::from_str(alloc, word)?)?;
    }
    Ok(all)
}

fn file(alloc: Global, name: &str, text: &str) -> Result<(String, Vec<u8>), Fail> {
    Ok((
        String::from_str(alloc, name)?,
        Vec::from_slice(alloc, text.as_bytes())?,
    ))
}

fn store_of(alloc: Global, files: &[(&str, &str)], loads: &[u64]) -> Result<MemStore, Fail> {
    let mut all = Vec::new(alloc);
    for entry in files {
        all.push(file(alloc, entry.0, entry.1)?)?;
    }
    Ok(MemStore::new(all, Vec::from_slice(alloc, loads)?))
}

/// Makes the call of these words, of which the first is the program's name.
pub fn call(alloc: Global, words: &str, around: Around<'_>) -> Result<Ended, Fail> {
    let words = words_of(alloc, words)?;
    let mut store = store_of(alloc, around.files, around.loads)?;
    let writes = Vec::from_slice(alloc, around.writes)?;
    let mut out = MemSink::with_room(alloc, around.room, writes)?;
    let mut err = MemSink::with_room(alloc, around.line, Vec::new(alloc))?;
    let status = vkg(alloc, &words, &mut store, &mut out, &mut err);
    Ok(Ended {
        status,
        out: out.taken().to_vec(alloc)?,
        err: err.taken().to_vec(alloc)?,
        faults: store.faults(),
    })
}

/// The call ended with this status, and wrote and told these texts.
pub fn ends(rt: &impl Abort, ended: &Ended, status: Status, out: &str, err: &str) {
    assert_eq!(rt; ended.status.number(), status.number());
    assert_eq!(rt; ended.out.as_slice(), out.as_bytes());
    assert_eq!(rt; ended.err.as_slice(), err.as_bytes());
}
