//! The program `vkg`: the top call over the files of the system and the standard streams.
//!
//! It exits with the number of the status, and promises what `vkg_cli::vkg` does. Words that are no UTF-8 are not taken. What files and
//! streams hold, no contract says.
//!
//! Stands on `vkg_cli` (the top call) and `vkg_base` (`HostStore`, `HostSink`).
#![tactic(auto)]

use std::process::ExitCode;
use std::rt::Env;
use std::{env, io};
use vkg_base::{HostSink, HostStore, Sink, Status};
use vkg_cli::{Usage, give_up, refuse, vkg};

/// The words of the command line. An error is InvalidData where they are no UTF-8, and else OutOfMemory.
fn words(rt: &(impl Env + AllocGlobal)) -> io::Result<Vec<String>> {
    let mut words = Vec::new(rt.alloc());
    for word in env::args(rt)? {
        words.push(word)?;
    }
    Ok(words)
}

/// Tells why there are no words.
fn refuse_words<E: Sink>(error: io::Error, err: &mut E) -> Status {
    match error.kind() {
        io::ErrorKind::OutOfMemory => give_up(err),
        _ => refuse(Usage::Words, err),
    }
}

fn main(rt: HostRuntime) -> ExitCode {
    let alloc = rt.alloc();
    let mut err = HostSink::new(rt.stderr());
    let words = match words(&rt) {
        Ok(words) => words,
        Err(error) => return ExitCode::from(refuse_words(error, &mut err).number()),
    };
    let mut store = HostStore::new(alloc, &rt);
    let mut out = HostSink::new(rt.stdout());
    let status = vkg(alloc, &words, &mut store, &mut out, &mut err);
    ExitCode::from(status.number())
}
