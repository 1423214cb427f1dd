//! Worked cases: calls of `vkg` on files, one after another, with what each writes and answers.
//!
//! The file `cases` has a line for each: its name, and the words of the call. The gate compares what this program prints with
//! the file `stdout`, whose texts were made from the standards' definitions and not by the program. Each answer to a query is
//! also compared with the plain evaluation of the query's algebra over the quads that `dump` writes (SPARQL 1.1, 18.6).
//!
//! Stands on `vkg_cli` (the top call), `vkg_base` (stores, sinks), `vkg_sparql` (queries) and `vkg_plain` (the plain evaluation).
#![tactic(auto)]

mod case;
mod plain;

use crate::case::run_case;
use std::process::ExitCode;
use vkg_base::{HostSink, HostStore, Store};

/// The most bytes of the list of cases that are read.
const LONGEST: u64 = 1 << 20;

fn main(rt: HostRuntime) -> ExitCode {
    let alloc = rt.alloc();
    let mut store = HostStore::new(alloc, &rt);
    let mut out = HostSink::new(rt.stdout());
    let Ok(list) = store.load(alloc, "cases", LONGEST) else {
        return ExitCode::from(1);
    };
    let Ok(list) = String::from_utf8(list) else {
        return ExitCode::from(1);
    };
    for line in list.lines() {
        let Ok(()) = run_case(alloc, line, &mut store, &mut out) else {
            return ExitCode::from(1);
        };
    }
    ExitCode::SUCCESS
}
