// Calls over a store and sinks in memory, whose loads and writes fail.
use std::alloc::Global;
use std::process::Abort;
use std::test::Fail;
use vkg_base::{MemSink, MemStore, Status};
use vkg_cli::vkg;

/// What a call answers, with what it wrote and what it told.
#[derive(Drop)]
struct Ended {
    status: Status,
    out: Vec<u8>,
    err: Vec<u8>,
}

fn call(alloc: Global, words: &[&str], room: usize) -> Result<Ended, Fail> {
    let mut all = Vec::new(alloc);
    for word in words {
        all.push(String::from_str(alloc, *word)?)?;
    }
    let mut store = MemStore::new(Vec::new(alloc), Vec::new(alloc));
    let mut out = MemSink::with_room(alloc, room, Vec::new(alloc))?;
    let mut err = MemSink::with_room(alloc, 200, Vec::new(alloc))?;
    let status = vkg(alloc, &all, &mut store, &mut out, &mut err);
    Ok(Ended {
        status,
        out: out.taken().to_vec(alloc)?,
        err: err.taken().to_vec(alloc)?,
    })
}

/// The status, what is written and the line that is told.
fn ends(rt: &impl Abort, ended: &Ended, status: Status, out: &[u8], err: &[u8]) {
    assert!(rt; ended.status == status);
    assert_eq!(rt; ended.out.as_slice(), out);
    assert_eq!(rt; ended.err.as_slice(), err);
}

#[test]
fn help_finds_no_room(rt: HostRuntime) -> Result<(), Fail> {
    let ended = call(rt.alloc(), ["vkg", "--help"].as_slice(), 3)?;
    ends(
        &rt,
        &ended,
        Status::WriteFault,
        b"vkg",
        b"vkg: write fault\n",
    );
    Ok(())
}

const SCHEMA: &str =
    "CREATE TABLE dept (id INTEGER PRIMARY KEY, title VARCHAR(20)); CREATE TABLE emp (id INTEGER PRIMARY KEY, name VARCHAR(20), dept INTEGER REFERENCES dept);";

const DEPT: &str = "id,title\n1,Ore\n2,\\N\n";

const EMP: &str = "id,name,dept\n7,Ann,1\n8,Bo,\\N\n9,Ann,1\n";

fn file(alloc: Global, name: &str, text: &str) -> Result<(String, Vec<u8>), Fail> {
    Ok((
        String::from_str(alloc, name)?,
        Vec::from_slice(alloc, text.as_bytes())?,
    ))
}

/// `dump` over a schema's text and the files of tables. The loads of these numbers fail, and so do the listed writes.
fn dump(
    alloc: Global,
    schema: &str,
    tables: &[(&str, &str)],
    loads: Vec<u64>,
    writes: Vec<(u64, usize)>,
) -> Result<Ended, Fail> {
    let mut all = Vec::new(alloc);
    for &word in &[
        "vkg",
        "dump",
        "--schema",
        "s",
        "--data",
        "d",
        "--base",
        "http://e/",
    ] {
        all.push(String::from_str(alloc, word)?)?;
    }
    let mut files = Vec::new(alloc);
    files.push(file(alloc, "s", schema)?)?;
    for table in tables {
        files.push(file(alloc, table.0, table.1)?)?;
    }
    let mut store = MemStore::new(files, loads);
    let mut out = MemSink::with_room(alloc, 4000, writes)?;
    let mut err = MemSink::with_room(alloc, 200, Vec::new(alloc))?;
    let status = vkg(alloc, &all, &mut store, &mut out, &mut err);
    Ok(Ended {
        status,
        out: out.taken().to_vec(alloc)?,
        err: err.taken().to_vec(alloc)?,
    })
}

/// The load of this number fails: nothing is written.
fn load_fails(rt: &impl Abort, alloc: Global, load: u64) -> Result<(), Fail> {
    let mut loads = Vec::new(alloc);
    loads.push(load)?;
    let ended = dump(
        alloc,
        SCHEMA,
        &[("d/dept.csv", DEPT), ("d/emp.csv", EMP)],
        loads,
        Vec::new(alloc),
    )?;
    ends(rt, &ended, Status::ReadFault, b"", b"vkg: read fault\n");
    Ok(())
}

#[test]
fn each_load_fails(rt: HostRuntime) -> Result<(), Fail> {
    load_fails(&rt, rt.alloc(), 1)?;
    load_fails(&rt, rt.alloc(), 2)?;
    load_fails(&rt, rt.alloc(), 3)
}

#[test]
fn the_second_write_fails(rt: HostRuntime) -> Result<(), Fail> {
    let alloc = rt.alloc();
    let mut writes = Vec::new(alloc);
    writes.push((2, 10))?;
    let ended = dump(
        alloc,
        SCHEMA,
        &[("d/dept.csv", DEPT), ("d/emp.csv", EMP)],
        Vec::new(alloc),
        writes,
    )?;
    ends(
        &rt,
        &ended,
        Status::WriteFault,
        b"<http://e/dept/id=1> <http://e/dept#id> \"1\"^^<http://www.w3.org/2001/XMLSchema#integer> .\n<http://e/",
        b"vkg: write fault\n",
    );
    Ok(())
}
