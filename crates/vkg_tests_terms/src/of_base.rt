use std::alloc::Global;
use std::fs;
use std::test::Fail;
use vkg_base::{
    Box, FixedLine, HostSink, HostStore, Items, Lines, LoadFault, MemSink, MemStore, Memory, Sink,
    Status, Store, Text, earlier, lesser, place_if,
};

fn store(alloc: Global, failing: Vec<u64>) -> Result<MemStore, Fail> {
    let mut files = Vec::new(alloc);
    let name = String::from_str(alloc, "greeting.txt")?;
    files.push((name, Vec::from_slice(alloc, b"hello world")?))?;
    Ok(MemStore::new(files, failing))
}

fn lines(alloc: Global, texts: &[&str]) -> Result<Lines, Fail> {
    let mut lines = Lines::new(alloc);
    for text in texts {
        lines.push(String::from_str(alloc, text)?)?;
    }
    Ok(lines)
}

#[test]
fn statuses_have_their_numbers(rt: HostRuntime) {
    for &(status, number) in &[
        (Status::Done, 0),
        (Status::Usage, 2),
        (Status::BadSchema, 3),
        (Status::BadTable, 4),
        (Status::BadMapping, 5),
        (Status::BadData, 6),
        (Status::BadQuery, 7),
        (Status::ReadFault, 8),
        (Status::WriteFault, 9),
        (Status::Memory, 10),
    ] {
        assert!(rt; status.number() == number, "{number}");
    }
}

// Whether a load gives the bytes of this text.
fn are_loaded(loaded: Result<Vec<u8>, LoadFault>, text: &str) -> bool {
    match loaded {
        Ok(bytes) => bytes.as_slice() == text.as_bytes(),
        Err(_) => false,
    }
}

#[test]
fn a_file_is_cut_at_the_limit(rt: HostRuntime) -> Result<(), Fail> {
    let alloc = rt.alloc();
    let mut store = store(alloc, Vec::new(alloc))?;
    for &(limit, text) in &[(10, "hello worl"), (11, "hello world"), (12, "hello world")] {
        let loaded = store.load(alloc, "greeting.txt", limit);
        assert!(rt; are_loaded(loaded, text), "at {limit}");
    }
    assert!(rt; store.faults() == 0);
    Ok(())
}

// The error of a load, if there is one.
fn fault(alloc: Global, store: &mut MemStore, name: &str) -> Option<LoadFault> {
    store.load(alloc, name, 20).err()
}

#[test]
fn listed_and_missing_loads_fail(rt: HostRuntime) -> Result<(), Fail> {
    let mut store = store(rt.alloc(), Vec::from_slice(rt.alloc(), &[2])?)?;
    for &(name, expected, faults) in &[
        ("greeting.txt", None, 0),
        ("greeting.txt", Some(LoadFault::Failed), 1),
        ("greeting.txt", None, 1),
        ("greeting", Some(LoadFault::Failed), 2),
    ] {
        assert!(rt; fault(rt.alloc(), &mut store, name) == expected);
        assert!(rt; store.faults() == faults);
    }
    Ok(())
}

// What a sink of so much room takes of the lines, and how often it fails: the writing fails where the sink does.
fn taken(
    alloc: Global,
    lines: &Lines,
    room: usize,
    listed: (u64, usize),
) -> Result<(Vec<u8>, u64), Fail> {
    let mut sink = MemSink::with_room(alloc, room, Vec::from_slice(alloc, &[listed])?)?;
    let fails = lines.write_all(&mut sink).is_err();
    let faults = sink.faults();
    if fails == (faults == 0) {
        return Err(Fail::new("a fault that is not told"));
    }
    Ok((sink.taken().to_vec(alloc)?, faults))
}

// Whether a sink of so much room, and with these failures, takes this text of the lines, and fails so often.
fn takes(
    alloc: Global,
    lines: &Lines,
    sink: (usize, (u64, usize)),
    text: &str,
    faults: u64,
) -> Result<bool, Fail> {
    let (bytes, count) = taken(alloc, lines, sink.0, sink.1)?;
    Ok(bytes.as_slice() == text.as_bytes() && count == faults)
}

#[test]
fn lines_go_into_a_room(rt: HostRuntime) -> Result<(), Fail> {
    let lines = lines(rt.alloc(), &["one", "two"])?;
    for &(room, listed, text, faults) in &[
        (8, (0, 0), "one\ntwo\n", 0),
        (7, (0, 0), "one\ntwo", 1),
        (8, (1, 0), "", 1),
        (8, (2, 0), "one\n", 1),
        (8, (2, 3), "one\ntwo", 1),
        (8, (2, 4), "one\ntwo\n", 1),
        (8, (2, 9), "one\ntwo\n", 1),
        (8, (3, 0), "one\ntwo\n", 0),
    ] {
        let taken = takes(rt.alloc(), &lines, (room, listed), text, faults)?;
        assert!(rt; taken, "{room}, {text}");
    }
    Ok(())
}

// Whether the lines write this text where there is room.
fn write(alloc: Global, lines: &Lines, text: &str) -> Result<bool, Fail> {
    takes(alloc, lines, (100, (0, 0)), text, 0)
}

// A line comes before those that it begins, also before one that goes on with a tab, which is below the line feed.
#[test]
fn lines_are_sorted_without_their_line_feeds(rt: HostRuntime) -> Result<(), Fail> {
    let alloc = rt.alloc();
    let mut lines = lines(alloc, &["b", "a\tb", "a", "", "a", "\u{e9}"])?;
    assert!(rt; !lines.is_empty());
    lines.sort();
    assert!(rt; lines.len() == 6);
    assert!(rt; write(alloc, &lines, "\na\na\na\tb\nb\n\u{e9}\n")?);
    lines.sort_once();
    assert!(rt; lines.len() == 5);
    assert!(rt; write(alloc, &lines, "\na\na\tb\nb\n\u{e9}\n")?);
    Ok(())
}

#[test]
fn a_fixed_line_takes_texts_and_numbers(rt: HostRuntime) {
    let mut line = FixedLine::new();
    line.push_str("vkg: ");
    line.push_number(u64::MAX);
    line.push_number(0);
    assert!(rt; line.as_bytes() == b"vkg: 184467440737095516150".as_slice());
}

#[test]
fn the_system_gives_files(rt: HostRuntime) -> Result<(), Fail> {
    let alloc = rt.alloc();
    fs::write(&rt, "greeting.txt", "hello world")?;
    let mut store = HostStore::new(alloc, &rt);
    for &(limit, text) in &[(0, ""), (10, "hello worl"), (20, "hello world")] {
        let loaded = store.load(alloc, "greeting.txt", limit);
        assert!(rt; are_loaded(loaded, text), "at {limit}");
    }
    fs::remove_file(&rt, "greeting.txt")?;
    let missing = store.load(alloc, "greeting.txt", 20);
    assert!(rt; matches!(&missing, Err(LoadFault::Failed)));
    Ok(())
}

#[test]
fn the_system_takes_bytes(rt: HostRuntime) -> Result<(), Fail> {
    let mut out = HostSink::new(rt.stdout());
    assert!(rt; out.write(b"written by a test\n") == Ok(()));
    assert!(rt; out.write(b"") == Ok(()));
    Ok(())
}

#[test]
fn a_box_and_a_text_give_back_what_they_hold(rt: HostRuntime) -> Result<(), Fail> {
    let alloc = rt.alloc();
    assert!(rt; Box::new(alloc, 7u8)?.into_inner() == 7);
    let text = Text::new(alloc, "text")?;
    assert!(rt; text.copy()?.as_str() == "text");
    assert!(rt; text.into_string().as_str() == "text");
    Ok(())
}

#[test]
fn an_item_is_removed_and_another_set(rt: HostRuntime) -> Result<(), Fail> {
    let mut items = Items::from_slice(rt.alloc(), &[1u8, 2, 3])?;
    assert!(rt; items.remove(0) == 1);
    items.set(0, 5);
    assert!(rt; items.as_slice() == [5, 3].as_slice());
    Ok(())
}

// 5 and 3, with 6 and 7 put behind them.
fn grown(alloc: Global) -> Result<Items<u8>, Memory> {
    let mut items = Items::from_slice(alloc, &[5u8, 3])?;
    items.push(6)?;
    items.append(Items::from_slice(alloc, &[7u8])?)?;
    Ok(items)
}

#[test]
fn items_are_put_behind_and_taken(rt: HostRuntime) -> Result<(), Fail> {
    let mut items = grown(rt.alloc())?;
    assert!(rt; items.as_slice() == [5, 3, 6, 7].as_slice());
    assert!(rt; items.pop() == Some(7));
    assert!(rt; items.get(1).copied() == Some(3));
    assert!(rt; items.len() == 3);
    Ok(())
}

#[test]
fn the_least_place_counts(rt: HostRuntime) {
    assert!(rt; lesser(Some(2), Some(1)) == Some(1));
    assert!(rt; lesser(None, Some(1)) == Some(1));
    assert!(rt; earlier(Some(2), 1) == Some(2));
    assert!(rt; earlier(None, 1) == Some(1));
    assert!(rt; place_if(true, 1) == Some(1));
    assert!(rt; place_if(false, 1) == None);
}
