// Writes that fail: what is written is exactly what was taken before.
use crate::call::{Around, call, ends, faultless};
use crate::company::{DUMP, DUMPED, FILES};
use std::alloc::Global;
use std::process::Abort;
use std::test::Fail;
use vkg_base::Status;

const FAULT: &str = "vkg: write fault\n";

/// So many bytes of what the dump writes.
fn first(count: usize) -> Result<&'static str, Fail> {
    Ok(DUMPED.get(..count).ok_or("past the end")?)
}

/// The write of this number takes nothing, ten bytes or all of its line, and fails.
fn write_fails(
    rt: &impl Abort,
    alloc: Global,
    number: u64,
    before: usize,
    line: usize,
) -> Result<(), Fail> {
    for takes in [0, 10, line] {
        let writes = [(number, takes)];
        let given = Around {
            writes: &writes,
            ..faultless(&FILES)
        };
        let ended = call(alloc, DUMP, given)?;
        let out = first(before.saturating_add(takes))?;
        ends(rt, &ended, Status::WriteFault, out, FAULT);
    }
    Ok(())
}

#[test]
fn each_write_fails(rt: HostRuntime) -> Result<(), Fail> {
    let (mut number, mut before) = (0u64, 0usize);
    for line in DUMPED.split_inclusive('\n') {
        number = number.saturating_add(1);
        write_fails(&rt, rt.alloc(), number, before, line.len())?;
        before = before.saturating_add(line.len());
    }
    assert_eq!(rt; number, 18);
    Ok(())
}

/// The dump writes as much as there is room for, and ends with this status and line; the standard error takes so many bytes of it.
fn fills(
    rt: &impl Abort,
    alloc: Global,
    rooms: (usize, usize),
    status: Status,
    err: &str,
) -> Result<(), Fail> {
    let given = Around {
        room: rooms.0,
        line: rooms.1,
        ..faultless(&FILES)
    };
    let ended = call(alloc, DUMP, given)?;
    ends(rt, &ended, status, first(rooms.0)?, err);
    Ok(())
}

#[test]
fn help_finds_no_room(rt: HostRuntime) -> Result<(), Fail> {
    let given = Around {
        room: 3,
        ..faultless(&FILES)
    };
    let ended = call(rt.alloc(), "vkg --help", given)?;
    ends(&rt, &ended, Status::WriteFault, "vkg", FAULT);
    Ok(())
}

#[test]
fn a_room_is_filled(rt: HostRuntime) -> Result<(), Fail> {
    let whole = DUMPED.len();
    fills(&rt, rt.alloc(), (whole, 0), Status::Done, "")?;
    for (room, line, err) in [
        (whole.saturating_sub(1), 200, FAULT),
        (0, 200, FAULT),
        (10, 5, "vkg: "),
        (10, 0, ""),
    ] {
        fills(&rt, rt.alloc(), (room, line), Status::WriteFault, err)?;
    }
    Ok(())
}
