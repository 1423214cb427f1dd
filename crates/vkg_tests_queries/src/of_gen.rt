use crate::written::written;
use std::alloc::Global;
use std::test::Fail;
use vkg_base::{Lines, Memory};
use vkg_gen::report;

/// Whether these lines are reported.
fn are_reported(alloc: Global, lines: Result<Lines, Memory>, text: &str) -> Result<bool, Fail> {
    let lines = lines?;
    let bytes = written(alloc, &lines)?;
    Ok(bytes.as_slice() == text.as_bytes())
}

#[test]
fn one_employee_is_reported(rt: HostRuntime) -> Result<(), Fail> {
    assert!(rt;
        are_reported(
            rt.alloc(),
            report(rt.alloc(), 1),
            "quads 8\nnames 1\ndistinct 1\ndepts 1\n"
        )?
    );
    Ok(())
}

#[test]
fn ten_employees_are_reported(rt: HostRuntime) -> Result<(), Fail> {
    assert!(rt;
        are_reported(
            rt.alloc(),
            report(rt.alloc(), 10),
            "quads 52\nnames 10\ndistinct 7\ndepts 10\n"
        )?
    );
    Ok(())
}
