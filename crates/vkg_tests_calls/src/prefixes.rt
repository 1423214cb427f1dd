// A text cut off behind each of its bytes, the other files whole: each call returns, and writes nothing where it is refused.
use crate::call::{call, faultless};
use crate::company::{DEPT, EMP, OPTIONAL, SCHEMA};
use std::alloc::Global;
use std::process::Abort;
use std::test::Fail;
use vkg_base::Status;

const TEMPLATE: &str =
    "@prefix rr: <http://www.w3.org/ns/r2rml#> . <#m> rr:logicalTable [ rr:tableName \"p\" ] ; rr:subjectMap [ rr:template \"http://e/{a}-{b}\" ; rr:class <http://e/C> ] .";

/// Whether the call over so many bytes of a text is done, and how much it writes.
fn cut(
    rt: &impl Abort,
    alloc: Global,
    words: &str,
    text: &str,
    count: usize,
) -> Result<Option<usize>, Fail> {
    let text = text.get(..count).ok_or("past the end")?;
    let files = [
        ("cut", text),
        ("s", SCHEMA),
        ("d/dept.csv", DEPT),
        ("d/emp.csv", EMP),
        (
            "pairs",
            "CREATE TABLE p (a VARCHAR(9), b VARCHAR(9), PRIMARY KEY (a, b));",
        ),
        ("d/p.csv", "a,b\nx-y,z\nx,y-z\n"),
    ];
    let ended = call(alloc, words, faultless(&files))?;
    if ended.status == Status::Done {
        return Ok(Some(ended.out.len()));
    }
    assert_eq!(rt; ended.out.len(), 0, "at {count}");
    assert!(rt; ended.err.starts_with(b"vkg: "), "at {count}");
    Ok(None)
}

/// Of each text that is taken how many bytes it has and how many are written.
fn taken(
    rt: &impl Abort,
    alloc: Global,
    words: &str,
    text: &str,
) -> Result<Vec<(usize, usize)>, Fail> {
    let mut found = Vec::new(alloc);
    for count in 0..=text.len() {
        if let Some(written) = cut(rt, alloc, words, text, count)? {
            found.push((count, written))?;
        }
    }
    Ok(found)
}

// No table, the first table, with a space behind it, and both tables.
#[test]
fn each_prefix_of_a_schema(rt: HostRuntime) -> Result<(), Fail> {
    let words = "vkg dump --schema cut --data d --base http://e/";
    let found = taken(&rt, rt.alloc(), words, SCHEMA)?;
    assert_eq!(rt;
        found.as_slice(),
        [(0, 0), (62, 409), (63, 409), (153, 1391)].as_slice()
    );
    Ok(())
}

#[test]
fn each_prefix_of_a_mapping(rt: HostRuntime) -> Result<(), Fail> {
    let words = "vkg dump --schema pairs --data d --base http://e/ --mapping cut";
    let found = taken(&rt, rt.alloc(), words, TEMPLATE)?;
    assert_eq!(rt; found.as_slice(), [(162, 82)].as_slice());
    Ok(())
}

#[test]
fn each_prefix_of_a_query(rt: HostRuntime) -> Result<(), Fail> {
    let words = "vkg query --schema s --data d --base http://e/ --query cut";
    let found = taken(&rt, rt.alloc(), words, OPTIONAL)?;
    assert_eq!(rt; found.as_slice(), [(85, 66)].as_slice());
    Ok(())
}
