// Loads that fail, and faults of which the first in the order of the loads is told.
use crate::call::{Around, call, ends, faultless};
use crate::company::{ANSWERED, DUMP, DUMPED, FILES, QUERY};
use std::alloc::Global;
use std::process::Abort;
use std::test::Fail;
use vkg_base::Status;

/// Each of so many loads fails in turn; that there are no more is seen where the next would fail.
fn each_fails(
    rt: &impl Abort,
    alloc: Global,
    words: &str,
    count: u64,
    out: &str,
) -> Result<(), Fail> {
    for load in 1..=count.saturating_add(1) {
        let loads = [load];
        let given = Around {
            loads: &loads,
            ..faultless(&FILES)
        };
        let ended = call(alloc, words, given)?;
        if load > count {
            ends(rt, &ended, Status::Done, out, "");
        } else {
            ends(rt, &ended, Status::ReadFault, "", "vkg: read fault\n");
            assert_eq!(rt; ended.faults, 1);
        }
    }
    Ok(())
}

#[test]
fn each_load_fails(rt: HostRuntime) -> Result<(), Fail> {
    each_fails(&rt, rt.alloc(), DUMP, 3, DUMPED)?;
    each_fails(&rt, rt.alloc(), QUERY, 5, ANSWERED)
}

/// Files with faults, in the order in which these are told: a key and a reference after the tables, a data error after the
/// mapping.
const SPOILT: [(&str, &str); 8] = [
    ("s", "CREATE TABLE t (a);"),
    ("d/dept.csv", "id,title\nx,Ore\n"),
    ("d/emp.csv", "id,name,dept\ny,Ann,1\n"),
    ("d/dept.csv", "id,title\n1,Ore\n1,Ore\n"),
    ("d/emp.csv", "id,name,dept\n7,Ann,5\n"),
    ("m", "<#m> a:b \"c\" ."),
    (
        "m",
        "@prefix rr: <http://www.w3.org/ns/r2rml#> . <#e> rr:logicalTable [ rr:tableName \"emp\" ] ; rr:subjectMap [ rr:template \"http://e/emp/{id}\" ] ; rr:predicateObjectMap [ rr:predicate <http://e/p> ; rr:objectMap [ rr:column \"name\" ; rr:datatype <http://www.w3.org/2001/XMLSchema#integer> ] ] .",
    ),
    ("q", ""),
];

/// How the call ends whose files have the faults from each of these on, and which load it makes last.
const TOLD: [(Status, &str, u64); 8] = [
    (Status::BadSchema, "vkg: S02 grammar at 17\n", 1),
    (Status::BadTable, "vkg: T06 bad value at 1:1:1\n", 2),
    (Status::BadTable, "vkg: T06 bad value at 2:1:1\n", 3),
    (Status::BadTable, "vkg: T09 key repeated at 1:2:1\n", 3),
    (
        Status::BadTable,
        "vkg: T10 reference without target at 2:1:1\n",
        3,
    ),
    (Status::BadMapping, "vkg: M04 prefix unknown at 5\n", 4),
    (Status::BadData, "vkg: X02 ill-typed at 1:1:2\n", 4),
    (Status::BadQuery, "vkg: Q02 grammar at 0\n", 5),
];

/// The company's files, those from the `first` fault on with their faults.
fn spoilt_from(alloc: Global, first: usize) -> Result<Vec<(&'static str, &'static str)>, Fail> {
    let mut files = Vec::new(alloc);
    if let Some(spoilt) = SPOILT.get(first..) {
        files.extend_from_slice(spoilt)?;
    }
    files.extend_from_slice(&FILES)?;
    Ok(files)
}

/// The call ends with this status, tells so much of its line, and asks for no file behind the fault: the next load, which would
/// fail, is not made.
fn is_told(
    rt: &impl Abort,
    alloc: Global,
    files: &[(&str, &str)],
    told: (Status, &str, u64),
    line: usize,
) -> Result<(), Fail> {
    let loads = [told.2.saturating_add(1)];
    let given = Around {
        loads: &loads,
        line,
        ..faultless(files)
    };
    let ended = call(alloc, QUERY, given)?;
    let err = told.1.get(..line.min(told.1.len())).ok_or("past the end")?;
    ends(rt, &ended, told.0, "", err);
    assert_eq!(rt; ended.faults, 0);
    Ok(())
}

#[test]
fn the_first_fault_is_told(rt: HostRuntime) -> Result<(), Fail> {
    for (first, told) in TOLD.iter().enumerate() {
        let files = spoilt_from(rt.alloc(), first)?;
        for &line in &[200, 0] {
            is_told(&rt, rt.alloc(), files.as_slice(), *told, line)?;
        }
    }
    Ok(())
}
