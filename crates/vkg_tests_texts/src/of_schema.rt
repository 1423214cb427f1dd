use crate::told::answered;
use std::alloc::Global;
use std::test::Fail;
use vkg_schema::{Schema, SchemaError, SchemaFault, read_schema};

// The number of tables, or the fault.
fn answer(alloc: Global, bytes: &[u8]) -> Result<usize, (u8, usize)> {
    match read_schema(alloc, bytes) {
        Ok(schema) => Ok(schema.tables().len()),
        Err(SchemaError::Fault(SchemaFault { check, at })) => Err((check, at)),
        Err(SchemaError::Memory) => Err((0, 0)),
    }
}

#[test]
fn each_fault_has_its_place(rt: HostRuntime) {
    for &(text, want) in &[
        ("CREATE TABLE t (a INT) - ", (1u8, 23usize)),
        ("CREATE TABLE t (\"\" INT);", (1, 16)),
        ("CREATE TABLE t (a INTEGER", (2, 25)),
        ("CREATE TABLE t (a);", (2, 17)),
        ("\u{feff}CREATE TABLE t (a);", (2, 17)),
        ("CREATE TABLE key (a INT);", (2, 13)),
        (
            "CREATE TABLE t (a INT); CREATE TABLE \"T\" (a INT);",
            (3, 37),
        ),
        ("CREATE TABLE t (a INTEGER, A VARCHAR(3));", (4, 27)),
        ("CREATE TABLE t (a FLOAT);", (5, 18)),
        ("CREATE TABLE t (a NUMERIC(3, 4));", (6, 18)),
        ("CREATE TABLE t (a INT, PRIMARY KEY (b));", (7, 36)),
        ("CREATE TABLE t (a INT, UNIQUE (a, A));", (8, 34)),
        (
            "CREATE TABLE t (a INT PRIMARY KEY, PRIMARY KEY (a));",
            (9, 35),
        ),
        ("CREATE TABLE t (a INT REFERENCES u);", (10, 33)),
        (
            "CREATE TABLE t (a INT UNIQUE, b INT REFERENCES t (c));",
            (11, 36),
        ),
        ("CREATE TABLE t (a INT, b INT REFERENCES t (a));", (12, 29)),
        ("CREATE TABLE t (a INT, b INT REFERENCES t);", (12, 29)),
        (
            "CREATE TABLE t (a INT UNIQUE, b DATE REFERENCES t (a));",
            (13, 37),
        ),
    ] {
        answered(&rt, text, answer(rt.alloc(), text.as_bytes()), Err(want));
    }
    answered(
        &rt,
        "bytes",
        answer(rt.alloc(), b"CREATE \xff"),
        Err((15, 7)),
    );
}

#[test]
fn no_text_has_no_tables(rt: HostRuntime) {
    answered(&rt, "", answer(rt.alloc(), b""), Ok(0));
}

// Two tables, of which the first refers to the second.
fn two_tables(alloc: Global) -> Result<Schema, Fail> {
    let text =
        "CREATE TABLE emp (id INT PRIMARY KEY, dept INT, FOREIGN KEY (dept) REFERENCES DEPT); \
        create table Dept (\"a\"\"b\" TEXT, id INT, PRIMARY KEY (ID)); -- the end";
    Ok(read_schema(alloc, text.as_bytes()).ok().ok_or("no schema")?)
}

#[test]
fn names_are_resolved(rt: HostRuntime) -> Result<(), Fail> {
    let schema = two_tables(rt.alloc())?;
    assert!(rt; schema.find_table("dEPT", false) == Some(1));
    assert!(rt; schema.find_table("dEPT", true) == None);
    assert!(rt; schema.find_column(1, "a\"b", true) == Some(0));
    assert!(rt; schema.find_column(0, "name", false) == None);
    Ok(())
}

#[test]
fn references_are_resolved(rt: HostRuntime) -> Result<(), Fail> {
    let schema = two_tables(rt.alloc())?;
    let emp = schema.tables().get(0).ok_or("no table")?;
    let reference = emp.references.as_slice().get(0).ok_or("no reference")?;
    assert!(rt; reference.table == 1);
    assert!(rt; reference.pairs.as_slice() == [(1usize, 1usize)].as_slice());
    Ok(())
}

#[test]
fn key_columns_are_not_null(rt: HostRuntime) -> Result<(), Fail> {
    let schema = two_tables(rt.alloc())?;
    let dept = schema.tables().get(1).ok_or("no second table")?;
    let columns = dept.columns.as_slice();
    assert!(rt; !columns.get(0).ok_or("no column")?.not_null);
    assert!(rt; columns.get(1).ok_or("no second column")?.not_null);
    Ok(())
}
