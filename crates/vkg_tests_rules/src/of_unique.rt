use crate::made::{
    Made, column, distinct, left, made_by, numbered, same, scan, schema_of, table, told, union,
    values,
};
use std::alloc::Global;
use std::test::Fail;
use vkg_base::Memory;
use vkg_schema::Schema;
use vkg_unique::{DistinctUnique, UnusedLeft};

fn iris(alloc: Global, front: &str, at: usize) -> Made {
    values(alloc, numbered(alloc, front, at), scan(alloc))
}

// Each row of a table, with those of another whose first column is equal to the second one.
fn with_other(alloc: Global, other: usize) -> Made {
    let equal = same(alloc, column(alloc, 1), column(alloc, 2));
    left(alloc, scan(alloc), table(alloc, other), equal)
}

fn made(alloc: Global, name: &str) -> Made {
    match name {
        "a table with a key" => distinct(alloc, scan(alloc)),
        "a key that may be NULL" => distinct(alloc, table(alloc, 1)),
        "a table without a key" => distinct(alloc, table(alloc, 2)),
        "the key in a term" => distinct(alloc, iris(alloc, "http://e/", 0)),
        "no key in a term" => distinct(alloc, iris(alloc, "http://e/", 1)),
        "members apart" => distinct(
            alloc,
            union(
                alloc,
                iris(alloc, "http://e/", 0),
                iris(alloc, "http://f/", 0),
            ),
        ),
        "members that overlap" => distinct(
            alloc,
            union(
                alloc,
                iris(alloc, "http://e/", 0),
                iris(alloc, "http://e/", 0),
            ),
        ),
        "left columns" => values(alloc, column(alloc, 0), with_other(alloc, 1)),
        "a right column" => values(alloc, column(alloc, 3), with_other(alloc, 1)),
        _ => values(alloc, column(alloc, 0), with_other(alloc, 2)),
    }
}

fn outcome(alloc: Global, schema: &Schema, rule: &str, plan: Made) -> Result<String, Memory> {
    match rule {
        "DistinctUnique" => made_by(&DistinctUnique, alloc, schema, plan),
        _ => made_by(&UnusedLeft, alloc, schema, plan),
    }
}

// Rules, plans, and the texts of what the rules make of them.
const OUTCOMES: [(&str, &str, &str); 10] = [
    ("DistinctUnique", "a table with a key", "TABLE \"t\""),
    ("DistinctUnique", "a key that may be NULL", "none"),
    ("DistinctUnique", "a table without a key", "none"),
    (
        "DistinctUnique",
        "the key in a term",
        "SELECT IRI(CONCAT('http://e/', SAFE(LEX(c1)))) AS c1 FROM (TABLE \"t\") AS t",
    ),
    ("DistinctUnique", "no key in a term", "none"),
    (
        "DistinctUnique",
        "members apart",
        "(SELECT IRI(CONCAT('http://e/', SAFE(LEX(c1)))) AS c1 FROM (TABLE \"t\") AS t) UNION ALL (SELECT IRI(CONCAT('http://f/', SAFE(LEX(c1)))) AS c1 FROM (TABLE \"t\") AS t)",
    ),
    ("DistinctUnique", "members that overlap", "none"),
    (
        "UnusedLeft",
        "left columns",
        "SELECT c1 AS c1 FROM (TABLE \"t\") AS t",
    ),
    ("UnusedLeft", "a right column", "none"),
    ("UnusedLeft", "no key on the right", "none"),
];

#[test]
fn what_keys_make_needless_goes(rt: HostRuntime) -> Result<(), Fail> {
    let schema = schema_of(
        rt.alloc(),
        b"CREATE TABLE t (a INT PRIMARY KEY, b INT); CREATE TABLE u (k INT UNIQUE, v INT); CREATE TABLE l (x INT, y INT);",
    )?;
    for &(rule, name, expected) in &OUTCOMES {
        let found = outcome(rt.alloc(), &schema, rule, made(rt.alloc(), name));
        told(&rt, rule, name, found, expected)?;
    }
    Ok(())
}
