use crate::made::{
    Made, MadeExpr, column, join, made_by, same, scan, schema_of, table, told, values,
};
use std::alloc::Global;
use std::test::Fail;
use vkg_base::Memory;
use vkg_key_joins::{ParentJoin, SelfJoin};
use vkg_schema::Schema;

fn equal(alloc: Global, a: usize, b: usize) -> MadeExpr {
    same(alloc, column(alloc, a), column(alloc, b))
}

// The first table twice.
fn twice(alloc: Global, c: MadeExpr) -> Made {
    join(alloc, scan(alloc), scan(alloc), c)
}

// Employees, and departments behind them.
fn with_department(alloc: Global, c: MadeExpr) -> Made {
    join(alloc, table(alloc, 2), table(alloc, 1), c)
}

fn placed(alloc: Global) -> Made {
    with_department(alloc, equal(alloc, 2, 3))
}

fn of_departments(alloc: Global, plan: &str) -> Made {
    match plan {
        "an employee's column" => values(alloc, column(alloc, 0), placed(alloc)),
        "the department's key" => values(alloc, column(alloc, 3), placed(alloc)),
        "a department's column" => values(alloc, column(alloc, 4), placed(alloc)),
        "the department first" => values(
            alloc,
            column(alloc, 2),
            join(alloc, table(alloc, 1), table(alloc, 2), equal(alloc, 0, 4)),
        ),
        "equal to another column" => values(
            alloc,
            column(alloc, 0),
            with_department(alloc, equal(alloc, 1, 3)),
        ),
        _ => placed(alloc),
    }
}

fn made(alloc: Global, plan: &str) -> Made {
    match plan {
        "equal keys" => twice(alloc, equal(alloc, 0, 2)),
        "equal keys, the other way round" => twice(alloc, equal(alloc, 2, 0)),
        "equal values of no key" => twice(alloc, equal(alloc, 1, 3)),
        "keys of two tables" => join(alloc, scan(alloc), table(alloc, 1), equal(alloc, 0, 2)),
        _ => of_departments(alloc, plan),
    }
}

fn outcome(alloc: Global, schema: &Schema, rule: &str, plan: Made) -> Result<String, Memory> {
    match rule {
        "SelfJoin" => made_by(&SelfJoin, alloc, schema, plan),
        _ => made_by(&ParentJoin, alloc, schema, plan),
    }
}

// Rules, plans, and the texts of what the rules make of them. Keys that may be NULL are still asked to be equal to themselves.
const OUTCOMES: [(&str, &str, &str); 10] = [
    (
        "SelfJoin",
        "equal keys",
        "SELECT c1 AS c1, c2 AS c2, c1 AS c3, c2 AS c4 FROM (SELECT * FROM (TABLE \"u\") AS t1 WHERE SAME(c1, c1)) AS t",
    ),
    (
        "SelfJoin",
        "equal keys, the other way round",
        "SELECT c1 AS c1, c2 AS c2, c1 AS c3, c2 AS c4 FROM (SELECT * FROM (TABLE \"u\") AS t1 WHERE SAME(c1, c1)) AS t",
    ),
    ("SelfJoin", "equal values of no key", "none"),
    ("SelfJoin", "keys of two tables", "none"),
    (
        "ParentJoin",
        "an employee's column",
        "SELECT c1 AS c1 FROM (SELECT * FROM (TABLE \"e\") AS t1 WHERE AND(SAME(c3, c3), NOT(IS_NULL(c3)))) AS t",
    ),
    (
        "ParentJoin",
        "the department's key",
        "SELECT c3 AS c1 FROM (SELECT * FROM (TABLE \"e\") AS t1 WHERE AND(SAME(c3, c3), NOT(IS_NULL(c3)))) AS t",
    ),
    ("ParentJoin", "a department's column", "none"),
    (
        "ParentJoin",
        "the department first",
        "SELECT c1 AS c1 FROM (SELECT * FROM (TABLE \"e\") AS t1 WHERE AND(SAME(c3, c3), NOT(IS_NULL(c3)))) AS t",
    ),
    ("ParentJoin", "equal to another column", "none"),
    ("ParentJoin", "no projection", "none"),
];

#[test]
fn tables_that_keys_make_needless_go(rt: HostRuntime) -> Result<(), Fail> {
    let schema = schema_of(
        rt.alloc(),
        b"CREATE TABLE u (k INT UNIQUE, v INT); CREATE TABLE d (id INT PRIMARY KEY, n INT); CREATE TABLE e (id INT PRIMARY KEY, n INT, d INT, FOREIGN KEY (d) REFERENCES d (id));",
    )?;
    for &(rule, name, expected) in &OUTCOMES {
        let found = outcome(rt.alloc(), &schema, rule, made(rt.alloc(), name));
        told(&rt, rule, name, found, expected)?;
    }
    Ok(())
}
