use crate::made::{
    Made, MadeExpr, column, is_iri, join, left, made_by, not, project, same, scan, schema_of,
    select, told, turned, unknown,
};
use std::alloc::Global;
use std::test::Fail;
use vkg_base::Memory;
use vkg_moves::{LeftToJoin, MergeProjects, MergeSelects};
use vkg_schema::Schema;

fn equal(alloc: Global, a: usize, b: usize) -> MadeExpr {
    same(alloc, column(alloc, a), column(alloc, b))
}

// A table beside itself, with NULLs where no row has the same first column.
fn beside(alloc: Global) -> Made {
    left(alloc, scan(alloc), scan(alloc), equal(alloc, 0, 2))
}

// The rows with NULL in the second column.
fn half(alloc: Global) -> Made {
    select(alloc, unknown(alloc, 1), scan(alloc))
}

fn of_left_join(alloc: Global, plan: &str) -> Made {
    match plan {
        "left columns" => select(alloc, unknown(alloc, 1), beside(alloc)),
        "right columns" => select(alloc, unknown(alloc, 2), beside(alloc)),
        "known left columns" => select(alloc, not(alloc, unknown(alloc, 1)), beside(alloc)),
        "known right columns" => select(alloc, not(alloc, unknown(alloc, 2)), beside(alloc)),
        "an operator over right columns" => select(alloc, is_iri(alloc, 3), beside(alloc)),
        "one that is negated" => select(alloc, not(alloc, is_iri(alloc, 3)), beside(alloc)),
        "an operator over left columns" => select(alloc, is_iri(alloc, 1), beside(alloc)),
        _ => select(alloc, equal(alloc, 3, 1), beside(alloc)),
    }
}

fn made(alloc: Global, plan: &str) -> Made {
    match plan {
        "selection of a selection" => select(alloc, unknown(alloc, 0), half(alloc)),
        "selection of a join" => select(
            alloc,
            unknown(alloc, 0),
            join(alloc, scan(alloc), scan(alloc), unknown(alloc, 2)),
        ),
        "selection in a join" => join(alloc, scan(alloc), half(alloc), equal(alloc, 0, 2)),
        "selection on the right" => left(alloc, scan(alloc), half(alloc), equal(alloc, 0, 2)),
        "selection on the left" => left(alloc, half(alloc), scan(alloc), equal(alloc, 0, 2)),
        "projection of a projection" => project(
            alloc,
            column(alloc, 0),
            column(alloc, 0),
            turned(alloc, scan(alloc)),
        ),
        "columns in place" => project(alloc, column(alloc, 0), column(alloc, 1), scan(alloc)),
        "columns turned" => turned(alloc, scan(alloc)),
        _ => of_left_join(alloc, plan),
    }
}

fn outcome(alloc: Global, schema: &Schema, rule: &str, plan: Made) -> Result<String, Memory> {
    match rule {
        "MergeSelects" => made_by(&MergeSelects, alloc, schema, plan),
        "MergeProjects" => made_by(&MergeProjects, alloc, schema, plan),
        _ => made_by(&LeftToJoin, alloc, schema, plan),
    }
}

// Rules, plans, and the texts of what the rules make of them.
const OUTCOMES: [(&str, &str, &str); 17] = [
    (
        "MergeSelects",
        "selection of a selection",
        "SELECT * FROM (TABLE \"t\") AS t WHERE AND(IS_NULL(c2), IS_NULL(c1))",
    ),
    (
        "MergeSelects",
        "selection of a join",
        "SELECT * FROM (TABLE \"t\") AS t1 CROSS JOIN (TABLE \"t\") AS t2 WHERE AND(IS_NULL(c3), IS_NULL(c1))",
    ),
    (
        "MergeSelects",
        "left columns",
        "SELECT * FROM (SELECT * FROM (TABLE \"t\") AS t WHERE IS_NULL(c2)) AS t1 LEFT JOIN (TABLE \"t\") AS t2 ON SAME(c1, c3)",
    ),
    ("MergeSelects", "right columns", "none"),
    (
        "MergeSelects",
        "selection in a join",
        "SELECT * FROM (TABLE \"t\") AS t1 CROSS JOIN (TABLE \"t\") AS t2 WHERE AND(IS_NULL(c4), SAME(c1, c3))",
    ),
    (
        "MergeSelects",
        "selection on the right",
        "SELECT * FROM (TABLE \"t\") AS t1 LEFT JOIN (TABLE \"t\") AS t2 ON AND(IS_NULL(c4), SAME(c1, c3))",
    ),
    ("MergeSelects", "selection on the left", "none"),
    (
        "MergeProjects",
        "projection of a projection",
        "SELECT c2 AS c1, c2 AS c2 FROM (TABLE \"t\") AS t",
    ),
    ("MergeProjects", "columns in place", "TABLE \"t\""),
    ("MergeProjects", "columns turned", "none"),
    ("LeftToJoin", "right columns", "none"),
    (
        "LeftToJoin",
        "known right columns",
        "SELECT * FROM (SELECT * FROM (TABLE \"t\") AS t1 CROSS JOIN (TABLE \"t\") AS t2 WHERE SAME(c1, c3)) AS t WHERE NOT(IS_NULL(c3))",
    ),
    (
        "LeftToJoin",
        "equal right columns",
        "SELECT * FROM (SELECT * FROM (TABLE \"t\") AS t1 CROSS JOIN (TABLE \"t\") AS t2 WHERE SAME(c1, c3)) AS t WHERE SAME(c4, c2)",
    ),
    ("LeftToJoin", "known left columns", "none"),
    (
        "LeftToJoin",
        "an operator over right columns",
        "SELECT * FROM (SELECT * FROM (TABLE \"t\") AS t1 CROSS JOIN (TABLE \"t\") AS t2 WHERE SAME(c1, c3)) AS t WHERE IS_IRI(IRI(CONCAT('http://e/', SAFE(LEX(c4)))))",
    ),
    (
        "LeftToJoin",
        "one that is negated",
        "SELECT * FROM (SELECT * FROM (TABLE \"t\") AS t1 CROSS JOIN (TABLE \"t\") AS t2 WHERE SAME(c1, c3)) AS t WHERE NOT(IS_IRI(IRI(CONCAT('http://e/', SAFE(LEX(c4))))))",
    ),
    ("LeftToJoin", "an operator over left columns", "none"),
];

#[test]
fn nodes_move_and_merge(rt: HostRuntime) -> Result<(), Fail> {
    let schema = schema_of(rt.alloc(), b"CREATE TABLE t (a INT PRIMARY KEY, b INT);")?;
    for &(rule, name, expected) in &OUTCOMES {
        let found = outcome(rt.alloc(), &schema, rule, made(rt.alloc(), name));
        told(&rt, rule, name, found, expected)?;
    }
    Ok(())
}
