use crate::made::{
    Made, MadeExpr, column, constant, join, left, made_by, project, same, scan, schema_of, select,
    told, turned, unknown,
};
use std::alloc::Global;
use std::test::Fail;
use vkg_cells::{Cell, SqlType};
use vkg_lifts::LiftProjects;

// The first columns of two sides are equal.
fn equal(alloc: Global) -> MadeExpr {
    same(alloc, column(alloc, 0), column(alloc, 2))
}

// A left join with a projection on its left.
fn lower(alloc: Global) -> Made {
    left(alloc, other_order(alloc), scan(alloc), equal(alloc))
}

// A column, and NULL.
fn half(alloc: Global) -> Made {
    let null = constant(alloc, Cell::Null, SqlType::Int);
    project(alloc, column(alloc, 0), null, scan(alloc))
}

// The columns of the table, each in the other's place.
fn other_order(alloc: Global) -> Made {
    turned(alloc, scan(alloc))
}

fn made(alloc: Global, plan: &str) -> Made {
    match plan {
        "below a selection" => select(alloc, unknown(alloc, 0), other_order(alloc)),
        "second in a join" => join(alloc, scan(alloc), other_order(alloc), equal(alloc)),
        "on the left" => lower(alloc),
        "over another" => left(
            alloc,
            turned(alloc, other_order(alloc)),
            scan(alloc),
            equal(alloc),
        ),
        "over a left join with one" => left(
            alloc,
            turned(alloc, lower(alloc)),
            scan(alloc),
            equal(alloc),
        ),
        "on the right" => left(alloc, scan(alloc), other_order(alloc), equal(alloc)),
        "with NULL on the right" => left(alloc, scan(alloc), half(alloc), equal(alloc)),
        "with NULL on the left" => left(alloc, half(alloc), scan(alloc), equal(alloc)),
        _ => join(alloc, scan(alloc), scan(alloc), equal(alloc)),
    }
}

// Plans, and the texts of what the rule makes of them.
const OUTCOMES: [(&str, &str); 9] = [
    (
        "below a selection",
        "SELECT c2 AS c1, c1 AS c2 FROM (SELECT * FROM (TABLE \"t\") AS t WHERE IS_NULL(c2)) AS t",
    ),
    (
        "second in a join",
        "SELECT c1 AS c1, c2 AS c2, c4 AS c3, c3 AS c4 FROM (SELECT * FROM (TABLE \"t\") AS t1 CROSS JOIN (TABLE \"t\") AS t2 WHERE SAME(c1, c4)) AS t",
    ),
    (
        "on the left",
        "SELECT c2 AS c1, c1 AS c2, c3 AS c3, c4 AS c4 FROM (SELECT * FROM (TABLE \"t\") AS t1 LEFT JOIN (TABLE \"t\") AS t2 ON SAME(c2, c3)) AS t",
    ),
    (
        "on the right",
        "SELECT c1 AS c1, c2 AS c2, c4 AS c3, c3 AS c4 FROM (SELECT * FROM (TABLE \"t\") AS t1 LEFT JOIN (TABLE \"t\") AS t2 ON SAME(c1, c4)) AS t",
    ),
    (
        "over another",
        "SELECT c2 AS c1, c1 AS c2, c3 AS c3, c4 AS c4 FROM (SELECT * FROM (SELECT c2 AS c1, c1 AS c2 FROM (TABLE \"t\") AS t) AS t1 LEFT JOIN (TABLE \"t\") AS t2 ON SAME(c2, c3)) AS t",
    ),
    (
        "over a left join with one",
        "SELECT c2 AS c1, c1 AS c2, c5 AS c3, c6 AS c4 FROM (SELECT * FROM (SELECT * FROM (SELECT c2 AS c1, c1 AS c2 FROM (TABLE \"t\") AS t) AS t1 LEFT JOIN (TABLE \"t\") AS t2 ON SAME(c1, c3)) AS t1 LEFT JOIN (TABLE \"t\") AS t2 ON SAME(c2, c5)) AS t",
    ),
    ("with NULL on the right", "none"),
    (
        "with NULL on the left",
        "SELECT c1 AS c1, CAST(NULL AS INT) AS c2, c3 AS c3, c4 AS c4 FROM (SELECT * FROM (TABLE \"t\") AS t1 LEFT JOIN (TABLE \"t\") AS t2 ON SAME(c1, c3)) AS t",
    ),
    ("no projection", "none"),
];

#[test]
fn projections_come_above_a_node(rt: HostRuntime) -> Result<(), Fail> {
    let schema = schema_of(rt.alloc(), b"CREATE TABLE t (a INT PRIMARY KEY, b INT);")?;
    for &(name, expected) in &OUTCOMES {
        let found = made_by(&LiftProjects, rt.alloc(), &schema, made(rt.alloc(), name));
        told(&rt, "LiftProjects", name, found, expected)?;
    }
    Ok(())
}
