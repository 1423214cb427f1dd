use crate::made::{
    Made, MadeExpr, column, join, left, made_by, same, scan, schema_of, select, told, turned,
    union, unknown,
};
use std::alloc::Global;
use std::test::Fail;
use vkg_spreads::DistributeUnion;

// The first columns of two sides are equal.
fn equal(alloc: Global) -> MadeExpr {
    same(alloc, column(alloc, 0), column(alloc, 2))
}

// A table, and then some of its rows.
fn two(alloc: Global) -> Made {
    union(
        alloc,
        scan(alloc),
        select(alloc, unknown(alloc, 1), scan(alloc)),
    )
}

fn made(alloc: Global, plan: &str) -> Made {
    match plan {
        "below a selection" => select(alloc, unknown(alloc, 0), two(alloc)),
        "below a projection" => turned(alloc, two(alloc)),
        "second in a join" => join(alloc, scan(alloc), two(alloc), equal(alloc)),
        "on the left" => left(alloc, two(alloc), scan(alloc), equal(alloc)),
        "on the right" => left(alloc, scan(alloc), two(alloc), equal(alloc)),
        _ => two(alloc),
    }
}

// Plans, and the texts of what the rule makes of them.
const OUTCOMES: [(&str, &str); 6] = [
    (
        "below a selection",
        "(SELECT * FROM (TABLE \"t\") AS t WHERE IS_NULL(c1)) UNION ALL (SELECT * FROM (SELECT * FROM (TABLE \"t\") AS t WHERE IS_NULL(c2)) AS t WHERE IS_NULL(c1))",
    ),
    (
        "below a projection",
        "(SELECT c2 AS c1, c1 AS c2 FROM (TABLE \"t\") AS t) UNION ALL (SELECT c2 AS c1, c1 AS c2 FROM (SELECT * FROM (TABLE \"t\") AS t WHERE IS_NULL(c2)) AS t)",
    ),
    (
        "second in a join",
        "(SELECT * FROM (TABLE \"t\") AS t1 CROSS JOIN (TABLE \"t\") AS t2 WHERE SAME(c1, c3)) UNION ALL (SELECT * FROM (TABLE \"t\") AS t1 CROSS JOIN (SELECT * FROM (TABLE \"t\") AS t WHERE IS_NULL(c2)) AS t2 WHERE SAME(c1, c3))",
    ),
    (
        "on the left",
        "(SELECT * FROM (TABLE \"t\") AS t1 LEFT JOIN (TABLE \"t\") AS t2 ON SAME(c1, c3)) UNION ALL (SELECT * FROM (SELECT * FROM (TABLE \"t\") AS t WHERE IS_NULL(c2)) AS t1 LEFT JOIN (TABLE \"t\") AS t2 ON SAME(c1, c3))",
    ),
    ("on the right", "none"),
    ("alone", "none"),
];

#[test]
fn unions_come_above_a_node(rt: HostRuntime) -> Result<(), Fail> {
    let schema = schema_of(rt.alloc(), b"CREATE TABLE t (a INT PRIMARY KEY, b INT);")?;
    for &(name, expected) in &OUTCOMES {
        let found = made_by(
            &DistributeUnion,
            rt.alloc(),
            &schema,
            made(rt.alloc(), name),
        );
        told(&rt, "DistributeUnion", name, found, expected)?;
    }
    Ok(())
}

// A join in a join, to so many levels, with twice as many products at each.
fn of_levels(alloc: Global, levels: usize) -> Made {
    let mut plan = two(alloc);
    for _ in 0..levels {
        plan = join(alloc, two(alloc), turned(alloc, plan), equal(alloc));
    }
    plan
}

#[test]
fn a_join_of_more_than_64_products_stays(rt: HostRuntime) -> Result<(), Fail> {
    let schema = schema_of(rt.alloc(), b"CREATE TABLE t (a INT PRIMARY KEY, b INT);")?;
    for &(levels, stays) in &[(5, false), (6, true)] {
        let plan = of_levels(rt.alloc(), levels);
        let found = made_by(&DistributeUnion, rt.alloc(), &schema, plan)?;
        assert!(rt; (found.as_str() == "none") == stays, "{levels}");
    }
    Ok(())
}
