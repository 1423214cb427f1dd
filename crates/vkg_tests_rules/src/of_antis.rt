use crate::made::{
    Made, MadeExpr, anti_joined, by, column, constant, distinct, same, scan, select, truth, turned,
    unknown,
};
use std::alloc::Global;
use std::test::Fail;
use vkg_antis::{AntiNothing, AntiRight};
use vkg_base::{Box, Items};
use vkg_cells::{Cell, SqlType};
use vkg_plan::Plan;
use vkg_schema::read_schema;

// The first columns of two sides are equal.
fn equal(alloc: Global) -> MadeExpr {
    same(alloc, column(alloc, 0), column(alloc, 2))
}

fn empty(alloc: Global) -> Made {
    let kinds = Items::from_slice(alloc, &[SqlType::Int, SqlType::Int])?;
    Box::new(alloc, Plan::Empty(kinds))
}

fn made(alloc: Global, plan: &str) -> Made {
    match plan {
        "by false" => anti_joined(
            alloc,
            scan(alloc),
            turned(alloc, scan(alloc)),
            truth(alloc, false),
        ),
        "by NULL" => anti_joined(
            alloc,
            scan(alloc),
            scan(alloc),
            constant(alloc, Cell::Null, SqlType::Bool),
        ),
        "by true" => anti_joined(alloc, scan(alloc), scan(alloc), truth(alloc, true)),
        "no rows on the right" => anti_joined(alloc, scan(alloc), empty(alloc), equal(alloc)),
        "no rows on the left" => anti_joined(alloc, empty(alloc), scan(alloc), equal(alloc)),
        "a selection on the right" => anti_joined(
            alloc,
            scan(alloc),
            select(alloc, unknown(alloc, 1), scan(alloc)),
            equal(alloc),
        ),
        "a projection on the right" => {
            anti_joined(alloc, scan(alloc), turned(alloc, scan(alloc)), equal(alloc))
        }
        "a distinct on the right" => {
            anti_joined(
                alloc,
                scan(alloc),
                distinct(alloc, scan(alloc)),
                equal(alloc),
            )
        }
        _ => anti_joined(
            alloc,
            select(alloc, unknown(alloc, 1), scan(alloc)),
            scan(alloc),
            equal(alloc),
        ),
    }
}

// Plans, and the texts of what each rule makes of them.
const OUTCOMES: [(&str, &str, &str); 9] = [
    (
        "by false",
        "TABLE \"t\"",
        "SELECT * FROM (TABLE \"t\") AS t1 ANTI JOIN (TABLE \"t\") AS t2 ON FALSE",
    ),
    ("by NULL", "TABLE \"t\"", "none"),
    ("by true", "none", "none"),
    ("no rows on the right", "TABLE \"t\"", "none"),
    ("no rows on the left", "EMPTY (INT, INT)", "none"),
    (
        "a selection on the right",
        "none",
        "SELECT * FROM (TABLE \"t\") AS t1 ANTI JOIN (TABLE \"t\") AS t2 ON AND(IS_NULL(c4), SAME(c1, c3))",
    ),
    (
        "a projection on the right",
        "none",
        "SELECT * FROM (TABLE \"t\") AS t1 ANTI JOIN (TABLE \"t\") AS t2 ON SAME(c1, c4)",
    ),
    (
        "a distinct on the right",
        "none",
        "SELECT * FROM (TABLE \"t\") AS t1 ANTI JOIN (TABLE \"t\") AS t2 ON SAME(c1, c3)",
    ),
    ("a selection on the left", "none", "none"),
];

#[test]
fn anti_joins_become_lighter(rt: HostRuntime) -> Result<(), Fail> {
    let schema = read_schema(rt.alloc(), b"CREATE TABLE t (a INT PRIMARY KEY, b INT);")
        .ok()
        .ok_or("a schema")?;
    for (name, nothing, right) in OUTCOMES {
        let plan = made(rt.alloc(), name)?;
        let text = by(&AntiNothing, rt.alloc(), &schema, &plan)?;
        assert_eq!(rt; text.as_str(), nothing, "{name}");
        let text = by(&AntiRight, rt.alloc(), &schema, &plan)?;
        assert_eq!(rt; text.as_str(), right, "{name}");
    }
    Ok(())
}
