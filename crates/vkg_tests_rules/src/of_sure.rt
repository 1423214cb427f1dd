use crate::made::{
    Made, MadeExpr, and, column, form, left, made_by, not, same, scan, schema_of, select, told,
    truth, union, unknown, values,
};
use std::alloc::Global;
use std::test::Fail;
use vkg_base::Memory;
use vkg_sure::{OwnColumns, SureNull};

fn padded(alloc: Global) -> Made {
    left(alloc, scan(alloc), scan(alloc), truth(alloc, true))
}

// The rows of which a condition on the second column holds.
fn equal_to_itself(alloc: Global) -> Made {
    let c = same(alloc, column(alloc, 1), column(alloc, 1));
    select(alloc, c, scan(alloc))
}

fn known(alloc: Global) -> Made {
    select(alloc, not(alloc, unknown(alloc, 1)), scan(alloc))
}

fn of_one_table(alloc: Global, name: &str) -> Made {
    match name {
        "a column tested below" => select(alloc, unknown(alloc, 1), known(alloc)),
        "a column that is equal to something" => {
            select(alloc, unknown(alloc, 1), equal_to_itself(alloc))
        }
        "a column that its own condition tests" => select(
            alloc,
            and(alloc, not(alloc, unknown(alloc, 1)), unknown(alloc, 1)),
            scan(alloc),
        ),
        _ => select(alloc, unknown(alloc, 1), scan(alloc)),
    }
}

fn made(alloc: Global, name: &str) -> Made {
    match name {
        "a form of a key's column" => select(
            alloc,
            unknown(alloc, 0),
            values(alloc, form(alloc, 0), scan(alloc)),
        ),
        "a form of a column that may be NULL" => select(
            alloc,
            unknown(alloc, 0),
            values(alloc, form(alloc, 1), scan(alloc)),
        ),
        "a key's column of each member" => select(
            alloc,
            unknown(alloc, 0),
            union(alloc, scan(alloc), known(alloc)),
        ),
        "a column of one member" => select(
            alloc,
            unknown(alloc, 1),
            union(alloc, scan(alloc), known(alloc)),
        ),
        "the left side of a left join" => select(alloc, unknown(alloc, 0), padded(alloc)),
        "the right side of a left join" => select(alloc, unknown(alloc, 2), padded(alloc)),
        _ => of_one_table(alloc, name),
    }
}

// What is tested, and the texts of what the rule makes of the plan.
const OUTCOMES: [(&str, &str); 10] = [
    (
        "a column tested below",
        "SELECT * FROM (SELECT * FROM (TABLE \"t\") AS t WHERE NOT(IS_NULL(c2))) AS t WHERE FALSE",
    ),
    (
        "a column that is equal to something",
        "SELECT * FROM (SELECT * FROM (TABLE \"t\") AS t WHERE SAME(c2, c2)) AS t WHERE FALSE",
    ),
    ("a column that its own condition tests", "none"),
    ("a column that may be NULL", "none"),
    (
        "a form of a key's column",
        "SELECT * FROM (SELECT LEX(c1) AS c1 FROM (TABLE \"t\") AS t) AS t WHERE FALSE",
    ),
    ("a form of a column that may be NULL", "none"),
    (
        "a key's column of each member",
        "SELECT * FROM ((TABLE \"t\") UNION ALL (SELECT * FROM (TABLE \"t\") AS t WHERE NOT(IS_NULL(c2)))) AS t WHERE FALSE",
    ),
    ("a column of one member", "none"),
    (
        "the left side of a left join",
        "SELECT * FROM (SELECT * FROM (TABLE \"t\") AS t1 LEFT JOIN (TABLE \"t\") AS t2 ON TRUE) AS t WHERE FALSE",
    ),
    ("the right side of a left join", "none"),
];

#[test]
fn columns_that_are_never_null_are_tested_no_more(rt: HostRuntime) -> Result<(), Fail> {
    let schema = schema_of(rt.alloc(), b"CREATE TABLE t (a INT PRIMARY KEY, b INT);")?;
    for &(name, expected) in &OUTCOMES {
        let found = made_by(&SureNull, rt.alloc(), &schema, made(rt.alloc(), name));
        told(&rt, "SureNull", name, found, expected)?;
    }
    Ok(())
}

// Whether it is told that a value is never NULL.
fn is_known(own: &OwnColumns<'_>, alloc: Global, e: MadeExpr) -> Result<bool, Memory> {
    let e = e?;
    own.is_known(alloc, &e)
}

#[test]
fn it_is_told_which_columns_are_never_null(rt: HostRuntime) -> Result<(), Fail> {
    let schema = schema_of(rt.alloc(), b"CREATE TABLE t (a INT PRIMARY KEY, b INT);")?;
    let plan = select(rt.alloc(), truth(rt.alloc(), true), padded(rt.alloc()))?;
    let own = OwnColumns::of(&schema, &plan);
    for &(column, expected) in &[(0, true), (1, false), (2, false), (3, false), (4, false)] {
        let found = own.is_never_null(rt.alloc(), column)?;
        assert!(rt; found == expected, "{column}");
    }
    assert!(rt; is_known(&own, rt.alloc(), form(rt.alloc(), 0))?, "strict");
    assert!(rt; !is_known(&own, rt.alloc(), form(rt.alloc(), 1))?, "null");
    assert!(rt;
        !is_known(&own, rt.alloc(), unknown(rt.alloc(), 0))?,
        "tested"
    );
    Ok(())
}
