use crate::made::{Made, distinct, made_by, scan, schema_of, select, told, union, unknown};
use std::alloc::Global;
use std::test::Fail;
use vkg_base::Memory;
use vkg_schema::Schema;
use vkg_unions::{DistinctDistinct, EqualMembers};

fn some(alloc: Global, p: Made) -> Made {
    select(alloc, unknown(alloc, 1), p)
}

fn made(alloc: Global, plan: &str) -> Made {
    match plan {
        "Distinct" => distinct(alloc, scan(alloc)),
        "Distinct below" => distinct(alloc, some(alloc, distinct(alloc, scan(alloc)))),
        "equal members" => distinct(alloc, union(alloc, scan(alloc), scan(alloc))),
        "other members" => distinct(alloc, union(alloc, scan(alloc), some(alloc, scan(alloc)))),
        _ => union(alloc, scan(alloc), scan(alloc)),
    }
}

fn outcome(alloc: Global, schema: &Schema, rule: &str, plan: Made) -> Result<String, Memory> {
    match rule {
        "DistinctDistinct" => made_by(&DistinctDistinct, alloc, schema, plan),
        _ => made_by(&EqualMembers, alloc, schema, plan),
    }
}

// Rules, plans, and the texts of what the rules make of them.
const OUTCOMES: [(&str, &str, &str); 5] = [
    (
        "DistinctDistinct",
        "Distinct below",
        "SELECT DISTINCT * FROM (SELECT * FROM (TABLE \"t\") AS t WHERE IS_NULL(c2)) AS t",
    ),
    ("DistinctDistinct", "Distinct", "none"),
    (
        "EqualMembers",
        "equal members",
        "SELECT DISTINCT * FROM ((TABLE \"t\")) AS t",
    ),
    ("EqualMembers", "other members", "none"),
    ("EqualMembers", "no Distinct", "none"),
];

#[test]
fn what_a_distinct_makes_needless_goes(rt: HostRuntime) -> Result<(), Fail> {
    let schema = schema_of(rt.alloc(), b"CREATE TABLE t (a INT PRIMARY KEY, b INT);")?;
    for &(rule, name, expected) in &OUTCOMES {
        let found = outcome(rt.alloc(), &schema, rule, made(rt.alloc(), name));
        told(&rt, rule, name, found, expected)?;
    }
    Ok(())
}
