use crate::made::{Made, join, left, made_by, scan, schema_of, select, told, truth, union};
use std::alloc::Global;
use std::test::Fail;
use vkg_base::{Box, Items, Memory};
use vkg_cells::SqlType;
use vkg_chains::Fix;
use vkg_plan::Plan;
use vkg_rules::{Either, Everywhere};
use vkg_schema::Schema;
use vkg_shapes::{FalseCondition, FewMembers, FlatUnion, PropagateEmpty, SelectTrue};

fn nothing(alloc: Global) -> Made {
    let kinds = Items::from_slice(alloc, &[SqlType::Int])?;
    Box::new(alloc, Plan::Empty(kinds))
}

fn one(alloc: Global) -> Result<Items<Plan>, Memory> {
    let mut ps = Items::new(alloc);
    ps.push(Plan::Scan(0))?;
    Ok(ps)
}

fn join_of_one(alloc: Global) -> Made {
    let c = truth(alloc, true)?;
    let ps = one(alloc)?;
    Box::new(alloc, Plan::Join(ps, c.into_inner()))
}

fn union_of_one(alloc: Global) -> Made {
    let ps = one(alloc)?;
    Box::new(alloc, Plan::UnionAll(ps))
}

fn unit(alloc: Global) -> Made {
    Box::new(alloc, Plan::Unit)
}

fn made(alloc: Global, plan: &str) -> Made {
    match plan {
        "selection by true" => select(alloc, truth(alloc, true), scan(alloc)),
        "selection by false" => select(alloc, truth(alloc, false), scan(alloc)),
        "left join by false" => left(alloc, scan(alloc), scan(alloc), truth(alloc, false)),
        "selection from nothing" => select(alloc, truth(alloc, true), nothing(alloc)),
        "union with nothing" => union(alloc, scan(alloc), nothing(alloc)),
        "join of one" => join_of_one(alloc),
        "join with a Unit" => join(alloc, scan(alloc), unit(alloc), truth(alloc, true)),
        "union of one" => union_of_one(alloc),
        "union in a union" => union(alloc, scan(alloc), union_of_one(alloc)),
        _ => scan(alloc),
    }
}

fn to_the_end(alloc: Global, schema: &Schema, plan: Made) -> Result<String, Memory> {
    let rule = Either {
        first: SelectTrue,
        second: FewMembers,
    };
    made_by(
        &Fix {
            rule: Everywhere { rule },
        },
        alloc,
        schema,
        plan,
    )
}

fn outcome(alloc: Global, schema: &Schema, rule: &str, plan: Made) -> Result<String, Memory> {
    match rule {
        "SelectTrue" => made_by(&SelectTrue, alloc, schema, plan),
        "FalseCondition" => made_by(&FalseCondition, alloc, schema, plan),
        "PropagateEmpty" => made_by(&PropagateEmpty, alloc, schema, plan),
        "FewMembers" => made_by(&FewMembers, alloc, schema, plan),
        "FlatUnion" => made_by(&FlatUnion, alloc, schema, plan),
        _ => to_the_end(alloc, schema, plan),
    }
}

// Rules, plans, and the texts of what the rules make of them.
const OUTCOMES: [(&str, &str, &str); 16] = [
    ("SelectTrue", "selection by true", "TABLE \"t\""),
    ("SelectTrue", "selection by false", "none"),
    ("FalseCondition", "selection by false", "EMPTY (INT)"),
    (
        "FalseCondition",
        "left join by false",
        "SELECT c1 AS c1, CAST(NULL AS INT) AS c2 FROM (TABLE \"t\") AS t",
    ),
    ("FalseCondition", "selection by true", "none"),
    ("PropagateEmpty", "selection from nothing", "EMPTY (INT)"),
    ("PropagateEmpty", "union with nothing", "(TABLE \"t\")"),
    ("PropagateEmpty", "scan", "none"),
    (
        "FewMembers",
        "join of one",
        "SELECT * FROM (TABLE \"t\") AS t WHERE TRUE",
    ),
    (
        "FewMembers",
        "join with a Unit",
        "SELECT * FROM (TABLE \"t\") AS t1 WHERE TRUE",
    ),
    ("FewMembers", "scan", "none"),
    ("FlatUnion", "union of one", "TABLE \"t\""),
    (
        "FlatUnion",
        "union in a union",
        "(TABLE \"t\") UNION ALL (TABLE \"t\")",
    ),
    ("FlatUnion", "scan", "none"),
    ("all to the end", "join with a Unit", "TABLE \"t\""),
    ("all to the end", "scan", "none"),
];

#[test]
fn each_rule_makes_what_its_definition_says(rt: HostRuntime) -> Result<(), Fail> {
    let schema = schema_of(rt.alloc(), b"CREATE TABLE t (a INT PRIMARY KEY);")?;
    for &(rule, plan, expected) in &OUTCOMES {
        let found = outcome(rt.alloc(), &schema, rule, made(rt.alloc(), plan));
        told(&rt, rule, plan, found, expected)?;
    }
    Ok(())
}
