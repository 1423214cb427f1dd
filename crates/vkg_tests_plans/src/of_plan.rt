use crate::made::{Made, anti_joined, column, left, same, scan, schema_of, select};
use std::alloc::Global;
use std::test::Fail;
use vkg_base::{Box, Items, Memory};
use vkg_cells::{Cell, SqlType};
use vkg_expr::{Expr, same_kind};
use vkg_plan::{CheckedPlan, Plan, plan_kinds, well_typed};
use vkg_schema::Schema;

#[test]
fn a_plan_is_checked_and_given_back(rt: HostRuntime) -> Result<(), Fail> {
    let schema = schema_of(rt.alloc(), b"CREATE TABLE t (a INT PRIMARY KEY, b DATE);")?;
    let plan = Box::new(rt.alloc(), Plan::Distinct(scan(rt.alloc(), 0)?))?;
    let kinds = plan_kinds(rt.alloc(), &plan, &schema)?.ok_or("ill typed")?;
    assert!(rt; kinds.len() == 2);
    assert!(rt; same_kind(kinds.as_slice()[1], SqlType::Date));
    assert!(rt; is_given_back(rt.alloc(), &schema, &plan)?);
    Ok(())
}

// Whether the copy of a DISTINCT is well typed, and is given back behind the check.
fn is_given_back(alloc: Global, schema: &Schema, plan: &Plan) -> Result<bool, Memory> {
    let copy = plan.copy(alloc)?;
    if !well_typed(alloc, &copy, schema)? {
        return Ok(false);
    }
    let checked = CheckedPlan::new(copy, schema);
    if !matches!(checked.plan(), Plan::Distinct(_)) {
        return Ok(false);
    }
    let plan = checked.into_plan();
    Ok(matches!(&plan, Plan::Distinct(_)))
}

fn project(alloc: Global) -> Made {
    let p = scan(alloc, 0)?;
    let mut es = Items::new(alloc);
    es.push(Expr::Col(1))?;
    Box::new(alloc, Plan::Project(es, p))
}

fn two(alloc: Global) -> Result<Items<Plan>, Memory> {
    let mut ps = Items::new(alloc);
    ps.push(Plan::Scan(0))?;
    ps.push(Plan::Unit)?;
    Ok(ps)
}

fn join(alloc: Global, ps: Items<Plan>, c: Expr) -> Made {
    Box::new(alloc, Plan::Join(ps, c))
}

fn union(alloc: Global, ps: Items<Plan>) -> Made {
    Box::new(alloc, Plan::UnionAll(ps))
}

fn ill_typed(alloc: Global, rule: &str) -> Made {
    match rule {
        "a table that is not there" => scan(alloc, 1),
        "a column that is not there" => project(alloc),
        "a condition that is no truth" => select(alloc, column(alloc, 0), scan(alloc, 0)),
        "a join of none" => join(
            alloc,
            Items::new(alloc),
            Expr::Const(Cell::Bool(true), SqlType::Bool),
        ),
        "a join by no truth" => join(alloc, two(alloc)?, Expr::Col(0)),
        "a left join by no truth" => left(alloc, scan(alloc, 0), scan(alloc, 0), column(alloc, 1)),
        "an anti join by no truth" => {
            anti_joined(alloc, scan(alloc, 0), scan(alloc, 0), column(alloc, 1))
        }
        "a selection by a column that an anti join has not" => select(
            alloc,
            same(alloc, 0, 1),
            anti_joined(alloc, scan(alloc, 0), scan(alloc, 0), same(alloc, 0, 1)),
        ),
        "a union of none" => union(alloc, Items::new(alloc)),
        _ => union(alloc, two(alloc)?),
    }
}

fn is_well_typed(alloc: Global, schema: &Schema, plan: Made) -> Result<bool, Memory> {
    let plan = plan?;
    well_typed(alloc, &plan, schema)
}

#[test]
fn ill_typed_plans_have_no_kinds(rt: HostRuntime) -> Result<(), Fail> {
    let rules = &[
        "a table that is not there",
        "a column that is not there",
        "a condition that is no truth",
        "a join of none",
        "a join by no truth",
        "a left join by no truth",
        "an anti join by no truth",
        "a selection by a column that an anti join has not",
        "a union of none",
        "a union of other kinds",
    ];
    let schema = schema_of(rt.alloc(), b"CREATE TABLE t (a INT PRIMARY KEY);")?;
    for &rule in rules {
        let plan = ill_typed(rt.alloc(), rule);
        assert!(rt; !is_well_typed(rt.alloc(), &schema, plan)?, "{rule}");
    }
    Ok(())
}
