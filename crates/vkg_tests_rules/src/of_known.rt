use crate::made::{
    Made, MadeExpr, coalesce, column, constant, form, made_by, numbered, scan, schema_of, told,
    values,
};
use std::alloc::Global;
use std::test::Fail;
use vkg_base::{Box, Items};
use vkg_cells::{Cell, SqlType};
use vkg_expr::Expr;
use vkg_sure::FirstKnown;

fn null(alloc: Global, kind: SqlType) -> MadeExpr {
    constant(alloc, Cell::Null, kind)
}

// A COALESCE of one member.
fn alone(alloc: Global, e: MadeExpr) -> MadeExpr {
    let e = e?;
    let mut es = Items::new(alloc);
    es.push(e.into_inner())?;
    Box::new(alloc, Expr::Coalesce(es))
}

fn of_members(alloc: Global, name: &str) -> MadeExpr {
    match name {
        "NULL first" => coalesce(alloc, null(alloc, SqlType::Text), form(alloc, 1)),
        "NULL behind" => coalesce(alloc, form(alloc, 1), null(alloc, SqlType::Text)),
        "NULL and a column" => coalesce(alloc, null(alloc, SqlType::Int), column(alloc, 1)),
        "a member twice" => coalesce(alloc, form(alloc, 1), form(alloc, 1)),
        "what is never NULL first" => coalesce(alloc, form(alloc, 0), form(alloc, 1)),
        "what is never NULL behind" => coalesce(alloc, form(alloc, 1), form(alloc, 0)),
        "one in another" => {
            let inner = coalesce(alloc, form(alloc, 0), form(alloc, 1));
            coalesce(alloc, inner, form(alloc, 1))
        }
        "one member" => alone(alloc, form(alloc, 1)),
        _ => alone(alloc, column(alloc, 1)),
    }
}

// A column of terms, and NULL behind it.
fn of_terms(alloc: Global) -> Made {
    let terms = values(alloc, numbered(alloc, "http://e/", 1), scan(alloc));
    let first = coalesce(alloc, column(alloc, 0), null(alloc, SqlType::Term));
    values(alloc, first, terms)
}

fn made(alloc: Global, name: &str) -> Made {
    match name {
        "a term and NULL" => of_terms(alloc),
        _ => values(alloc, of_members(alloc, name), scan(alloc)),
    }
}

// The members, and the texts of what the rule makes of the plan. A column that is not told to be a term stays in its COALESCE.
const OUTCOMES: [(&str, &str); 10] = [
    ("NULL first", "SELECT LEX(c2) AS c1 FROM (TABLE \"t\") AS t"),
    (
        "NULL behind",
        "SELECT LEX(c2) AS c1 FROM (TABLE \"t\") AS t",
    ),
    (
        "NULL and a column",
        "SELECT COALESCE(c2) AS c1 FROM (TABLE \"t\") AS t",
    ),
    (
        "a member twice",
        "SELECT LEX(c2) AS c1 FROM (TABLE \"t\") AS t",
    ),
    (
        "what is never NULL first",
        "SELECT LEX(c1) AS c1 FROM (TABLE \"t\") AS t",
    ),
    ("what is never NULL behind", "none"),
    (
        "one in another",
        "SELECT LEX(c1) AS c1 FROM (TABLE \"t\") AS t",
    ),
    ("one member", "SELECT LEX(c2) AS c1 FROM (TABLE \"t\") AS t"),
    ("one column", "none"),
    (
        "a term and NULL",
        "SELECT c1 AS c1 FROM (SELECT IRI(CONCAT('http://e/', SAFE(LEX(c2)))) AS c1 FROM (TABLE \"t\") AS t) AS t",
    ),
];

#[test]
fn members_that_are_never_the_value_go(rt: HostRuntime) -> Result<(), Fail> {
    let schema = schema_of(rt.alloc(), b"CREATE TABLE t (a INT PRIMARY KEY, b INT);")?;
    for &(name, expected) in &OUTCOMES {
        let found = made_by(&FirstKnown, rt.alloc(), &schema, made(rt.alloc(), name));
        told(&rt, "FirstKnown", name, found, expected)?;
    }
    Ok(())
}
