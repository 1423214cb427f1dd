use crate::made::{
    Made, MadeExpr, and, anti_joined, compared, form, iri, left, made_by, not, numbered, or, scan,
    schema_of, select, told, unknown,
};
use std::alloc::Global;
use std::test::Fail;
use vkg_base::Box;
use vkg_expr::{Expr, Shared};
use vkg_sure::TermComparison;
use vkg_terms::Annotation;
use vkg_values::Compare;

// The IRI of an employee whose number is in a column.
fn employee(alloc: Global, at: usize) -> MadeExpr {
    numbered(alloc, "http://e/", at)
}

// The literal of a number.
fn number(alloc: Global, at: usize) -> MadeExpr {
    let form = Shared::from_box(alloc, form(alloc, at)?)?;
    Box::new(alloc, Expr::MakeLit(form, Annotation::Plain))
}

// How the employee is compared with the one of an IRI.
fn is(alloc: Global, operator: Compare, name: &str) -> MadeExpr {
    compared(alloc, operator, employee(alloc, 0), iri(alloc, name))
}

fn is_seven(alloc: Global) -> MadeExpr {
    is(alloc, Compare::Equal, "http://e/7")
}

fn asked(alloc: Global, name: &str) -> MadeExpr {
    match name {
        "an IRI" => is_seven(alloc),
        "an IRI before" => compared(
            alloc,
            Compare::Equal,
            iri(alloc, "http://e/7"),
            employee(alloc, 0),
        ),
        "an IRI of nothing" => is(alloc, Compare::Equal, "http://e/none"),
        "an IRI and a literal" => compared(
            alloc,
            Compare::Equal,
            employee(alloc, 0),
            number(alloc, 0),
        ),
        "one of several conjuncts" => { and(alloc, not(alloc, unknown(alloc, 1)), is_seven(alloc)) }
        "one of two" => or(alloc, is_seven(alloc), is_seven(alloc)),
        "another IRI" => is(alloc, Compare::NotEqual, "http://e/7"),
        _ => compared(alloc, Compare::Equal, number(alloc, 0), number(alloc, 1)),
    }
}

// The employees of two sides are equal.
fn one_employee(alloc: Global) -> MadeExpr {
    compared(
        alloc,
        Compare::Equal,
        employee(alloc, 0),
        employee(alloc, 2),
    )
}

fn made(alloc: Global, name: &str) -> Made {
    match name {
        "two IRIs" => left(alloc, scan(alloc), scan(alloc), one_employee(alloc)),
        "two IRIs of an anti join" => {
            anti_joined(alloc, scan(alloc), scan(alloc), one_employee(alloc))
        }
        _ => select(alloc, asked(alloc, name), scan(alloc)),
    }
}

// What is compared, and the texts of what the rule makes of the plan. Two literals that are no one term are an error, and not
// different; so nothing is made of their comparison.
const OUTCOMES: [(&str, &str); 10] = [
    (
        "an IRI",
        "SELECT * FROM (TABLE \"t\") AS t WHERE SAME(c1, INT '7')",
    ),
    (
        "an IRI before",
        "SELECT * FROM (TABLE \"t\") AS t WHERE SAME(c1, INT '7')",
    ),
    (
        "an IRI of nothing",
        "SELECT * FROM (TABLE \"t\") AS t WHERE FALSE",
    ),
    (
        "an IRI and a literal",
        "SELECT * FROM (TABLE \"t\") AS t WHERE FALSE",
    ),
    (
        "one of several conjuncts",
        "SELECT * FROM (TABLE \"t\") AS t WHERE AND(NOT(IS_NULL(c2)), SAME(c1, INT '7'))",
    ),
    (
        "two IRIs",
        "SELECT * FROM (TABLE \"t\") AS t1 LEFT JOIN (TABLE \"t\") AS t2 ON SAME(c1, c3)",
    ),
    (
        "two IRIs of an anti join",
        "SELECT * FROM (TABLE \"t\") AS t1 ANTI JOIN (TABLE \"t\") AS t2 ON SAME(c1, c3)",
    ),
    ("one of two", "none"),
    ("another IRI", "none"),
    ("two literals", "none"),
];

#[test]
fn comparisons_with_an_iri_become_equalities_of_columns(rt: HostRuntime) -> Result<(), Fail> {
    let schema = schema_of(rt.alloc(), b"CREATE TABLE t (a INT PRIMARY KEY, b INT);")?;
    for &(name, expected) in &OUTCOMES {
        let found = made_by(&TermComparison, rt.alloc(), &schema, made(rt.alloc(), name));
        told(&rt, "TermComparison", name, found, expected)?;
    }
    Ok(())
}
