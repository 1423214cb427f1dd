use crate::made::{
    Made, MadeExpr, column, constant, left, made_by, scan, schema_of, select, told_end, truth,
    unknown,
};
use std::alloc::Global;
use std::test::Fail;
use vkg_base::Box;
use vkg_cells::{Cell, SqlType};
use vkg_expr::Expr;
use vkg_nulls::SimplifyNull;

// An expression is NULL.
fn test(alloc: Global, e: MadeExpr) -> MadeExpr {
    let e = e?;
    Box::new(alloc, Expr::IsNull(e))
}

fn form(alloc: Global, at: usize) -> MadeExpr {
    let e = column(alloc, at)?;
    Box::new(alloc, Expr::Lex(e))
}

fn padded(alloc: Global) -> Made {
    left(alloc, scan(alloc), scan(alloc), truth(alloc, true))
}

fn made(alloc: Global, name: &str) -> Made {
    match name {
        "a key's column" => select(alloc, unknown(alloc, 0), scan(alloc)),
        "a column that may be NULL" => select(alloc, unknown(alloc, 1), scan(alloc)),
        "NULL" => select(
            alloc,
            test(alloc, constant(alloc, Cell::Null, SqlType::Int)),
            scan(alloc),
        ),
        "a form" => select(alloc, test(alloc, form(alloc, 1)), scan(alloc)),
        "a key's column behind a left join" => select(alloc, unknown(alloc, 2), padded(alloc)),
        _ => left(alloc, scan(alloc), scan(alloc), unknown(alloc, 2)),
    }
}

// What is tested, and the ends of the texts of what the rule makes of the plan.
const OUTCOMES: [(&str, &str); 6] = [
    ("a key's column", " WHERE FALSE"),
    ("a column that may be NULL", "none"),
    ("NULL", " WHERE TRUE"),
    ("a form", " WHERE IS_NULL(c2)"),
    ("a key's column behind a left join", "none"),
    ("a key's column in a left join", " ON FALSE"),
];

#[test]
fn tests_for_null_are_made_simpler(rt: HostRuntime) -> Result<(), Fail> {
    let schema = schema_of(rt.alloc(), b"CREATE TABLE t (a INT PRIMARY KEY, b INT);")?;
    for &(name, expected) in &OUTCOMES {
        let found = made_by(&SimplifyNull, rt.alloc(), &schema, made(rt.alloc(), name));
        told_end(&rt, "SimplifyNull", name, found, expected)?;
    }
    Ok(())
}
