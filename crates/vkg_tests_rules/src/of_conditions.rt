use crate::made::{
    Made, MadeExpr, and, column, constant, made_by, not, or, same, scan, schema_of, select,
    told_end, truth, unknown,
};
use std::alloc::Global;
use std::test::Fail;
use vkg_cells::{Cell, SqlType};
use vkg_conditions::SimplifyCondition;

fn nested(alloc: Global) -> MadeExpr {
    let inner = and(alloc, unknown(alloc, 0), unknown(alloc, 1));
    and(alloc, inner, not(alloc, unknown(alloc, 1)))
}

fn condition(alloc: Global, name: &str) -> MadeExpr {
    match name {
        "false in And" => and(alloc, unknown(alloc, 0), truth(alloc, false)),
        "true in Or" => or(alloc, unknown(alloc, 0), truth(alloc, true)),
        "true in And" => and(alloc, truth(alloc, true), unknown(alloc, 0)),
        "Not of NULL" => not(alloc, constant(alloc, Cell::Null, SqlType::Bool)),
        "And in And" => nested(alloc),
        "Not of Not" => not(alloc, not(alloc, unknown(alloc, 1))),
        "a member again" => or(alloc, unknown(alloc, 1), unknown(alloc, 1)),
        "itself" => same(alloc, column(alloc, 1), column(alloc, 1)),
        _ => same(alloc, column(alloc, 0), column(alloc, 1)),
    }
}

fn made(alloc: Global, name: &str) -> Made {
    match name {
        "no condition" => scan(alloc),
        _ => select(alloc, condition(alloc, name), scan(alloc)),
    }
}

// Conditions, and the ends of the texts of what the rule makes of a selection by them.
const OUTCOMES: [(&str, &str); 10] = [
    ("false in And", " WHERE FALSE"),
    ("true in Or", " WHERE TRUE"),
    ("true in And", " WHERE IS_NULL(c1)"),
    ("Not of NULL", " WHERE CAST(NULL AS BOOL)"),
    (
        "And in And",
        " WHERE AND(IS_NULL(c1), IS_NULL(c2), NOT(IS_NULL(c2)))",
    ),
    ("Not of Not", " WHERE IS_NULL(c2)"),
    ("a member again", " WHERE IS_NULL(c2)"),
    ("itself", " WHERE NOT(IS_NULL(c2))"),
    ("two columns", "none"),
    ("no condition", "none"),
];

#[test]
fn conditions_are_made_simpler(rt: HostRuntime) -> Result<(), Fail> {
    let schema = schema_of(rt.alloc(), b"CREATE TABLE t (a INT PRIMARY KEY, b INT);")?;
    for &(name, expected) in &OUTCOMES {
        let found = made_by(
            &SimplifyCondition,
            rt.alloc(),
            &schema,
            made(rt.alloc(), name),
        );
        told_end(&rt, "SimplifyCondition", name, found, expected)?;
    }
    Ok(())
}
