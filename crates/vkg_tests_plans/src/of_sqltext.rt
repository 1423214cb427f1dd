use crate::made::{
    Made, MadeExpr, anti_joined, column, iri_of, left, null_test, same, scan, scans, schema_of,
    select, text, told,
};
use std::alloc::Global;
use std::test::Fail;
use vkg_base::{Box, Items, Memory, Text};
use vkg_cells::{Cell, SqlType};
use vkg_expr::{Expr, Operator, Shared};
use vkg_order::{Direction, Modifiers, Slice};
use vkg_plan::{CheckedPlan, Plan, well_typed};
use vkg_schema::Schema;
use vkg_sqltext::{order_text, sql_text};
use vkg_terms::{Annotation, Term};
use vkg_values::{Compare, Take};

const COMPANY: &str =
    "CREATE TABLE dept (id INTEGER PRIMARY KEY, title VARCHAR(20)); CREATE TABLE emp (id INTEGER PRIMARY KEY, name VARCHAR(20), dept INTEGER REFERENCES dept); CREATE TABLE \"a\"\"b\" (id INTEGER);";

fn constant(alloc: Global, cell: Cell, kind: SqlType) -> MadeExpr {
    Box::new(alloc, Expr::Const(cell, kind))
}

fn term(alloc: Global, iri: &str) -> MadeExpr {
    let iri = Text::new(alloc, iri)?;
    constant(alloc, Cell::Term(Term::Iri(iri)), SqlType::Term)
}

fn lit(alloc: Global, annotation: Result<Annotation, Memory>) -> MadeExpr {
    let e = Shared::from_box(alloc, column(alloc, 1)?)?;
    Box::new(alloc, Expr::MakeLit(e, annotation?))
}

fn tagged(alloc: Global, tag: &str) -> Result<Annotation, Memory> {
    Ok(Annotation::Lang(Text::new(alloc, tag)?))
}

fn of_datatype(alloc: Global, iri: &str) -> Result<Annotation, Memory> {
    Ok(Annotation::typed(Text::new(alloc, iri)?))
}

fn not_null(alloc: Global, at: usize) -> MadeExpr {
    let inner = Shared::from_box(alloc, null_test(alloc, at)?)?;
    Box::new(alloc, Expr::Not(inner))
}

fn columns(alloc: Global, count: usize) -> Result<Items<Expr>, Memory> {
    let mut columns = Items::new(alloc);
    for i in 0..count {
        columns.push(Expr::Col(i))?;
    }
    Ok(columns)
}

// The form of a list of columns.
fn of_columns(alloc: Global, form: &str, count: usize) -> MadeExpr {
    let es = columns(alloc, count)?;
    let e = match form {
        "And" => Expr::And(es),
        "Or" => Expr::Or(es),
        "Coalesce" => Expr::Coalesce(es),
        "Length" => Expr::Sparql(Operator::Take(Take::Length), es),
        "Contains" => Expr::Sparql(Operator::Compare(Compare::Contains), es),
        _ => Expr::Sparql(Operator::Compare(Compare::LessOrEqual), es),
    };
    Box::new(alloc, e)
}

fn made_expr(alloc: Global, form: &str) -> MadeExpr {
    match form {
        "Col" => column(alloc, 9),
        "NULL" => constant(alloc, Cell::Null, SqlType::Bin),
        "truth" => constant(alloc, Cell::Bool(true), SqlType::Bool),
        "text" => text(alloc, "it's"),
        "term" => term(alloc, "http://e/x"),
        "tag" => lit(alloc, tagged(alloc, "en")),
        "datatype" => lit(alloc, of_datatype(alloc, "http://e/d")),
        "plain" => lit(alloc, Ok(Annotation::Plain)),
        "IriOf" => iri_of(alloc, "http://e/", text(alloc, "x")),
        "Not" => not_null(alloc, 1),
        "Same" => same(alloc, 0, 1),
        "And" => of_columns(alloc, form, 0),
        "Or" => of_columns(alloc, form, 1),
        "Length" => of_columns(alloc, form, 1),
        "Coalesce" => of_columns(alloc, form, 3),
        _ => of_columns(alloc, form, 2),
    }
}

// Forms of expressions, a kind that all columns have, and their texts.
const TEXTS_OF_FORMS: [(&str, SqlType, &str); 17] = [
    ("Col", SqlType::Int, "c10"),
    ("NULL", SqlType::Int, "CAST(NULL AS BIN)"),
    ("truth", SqlType::Int, "TRUE"),
    ("text", SqlType::Int, "'it''s'"),
    ("term", SqlType::Int, "TERM '<http://e/x>'"),
    ("tag", SqlType::Text, "LIT(c2, '@en')"),
    ("datatype", SqlType::Text, "LIT(c2, '^^http://e/d')"),
    ("plain", SqlType::Text, "LIT(c2)"),
    ("IriOf", SqlType::Int, "IRI_OF('http://e/', 'x')"),
    ("Not", SqlType::Int, "NOT(IS_NULL(c2))"),
    ("Same", SqlType::Int, "SAME(c1, c2)"),
    ("And", SqlType::Int, "AND()"),
    ("Or", SqlType::Bool, "OR(c1)"),
    ("Coalesce", SqlType::Int, "COALESCE(c1, c2, c3)"),
    ("Sparql", SqlType::Term, "LE(c1, c2)"),
    ("Length", SqlType::Term, "STRLEN(c1)"),
    ("Contains", SqlType::Term, "CONTAINS(c1, c2)"),
];

// The plan of an expression over no rows, of ten columns of a kind.
fn only(alloc: Global, form: &str, kind: SqlType) -> Made {
    let mut es = Items::new(alloc);
    es.push(made_expr(alloc, form)?.into_inner())?;
    let kinds = Items::from_slice(alloc, &[kind; 10])?;
    project(alloc, Ok(es), Box::new(alloc, Plan::Empty(kinds)))
}

// The text of a plan.
fn shown(alloc: Global, schema: &Schema, plan: Made) -> Result<String, Fail> {
    let plan = plan?.into_inner();
    if !well_typed(alloc, &plan, schema)? {
        return Err(Fail::new("ill typed"));
    }
    let plan = CheckedPlan::new(plan, schema);
    Ok(sql_text(alloc, &plan, schema)?)
}

// Whether an expression has this text, in the plan over no rows.
fn has_text(alloc: Global, schema: &Schema, plan: Made, expected: &str) -> Result<bool, Fail> {
    let text = shown(alloc, schema, plan)?;
    let front = format!(in alloc; "SELECT {expected} AS c1 FROM (EMPTY (")?;
    Ok(text.as_str().starts_with(front.as_str()))
}

#[test]
fn each_form_has_its_text(rt: HostRuntime) -> Result<(), Fail> {
    let schema = schema_of(rt.alloc(), COMPANY.as_bytes())?;
    for &(form, kind, expected) in &TEXTS_OF_FORMS {
        let plan = only(rt.alloc(), form, kind);
        assert!(rt; has_text(rt.alloc(), &schema, plan, expected)?, "{form}");
    }
    Ok(())
}

fn project(alloc: Global, es: Result<Items<Expr>, Memory>, p: Made) -> Made {
    let es = es?;
    let p = p?;
    Box::new(alloc, Plan::Project(es, p))
}

fn unit(alloc: Global) -> Made {
    Box::new(alloc, Plan::Unit)
}

fn empty(alloc: Global) -> Made {
    let kinds = Items::from_slice(alloc, &[SqlType::Int, SqlType::Term])?;
    Box::new(alloc, Plan::Empty(kinds))
}

fn join(alloc: Global) -> Made {
    let ps = scans(alloc, 0, 0)?;
    let c = same(alloc, 0, 2)?;
    Box::new(alloc, Plan::Join(ps, c.into_inner()))
}

fn union(alloc: Global) -> Made {
    let ps = scans(alloc, 0, 0)?;
    Box::new(alloc, Plan::UnionAll(ps))
}

fn distinct(alloc: Global, p: Made) -> Made {
    let p = p?;
    Box::new(alloc, Plan::Distinct(p))
}

fn made(alloc: Global, node: &str) -> Made {
    match node {
        "Unit" => unit(alloc),
        "Empty" => empty(alloc),
        "Scan" => scan(alloc, 2),
        "Select" => select(alloc, not_null(alloc, 1), scan(alloc, 1)),
        "Project" => project(alloc, columns(alloc, 2), scan(alloc, 0)),
        "Project of none" => project(alloc, columns(alloc, 0), unit(alloc)),
        "Join" => join(alloc),
        "Left" => left(alloc, scan(alloc, 1), scan(alloc, 0), same(alloc, 2, 3)),
        "AntiJoin" => { anti_joined(alloc, scan(alloc, 1), scan(alloc, 0), same(alloc, 2, 3)) }
        "UnionAll" => union(alloc),
        _ => distinct(alloc, unit(alloc)),
    }
}

// Nodes of plans, and their texts.
const TEXTS_OF_NODES: [(&str, &str); 11] = [
    ("Unit", "VALUES ()"),
    ("Empty", "EMPTY (INT, TERM)"),
    ("Scan", "TABLE \"a\"\"b\""),
    (
        "Select",
        "SELECT * FROM (TABLE \"emp\") AS t WHERE NOT(IS_NULL(c2))",
    ),
    (
        "Project",
        "SELECT c1 AS c1, c2 AS c2 FROM (TABLE \"dept\") AS t",
    ),
    ("Project of none", "SELECT () FROM (VALUES ()) AS t"),
    (
        "Join",
        "SELECT * FROM (TABLE \"dept\") AS t1 CROSS JOIN (TABLE \"dept\") AS t2 WHERE SAME(c1, c3)",
    ),
    (
        "Left",
        "SELECT * FROM (TABLE \"emp\") AS t1 LEFT JOIN (TABLE \"dept\") AS t2 ON SAME(c3, c4)",
    ),
    (
        "AntiJoin",
        "SELECT * FROM (TABLE \"emp\") AS t1 ANTI JOIN (TABLE \"dept\") AS t2 ON SAME(c3, c4)",
    ),
    ("UnionAll", "(TABLE \"dept\") UNION ALL (TABLE \"dept\")"),
    ("Distinct", "SELECT DISTINCT * FROM (VALUES ()) AS t"),
];

#[test]
fn each_node_has_its_text(rt: HostRuntime) -> Result<(), Fail> {
    let schema = schema_of(rt.alloc(), COMPANY.as_bytes())?;
    for &(node, expected) in &TEXTS_OF_NODES {
        let found = shown(rt.alloc(), &schema, made(rt.alloc(), node));
        told(&rt, node, found, expected)?;
    }
    Ok(())
}

// The keys' columns stand from the first one on, which is numbered from 0.
#[test]
fn orders_stand_behind_plans(rt: HostRuntime) -> Result<(), Fail> {
    let mut directions = Items::new(rt.alloc());
    directions.push(Direction::Descending)?;
    directions.push(Direction::Ascending)?;
    let slice = Slice {
        offset: 3,
        limit: Some(2),
    };
    let asked = Modifiers {
        directions,
        distinct: false,
        slice,
    };
    let text = order_text(rt.alloc(), 1, &asked)?;
    assert_eq!(rt; text.as_str(), " ORDER BY c2 DESC, c3 ASC LIMIT 2 OFFSET 3");
    Ok(())
}

#[test]
fn no_order_has_no_text(rt: HostRuntime) -> Result<(), Fail> {
    let slice = Slice {
        offset: 0,
        limit: None,
    };
    let asked = Modifiers {
        directions: Items::new(rt.alloc()),
        distinct: true,
        slice,
    };
    assert_eq!(rt; order_text(rt.alloc(), 1, &asked)?.as_str(), "");
    Ok(())
}
