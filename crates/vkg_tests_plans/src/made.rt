// Expressions and plans that the tests of several crates are made of, and what is told of them.
//
// All are boxed: where a call fails, what is made by then is dropped, which is short of a box.
use std::alloc::Global;
use std::process::Abort;
use std::test::Fail;
use vkg_base::{Box, Items, Memory, Text};
use vkg_cells::{Cell, SqlType};
use vkg_expr::Expr;
use vkg_plan::Plan;
use vkg_schema::{Schema, read_schema};

pub type MadeExpr = Result<Box<Expr>, Memory>;

pub type Made = Result<Box<Plan>, Memory>;

pub fn column(alloc: Global, at: usize) -> MadeExpr {
    Box::new(alloc, Expr::Col(at))
}

pub fn text(alloc: Global, text: &str) -> MadeExpr {
    let cell = Cell::Text(Text::new(alloc, text)?);
    Box::new(alloc, Expr::Const(cell, SqlType::Text))
}

pub fn iri_of(alloc: Global, base: &str, e: MadeExpr) -> MadeExpr {
    let e = e?;
    let base = Text::new(alloc, base)?;
    Box::new(alloc, Expr::IriOf(base, e))
}

// Two columns are the same.
pub fn same(alloc: Global, a: usize, b: usize) -> MadeExpr {
    let a = column(alloc, a)?;
    let b = column(alloc, b)?;
    Box::new(alloc, Expr::Same(a, b))
}

pub fn null_test(alloc: Global, at: usize) -> MadeExpr {
    let e = column(alloc, at)?;
    Box::new(alloc, Expr::IsNull(e))
}

pub fn scan(alloc: Global, table: usize) -> Made {
    Box::new(alloc, Plan::Scan(table))
}

pub fn select(alloc: Global, c: MadeExpr, p: Made) -> Made {
    let c = c?;
    let p = p?;
    Box::new(alloc, Plan::Select(c.into_inner(), p))
}

pub fn left(alloc: Global, p: Made, q: Made, c: MadeExpr) -> Made {
    let p = p?;
    let q = q?;
    let c = c?;
    Box::new(alloc, Plan::Left(p, q, c.into_inner()))
}

pub fn anti_joined(alloc: Global, p: Made, q: Made, c: MadeExpr) -> Made {
    let p = p?;
    let q = q?;
    let c = c?;
    Box::new(alloc, Plan::AntiJoin(p, q, c.into_inner()))
}

pub fn scans(alloc: Global, first: usize, second: usize) -> Result<Items<Plan>, Memory> {
    let mut ps = Items::new(alloc);
    ps.push(Plan::Scan(first))?;
    ps.push(Plan::Scan(second))?;
    Ok(ps)
}

// The tables that the plans read.
pub fn schema_of(alloc: Global, text: &[u8]) -> Result<Schema, Fail> {
    Ok(read_schema(alloc, text).ok().ok_or("a schema")?)
}

// This text is found under the name. All tests say so here, since each place that says it is proved.
pub fn told(
    rt: &impl Abort,
    name: &str,
    found: Result<String, Fail>,
    expected: &str,
) -> Result<(), Fail> {
    let found = found?;
    assert_eq!(rt; found.as_str(), expected, "{name}");
    Ok(())
}
