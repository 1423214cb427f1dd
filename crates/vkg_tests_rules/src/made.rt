// Expressions and plans that the rules are asked about, what a rule makes of one, and what is told of it.
//
// All are boxed: where a call fails, what is made by then is dropped, which is short of a box.
use std::alloc::Global;
use std::process::Abort;
use std::test::Fail;
use vkg_base::{Box, Items, Memory, Text};
use vkg_cells::{Cell, SqlType};
use vkg_expr::{Expr, Operator, Shared};
use vkg_plan::{CheckedPlan, Plan, well_typed};
use vkg_rules::Rewrite;
use vkg_schema::{Schema, read_schema};
use vkg_sqltext::sql_text;
use vkg_terms::Term;
use vkg_values::{Compare, Test};

pub type MadeExpr = Result<Box<Expr>, Memory>;

pub type Made = Result<Box<Plan>, Memory>;

pub fn constant(alloc: Global, cell: Cell, kind: SqlType) -> MadeExpr {
    Box::new(alloc, Expr::Const(cell, kind))
}

pub fn truth(alloc: Global, holds: bool) -> MadeExpr {
    constant(alloc, Cell::Bool(holds), SqlType::Bool)
}

pub fn column(alloc: Global, at: usize) -> MadeExpr {
    Box::new(alloc, Expr::Col(at))
}

// A column is NULL.
pub fn unknown(alloc: Global, at: usize) -> MadeExpr {
    let e = column(alloc, at)?;
    Box::new(alloc, Expr::IsNull(e))
}

pub fn not(alloc: Global, e: MadeExpr) -> MadeExpr {
    let e = Shared::from_box(alloc, e?)?;
    Box::new(alloc, Expr::Not(e))
}

pub fn same(alloc: Global, a: MadeExpr, b: MadeExpr) -> MadeExpr {
    let a = a?;
    let b = b?;
    Box::new(alloc, Expr::Same(a, b))
}

fn text(alloc: Global, text: &str) -> MadeExpr {
    let cell = Cell::Text(Text::new(alloc, text)?);
    constant(alloc, cell, SqlType::Text)
}

pub fn form(alloc: Global, at: usize) -> MadeExpr {
    let column = column(alloc, at)?;
    Box::new(alloc, Expr::Lex(column))
}

fn safe(alloc: Global, at: usize) -> MadeExpr {
    let form = form(alloc, at)?;
    Box::new(alloc, Expr::IriSafe(form))
}

// The IRI of a text and the number in a column.
pub fn numbered(alloc: Global, front: &str, at: usize) -> MadeExpr {
    let pieces = both(alloc, text(alloc, front), safe(alloc, at))?;
    let address = Box::new(alloc, Expr::Concat(pieces))?;
    Box::new(alloc, Expr::MakeIri(Shared::from_box(alloc, address)?))
}

pub fn iri(alloc: Global, name: &str) -> MadeExpr {
    let name = Text::new(alloc, name)?;
    constant(alloc, Cell::Term(Term::Iri(name)), SqlType::Term)
}

// What a comparison of two terms asks.
pub fn compared(alloc: Global, operator: Compare, a: MadeExpr, b: MadeExpr) -> MadeExpr {
    let es = both(alloc, a, b)?;
    Box::new(alloc, Expr::Sparql(Operator::Compare(operator), es))
}

fn both(alloc: Global, a: MadeExpr, b: MadeExpr) -> Result<Items<Expr>, Memory> {
    let a = a?;
    let b = b?;
    let mut es = Items::new(alloc);
    es.push(a.into_inner())?;
    es.push(b.into_inner())?;
    Ok(es)
}

pub fn and(alloc: Global, a: MadeExpr, b: MadeExpr) -> MadeExpr {
    let es = both(alloc, a, b)?;
    Box::new(alloc, Expr::And(es))
}

pub fn or(alloc: Global, a: MadeExpr, b: MadeExpr) -> MadeExpr {
    let es = both(alloc, a, b)?;
    Box::new(alloc, Expr::Or(es))
}

// The first of two values that is not NULL.
pub fn coalesce(alloc: Global, a: MadeExpr, b: MadeExpr) -> MadeExpr {
    let es = both(alloc, a, b)?;
    Box::new(alloc, Expr::Coalesce(es))
}

// Whether the IRI of a number is an IRI.
pub fn is_iri(alloc: Global, at: usize) -> MadeExpr {
    let e = numbered(alloc, "http://e/", at)?;
    let mut es = Items::new(alloc);
    es.push(e.into_inner())?;
    Box::new(alloc, Expr::Sparql(Operator::Test(Test::IsIri), es))
}

pub fn table(alloc: Global, place: usize) -> Made {
    Box::new(alloc, Plan::Scan(place))
}

// The first table.
pub fn scan(alloc: Global) -> Made {
    table(alloc, 0)
}

pub fn select(alloc: Global, c: MadeExpr, p: Made) -> Made {
    let c = c?;
    let p = p?;
    Box::new(alloc, Plan::Select(c.into_inner(), p))
}

// One value of each row.
pub fn values(alloc: Global, e: MadeExpr, p: Made) -> Made {
    let e = e?;
    let p = p?;
    let mut es = Items::new(alloc);
    es.push(e.into_inner())?;
    Box::new(alloc, Plan::Project(es, p))
}

// Two values of each row.
pub fn project(alloc: Global, a: MadeExpr, b: MadeExpr, p: Made) -> Made {
    let es = both(alloc, a, b)?;
    let p = p?;
    Box::new(alloc, Plan::Project(es, p))
}

// Two columns, each in the other's place.
pub fn turned(alloc: Global, p: Made) -> Made {
    project(alloc, column(alloc, 1), column(alloc, 0), p)
}

pub fn distinct(alloc: Global, p: Made) -> Made {
    let p = p?;
    Box::new(alloc, Plan::Distinct(p))
}

fn members(alloc: Global, p: Made, q: Made) -> Result<Items<Plan>, Memory> {
    let p = p?;
    let q = q?;
    let mut ps = Items::new(alloc);
    ps.push(p.into_inner())?;
    ps.push(q.into_inner())?;
    Ok(ps)
}

pub fn union(alloc: Global, p: Made, q: Made) -> Made {
    let ps = members(alloc, p, q)?;
    Box::new(alloc, Plan::UnionAll(ps))
}

pub fn join(alloc: Global, p: Made, q: Made, c: MadeExpr) -> Made {
    let ps = members(alloc, p, q)?;
    let c = c?;
    Box::new(alloc, Plan::Join(ps, c.into_inner()))
}

pub fn anti_joined(alloc: Global, p: Made, q: Made, c: MadeExpr) -> Made {
    let p = p?;
    let q = q?;
    let c = c?;
    Box::new(alloc, Plan::AntiJoin(p, q, c.into_inner()))
}

pub fn left(alloc: Global, p: Made, q: Made, c: MadeExpr) -> Made {
    let p = p?;
    let q = q?;
    let c = c?;
    Box::new(alloc, Plan::Left(p, q, c.into_inner()))
}

// The text of a plan that a rule made.
fn shown(alloc: Global, schema: &Schema, plan: Plan) -> Result<String, Memory> {
    if !well_typed(alloc, &plan, schema)? {
        return Ok(String::from_str(alloc, "made ill typed")?);
    }
    let plan = CheckedPlan::new(plan, schema);
    sql_text(alloc, &plan, schema)
}

// The text of what a rule makes of a plan.
pub fn by<R: Rewrite>(
    rule: &R,
    alloc: Global,
    schema: &Schema,
    plan: &Plan,
) -> Result<String, Memory> {
    if !well_typed(alloc, plan, schema)? {
        return Ok(String::from_str(alloc, "ill typed")?);
    }
    match rule.apply(alloc, schema, plan)? {
        None => Ok(String::from_str(alloc, "none")?),
        Some((made, _)) => shown(alloc, schema, made),
    }
}

// As `by`, of a plan that was just made.
pub fn made_by<R: Rewrite>(
    rule: &R,
    alloc: Global,
    schema: &Schema,
    plan: Made,
) -> Result<String, Memory> {
    let plan = plan?;
    by(rule, alloc, schema, &plan)
}

// The tables that the plans read.
pub fn schema_of(alloc: Global, text: &[u8]) -> Result<Schema, Fail> {
    Ok(read_schema(alloc, text).ok().ok_or("a schema")?)
}

// A rule makes this text of the plan of a name. All tests say so here, since each place that says it is proved.
pub fn told(
    rt: &impl Abort,
    rule: &str,
    name: &str,
    found: Result<String, Memory>,
    expected: &str,
) -> Result<(), Fail> {
    let found = found?;
    assert_eq!(rt; found.as_str(), expected, "{rule}, {name}");
    Ok(())
}

// As `told`, of the end of the text.
pub fn told_end(
    rt: &impl Abort,
    rule: &str,
    name: &str,
    found: Result<String, Memory>,
    expected: &str,
) -> Result<(), Fail> {
    let found = found?;
    assert!(rt; found.as_str().ends_with(expected), "{rule}, {name}");
    Ok(())
}
