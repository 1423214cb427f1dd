ghost use Rattle.std.specs.Prelude.{IfOk};
ghost use Rattle.vkg_expr.specs.Laws.{HasKinds};

use crate::made::{MadeExpr, column, iri_of, text, told};
use std::alloc::Global;
use std::test::Fail;
use vkg_base::{Box, Items, Memory, Text};
use vkg_cells::{Cell, SqlType, form};
use vkg_eval::{Row, eval};
use vkg_expr::{Expr, Operator, Shared, nulls_on_null, typed};
use vkg_terms::{Annotation, term_text};
use vkg_values::Test;

fn number(alloc: Global, text: &str, kind: SqlType) -> MadeExpr {
    let cell = Cell::Int(Text::new(alloc, text)?);
    Box::new(alloc, Expr::Const(cell, kind))
}

fn iri(alloc: Global, e: MadeExpr) -> MadeExpr {
    let e = Shared::from_box(alloc, e?)?;
    Box::new(alloc, Expr::MakeIri(e))
}

fn blank(alloc: Global, e: MadeExpr) -> MadeExpr {
    let e = Shared::from_box(alloc, e?)?;
    Box::new(alloc, Expr::MakeBlank(e))
}

fn plain(alloc: Global, e: MadeExpr) -> MadeExpr {
    let e = Shared::from_box(alloc, e?)?;
    Box::new(alloc, Expr::MakeLit(e, Annotation::Plain))
}

fn lex(alloc: Global, e: MadeExpr) -> MadeExpr {
    let e = e?;
    Box::new(alloc, Expr::Lex(e))
}

fn safe(alloc: Global, e: MadeExpr) -> MadeExpr {
    let e = e?;
    Box::new(alloc, Expr::IriSafe(e))
}

fn same(alloc: Global, a: MadeExpr, b: MadeExpr) -> MadeExpr {
    let a = a?;
    let b = b?;
    Box::new(alloc, Expr::Same(a, b))
}

fn is_null(alloc: Global, e: MadeExpr) -> MadeExpr {
    let e = e?;
    Box::new(alloc, Expr::IsNull(e))
}

fn not(alloc: Global, e: MadeExpr) -> MadeExpr {
    let e = Shared::from_box(alloc, e?)?;
    Box::new(alloc, Expr::Not(e))
}

fn ebv(alloc: Global, e: MadeExpr) -> MadeExpr {
    let e = e?;
    Box::new(alloc, Expr::Ebv(e))
}

fn list(alloc: Global, a: MadeExpr, b: MadeExpr) -> Result<Items<Expr>, Memory> {
    let a = a?;
    let b = b?;
    let mut list = Items::new(alloc);
    list.push(a.into_inner())?;
    list.push(b.into_inner())?;
    Ok(list)
}

fn unknown(alloc: Global) -> MadeExpr {
    same(alloc, column(alloc, 2), column(alloc, 2))
}

fn listed(alloc: Global, form: &str) -> Result<Items<Expr>, Memory> {
    match form {
        "Concat" => list(alloc, text(alloc, "x"), lex(alloc, column(alloc, 0))),
        "And" => list(alloc, unknown(alloc), not(alloc, column(alloc, 3))),
        "Or" => list(alloc, unknown(alloc), column(alloc, 3)),
        "Coalesce" => list(alloc, column(alloc, 2), column(alloc, 0)),
        "Concat of a column" => list(alloc, text(alloc, "x"), column(alloc, 1)),
        "Coalesce of two" => list(alloc, column(alloc, 0), column(alloc, 1)),
        "Sparql" => one(alloc, iri(alloc, text(alloc, "http://e/"))),
        _ => Ok(Items::new(alloc)),
    }
}

fn one(alloc: Global, e: MadeExpr) -> Result<Items<Expr>, Memory> {
    let mut list = Items::new(alloc);
    list.push(e?.into_inner())?;
    Ok(list)
}

// The form of a list of expressions.
fn of_list(alloc: Global, form: &str) -> MadeExpr {
    let es = listed(alloc, form)?;
    let e = match form {
        "Concat" | "Concat of a column" => Expr::Concat(es),
        "And" => Expr::And(es),
        "Or" => Expr::Or(es),
        "Sparql" => Expr::Sparql(Operator::Test(Test::IsIri), es),
        _ => Expr::Coalesce(es),
    };
    Box::new(alloc, e)
}

fn made(alloc: Global, form: &str) -> MadeExpr {
    match form {
        "Col" => column(alloc, 0),
        "Const" => text(alloc, "x"),
        "MakeIri" => iri(alloc, text(alloc, "http://e/x")),
        "IriOf" => iri_of(alloc, "http://e/", column(alloc, 1)),
        "MakeBlank" => blank(alloc, text(alloc, "q1")),
        "MakeLit" => plain(alloc, lex(alloc, column(alloc, 0))),
        "Lex" => lex(alloc, column(alloc, 3)),
        "IriSafe" => safe(alloc, column(alloc, 1)),
        "Same" => same(alloc, column(alloc, 0), number(alloc, "7", SqlType::Int)),
        "Same of NULL" => unknown(alloc),
        "IsNull" => is_null(alloc, column(alloc, 2)),
        "Not" => not(alloc, column(alloc, 3)),
        "Ebv" => ebv(alloc, plain(alloc, text(alloc, ""))),
        "Col past the end" => column(alloc, 9),
        "Const of another kind" => number(alloc, "7", SqlType::Text),
        "Lex of a term" => lex(alloc, blank(alloc, text(alloc, "x"))),
        "Not of a number" => not(alloc, column(alloc, 0)),
        "Same of two families" => same(alloc, column(alloc, 0), column(alloc, 1)),
        _ => of_list(alloc, form),
    }
}

// 7, `a b`, NULL and true.
fn row<'a>(alloc: Global) -> Result<Row<'a>, Memory>
    ensures { IfOk result (HasKinds KINDS) }
{
    let mut row = Row::new(alloc);
    row.push(Cell::Int(Text::new(alloc, "7")?))?;
    row.push(Cell::Text(Text::new(alloc, "a b")?))?;
    row.push(Cell::Null)?;
    row.push(Cell::Bool(true))?;
    Ok(row)
}

const KINDS: [SqlType; 4] = [SqlType::Int, SqlType::Text, SqlType::Int, SqlType::Bool];

// The value of an expression that is typed over them, else NULL.
#[tactic(auto, using(vkg_expr::proofs::TypedParts::typed_by))]
fn value_on(alloc: Global, e: &Expr, row: &Row<'_>) -> Result<Cell, Memory>
    requires { HasKinds KINDS row.now }
{
    match typed(e, &KINDS) {
        Some(_) => eval(alloc, e, row),
        None => Ok(Cell::Null),
    }
}

fn shown(alloc: Global, cell: &Cell) -> Result<String, Memory> {
    match cell {
        Cell::Term(term) => term_text(alloc, term),
        _ => Ok(String::from_str(alloc, form(cell).unwrap_or("NULL"))?),
    }
}

// The text of the value of an expression over them.
fn value_text(alloc: Global, e: &Expr, row: &Row<'_>) -> Result<String, Fail>
    requires { HasKinds KINDS row.now }
{
    let cell = value_on(alloc, e, row)?;
    Ok(shown(alloc, &cell)?)
}

#[test]
fn each_form_has_its_kind_and_value(rt: HostRuntime) -> Result<(), Fail> {
    let rows = &[
        ("Col", SqlType::Int, "7"),
        ("Const", SqlType::Text, "x"),
        ("MakeIri", SqlType::Term, "<http://e/x>"),
        ("IriOf", SqlType::Text, "http://e/a b"),
        ("MakeBlank", SqlType::Term, "_:b7131"),
        ("MakeLit", SqlType::Term, "\"7\""),
        ("Lex", SqlType::Text, "true"),
        ("IriSafe", SqlType::Text, "a%20b"),
        ("Concat", SqlType::Text, "x7"),
        ("Same", SqlType::Bool, "true"),
        ("Same of NULL", SqlType::Bool, "NULL"),
        ("IsNull", SqlType::Bool, "true"),
        ("Not", SqlType::Bool, "false"),
        ("And", SqlType::Bool, "false"),
        ("Or", SqlType::Bool, "true"),
        ("Coalesce", SqlType::Int, "7"),
        ("Sparql", SqlType::Bool, "true"),
        ("Ebv", SqlType::Bool, "false"),
    ];
    let row = row(rt.alloc())?;
    for &(form, kind, value) in rows {
        let e = made(rt.alloc(), form)?;
        assert!(rt; typed(&e, &KINDS) == Some(kind), "{form}");
        told(&rt, form, value_text(rt.alloc(), &e, &row), value)?;
    }
    Ok(())
}

#[test]
fn ill_typed_forms_have_no_kind(rt: HostRuntime) -> Result<(), Fail> {
    let forms = &[
        "Col past the end",
        "Const of another kind",
        "Lex of a term",
        "Not of a number",
        "Same of two families",
        "Concat of a column",
        "Coalesce of none",
        "Coalesce of two",
    ];
    for &form in forms {
        let e = made(rt.alloc(), form)?;
        assert!(rt; typed(&e, &KINDS).is_none(), "{form}");
    }
    Ok(())
}

// Whether a copy of an expression is strict.
fn is_strict(alloc: Global, e: MadeExpr) -> Result<bool, Memory> {
    let e = e?;
    let copy = Box::new(alloc, e.copy(alloc)?)?;
    Ok(nulls_on_null(&copy))
}

#[test]
fn strict_forms_name_a_column(rt: HostRuntime) -> Result<(), Fail> {
    let rows = &[
        ("Concat", true),
        ("MakeLit", true),
        ("Const", false),
        ("IsNull", false),
        ("Coalesce", false),
    ];
    for &(form, strict) in rows {
        let found = is_strict(rt.alloc(), made(rt.alloc(), form))?;
        assert!(rt; found == strict, "{form}");
    }
    Ok(())
}
