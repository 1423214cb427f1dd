use crate::made::told;
use std::alloc::Global;
use std::test::Fail;
use vkg_base::{Items, Memory, Text};
use vkg_cells::{Cell, SqlType};
use vkg_expr::{Expr, Piece, Sort, TermExpr};
use vkg_match::*;
use vkg_terms::Term;

/// The IRI of two columns of texts with a sign between them.
fn two(alloc: Global, first: usize, sign: &str, second: usize) -> Result<TermExpr, Memory> {
    let mut pieces = Items::new(alloc);
    pieces.push(Piece::Chars(Text::new(alloc, "http://e/")?))?;
    pieces.push(Piece::Hole(first, SqlType::Text))?;
    pieces.push(Piece::Chars(Text::new(alloc, sign)?))?;
    pieces.push(Piece::Hole(second, SqlType::Text))?;
    Ok(TermExpr::Made(Sort::OfIri, pieces))
}

/// The IRI of the column of an employee's number.
fn employee(alloc: Global) -> Result<TermExpr, Memory> {
    let mut pieces = Items::new(alloc);
    pieces.push(Piece::Chars(Text::new(alloc, "http://e/emp/id=")?))?;
    pieces.push(Piece::Hole(0, SqlType::Int))?;
    Ok(TermExpr::Made(Sort::OfIri, pieces))
}

fn fixed(alloc: Global, iri: &str) -> Result<TermExpr, Memory> {
    Ok(TermExpr::Fixed(Term::Iri(Text::new(alloc, iri)?)))
}

fn write_text(out: &mut String, text: &str) -> Result<(), Memory> {
    out.push_str("'")?;
    out.push_str(text)?;
    out.push_str("'")?;
    Ok(())
}

/// A column by its number, or a constant with its kind.
fn write_leaf(out: &mut String, e: &Expr) -> Result<(), Memory> {
    match e {
        Expr::Col(0) => out.push_str("c0")?,
        Expr::Col(1) => out.push_str("c1")?,
        Expr::Col(2) => out.push_str("c2")?,
        Expr::Col(3) => out.push_str("c3")?,
        Expr::Const(Cell::Text(text), SqlType::Text) => write_text(out, text.as_str())?,
        Expr::Const(Cell::Int(form), SqlType::Int) => out.push_str(form.as_str())?,
        _ => out.push_str("another")?,
    }
    Ok(())
}

fn write_form(out: &mut String, e: &Expr) -> Result<(), Memory> {
    match e {
        Expr::Lex(e) => {
            out.push_str("lex ")?;
            write_leaf(out, e)
        }
        _ => write_leaf(out, e),
    }
}

fn write_safe(out: &mut String, e: &Expr) -> Result<(), Memory> {
    match e {
        Expr::IriSafe(e) => {
            out.push_str("safe ")?;
            write_form(out, e)
        }
        _ => write_form(out, e),
    }
}

fn write_parts(out: &mut String, parts: &[Expr]) -> Result<(), Memory> {
    for part in parts {
        out.push_str("(")?;
        write_safe(out, part)?;
        out.push_str(")")?;
    }
    Ok(())
}

fn write_side(out: &mut String, e: &Expr) -> Result<(), Memory> {
    match e {
        Expr::Concat(parts) => write_parts(out, parts.as_slice()),
        _ => write_safe(out, e),
    }
}

fn write_equality(out: &mut String, e: &Expr) -> Result<(), Memory> {
    match e {
        Expr::Same(a, b) => {
            write_side(out, a)?;
            out.push_str(" = ")?;
            write_side(out, b)?;
        }
        _ => out.push_str("another")?,
    }
    out.push_str("; ")?;
    Ok(())
}

/// The whole verdict: each of its equalities in order, with a `;` behind it. What a verdict's equality is not made of is `another`.
fn verdict_text(alloc: Global, e: &TermExpr, f: &TermExpr) -> Result<String, Memory> {
    let mut out = String::new(alloc);
    match verdict(alloc, e, f)? {
        Verdict::Never => out.push_str("never")?,
        Verdict::All(list) => {
            for e in list.as_slice() {
                write_equality(&mut out, e)?;
            }
        }
    }
    Ok(out)
}

/// The verdict of two terms that were just made.
fn verdict_of(
    alloc: Global,
    e: Result<TermExpr, Memory>,
    f: Result<TermExpr, Memory>,
) -> Result<String, Fail> {
    let e = e?;
    let f = f?;
    Ok(verdict_text(alloc, &e, &f)?)
}

fn of_two(alloc: Global, first: &str, second: &str) -> Result<String, Fail> {
    verdict_of(alloc, two(alloc, 0, first, 1), two(alloc, 2, second, 3))
}

fn of_fixed(alloc: Global, sign: &str, iri: &str) -> Result<String, Fail> {
    verdict_of(alloc, two(alloc, 0, sign, 1), fixed(alloc, iri))
}

fn of_employee(alloc: Global, iri: &str) -> Result<String, Fail> {
    verdict_of(alloc, employee(alloc), fixed(alloc, iri))
}

#[test]
fn two_templates(rt: HostRuntime) -> Result<(), Fail> {
    let rows = &[
        (
            "-",
            "-",
            "(safe lex c0)('-')(safe lex c1) = (safe lex c2)('-')(safe lex c3); ",
        ),
        ("/", "/", "c0 = c2; c1 = c3; "),
        ("/", "-", "never"),
    ];
    for &(first, second, wanted) in rows {
        told(&rt, second, of_two(rt.alloc(), first, second), wanted)?;
    }
    Ok(())
}

#[test]
fn a_template_and_an_iri(rt: HostRuntime) -> Result<(), Fail> {
    let rows = &[
        ("-", "http://e/x/y/z", "never"),
        ("/", "http://e/x/y/z", "never"),
        ("/", "http://e/x/y", "c0 = 'x'; c1 = 'y'; "),
        (
            "-",
            "http://e/x-y",
            "(safe lex c0)('-')(safe lex c1) = 'x-y'; ",
        ),
    ];
    for &(sign, iri, wanted) in rows {
        told(&rt, iri, of_fixed(rt.alloc(), sign, iri), wanted)?;
    }
    Ok(())
}

#[test]
fn leading_zeros(rt: HostRuntime) -> Result<(), Fail> {
    let rows = &[
        ("http://e/emp/id=7", "c0 = 7; "),
        ("http://e/emp/id=07", "never"),
    ];
    for &(iri, wanted) in rows {
        told(&rt, iri, of_employee(rt.alloc(), iri), wanted)?;
    }
    Ok(())
}

/// Whether the pieces of two columns with a sign between them are separable.
fn is_separable(alloc: Global, sign: &str) -> Result<bool, Fail> {
    let TermExpr::Made(_, pieces) = two(alloc, 0, sign, 1)? else {
        return Err(Fail::new("no pieces"));
    };
    Ok(separable(pieces.as_slice()))
}

#[test]
fn separable_templates(rt: HostRuntime) -> Result<(), Fail> {
    for &(sign, wanted) in &[("/", true), ("-", false), ("%", false), ("", false)] {
        assert!(rt; is_separable(rt.alloc(), sign)? == wanted, "{sign}");
    }
    Ok(())
}
