// The texts of expressions.
ghost use Rattle.std.specs.Prelude.{◌≡◌, IfOk, map};
ghost use Rattle.vkg_expr.specs.Expr.{exprs};
ghost use Rattle.vkg_expr.specs.Seen.{expr_seen};
ghost use Rattle.vkg_sqltext.specs.Text.{column_text as column_name, expr_text as text_of_expr, expr_texts as texts_of_exprs};

use crate::calls::{call_list, call_literal, call_one, call_two};
use crate::constants::{constant_text, operator_name};
use crate::lists::{push_column, quoted};
use std::alloc::Global;
use vkg_base::{Items, Memory, Text};
use vkg_expr::Expr;

#[cycle(expr_text)]
pub fn expr_text(alloc: Global, e: &Expr) -> Result<Text, Memory>
    ensures { IfOk result (λ t. t ≡ text_of_expr (expr_seen e.now)) }
{
    match e {
        Expr::Col(at) => column_text(alloc, *at),
        Expr::Const(cell, kind) => constant_text(alloc, cell, *kind),
        Expr::MakeIri(e) => call_one(alloc, "IRI", expr_text(alloc, e)),
        Expr::IriOf(base, e) => {
            call_two(
                alloc,
                "IRI_OF",
                quoted(alloc, base.as_str()),
                expr_text(alloc, e),
            )
        }
        Expr::MakeBlank(e) => call_one(alloc, "BLANK", expr_text(alloc, e)),
        Expr::MakeLit(e, annotation) => call_literal(alloc, expr_text(alloc, e), annotation),
        Expr::Lex(e) => call_one(alloc, "LEX", expr_text(alloc, e)),
        Expr::IriSafe(e) => call_one(alloc, "SAFE", expr_text(alloc, e)),
        Expr::Concat(list) => call_list(alloc, "CONCAT", expr_texts(alloc, list.as_slice())),
        Expr::Same(a, b) => call_two(alloc, "SAME", expr_text(alloc, a), expr_text(alloc, b)),
        Expr::IsNull(e) => call_one(alloc, "IS_NULL", expr_text(alloc, e)),
        Expr::Not(e) => call_one(alloc, "NOT", expr_text(alloc, e)),
        Expr::And(list) => call_list(alloc, "AND", expr_texts(alloc, list.as_slice())),
        Expr::Or(list) => call_list(alloc, "OR", expr_texts(alloc, list.as_slice())),
        Expr::Coalesce(list) => call_list(alloc, "COALESCE", expr_texts(alloc, list.as_slice())),
        Expr::Sparql(operator, list) => {
            call_list(
                alloc,
                operator_name(*operator),
                expr_texts(alloc, list.as_slice()),
            )
        }
        Expr::Ebv(e) => call_one(alloc, "EBV", expr_text(alloc, e)),
    }
}

#[cycle(expr_text)]
pub fn expr_texts(alloc: Global, list: &[Expr]) -> Result<Items<Text>, Memory>
    ensures { IfOk result (λ ts. ts ≡ texts_of_exprs (exprs (map expr_seen list.now))) }
{
    let mut texts = Items::new(alloc);
    for e in list {
        texts.push(expr_text(alloc, e)?)?;
    }
    Ok(texts)
}

fn column_text(alloc: Global, place: usize) -> Result<Text, Memory>
    ensures { IfOk result (λ t. t ≡ column_name place) }
{
    let mut out = String::new(alloc);
    push_column(&mut out, place)?;
    Ok(Text::from_string(out))
}
