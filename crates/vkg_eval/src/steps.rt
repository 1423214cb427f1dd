// The outermost step of an expression, on the values of its parts.
ghost use Rattle.std.specs.Prelude.{◌≡◌, IfOk, IsOkAnd};
ghost use Rattle.vkg_cells.specs.Order.{same as same_cells};
ghost use Rattle.vkg_expr.specs.Value.{truth_cell};
ghost use Rattle.vkg_expr.specs.Seen.{expr_seen};
ghost use Rattle.vkg_expr.specs.Steps.{TakesEach, TakesOne, of_each, of_one};

use crate::value::Value;
use crate::{cells, lists};
use std::alloc::Global;
use vkg_base::{Items, Memory};
use vkg_cells::Cell;
use vkg_expr::Expr;

/// Of an expression of one part, on the part's value.
pub fn after_one<'s>(
    alloc: Global,
    e: &Expr,
    value: Result<Value<'s>, Memory>,
) -> Result<Value<'s>, Memory>
    requires { IfOk value (TakesOne (expr_seen e.now)) }
    ensures { IfOk result (λ c. IsOkAnd value.entry (λ v. c ≡ of_one (expr_seen e.now) v)) }
{
    let value = value?;
    let cell = step_of_one(alloc, e, &value)?;
    Ok(Value::own(cell))
}

/// Of an expression of a list of parts, on their values.
pub fn after_each<'s>(
    alloc: Global,
    e: &Expr,
    values: Result<Items<Value<'s>>, Memory>,
) -> Result<Value<'s>, Memory>
    requires { IfOk values (TakesEach (expr_seen e.now)) }
    ensures { IfOk result (λ c. IsOkAnd values.entry (λ vs. c ≡ of_each (expr_seen e.now) vs)) }
{
    let values = values?;
    let cell = step_of_each(alloc, e, values)?;
    Ok(Value::own(cell))
}

/// SQL's equality of two values.
pub fn after_both<'s>(
    a: Result<Value<'s>, Memory>,
    b: Result<Value<'s>, Memory>,
) -> Result<Value<'s>, Memory>
    ensures { IfOk result (λ c. IsOkAnd a.entry (λ v. IsOkAnd b.entry (λ w. c ≡ truth_cell (same_cells v w)))) }
{
    let a = a?;
    let b = b?;
    Ok(Value::own(cells::equality(&a.shown(), &b.shown())))
}

fn step_of_one(alloc: Global, e: &Expr, value: &Value<'_>) -> Result<Cell, Memory>
    requires { TakesOne (expr_seen e.now) value.now }
    ensures { IfOk result (λ c. c ≡ of_one (expr_seen e.now) value.now) }
{
    match e {
        Expr::MakeIri(_) => cells::iri(alloc, &value.shown()),
        Expr::IriOf(base, _) => cells::iri_of(alloc, base, &value.shown()),
        Expr::MakeBlank(_) => cells::blank(alloc, &value.shown()),
        Expr::MakeLit(_, annotation) => cells::literal(alloc, &value.shown(), annotation),
        Expr::Lex(_) => cells::lexical(alloc, &value.shown()),
        Expr::IriSafe(_) => cells::safe(alloc, &value.shown()),
        Expr::IsNull(_) => Ok(Cell::Bool(cells::is_null(&value.shown()))),
        Expr::Not(_) => Ok(cells::not(&value.shown())),
        Expr::Ebv(_) => value.truth_of_term(alloc),
        Expr::Col(_) => unreachable!(),
        Expr::Const(_, _) => unreachable!(),
        Expr::Concat(_) => unreachable!(),
        Expr::Same(_, _) => unreachable!(),
        Expr::And(_) => unreachable!(),
        Expr::Or(_) => unreachable!(),
        Expr::Coalesce(_) => unreachable!(),
        Expr::Sparql(_, _) => unreachable!(),
    }
}

fn step_of_each(alloc: Global, e: &Expr, values: Items<Value<'_>>) -> Result<Cell, Memory>
    requires { TakesEach (expr_seen e.now) values }
    ensures { IfOk result (λ c. c ≡ of_each (expr_seen e.now) values.entry) }
{
    match e {
        Expr::Concat(_) => lists::concatenation(alloc, values.as_slice()),
        Expr::And(_) => Ok(lists::all(values.as_slice())),
        Expr::Or(_) => Ok(lists::any(values.as_slice())),
        Expr::Coalesce(_) => lists::first_known(alloc, values.as_slice()),
        Expr::Sparql(operator, _) => {
            let values = lists::into_cells(alloc, values)?;
            cells::operation(alloc, *operator, values.as_slice())
        }
        _ => unreachable!(),
    }
}
