// The value of an expression on a row.
ghost use Rattle.std.specs.Prelude.{◌≡◌, All, IfOk, map};
ghost use Rattle.vkg_expr.specs.Expr.{exprs};
ghost use Rattle.vkg_expr.specs.Laws.{IsOfItsKind, IsTyped};
ghost use Rattle.vkg_expr.specs.Seen.{expr_seen};
ghost use Rattle.vkg_expr.specs.Value.{value_of, values_of};

use crate::row::Row;
use crate::steps::{after_both, after_each, after_one};
use crate::value::Value;
use std::alloc::Global;
use vkg_base::{Items, Memory};
use vkg_cells::{Cell, CellRef};
use vkg_expr::Expr;

/// The value of an expression that is typed on the row, as `evaluated` has it; a lent one is copied.
pub fn eval(alloc: Global, e: &Expr, row: &Row<'_>) -> Result<Cell, Memory>
    requires { IsTyped (expr_seen e.now) row.now }
    ensures value { IfOk result (λ c. c ≡ value_of (expr_seen e.now) row.now) }
    ensures kind { IfOk result (IsOfItsKind (expr_seen e.now) row.now) }
{
    let value = evaluated(alloc, e, row)?;
    value.into_cell(alloc)
}

/// The value of an expression that is typed on the row; unknown and error are NULL. A column and a constant are lent. Over columns
/// whose kinds the cells have, it is of the expression's kind or NULL.
#[tactic(auto, using(vkg_expr::proofs::ValueFits::fitting))]
pub fn evaluated<'s>(alloc: Global, e: &'s Expr, row: &'s Row<'_>) -> Result<Value<'s>, Memory>
    requires { IsTyped (expr_seen e.now) row.now }
    ensures value { IfOk result (λ c. c ≡ value_of (expr_seen e.now) row.now) }
    ensures kind { IfOk result (IsOfItsKind (expr_seen e.now) row.now) }
{
    eval_on(alloc, e, row)
}

#[cycle(eval)]
fn eval_on<'s>(alloc: Global, e: &'s Expr, row: &'s Row<'_>) -> Result<Value<'s>, Memory>
    requires { IsTyped (expr_seen e.now) row.now }
    ensures { IfOk result (λ c. c ≡ value_of (expr_seen e.now) row.now) }
{
    match e {
        Expr::Col(at) => Ok(Value::lent(row.cell(*at))),
        Expr::Const(cell, _) => Ok(Value::lent(CellRef::of(cell))),
        Expr::MakeIri(part) => after_one(alloc, e, eval_on(alloc, part, row)),
        Expr::IriOf(_, part) => after_one(alloc, e, eval_on(alloc, part, row)),
        Expr::MakeBlank(part) => after_one(alloc, e, eval_on(alloc, part, row)),
        Expr::MakeLit(part, _) => after_one(alloc, e, eval_on(alloc, part, row)),
        Expr::Lex(part) => after_one(alloc, e, eval_on(alloc, part, row)),
        Expr::IriSafe(part) => after_one(alloc, e, eval_on(alloc, part, row)),
        Expr::IsNull(part) => after_one(alloc, e, eval_on(alloc, part, row)),
        Expr::Not(part) => after_one(alloc, e, eval_on(alloc, part, row)),
        Expr::Ebv(part) => after_one(alloc, e, eval_on(alloc, part, row)),
        Expr::Same(a, b) => after_both(eval_on(alloc, a, row), eval_on(alloc, b, row)),
        Expr::Concat(list) => after_each(alloc, e, eval_each(alloc, list.as_slice(), row)),
        Expr::And(list) => after_each(alloc, e, eval_each(alloc, list.as_slice(), row)),
        Expr::Or(list) => after_each(alloc, e, eval_each(alloc, list.as_slice(), row)),
        Expr::Coalesce(list) => after_each(alloc, e, eval_each(alloc, list.as_slice(), row)),
        Expr::Sparql(_, list) => after_each(alloc, e, eval_each(alloc, list.as_slice(), row)),
    }
}

/// The values of some expressions that are typed on the row.
#[cycle(eval)]
fn eval_each<'s>(
    alloc: Global,
    list: &'s [Expr],
    row: &'s Row<'_>,
) -> Result<Items<Value<'s>>, Memory>
    requires { All (λ e. IsTyped (expr_seen e) row.now) list.now }
    ensures { IfOk result (λ cs. cs ≡ values_of (exprs (map expr_seen list.now)) row.now) }
{
    let mut values = Items::new(alloc);
    for e in list {
        values.push(eval_on(alloc, e, row)?)?;
    }
    Ok(values)
}

/// The row of the values of some expressions that are typed on a row.
pub fn made<'s>(alloc: Global, list: &'s [Expr], row: &'s Row<'_>) -> Result<Row<'s>, Memory>
    requires { All (λ e. IsTyped (expr_seen e) row.now) list.now }
    ensures { IfOk result (λ cs. cs ≡ values_of (exprs (map expr_seen list.now)) row.now) }
{
    let values = eval_each(alloc, list, row)?;
    Ok(Row::from_values(values))
}
