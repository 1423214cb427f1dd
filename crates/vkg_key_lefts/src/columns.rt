// The columns that an expression names.
ghost use Rattle.std.specs.Prelude.{◌≡◌, ◌∷◌, [], IfOk, map};
ghost use Rattle.vkg_expr.specs.Expr.{exprs};
ghost use Rattle.vkg_expr.specs.Seen.{expr_seen};
ghost use Rattle.vkg_expr.specs.Strict.{columns as columns_named, columns_each as columns_of_all};

use std::alloc::Global;
use vkg_base::{Items, Memory};
use vkg_expr::Expr;

/// The places of the columns, counted from 0, in the order of the expression's text.
#[cycle(columns)]
pub fn named_columns(alloc: Global, e: &Expr) -> Result<Items<usize>, Memory>
    ensures { IfOk result (λ cs. cs ≡ columns_named (expr_seen e.now)) }
{
    match e {
        Expr::Col(column) => single(alloc, *column),
        Expr::Const(_, _) => Ok(Items::new(alloc)),
        Expr::MakeIri(x) => named_columns(alloc, x),
        Expr::IriOf(_, x) => named_columns(alloc, x),
        Expr::MakeBlank(x) => named_columns(alloc, x),
        Expr::MakeLit(x, _) => named_columns(alloc, x),
        Expr::Lex(x) => named_columns(alloc, x),
        Expr::IriSafe(x) => named_columns(alloc, x),
        Expr::IsNull(x) => named_columns(alloc, x),
        Expr::Not(x) => named_columns(alloc, x),
        Expr::Ebv(x) => named_columns(alloc, x),
        Expr::Concat(xs) => columns_of_each(alloc, xs.as_slice()),
        Expr::And(xs) => columns_of_each(alloc, xs.as_slice()),
        Expr::Or(xs) => columns_of_each(alloc, xs.as_slice()),
        Expr::Coalesce(xs) => columns_of_each(alloc, xs.as_slice()),
        Expr::Sparql(_, xs) => columns_of_each(alloc, xs.as_slice()),
        Expr::Same(a, b) => {
            let mut columns = named_columns(alloc, a)?;
            columns.append(named_columns(alloc, b)?)?;
            Ok(columns)
        }
    }
}

#[cycle(columns)]
fn columns_of_each(alloc: Global, list: &[Expr]) -> Result<Items<usize>, Memory>
    ensures { IfOk result (λ cs. cs ≡ columns_of_all (exprs (map expr_seen list.now))) }
{
    let mut columns = Items::new(alloc);
    for e in list {
        columns.append(named_columns(alloc, e)?)?;
    }
    Ok(columns)
}

fn single(alloc: Global, column: usize) -> Result<Items<usize>, Memory>
    ensures { IfOk result (λ cs. cs ≡ column ∷ []) }
{
    let mut one = Items::new(alloc);
    one.push(column)?;
    Ok(one)
}
