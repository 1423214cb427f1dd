// Expressions in the place of columns.
ghost use Rattle.std.specs.Prelude.{◌≡◌, IfOk, map};
ghost use Rattle.vkg_columns.specs.Columns.{at_place};
ghost use Rattle.vkg_expr.specs.Expr.{exprs};
ghost use Rattle.vkg_expr.specs.Seen.{expr_seen};
ghost use Rattle.vkg_expr.specs.Strict.{put as put_in, put_each};

use std::alloc::Global;
use vkg_base::{Box, Items, Memory};
use vkg_cells::{Cell, SqlType};
use vkg_expr::{Expr, Shared};

/// The expression with those of a list in the place of its columns, NULL past the end of the list.
#[cycle(put)]
pub fn put(alloc: Global, e: &Expr, by: &[Expr]) -> Result<Expr, Memory>
    ensures { IfOk result (λ r. expr_seen r ≡ put_in (at_place (map expr_seen by.now)) (expr_seen e.now)) }
{
    match e {
        Expr::Col(at) => placed(alloc, by, *at),
        Expr::Const(cell, kind) => Ok(Expr::Const(cell.copy()?, *kind)),
        Expr::MakeIri(e) => Ok(Expr::MakeIri(put_shared(alloc, e, by)?)),
        Expr::IriOf(base, e) => {
            let base = base.copy()?;
            Ok(Expr::IriOf(base, put_boxed(alloc, e, by)?))
        }
        Expr::MakeBlank(e) => Ok(Expr::MakeBlank(put_shared(alloc, e, by)?)),
        Expr::MakeLit(e, annotation) => {
            let e = put_shared(alloc, e, by)?;
            Ok(Expr::MakeLit(e, annotation.copy()?))
        }
        Expr::Lex(e) => Ok(Expr::Lex(put_boxed(alloc, e, by)?)),
        Expr::IriSafe(e) => Ok(Expr::IriSafe(put_boxed(alloc, e, by)?)),
        Expr::Concat(list) => Ok(Expr::Concat(put_list(alloc, list.as_slice(), by)?)),
        Expr::Same(a, b) => {
            let a = put_boxed(alloc, a, by)?;
            Ok(Expr::Same(a, put_boxed(alloc, b, by)?))
        }
        Expr::IsNull(e) => Ok(Expr::IsNull(put_boxed(alloc, e, by)?)),
        Expr::Not(e) => Ok(Expr::Not(put_shared(alloc, e, by)?)),
        Expr::And(list) => Ok(Expr::And(put_list(alloc, list.as_slice(), by)?)),
        Expr::Or(list) => Ok(Expr::Or(put_list(alloc, list.as_slice(), by)?)),
        Expr::Coalesce(list) => Ok(Expr::Coalesce(put_list(alloc, list.as_slice(), by)?)),
        Expr::Sparql(operator, list) => {
            Ok(Expr::Sparql(*operator, put_list(alloc, list.as_slice(), by)?))
        }
        Expr::Ebv(e) => Ok(Expr::Ebv(put_boxed(alloc, e, by)?)),
    }
}

#[cycle(put)]
fn put_boxed(alloc: Global, e: &Expr, by: &[Expr]) -> Result<Box<Expr>, Memory>
    ensures { IfOk result (λ r. expr_seen r ≡ put_in (at_place (map expr_seen by.now)) (expr_seen e.now)) }
{
    Box::new(alloc, put(alloc, e, by)?)
}

#[cycle(put)]
fn put_shared(alloc: Global, e: &Expr, by: &[Expr]) -> Result<Shared<Expr>, Memory>
    ensures { IfOk result (λ r. expr_seen r ≡ put_in (at_place (map expr_seen by.now)) (expr_seen e.now)) }
{
    Shared::new(alloc, put(alloc, e, by)?)
}

#[cycle(put)]
fn put_list(alloc: Global, list: &[Expr], by: &[Expr]) -> Result<Items<Expr>, Memory>
    ensures { IfOk result (λ es. exprs (map expr_seen es) ≡ put_each (at_place (map expr_seen by.now)) (exprs (map expr_seen list.now))) }
{
    let mut done = Items::new(alloc);
    for e in list {
        done.push(put(alloc, e, by)?)?;
    }
    Ok(done)
}

/// The expression at a place of a list, NULL past its end.
#[tactic(auto, using(crate::proofs::Lists::place))]
fn placed(alloc: Global, by: &[Expr], at: usize) -> Result<Expr, Memory>
    ensures { IfOk result (λ e. expr_seen e ≡ at_place (map expr_seen by.now) at) }
{
    match by.get(at) {
        Some(e) => e.copy(alloc),
        None => Ok(Expr::Const(Cell::Null, SqlType::Text)),
    }
}
