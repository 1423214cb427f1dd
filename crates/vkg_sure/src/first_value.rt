// What an expression is that is never NULL.
ghost use Rattle.std.specs.Prelude.{◌≡◌, IfOk, map, option_map};
ghost use Rattle.vkg_conditions.specs.Conditions.{if_so};
ghost use Rattle.vkg_expr.specs.Expr.{exprs};
ghost use Rattle.vkg_expr.specs.Seen.{expr_seen};
ghost use Rattle.vkg_sure.specs.FirstKnown.{first_value as value_first, of_first as value_of_first};
ghost use Rattle.vkg_sure.specs.NeverNull.{is_known as known_by};

use crate::own_columns::OwnColumns;
use std::alloc::Global;
use vkg_base::{Box, Memory};
use vkg_expr::{Expr, copy_boxed};

/// The expression itself, or what the first member of a COALESCE is, if it is strict and over columns alone that are never NULL.
#[cycle(first)]
#[tactic(auto, using(crate::proofs::Lists::coalesce_seen))]
pub fn first_value(alloc: Global, own: &OwnColumns, e: &Expr) -> Result<Option<Box<Expr>>, Memory>
    ensures { IfOk result (λ o. option_map expr_seen o ≡ value_first own.now (expr_seen e.now)) }
{
    match e {
        Expr::Coalesce(list) => of_first(alloc, own, list.as_slice()),
        _ => if_known(alloc, own, e),
    }
}

#[cycle(first)]
#[tactic(auto, using(crate::proofs::Lists::head_first))]
fn of_first(alloc: Global, own: &OwnColumns, list: &[Expr]) -> Result<Option<Box<Expr>>, Memory>
    ensures { IfOk result (λ o. option_map expr_seen o ≡ value_of_first own.now (exprs (map expr_seen list.now))) }
{
    match list {
        [] => Ok(None),
        [e, ..] => first_value(alloc, own, e),
    }
}

fn if_known(alloc: Global, own: &OwnColumns, e: &Expr) -> Result<Option<Box<Expr>>, Memory>
    ensures { IfOk result (λ o. option_map expr_seen o ≡ if_so (known_by own.now (expr_seen e.now)) (expr_seen e.now)) }
{
    if own.is_known(alloc, e)? {
        return Ok(Some(copy_boxed(alloc, e)?));
    }
    Ok(None)
}
