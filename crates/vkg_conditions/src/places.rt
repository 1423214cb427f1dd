// A change at the first place of an expression to which it applies, in the order of the expression's text.
ghost use Rattle.std.specs.Prelude.{◌≡◌, IfOk, map, option_map};
ghost use Rattle.vkg_conditions.specs.Cases.{exprs_seen, inside as below_root};
ghost use Rattle.vkg_conditions.specs.SimplifyCondition.{first_of as at_first};
ghost use Rattle.vkg_expr.specs.Places.{first_place as at_first_place, first_of_each};
ghost use Rattle.vkg_expr.specs.Seen.{expr_seen};

use crate::change::Change;
use crate::junctions::{single, spliced};
use crate::parts::{over_part, over_parts, with_left, with_right};
use std::alloc::Global;
use vkg_base::{Box, Items, Memory};
use vkg_expr::Expr;

/// The expression changed at the first place to which the change applies, if there is one.
#[cycle(places)]
pub fn first_place<C: Change>(
    alloc: Global,
    change: &C,
    e: &Expr,
) -> Result<Option<Box<Expr>>, Memory>
    ensures { IfOk result (λ o. option_map expr_seen o ≡ at_first_place (C.becomes change.now) (expr_seen e.now)) }
{
    match change.apply(alloc, e)? {
        Some(d) => Ok(Some(d)),
        None => inside(alloc, change, e),
    }
}

#[cycle(places)]
fn inside<C: Change>(alloc: Global, change: &C, e: &Expr) -> Result<Option<Box<Expr>>, Memory>
    ensures { IfOk result (λ o. option_map expr_seen o ≡ below_root (C.becomes change.now) (expr_seen e.now)) }
{
    match e {
        Expr::Col(_) => Ok(None),
        Expr::Const(_, _) => Ok(None),
        Expr::MakeIri(x) => over_part(alloc, e, first_place(alloc, change, x)?),
        Expr::IriOf(_, x) => over_part(alloc, e, first_place(alloc, change, x)?),
        Expr::MakeBlank(x) => over_part(alloc, e, first_place(alloc, change, x)?),
        Expr::MakeLit(x, _) => over_part(alloc, e, first_place(alloc, change, x)?),
        Expr::Lex(x) => over_part(alloc, e, first_place(alloc, change, x)?),
        Expr::IriSafe(x) => over_part(alloc, e, first_place(alloc, change, x)?),
        Expr::IsNull(x) => over_part(alloc, e, first_place(alloc, change, x)?),
        Expr::Not(x) => over_part(alloc, e, first_place(alloc, change, x)?),
        Expr::Ebv(x) => over_part(alloc, e, first_place(alloc, change, x)?),
        Expr::Concat(xs) => over_parts(alloc, e, in_parts(alloc, change, xs.as_slice())?),
        Expr::And(xs) => over_parts(alloc, e, in_parts(alloc, change, xs.as_slice())?),
        Expr::Or(xs) => over_parts(alloc, e, in_parts(alloc, change, xs.as_slice())?),
        Expr::Coalesce(xs) => over_parts(alloc, e, in_parts(alloc, change, xs.as_slice())?),
        Expr::Sparql(_, xs) => over_parts(alloc, e, in_parts(alloc, change, xs.as_slice())?),
        Expr::Same(a, b) => match with_left(alloc, first_place(alloc, change, a)?, b)? {
            Some(d) => Ok(Some(d)),
            None => with_right(alloc, a, first_place(alloc, change, b)?),
        },
    }
}

#[cycle(places)]
fn in_parts<C: Change>(
    alloc: Global,
    change: &C,
    list: &[Expr],
) -> Result<Option<Items<Expr>>, Memory>
    ensures { IfOk result (λ o. option_map exprs_seen o ≡ first_of_each (C.becomes change.now) (exprs_seen list.now)) }
{
    for i in 0..list.len() {
        if let Some(d) = first_place(alloc, change, &list[i])? {
            return Ok(Some(spliced(alloc, list, i, single(alloc, d)?)?));
        }
    }
    Ok(None)
}

/// The expressions changed at the first place of the first that has one, if one does.
pub fn in_list<C: Change>(
    alloc: Global,
    change: &C,
    list: &[Expr],
) -> Result<Option<Items<Expr>>, Memory>
    ensures { IfOk result (λ o. option_map (map expr_seen) o ≡ at_first (C.becomes change.now) (map expr_seen list.now)) }
{
    in_parts(alloc, change, list)
}
