// And and Or alike, and the lists of their members.
ghost use Rattle.std.specs.Prelude.{◌≡◌, ◌+◌, ◌<◌, ◌++◌, ◌∷◌, [], IfOk, true, false, drop, length, map, option_map, take};
ghost use Rattle.std.specs.List.{list_any};
ghost use Rattle.vkg_conditions.specs.Cases.{junction_of, junction_with};
ghost use Rattle.vkg_conditions.specs.Conditions.{if_so, is_truth as truth_known};
ghost use Rattle.vkg_expr.specs.Expr.{exprs};
ghost use Rattle.vkg_expr.specs.Logic.{truth_const};
ghost use Rattle.vkg_expr.specs.Seen.{expr_seen};

use std::alloc::Global;
use vkg_base::{Box, Items, Memory};
use vkg_cells::{Cell, SqlType};
use vkg_expr::{Expr, copy_exprs};

/// An And or an Or.
#[derive(Clone, Copy)]
pub enum Junction {
    /// All of the members, an And.
    All,
    /// One of them, an Or.
    Any,
}

/// The constant of a truth.
pub fn constant(alloc: Global, truth: bool) -> Result<Box<Expr>, Memory>
    ensures { IfOk result (λ d. expr_seen d ≡ truth_const truth) }
{
    Box::new(alloc, Expr::Const(Cell::Bool(truth), SqlType::Bool))
}

/// The constant of a truth, where something holds.
pub fn truth_if(alloc: Global, holds: bool, value: bool) -> Result<Option<Box<Expr>>, Memory>
    ensures { IfOk result (λ o. option_map expr_seen o ≡ if_so holds (truth_const value)) }
{
    if holds {
        Ok(Some(constant(alloc, value)?))
    } else {
        Ok(None)
    }
}

/// Whether it is the constant of this truth.
pub fn is_truth(truth: bool, e: &Expr) -> bool
    ensures { result ≡ truth_known truth (expr_seen e.now) }
{
    if truth { is_true(e) } else { is_false(e) }
}

fn is_true(e: &Expr) -> bool
    ensures { result ≡ truth_known true (expr_seen e.now) }
{
    match e {
        Expr::Const(Cell::Bool(known), _) => *known,
        _ => false,
    }
}

fn is_false(e: &Expr) -> bool
    ensures { result ≡ truth_known false (expr_seen e.now) }
{
    match e {
        Expr::Const(Cell::Bool(known), _) => !*known,
        _ => false,
    }
}

/// Whether one of them is the constant of this truth.
pub fn any_truth(truth: bool, list: &[Expr]) -> bool
    ensures { result ≡ list_any (truth_known truth) (map expr_seen list.now) }
{
    for e in list {
        if is_truth(truth, e) {
            return true;
        }
    }
    false
}

/// The And or the Or of some: of one it is that one, of none a constant.
#[tactic(auto, using(crate::proofs::ListLemmas::joined_none, crate::proofs::ListLemmas::joined_one, crate::proofs::ListLemmas::joined_more))]
pub fn joined(alloc: Global, sort: Junction, list: Items<Expr>) -> Result<Box<Expr>, Memory>
    ensures { IfOk result (λ d. expr_seen d ≡ junction_of sort (map expr_seen list)) }
{
    let mut list = list;
    if list.len() == 0 {
        return of_none(alloc, sort);
    }
    if list.len() == 1 {
        return Box::new(alloc, list.remove(0));
    }
    several(alloc, sort, list)
}

/// The And or the Or of none.
pub fn of_none(alloc: Global, sort: Junction) -> Result<Box<Expr>, Memory>
    ensures { IfOk result (λ d. expr_seen d ≡ junction_of sort []) }
{
    match sort {
        Junction::All => constant(alloc, true),
        Junction::Any => constant(alloc, false),
    }
}

/// The And or the Or of two or more.
fn several(alloc: Global, sort: Junction, list: Items<Expr>) -> Result<Box<Expr>, Memory>
    ensures { IfOk result (λ d. expr_seen d ≡ junction_with sort (exprs (map expr_seen list))) }
{
    match sort {
        Junction::All => Box::new(alloc, Expr::And(list)),
        Junction::Any => Box::new(alloc, Expr::Or(list)),
    }
}

/// The And or the Or of the list, if there is one.
pub fn rejoined(
    alloc: Global,
    sort: Junction,
    list: Option<Items<Expr>>,
) -> Result<Option<Box<Expr>>, Memory>
    ensures { IfOk result (λ o. option_map expr_seen o ≡ option_map (junction_of sort) (option_map (map expr_seen) list)) }
{
    match list {
        None => Ok(None),
        Some(list) => Ok(Some(joined(alloc, sort, list)?)),
    }
}

/// The list with others in the place of the one at i.
pub fn spliced(
    alloc: Global,
    list: &[Expr],
    i: usize,
    inner: Items<Expr>,
) -> Result<Items<Expr>, Memory>
    requires { i < length list.now }
    ensures { IfOk result (λ r. r ≡ (take i list.now ++ inner) ++ drop (i + 1) list.now) }
{
    let mut all = copy_exprs(alloc, &list[..i])?;
    all.append(inner)?;
    all.append(copy_exprs(alloc, &list[i + 1..])?)?;
    Ok(all)
}

/// A list of one.
pub fn single(alloc: Global, e: Box<Expr>) -> Result<Items<Expr>, Memory>
    ensures { IfOk result (λ es. es ≡ e ∷ []) }
{
    let mut one = Items::new(alloc);
    one.push(e.into_inner())?;
    Ok(one)
}
