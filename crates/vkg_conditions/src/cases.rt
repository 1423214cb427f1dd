// One step that makes a condition simpler, at its root.
ghost use Rattle.std.specs.Prelude.{◌≡◌, IfOk, map, option_map};
ghost use Rattle.vkg_conditions.specs.Cases.{is_junction, junction_of, step_of};
ghost use Rattle.vkg_conditions.specs.Conditions.{deciding as decided, flat as made_flat, flattened as flattened_list, negated as negation_of, neutral as without_neutral, repeated as without_repeated, twice_negated as without_two};
ghost use Rattle.vkg_expr.specs.Expr.{Const, Not};
ghost use Rattle.vkg_expr.specs.Seen.{expr_seen};

use crate::change::Change;
use crate::junctions::{Junction, any_truth, constant, of_none, rejoined, truth_if};
use crate::lists::{spread, without_repeat, without_truth};
use std::alloc::Global;
use vkg_base::{Box, Memory};
use vkg_cells::{Cell, SqlType};
use vkg_expr::{Expr, copy_boxed};

/// The steps, in the order in which they are tried.
#[derive(Clone, Copy)]
pub enum Case {
    /// False decides an And, true an Or.
    Deciding,
    /// True adds nothing to an And, false nothing to an Or.
    Neutral,
    /// The negation of a constant.
    Negated,
    /// An And or Or of none, of one, or with another of its sort in it.
    Flat,
    /// The negation of a negation.
    TwiceNegated,
    /// A member that is there before.
    Repeated,
}

impl Change for Case {
    ghost becomes = { step_of };

    fn apply(&self, alloc: Global, e: &Expr) -> Result<Option<Box<Expr>>, Memory> {
        match self {
            Case::Deciding => deciding(alloc, e),
            Case::Neutral => neutral(alloc, e),
            Case::Negated => negated(alloc, e),
            Case::Flat => flat(alloc, e),
            Case::TwiceNegated => twice_negated(alloc, e),
            Case::Repeated => repeated(alloc, e),
        }
    }
}

#[tactic(auto, using(crate::proofs::ListLemmas::junctions_seen))]
fn deciding(alloc: Global, e: &Expr) -> Result<Option<Box<Expr>>, Memory>
    ensures { IfOk result (λ o. option_map expr_seen o ≡ decided (expr_seen e.now)) }
{
    match e {
        Expr::And(list) => truth_if(alloc, any_truth(false, list.as_slice()), false),
        Expr::Or(list) => truth_if(alloc, any_truth(true, list.as_slice()), true),
        _ => Ok(None),
    }
}

#[tactic(auto, using(crate::proofs::ListLemmas::junctions_seen))]
fn neutral(alloc: Global, e: &Expr) -> Result<Option<Box<Expr>>, Memory>
    ensures { IfOk result (λ o. option_map expr_seen o ≡ without_neutral (expr_seen e.now)) }
{
    match e {
        Expr::And(list) => {
            let rest = without_truth(alloc, true, list.as_slice())?;
            rejoined(alloc, Junction::All, rest)
        }
        Expr::Or(list) => {
            let rest = without_truth(alloc, false, list.as_slice())?;
            rejoined(alloc, Junction::Any, rest)
        }
        _ => Ok(None),
    }
}

fn negated(alloc: Global, e: &Expr) -> Result<Option<Box<Expr>>, Memory>
    ensures { IfOk result (λ o. option_map expr_seen o ≡ negation_of (expr_seen e.now)) }
{
    match e {
        Expr::Not(part) => negation(alloc, part),
        _ => Ok(None),
    }
}

/// The negation of an expression that is a constant.
fn negation(alloc: Global, e: &Expr) -> Result<Option<Box<Expr>>, Memory>
    ensures { IfOk result (λ o. option_map expr_seen o ≡ negation_of (Not (expr_seen e.now))) }
{
    match e {
        Expr::Const(cell, kind) => negated_cell(alloc, cell, *kind),
        _ => Ok(None),
    }
}

fn negated_cell(alloc: Global, cell: &Cell, kind: SqlType) -> Result<Option<Box<Expr>>, Memory>
    ensures { IfOk result (λ o. option_map expr_seen o ≡ negation_of (Not (Const cell.now kind))) }
{
    match cell {
        Cell::Bool(known) => Ok(Some(constant(alloc, !*known)?)),
        Cell::Null => Ok(Some(Box::new(alloc, Expr::Const(Cell::Null, kind))?)),
        _ => Ok(None),
    }
}

#[tactic(auto, using(crate::proofs::ListLemmas::junctions_seen))]
fn flat(alloc: Global, e: &Expr) -> Result<Option<Box<Expr>>, Memory>
    ensures { IfOk result (λ o. option_map expr_seen o ≡ made_flat (expr_seen e.now)) }
{
    match e {
        Expr::And(list) => flattened(alloc, Junction::All, list.as_slice()),
        Expr::Or(list) => flattened(alloc, Junction::Any, list.as_slice()),
        _ => Ok(None),
    }
}

#[tactic(auto, using(crate::proofs::ListLemmas::one_of))]
fn flattened(alloc: Global, sort: Junction, list: &[Expr]) -> Result<Option<Box<Expr>>, Memory>
    ensures { IfOk result (λ o. option_map expr_seen o ≡ flattened_list (junction_of sort) (is_junction sort) (map expr_seen list.now)) }
{
    match list {
        [] => Ok(Some(of_none(alloc, sort)?)),
        [e] => Ok(Some(copy_boxed(alloc, e)?)),
        [_, _, ..] => rejoined(alloc, sort, spread(alloc, sort, list)?),
    }
}

fn twice_negated(alloc: Global, e: &Expr) -> Result<Option<Box<Expr>>, Memory>
    ensures { IfOk result (λ o. option_map expr_seen o ≡ without_two (expr_seen e.now)) }
{
    match e {
        Expr::Not(part) => negated_part(alloc, part),
        _ => Ok(None),
    }
}

/// What an expression negates.
fn negated_part(alloc: Global, e: &Expr) -> Result<Option<Box<Expr>>, Memory>
    ensures { IfOk result (λ o. option_map expr_seen o ≡ without_two (Not (expr_seen e.now))) }
{
    match e {
        Expr::Not(part) => Ok(Some(copy_boxed(alloc, part)?)),
        _ => Ok(None),
    }
}

#[tactic(auto, using(crate::proofs::ListLemmas::junctions_seen))]
fn repeated(alloc: Global, e: &Expr) -> Result<Option<Box<Expr>>, Memory>
    ensures { IfOk result (λ o. option_map expr_seen o ≡ without_repeated (expr_seen e.now)) }
{
    match e {
        Expr::And(list) => {
            rejoined(
                alloc,
                Junction::All,
                without_repeat(alloc, list.as_slice())?,
            )
        }
        Expr::Or(list) => {
            rejoined(
                alloc,
                Junction::Any,
                without_repeat(alloc, list.as_slice())?,
            )
        }
        _ => Ok(None),
    }
}
