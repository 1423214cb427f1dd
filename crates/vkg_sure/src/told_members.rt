// What the members of an And tell of each other.
ghost use Rattle.std.specs.Prelude.{◌≡◌, IfOk, map, option_and_then, option_map};
ghost use Rattle.vkg_conditions.specs.SimplifyCondition.{first_conjunct};
ghost use Rattle.vkg_equalities.specs.Recognised.{as_column as column_in};
ghost use Rattle.vkg_expr.specs.Seen.{expr_seen};
ghost use Rattle.vkg_sure.specs.KnownMember.{is_that as that_column, known_member_of, known_test, said_column as column_said, tested_column as column_tested, told_by as told_by_some, told_in as told_in_member};

use std::alloc::Global;
use vkg_base::{Box, Items, Memory};
use vkg_conditions::junctions::{Junction, rejoined, single, spliced, truth_if};
use vkg_conditions::{Change, first_place};
use vkg_expr::Expr;

/// An And with the first test for NULL false of a column of which another member says that it is not NULL, if there is one.
#[tactic(auto, using(vkg_conditions::proofs::ListLemmas::junctions_seen))]
pub fn told_members(alloc: Global, e: &Expr) -> Result<Option<Box<Expr>>, Memory>
    ensures { IfOk result (λ o. option_map expr_seen o ≡ known_member_of (expr_seen e.now)) }
{
    match e {
        Expr::And(list) => rejoined(
            alloc,
            Junction::All,
            told_by(alloc, list.as_slice(), list.as_slice())?,
        ),
        _ => Ok(None),
    }
}

/// All the members, by what the first of some says that tells of another.
fn told_by(alloc: Global, all: &[Expr], some: &[Expr]) -> Result<Option<Items<Expr>>, Memory>
    ensures { IfOk result (λ o. option_map (map expr_seen) o ≡ told_by_some (map expr_seen all.now) (map expr_seen some.now)) }
{
    for e in some {
        if let Some(told) = told_by_one(alloc, all, e)? {
            return Ok(Some(told));
        }
    }
    Ok(None)
}

fn told_by_one(alloc: Global, all: &[Expr], e: &Expr) -> Result<Option<Items<Expr>>, Memory>
    ensures { IfOk result (λ o. option_map (map expr_seen) o ≡ option_and_then (λ at. first_conjunct (told_in_member at) (map expr_seen all.now)) (column_said (expr_seen e.now))) }
{
    match said_column(e) {
        None => Ok(None),
        Some(column) => first_told(alloc, column, all),
    }
}

/// The members with the first test of a column false in one that does not say that it is not NULL.
fn first_told(alloc: Global, column: usize, list: &[Expr]) -> Result<Option<Items<Expr>>, Memory>
    ensures { IfOk result (λ o. option_map (map expr_seen) o ≡ first_conjunct (told_in_member column) (map expr_seen list.now)) }
{
    for i in 0..list.len() {
        if let Some(d) = told_in(alloc, column, &list[i])? {
            return Ok(Some(spliced(alloc, list, i, single(alloc, d)?)?));
        }
    }
    Ok(None)
}

fn told_in(alloc: Global, column: usize, e: &Expr) -> Result<Option<Box<Expr>>, Memory>
    ensures { IfOk result (λ o. option_map expr_seen o ≡ told_in_member column (expr_seen e.now)) }
{
    if is_that(column, said_column(e)) {
        return Ok(None);
    }
    first_place(alloc, &KnownTest { column }, e)
}

/// The test of a column is false.
#[derive(Drop)]
struct KnownTest {
    column: usize,
}

impl Change for KnownTest {
    ghost becomes = { λ c. known_test c.column };

    fn apply(&self, alloc: Global, e: &Expr) -> Result<Option<Box<Expr>>, Memory> {
        truth_if(alloc, is_that(self.column, tested_column(e)), false)
    }
}

// ---- columns that are tested

fn is_that(column: usize, other: Option<usize>) -> bool
    ensures { result ≡ that_column column other }
{
    match other {
        Some(other) => column == other,
        None => false,
    }
}

/// The column of which it says that it is not NULL.
fn said_column(e: &Expr) -> Option<usize>
    ensures { result ≡ column_said (expr_seen e.now) }
{
    match e {
        Expr::Not(tested) => tested_column(tested),
        _ => None,
    }
}

/// The column that it tests for NULL.
fn tested_column(e: &Expr) -> Option<usize>
    ensures { result ≡ column_tested (expr_seen e.now) }
{
    match e {
        Expr::IsNull(tested) => as_column(tested),
        _ => None,
    }
}

fn as_column(e: &Expr) -> Option<usize>
    ensures { result ≡ column_in (expr_seen e.now) }
{
    match e {
        Expr::Col(column) => Some(*column),
        _ => None,
    }
}
