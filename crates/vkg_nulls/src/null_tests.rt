// What a test for NULL becomes, at its root.
ghost use Rattle.std.specs.Prelude.{◌≡◌, ◌++◌, ◌∷◌, [], IfOk, OnOk, if◌then◌else◌, map, nat_eq, option_map};
ghost use Rattle.std.specs.List.{list_any};
ghost use Rattle.vkg_lists.specs.Sets.{distinct};
ghost use Rattle.vkg_conditions.specs.Conditions.{if_so};
ghost use Rattle.vkg_expr.specs.Expr.{IsNull};
ghost use Rattle.vkg_expr.specs.Seen.{expr_seen};
ghost use Rattle.vkg_expr.specs.Typing.{is_column as column_alone};
ghost use Rattle.vkg_nulls.specs.NullTests.{any_tested, flag_at as flag_of, known_column, null_test as test_of, of_constant, of_strict};

use crate::columns::named_columns;
use std::alloc::Global;
use vkg_base::{Box, Items, Memory, at};
use vkg_conditions::junctions::{Junction, constant, joined, truth_if};
use vkg_conditions::{Change, is_null, is_strict};
use vkg_expr::Expr;

/// The test of a column that is never NULL is false.
#[derive(Drop)]
pub struct OfKnown {
    /// Of each column whether it is never NULL.
    pub flags: Items<bool>,
}

impl Change for OfKnown {
    ghost becomes = { λ c. known_column c.flags };

    fn apply(&self, alloc: Global, e: &Expr) -> Result<Option<Box<Expr>>, Memory> {
        match e {
            Expr::IsNull(tested) => of_known(alloc, self.flags.as_slice(), tested),
            _ => Ok(None),
        }
    }
}

fn of_known(alloc: Global, flags: &[bool], tested: &Expr) -> Result<Option<Box<Expr>>, Memory>
    ensures { IfOk result (λ o. option_map expr_seen o ≡ known_column flags.now (IsNull (expr_seen tested.now))) }
{
    match tested {
        Expr::Col(column) => truth_if(alloc, flag_at(flags, *column), false),
        _ => Ok(None),
    }
}

/// The flag of a column, false past the last one.
fn flag_at(flags: &[bool], column: usize) -> bool
    ensures { result ≡ flag_of flags.now column }
{
    match at(flags, column) {
        None => false,
        Some(flag) => *flag,
    }
}

/// The test of a constant is a truth.
#[derive(Drop)]
pub struct OfConstant;

impl Change for OfConstant {
    ghost becomes = { λ c. of_constant };

    fn apply(&self, alloc: Global, e: &Expr) -> Result<Option<Box<Expr>>, Memory> {
        match e {
            Expr::IsNull(tested) => of_a_constant(alloc, tested),
            _ => Ok(None),
        }
    }
}

fn of_a_constant(alloc: Global, tested: &Expr) -> Result<Option<Box<Expr>>, Memory>
    ensures { IfOk result (λ o. option_map expr_seen o ≡ of_constant (IsNull (expr_seen tested.now))) }
{
    match tested {
        Expr::Const(cell, _) => Ok(Some(constant(alloc, is_null(cell))?)),
        _ => Ok(None),
    }
}

/// The test of what is strict becomes the tests of its columns.
#[derive(Drop)]
pub struct OfStrict;

impl Change for OfStrict {
    ghost becomes = { λ c. of_strict };

    fn apply(&self, alloc: Global, e: &Expr) -> Result<Option<Box<Expr>>, Memory> {
        match e {
            Expr::IsNull(tested) => of_a_strict(alloc, tested),
            _ => Ok(None),
        }
    }
}

fn of_a_strict(alloc: Global, tested: &Expr) -> Result<Option<Box<Expr>>, Memory>
    ensures { IfOk result (λ o. option_map expr_seen o ≡ of_strict (IsNull (expr_seen tested.now))) }
{
    any_column_if(alloc, !is_column(tested) && is_strict(tested), tested)
}

/// Whether one of the expression's columns is NULL, where something holds.
fn any_column_if(alloc: Global, holds: bool, e: &Expr) -> Result<Option<Box<Expr>>, Memory>
    ensures { IfOk result (λ o. option_map expr_seen o ≡ if_so holds (any_tested (expr_seen e.now))) }
{
    if !holds {
        return Ok(None);
    }
    Ok(Some(any_column(alloc, e)?))
}

fn is_column(e: &Expr) -> bool
    ensures { result ≡ column_alone (expr_seen e.now) }
{
    matches!(e, Expr::Col(_))
}

/// Whether one of the expression's columns is NULL.
fn any_column(alloc: Global, e: &Expr) -> Result<Box<Expr>, Memory>
    ensures { IfOk result (λ d. expr_seen d ≡ any_tested (expr_seen e.now)) }
{
    let columns = named_columns(alloc, e)?;
    joined(alloc, Junction::Any, tests(alloc, columns.as_slice())?)
}

/// A test of each column, each once.
fn tests(alloc: Global, columns: &[usize]) -> Result<Items<Expr>, Memory>
    ensures { IfOk result (λ es. map expr_seen es ≡ map test_of (distinct nat_eq columns.now)) }
{
    let mut tests = Items::new(alloc);
    for i in 0..columns.len() {
        push_new(alloc, &mut tests, &columns[..i], columns[i])?;
    }
    Ok(tests)
}

/// Adds the test of a column that is none of those before it.
#[tactic(auto, using(crate::proofs::Lists::one_more))]
fn push_new(
    alloc: Global,
    tests: &mut Items<Expr>,
    before: &[usize],
    column: usize,
) -> Result<(), Memory>
    ensures { OnOk result (map expr_seen tests.new ≡ map expr_seen tests.old ++ (if list_any (λ c. nat_eq c column) before.now then [] else test_of column ∷ [])) }
{
    if before.contains(&column) {
        return Ok(());
    }
    tests.push(null_test(alloc, column)?)?;
    Ok(())
}

fn null_test(alloc: Global, column: usize) -> Result<Expr, Memory>
    ensures { IfOk result (λ e. expr_seen e ≡ test_of column) }
{
    let tested = Box::new(alloc, Expr::Col(column))?;
    Ok(Expr::IsNull(tested))
}
