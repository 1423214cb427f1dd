// What is told of a column by its place.
ghost use Rattle.std.specs.Prelude.{◌≡◌, IfOk, map, nat_eq};
ghost use Rattle.std.specs.List.{list_any};
ghost use Rattle.vkg_expr.specs.Expr.{Same};
ghost use Rattle.vkg_expr.specs.Logic.{conjuncts as conjuncts_of};
ghost use Rattle.vkg_expr.specs.Seen.{expr_seen};
ghost use Rattle.vkg_sure.specs.ToldAt.{is_set as flag_of, is_tested as null_tested, names as null_with, or_set, says as said_by, unsaid as none_set};

use crate::columns::named_columns;
use std::alloc::Global;
use vkg_base::Memory;
use vkg_expr::{Expr, nulls_on_null};

/// What a plan's columns tell of one of them.
#[derive(Clone, Copy)]
pub enum Told {
    /// Whether it is never NULL, as far as this is seen.
    Here(bool),
    /// It stands behind the plan's columns, there at this place.
    Behind(usize),
}

/// Whether it is one of the columns, and never NULL.
pub fn is_set(told: Told) -> bool
    ensures { result ≡ flag_of told }
{
    match told {
        Told::Here(set) => set,
        Told::Behind(_) => false,
    }
}

/// Nothing is said of the columns.
pub fn unsaid(told: Told) -> Told
    ensures { result ≡ none_set told }
{
    match told {
        Told::Here(_) => Told::Here(false),
        Told::Behind(at) => Told::Behind(at),
    }
}

/// What is told where a condition holds too.
pub fn with_condition(alloc: Global, told: Told, c: &Expr, column: usize) -> Result<Told, Memory>
    ensures { IfOk result (λ t. t ≡ or_set told (list_any (said_by column) (conjuncts_of (expr_seen c.now)))) }
{
    match told {
        Told::Here(true) => Ok(Told::Here(true)),
        Told::Here(false) => Ok(Told::Here(any_says(alloc, c, column)?)),
        Told::Behind(at) => Ok(Told::Behind(at)),
    }
}

/// Whether a conjunct says that the column is not NULL.
#[tactic(auto, using(vkg_columns::proofs::Lists::conjunct_lists))]
fn any_says(alloc: Global, c: &Expr, column: usize) -> Result<bool, Memory>
    ensures { IfOk result (λ b. b ≡ list_any (said_by column) (conjuncts_of (expr_seen c.now))) }
{
    match c {
        Expr::And(list) => one_says(alloc, list.as_slice(), column),
        _ => says(alloc, c, column),
    }
}

fn one_says(alloc: Global, list: &[Expr], column: usize) -> Result<bool, Memory>
    ensures { IfOk result (λ b. b ≡ list_any (said_by column) (map expr_seen list.now)) }
{
    for c in list {
        if says(alloc, c, column)? {
            return Ok(true);
        }
    }
    Ok(false)
}

fn says(alloc: Global, c: &Expr, column: usize) -> Result<bool, Memory>
    ensures { IfOk result (λ b. b ≡ said_by column (expr_seen c.now)) }
{
    match c {
        Expr::Same(a, b) => either_names(alloc, a, b, column),
        Expr::Not(e) => is_tested(alloc, e, column),
        _ => Ok(false),
    }
}

fn either_names(alloc: Global, a: &Expr, b: &Expr, column: usize) -> Result<bool, Memory>
    ensures { IfOk result (λ c. c ≡ said_by column (Same (expr_seen a.now) (expr_seen b.now))) }
{
    if names(alloc, a, column)? {
        return Ok(true);
    }
    names(alloc, b, column)
}

/// Whether it is a test for NULL that the column's being NULL makes true.
fn is_tested(alloc: Global, e: &Expr, column: usize) -> Result<bool, Memory>
    ensures { IfOk result (λ b. b ≡ null_tested column (expr_seen e.now)) }
{
    match e {
        Expr::IsNull(tested) => names(alloc, tested, column),
        _ => Ok(false),
    }
}

/// Whether the expression is NULL where the column is.
fn names(alloc: Global, e: &Expr, column: usize) -> Result<bool, Memory>
    ensures { IfOk result (λ b. b ≡ null_with column (expr_seen e.now)) }
{
    if !nulls_on_null(e) {
        return Ok(false);
    }
    let columns = named_columns(alloc, e)?;
    Ok(is_among(column, columns.as_slice()))
}

fn is_among(column: usize, columns: &[usize]) -> bool
    ensures { result ≡ list_any (λ k. nat_eq column k) columns.now }
{
    columns.iter().any(|named| column == *named)
}
