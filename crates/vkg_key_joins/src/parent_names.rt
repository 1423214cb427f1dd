// The columns of the table that a foreign key refers to, named in the table that has the foreign key.
ghost use Rattle.std.specs.Prelude.{◌≡◌, IfOk, map};
ghost use Rattle.vkg_columns.specs.Columns.{at_place};
ghost use Rattle.vkg_expr.specs.Expr.{IsNull, Not};
ghost use Rattle.vkg_expr.specs.Logic.{and_then as one_then_other};
ghost use Rattle.vkg_expr.specs.Seen.{expr_seen};
ghost use Rattle.vkg_expr.specs.Strict.{put as put_in};
ghost use Rattle.vkg_key_joins.specs.ParentJoin.{all_tied_to as names_of_all, known_too as all_known_too, tied_to as name_of};

use std::alloc::Global;
use vkg_base::{Box, Items, Memory};
use vkg_cells::{Cell, SqlType};
use vkg_columns::{and_then, put};
use vkg_expr::{Expr, Shared};

/// The first n columns of the parent, each by the child's column that is tied to it.
pub fn all_tied_to(
    alloc: Global,
    child: &[Expr],
    pairs: &[(usize, usize)],
    n: usize,
) -> Result<Items<Expr>, Memory>
    ensures { IfOk result (λ es. map expr_seen es ≡ names_of_all (map expr_seen child.now) pairs.now 0 n) }
{
    let mut all = Items::new(alloc);
    for y in 0..n {
        all.push(tied_to(alloc, child, pairs, y)?)?;
    }
    Ok(all)
}

/// The child's column that is tied to the parent's column y, NULL if none is.
#[tactic(auto, using(crate::proofs::TiedNames::named_columns))]
fn tied_to(
    alloc: Global,
    child: &[Expr],
    pairs: &[(usize, usize)],
    y: usize,
) -> Result<Expr, Memory>
    ensures { IfOk result (λ e. expr_seen e ≡ name_of (map expr_seen child.now) pairs.now y) }
{
    for pair in pairs {
        if pair.1 == y {
            return column(alloc, child, pair.0);
        }
    }
    Ok(Expr::Const(Cell::Null, SqlType::Text))
}

/// The child's column at a place, NULL past the end.
#[tactic(auto, using(crate::proofs::TiedNames::named_columns))]
fn column(alloc: Global, child: &[Expr], at: usize) -> Result<Expr, Memory>
    ensures { IfOk result (λ e. expr_seen e ≡ at_place (map expr_seen child.now) at) }
{
    put(alloc, &Expr::Col(at), child)
}

/// The condition, and each of the child's columns in the pairs is not NULL.
pub fn known_too(
    alloc: Global,
    child: &[Expr],
    c: Box<Expr>,
    pairs: &[(usize, usize)],
) -> Result<Box<Expr>, Memory>
    ensures { IfOk result (λ d. expr_seen d ≡ all_known_too (map expr_seen child.now) (expr_seen c) pairs.now) }
{
    let mut all = c;
    for pair in pairs {
        all = one_known_too(alloc, child, &all, pair.0)?;
    }
    Ok(all)
}

/// The condition, and one of the child's columns is not NULL.
fn one_known_too(alloc: Global, child: &[Expr], c: &Expr, at: usize) -> Result<Box<Expr>, Memory>
    ensures { IfOk result (λ d. expr_seen d ≡ one_then_other (expr_seen c.now) (Not (IsNull (at_place (map expr_seen child.now) at)))) }
{
    let known = known(alloc, child, at)?;
    Box::new(alloc, and_then(alloc, c, &known)?)
}

fn known(alloc: Global, child: &[Expr], at: usize) -> Result<Box<Expr>, Memory>
    ensures { IfOk result (λ e. expr_seen e ≡ Not (IsNull (at_place (map expr_seen child.now) at))) }
{
    let column = Box::new(alloc, column(alloc, child, at)?)?;
    let null = Shared::new(alloc, Expr::IsNull(column))?;
    Box::new(alloc, Expr::Not(null))
}

/// Each of the expressions with those of a list in the place of its columns.
pub fn put_each(alloc: Global, es: &[Expr], by: &[Expr]) -> Result<Items<Expr>, Memory>
    ensures { IfOk result (λ all. map expr_seen all ≡ map (put_in (at_place (map expr_seen by.now))) (map expr_seen es.now)) }
{
    let mut all = Items::new(alloc);
    for e in es {
        all.push(put(alloc, e, by)?)?;
    }
    Ok(all)
}
