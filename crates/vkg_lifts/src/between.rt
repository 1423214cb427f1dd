// Expressions with columns before them and behind them.
ghost use Rattle.std.specs.Prelude.{◌≡◌, IfOk, IsTrue, is_some, length, map};
ghost use Rattle.vkg_columns.specs.Columns.{at_place, columns_from};
ghost use Rattle.vkg_expr.specs.Seen.{expr_seen};
ghost use Rattle.vkg_expr.specs.Strict.{moved as moved_by, put as put_in};
ghost use Rattle.vkg_lifts.specs.InBetween.{AreWithin};
ghost use Rattle.vkg_lifts.specs.LiftProjects.{in_between as between_columns};

use crate::widths::sum;
use std::alloc::Global;
use vkg_base::{Items, Memory};
use vkg_columns::put;
use vkg_expr::Expr;

/// Expressions over so many columns of their own, which stand between columns of others: in the place of their own columns among
/// all of them.
#[tactic(auto, using(vkg_columns::proofs::Lists::both_seen))]
pub fn in_between(
    alloc: Global,
    es: &[Expr],
    before: usize,
    own: usize,
    after: usize,
) -> Result<Items<Expr>, Memory>
    requires { AreWithin own (map expr_seen es.now) }
    ensures { IfOk result (λ all. map expr_seen all ≡ between_columns before own after (map expr_seen es.now)) }
{
    let mut rest = moved_each(alloc, es, before, own)?;
    rest.append(columns(alloc, sum(before, own)?, after)?)?;
    let mut all = columns(alloc, 0, before)?;
    all.append(rest)?;
    Ok(all)
}

/// The expressions with their own columns moved behind others.
fn moved_each(alloc: Global, es: &[Expr], before: usize, own: usize) -> Result<Items<Expr>, Memory>
    requires { AreWithin own (map expr_seen es.now) }
    ensures { IfOk result (λ all. map expr_seen all ≡ map (moved_by before) (map expr_seen es.now)) }
{
    let by = columns(alloc, before, own)?;
    put_each(alloc, es, by.as_slice())
}

/// Each of the expressions with those of a list in the place of its columns.
fn put_each(alloc: Global, es: &[Expr], by: &[Expr]) -> Result<Items<Expr>, Memory>
    ensures { IfOk result (λ all. map expr_seen all ≡ map (λ e. put_in (at_place (map expr_seen by.now)) (expr_seen e)) es.now) }
{
    let mut all = Items::new(alloc);
    for e in es {
        all.push(put(alloc, e, by)?)?;
    }
    Ok(all)
}

/// So many columns, from one on.
#[tactic(auto, using(vkg_columns::proofs::Lists::next_column))]
fn columns(alloc: Global, first: usize, many: usize) -> Result<Items<Expr>, Memory>
    ensures { IfOk result (λ es. map expr_seen es ≡ columns_from first many) }
{
    let mut columns = Items::new(alloc);
    for i in 0..many {
        columns.push(Expr::Col(sum(first, i)?))?;
    }
    Ok(columns)
}
