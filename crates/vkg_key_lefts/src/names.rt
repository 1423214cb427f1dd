// Columns that are named elsewhere, and expressions over them.
ghost use Rattle.std.specs.Prelude.{◌≡◌, IfOk, length, map};
ghost use Rattle.vkg_columns.specs.Columns.{at_place, columns_from};
ghost use Rattle.vkg_expr.specs.Seen.{expr_seen};
ghost use Rattle.vkg_expr.specs.Strict.{put as put_in};
ghost use Rattle.vkg_keys.specs.Members.{renamed as renamed_columns};

use std::alloc::Global;
use vkg_base::{Items, Memory};
use vkg_cells::SqlType;
use vkg_columns::put;
use vkg_expr::Expr;

/// The columns of plans of which one is gone, with these expressions in the place of its own: as many as there are kinds before it and behind it.
#[tactic(auto, using(vkg_columns::proofs::Lists::both_seen))]
pub fn renamed(
    alloc: Global,
    first: &[SqlType],
    own: Items<Expr>,
    last: &[SqlType],
) -> Result<Items<Expr>, Memory>
    ensures { IfOk result (λ es. map expr_seen es ≡ renamed_columns (length first.now) (map expr_seen own) (length last.now)) }
{
    let mut rest = own;
    rest.append(columns_behind(alloc, first, last)?)?;
    let mut all = columns_behind(alloc, &[], first)?;
    all.append(rest)?;
    Ok(all)
}

/// As many columns as there are own kinds, behind as many as there are others.
fn columns_behind(alloc: Global, first: &[SqlType], own: &[SqlType]) -> Result<Items<Expr>, Memory>
    ensures { IfOk result (λ es. map expr_seen es ≡ columns_from (length first.now) (length own.now)) }
{
    let mut columns = Items::new(alloc);
    for i in 0..own.len() {
        columns.push(Expr::Col(first.len() + i))?;
    }
    Ok(columns)
}

/// Each of the expressions with those of a list in the place of its columns.
pub fn put_each(alloc: Global, es: &[Expr], by: &[Expr]) -> Result<Items<Expr>, Memory>
    ensures { IfOk result (λ all. map expr_seen all ≡ map (put_in (at_place (map expr_seen by.now))) (map expr_seen es.now)) }
{
    let mut all = Items::new(alloc);
    for e in es {
        all.push(put(alloc, e, by)?)?;
    }
    Ok(all)
}
