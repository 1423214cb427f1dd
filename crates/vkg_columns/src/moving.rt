// Columns moved to the right.
ghost use Rattle.std.specs.Prelude.{◌≡◌, IfOk, IsTrue, is_some, length, map};
ghost use Rattle.vkg_columns.specs.Columns.{columns_from};
ghost use Rattle.vkg_expr.specs.Seen.{expr_seen};
ghost use Rattle.vkg_expr.specs.Strict.{moved as moved_by};
ghost use Rattle.vkg_expr.specs.Typing.{kind_of};

use crate::putting::put;
use std::alloc::Global;
use vkg_base::{Items, Memory};
use vkg_cells::SqlType;
use vkg_expr::Expr;

/// An expression that is typed over columns of the kinds `own`, with its columns moved behind those of the kinds `before`.
pub fn moved(alloc: Global, e: &Expr, before: &[SqlType], own: &[SqlType]) -> Result<Expr, Memory>
    requires { IsTrue (is_some (kind_of (expr_seen e.now) own.now)) }
    ensures { IfOk result (λ r. expr_seen r ≡ moved_by (length before.now) (expr_seen e.now)) }
{
    let by = columns_behind(alloc, before, own)?;
    put(alloc, e, by.as_slice())
}

/// As many columns as there are own kinds, from the first on that is behind those before.
#[tactic(auto, using(crate::proofs::Lists::next_column))]
fn columns_behind(alloc: Global, before: &[SqlType], own: &[SqlType]) -> Result<Items<Expr>, Memory>
    ensures { IfOk result (λ es. map expr_seen es ≡ columns_from (length before.now) (length own.now)) }
{
    let mut columns = Items::new(alloc);
    for i in 0..own.len() {
        columns.push(Expr::Col(before.len() + i))?;
    }
    Ok(columns)
}
