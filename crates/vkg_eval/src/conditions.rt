// Conditions on a row.
ghost use Rattle.std.specs.Prelude.{◌≡◌, All, IfOk, map};
ghost use Rattle.std.specs.List.{list_all};
ghost use Rattle.vkg_expr.specs.Laws.{IsCondition};
ghost use Rattle.vkg_expr.specs.Seen.{expr_seen};
ghost use Rattle.vkg_expr.specs.Value.{holds as holds_on};

use crate::cells::truth_of;
use crate::evaluation::evaluated;
use crate::row::Row;
use std::alloc::Global;
use vkg_base::Memory;
use vkg_expr::Expr;

/// Whether a condition is true on a row.
#[tactic(auto, using(crate::proofs::TruthValues::conditions))]
pub fn holds(alloc: Global, c: &Expr, row: &Row<'_>) -> Result<bool, Memory>
    requires { IsCondition (expr_seen c.now) row.now }
    ensures { IfOk result (λ b. b ≡ holds_on (expr_seen c.now) row.now) }
{
    let value = evaluated(alloc, c, row)?;
    Ok(truth_of(&value.shown()).unwrap_or(false))
}

/// Whether each of some conditions is true on a row. They are tested in turn, up to the first that is not.
pub fn all_hold(alloc: Global, list: &[Expr], row: &Row<'_>) -> Result<bool, Memory>
    requires { All (λ c. IsCondition (expr_seen c) row.now) list.now }
    ensures { IfOk result (λ b. b ≡ list_all (λ c. holds_on c row.now) (map expr_seen list.now)) }
{
    for c in list {
        if !holds(alloc, c, row)? {
            return Ok(false);
        }
    }
    Ok(true)
}
