ghost use Rattle.std.specs.Prelude.{◌≡◌};
ghost use Rattle.vkg_expr.specs.Seen.{expr_seen};
ghost use Rattle.vkg_shapes.specs.SelectTrue.{select_true, is_true_const};
ghost use Rattle.vkg_shapes.specs.SelectTrueLaw.{select_true-keeps, select_true-falls};

use std::alloc::Global;
use vkg_base::Memory;
use vkg_cells::Cell;
use vkg_expr::Expr;
use vkg_plan::Plan;
use vkg_rules::{Fell, Rewrite};
use vkg_schema::Schema;

/// A selection by the constant true is dropped.
#[derive(Drop)]
pub struct SelectTrue;

impl Rewrite for SelectTrue {
    ghost becomes = { λ r. select_true };

    #[tactic(auto, using(crate::proofs::Seen::seen_shapes))]
    fn apply(
        &self,
        alloc: Global,
        _: &Schema,
        plan: &Plan,
    ) -> Result<Option<(Plan, Fell)>, Memory> {
        match plan {
            Plan::Select(c, p) => {
                if is_true(c) {
                    Ok(Some((p.copy(alloc)?, Fell::Weight)))
                } else {
                    Ok(None)
                }
            }
            _ => Ok(None),
        }
    }

    ghost keeps = { λ r. select_true-keeps };

    ghost falls = { λ r. select_true-falls };
}

/// Whether a condition is the constant true.
fn is_true(c: &Expr) -> bool
    ensures { result ≡ is_true_const (expr_seen c.now) }
{
    match c {
        Expr::Const(Cell::Bool(b), _) => *b,
        _ => false,
    }
}
