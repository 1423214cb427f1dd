ghost use Rattle.std.specs.Prelude.{◌≡◌, IfOk, option_map};
ghost use Rattle.vkg_conditions.specs.Changes.{Changing};
ghost use Rattle.vkg_expr.specs.Seen.{expr_seen};

use std::alloc::Global;
use vkg_base::{Box, Memory};
use vkg_expr::Expr;

/// A change of some expressions at their roots.
pub trait Change {
    // What it makes of an expression, if it applies at its root.
    ghost becomes: { Self → Changing };

    /// The expression changed at its root, if the change applies there.
    fn apply(&self, alloc: Global, e: &Expr) -> Result<Option<Box<Expr>>, Memory>
        ensures { IfOk result (λ o. option_map expr_seen o ≡ becomes self.now (expr_seen e.now)) };
}
