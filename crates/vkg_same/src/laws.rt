//! Laws of the definitions. These functions compute nothing; what they ensure is the law.
ghost use Rattle.std.specs.Prelude.{◌≡◌};
ghost use Rattle.std.specs.Bool.{Decides};
ghost use Rattle.vkg_expr.specs.Expr.{Expr};
ghost use Rattle.vkg_same.specs.SameExpr.{same_expr};

/// Two expressions are one by `same_expr` exactly where they are equal.
pub fn equal_exprs()
    ensures { (e f : Expr) → Decides (same_expr e f) (e ≡ f) }
{}
