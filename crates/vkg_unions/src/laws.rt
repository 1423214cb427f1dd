//! Laws of the definitions. These functions compute nothing; what they ensure is the law.
ghost use Rattle.std.specs.Prelude.{◌≡◌};
ghost use Rattle.std.specs.Bool.{Decides};
ghost use Rattle.vkg_plan.specs.Plan.{Plan};
ghost use Rattle.vkg_unions.specs.SamePlan.{same_plan};

/// Two plans are one by `same_plan` exactly where they are equal.
pub fn equal_plans()
    ensures { (p q : Plan) → Decides (same_plan p q) (p ≡ q) }
{}
