// What a rule gives that made a plan of less weight.
ghost use Rattle.std.specs.Prelude.{◌≡◌, None, Some};
ghost use Rattle.vkg_rules.specs.declared.rewrite.Fell.TheVariants as weight;

use vkg_base::Box;
use vkg_plan::Plan;
use vkg_rules::{Answer, Fell};

/// A plan of less weight than before.
pub fn lighter(plan: Box<Plan>) -> Answer
    ensures plan { result.plan ≡ plan }
    ensures fell { result.fell ≡ Some weight.Weight }
    ensures dropped { result.dropped ≡ None }
{
    Answer {
        plan,
        fell: Some(Fell::Weight),
        dropped: None,
    }
}
