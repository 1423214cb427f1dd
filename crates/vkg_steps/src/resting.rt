ghost use Rattle.std.specs.Prelude.{◌≡◌, None, true};
ghost use Rattle.vkg_plan.specs.Seen.{plan_seen};
ghost use Rattle.vkg_rules.specs.Steps.{IsTyped};
ghost use Rattle.vkg_steps.specs.Rests.{Rests as RestsAt};

use vkg_plan::Plan;
use vkg_rules::Rewrite;
use vkg_schema::Schema;

/// A rule that tells of nodes that it does not come to apply to them by steps further down on the left.
pub trait Resting: Rewrite {
    /// Whether the rule, which does not apply to the node, is seen not to apply to it either with another plan of these columns on the
    /// left of the left join on its left or below it.
    fn rests(&self, schema: &Schema, plan: &Plan) -> bool
        requires typed { IsTyped schema.now (plan_seen plan.now) }
        requires none { Self.becomes self.now schema.now (plan_seen plan.now) ≡ None }
        ensures { result ≡ true → RestsAt schema.now (Self.becomes self.now schema.now) (plan_seen plan.now) };
}
