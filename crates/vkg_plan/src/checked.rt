ghost use Rattle.std.specs.Prelude.{◌≡◌, IsTrue};
ghost use Rattle.vkg_plan.specs.Kinds.{is_well_typed};
ghost use Rattle.vkg_plan.specs.Seen.{plan_seen};

use crate::plan::Plan;
use std::marker::Model;
use vkg_schema::Schema;

/// A plan that is well typed over some schema. What takes one beside a schema or a database asks that it is so over that one.
#[derive(Drop)]
pub struct CheckedPlan {
    plan: Plan,
}

impl Model for CheckedPlan {
    ghost use Rattle.std.specs.Prelude.{IsTrue, List};
    ghost use Rattle.vkg_schema.specs.declared.table.Table.{Table};
    ghost use Rattle.vkg_plan.specs.declared.plan.Plan.{Plan};
    ghost use Rattle.vkg_plan.specs.Kinds.{is_well_typed};
    ghost use Rattle.vkg_plan.specs.Seen.{plan_seen};
    ghost use Rattle.vkg_plan.specs.contracts.plan.Plan as p;

    ghost Value = { Plan };

    ghost coded = { p.the_row.coded };

    ghost view = { λ c. c.plan };

    ghost invariant = { λ c. ∥ ((schema : List Table) × IsTrue (is_well_typed schema (plan_seen c.plan))) ∥₁ };
}

impl CheckedPlan {
    /// The plan, which is asked to be well typed over the schema.
    pub fn new(plan: Plan, schema: &Schema) -> CheckedPlan
        requires { IsTrue (is_well_typed schema.now (plan_seen plan)) }
        ensures { result ≡ plan }
    {
        let _over = schema.tables();
        CheckedPlan { plan }
    }

    pub fn plan(&self) -> &Plan
        ensures { result.now ≡ self.now }
    {
        &self.plan
    }

    pub fn into_plan(self) -> Plan
        ensures { result ≡ self }
    {
        let CheckedPlan { plan } = self;
        plan
    }
}
