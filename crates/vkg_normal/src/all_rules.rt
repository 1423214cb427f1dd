// The rules as one.
ghost use Rattle.vkg_normal.specs.NormalForm.{all_rules, rules-fall, rules-keep};

use crate::order::rules;
use std::alloc::Global;
use vkg_base::{Box, Memory};
use vkg_plan::Plan;
use vkg_rules::{Answer, Fell, Rewrite};
use vkg_schema::Schema;
use vkg_steps::Resting;

/// All rules in their order, our own behind the others: the first that applies to a plan is taken. What is never NULL may come to be known by a
/// step anywhere below, so they rest nowhere.
#[derive(Drop)]
pub struct AllRules;

impl Rewrite for AllRules {
    ghost becomes = { λ r. all_rules };

    fn apply(
        &self,
        alloc: Global,
        schema: &Schema,
        plan: &Plan,
    ) -> Result<Option<(Plan, Fell)>, Memory> {
        let rules = rules();
        rules.apply(alloc, schema, plan)
    }

    fn apply_again(
        &self,
        alloc: Global,
        schema: &Schema,
        plan: Box<Plan>,
        place: &[usize],
    ) -> Result<Answer, Memory> {
        let rules = rules();
        rules.apply_again(alloc, schema, plan, place)
    }

    ghost keeps = { λ r. rules-keep };

    ghost falls = { λ r. rules-fall };
}

impl Resting for AllRules {
    fn rests(&self, _: &Schema, _: &Plan) -> bool {
        false
    }
}
