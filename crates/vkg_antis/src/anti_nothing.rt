ghost use Rattle.vkg_antis.specs.AntiNothing.{anti_nothing};
ghost use Rattle.vkg_antis.specs.AntiNothingLaw.{anti_nothing-keeps, anti_nothing-falls};

use std::alloc::Global;
use vkg_base::Memory;
use vkg_plan::Plan;
use vkg_rules::{Fell, Rewrite};
use vkg_schema::Schema;
use vkg_shapes::{is_never, is_nothing};

/// An anti join by the constant false or NULL, with an Empty on its right or on its left, is its left side.
#[derive(Drop)]
pub struct AntiNothing;

impl Rewrite for AntiNothing {
    ghost becomes = { λ r. anti_nothing };

    #[tactic(auto, using(vkg_rules::proofs::Seen::seen_nodes))]
    fn apply(
        &self,
        alloc: Global,
        _: &Schema,
        plan: &Plan,
    ) -> Result<Option<(Plan, Fell)>, Memory> {
        match plan {
            Plan::AntiJoin(p, q, c) => {
                if is_never(c) || is_nothing(q) || is_nothing(p) {
                    Ok(Some((p.copy(alloc)?, Fell::Weight)))
                } else {
                    Ok(None)
                }
            }
            _ => Ok(None),
        }
    }

    ghost keeps = { λ r. anti_nothing-keeps };

    ghost falls = { λ r. anti_nothing-falls };
}
