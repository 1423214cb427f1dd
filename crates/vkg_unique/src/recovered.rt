// Of each column of a plan whether the values of some expressions give its cells back.
ghost use Rattle.std.specs.Prelude.{◌≡◌, IfOk, map};
ghost use Rattle.vkg_expr.specs.Seen.{expr_seen};
ghost use Rattle.vkg_plan.specs.Seen.{plan_seen};
ghost use Rattle.vkg_unique.specs.Recovered.{given_in_all as all_given, is_recovered as keys_recovered, recovered as columns_recovered};

use crate::flags::{unset, with_flags};
use crate::given::given_back;
use crate::keys_given::{are_keys_given, has_scans_alone};
use crate::kinds::kinds;
use crate::sure::sure_columns;
use std::alloc::Global;
use vkg_base::{Items, Memory};
use vkg_cells::SqlType;
use vkg_equalities::are_table_columns;
use vkg_expr::Expr;
use vkg_plan::Plan;
use vkg_schema::Schema;

/// Whether the values of the expressions give back a key of each table of the plan, which has Scans alone below selections and joins.
#[tactic(auto, using(crate::proofs::Scans::no_scans))]
pub fn is_recovered(alloc: Global, schema: &Schema, es: &[Expr], p: &Plan) -> Result<bool, Memory>
    ensures { IfOk result (λ b. b ≡ keys_recovered schema.now (map expr_seen es.now) (plan_seen p.now)) }
{
    if !has_scans_alone(p) {
        return Ok(false);
    }
    let flags = recovered(alloc, schema, es, p)?;
    are_keys_given(alloc, schema, flags.as_slice(), p)
}

fn recovered(alloc: Global, schema: &Schema, es: &[Expr], p: &Plan) -> Result<Items<bool>, Memory>
    ensures { IfOk result (λ fs. fs ≡ columns_recovered schema.now (map expr_seen es.now) (plan_seen p.now)) }
{
    let tables = are_table_columns(alloc, schema, p)?;
    let sure = sure_columns(alloc, schema, p)?;
    let all = kinds(alloc, schema, p)?;
    given_in_all(
        alloc,
        tables.as_slice(),
        sure.as_slice(),
        all.as_slice(),
        es,
    )
}

#[tactic(auto, unfolding(crate::specs::Recovered::given_in_all))]
fn given_in_all(
    alloc: Global,
    tables: &[bool],
    sure: &[bool],
    kinds: &[SqlType],
    es: &[Expr],
) -> Result<Items<bool>, Memory>
    ensures { IfOk result (λ fs. fs ≡ all_given tables.now sure.now kinds.now (map expr_seen es.now)) }
{
    let mut flags = unset(alloc, kinds)?;
    for e in es {
        let columns = given_back(alloc, tables, sure, kinds, e)?;
        flags = with_flags(flags, columns.as_slice());
    }
    Ok(flags)
}
