// How many columns plans have, counted without their kinds.
ghost use Rattle.std.specs.Prelude.{◌≡◌, ◌+◌, IfOk, length};
ghost use Rattle.vkg_plan.specs.Kinds.{width as width_of};
ghost use Rattle.vkg_plan.specs.Plan.{UnionAll};
ghost use Rattle.vkg_plan.specs.Seen.{plan_seen};
ghost use Rattle.vkg_rules.specs.Parts.{AreTyped};
ghost use Rattle.vkg_rules.specs.Steps.{IsTyped};
ghost use Rattle.vkg_rules.specs.StepSeen.{plans_seen};
ghost use Rattle.vkg_schema.specs.Kinds.{columns_of};
ghost use Rattle.vkg_lifts.specs.Counted.{counted, counted_beside};
ghost use Rattle.vkg_lifts.specs.LiftProjects.{widths as widths_of};

use vkg_base::{Memory, at};
use vkg_plan::Plan;
use vkg_schema::{Column, Schema};

/// How many columns a plan has.
pub fn width(schema: &Schema, p: &Plan) -> Result<usize, Memory>
    requires { IsTyped schema.now (plan_seen p.now) }
    ensures { IfOk result (λ n. n ≡ width_of schema.now (plan_seen p.now)) }
{
    count(schema, p)
}

/// How many the plans have together.
pub fn widths(schema: &Schema, ps: &[Plan]) -> Result<usize, Memory>
    requires { AreTyped schema.now (plans_seen ps.now) }
    ensures { IfOk result (λ n. n ≡ widths_of schema.now (plans_seen ps.now)) }
{
    count_beside(schema, ps)
}

#[cycle(count)]
#[tactic(auto, using(vkg_rules::proofs::Seen::seen_nodes))]
fn count(schema: &Schema, p: &Plan) -> Result<usize, Memory>
    ensures { IfOk result (λ n. n ≡ counted schema.now (plan_seen p.now)) }
{
    match p {
        Plan::Unit => Ok(0),
        Plan::Empty(kinds) => Ok(kinds.len()),
        Plan::Scan(table) => Ok(columns_at(schema, *table).len()),
        Plan::Select(_, p) => count(schema, p),
        Plan::Project(es, _) => Ok(es.len()),
        Plan::Join(ps, _) => count_beside(schema, ps.as_slice()),
        Plan::Left(p, q, _) => sum(count(schema, p)?, count(schema, q)?),
        Plan::AntiJoin(p, _, _) => count(schema, p),
        Plan::UnionAll(ps) => count_first(schema, ps.as_slice()),
        Plan::Distinct(p) => count(schema, p),
    }
}

#[cycle(count)]
fn count_beside(schema: &Schema, ps: &[Plan]) -> Result<usize, Memory>
    ensures { IfOk result (λ n. n ≡ counted_beside schema.now (plans_seen ps.now)) }
{
    let mut all = 0;
    for p in ps {
        all = sum(all, count(schema, p)?)?;
    }
    Ok(all)
}

/// A union has as many as its first member.
#[cycle(count)]
fn count_first(schema: &Schema, ps: &[Plan]) -> Result<usize, Memory>
    ensures { IfOk result (λ n. n ≡ counted schema.now (UnionAll (plans_seen ps.now))) }
{
    match ps {
        [] => Ok(0),
        [p, ..] => count(schema, p),
    }
}

/// So many columns as a number cannot tell are more than memory has room for.
pub fn sum(n: usize, m: usize) -> Result<usize, Memory>
    ensures { IfOk result (λ k. k ≡ n + m) }
{
    match n.checked_add(m) {
        Some(k) => Ok(k),
        None => Err(Memory),
    }
}

/// The columns of a table, none where the schema does not have it.
fn columns_at<'a>(schema: &'a Schema, table: usize) -> &'a [Column]
    ensures { result.now ≡ columns_of schema.now table }
{
    match at(schema.tables(), table) {
        None => &[],
        Some(table) => table.columns.as_slice(),
    }
}
