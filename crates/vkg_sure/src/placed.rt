// Where a column stands among a plan's, of which nothing is said.
ghost use Rattle.std.specs.Prelude.{◌≡◌, map, true};
ghost use Rattle.vkg_equalities.specs.TableColumns.{flags_beside};
ghost use Rattle.vkg_expr.specs.Seen.{expr_seen};
ghost use Rattle.vkg_plan.specs.Plan.{plans};
ghost use Rattle.vkg_plan.specs.Seen.{plan_seen};
ghost use Rattle.vkg_schema.specs.Kinds.{columns_of};
ghost use Rattle.vkg_sure.specs.NeverNull.{common, is_known as known_by, never_null as flags_of, never_null_each as flags_of_each};
ghost use Rattle.vkg_sure.specs.ToldAt.{or_behind, told_at, unsaid as none_set};

use crate::told::{Told, unsaid};
use vkg_base::at;
use vkg_cells::SqlType;
use vkg_expr::Expr;
use vkg_plan::Plan;
use vkg_schema::{Column, Schema};

/// That the column is one of the plan's, of which nothing is said, or its place behind them.
#[cycle(placed)]
pub fn placed(schema: &Schema, plan: &Plan, column: usize) -> Told
    ensures { result ≡ none_set (told_at (flags_of schema.now (plan_seen plan.now)) column) }
{
    match plan {
        Plan::Unit => Told::Behind(column),
        Plan::Empty(kinds) => unsaid(of_none(kinds.as_slice(), column)),
        Plan::Scan(table) => unsaid(of_table(schema, *table, column)),
        Plan::Select(_, p) => placed(schema, p, column),
        Plan::Project(es, p) => projected(schema, es.as_slice(), p, column),
        Plan::Join(ps, _) => beside(schema, ps.as_slice(), column),
        Plan::Left(p, q, _) => {
            let told = placed(schema, p, column);
            or_placed(schema, told, q)
        }
        Plan::AntiJoin(p, _, _) => placed(schema, p, column),
        Plan::UnionAll(ps) => in_common(schema, ps.as_slice(), column),
        Plan::Distinct(p) => placed(schema, p, column),
    }
}

/// As it is told, or else by a plan behind.
#[cycle(placed)]
fn or_placed(schema: &Schema, told: Told, q: &Plan) -> Told
    ensures { result ≡ or_behind told (λ n. none_set (told_at (flags_of schema.now (plan_seen q.now)) n)) }
{
    match told {
        Told::Here(set) => Told::Here(set),
        Told::Behind(at) => placed(schema, q, at),
    }
}

#[cycle(placed)]
#[tactic(auto, using(crate::proofs::Places::member_placed, crate::proofs::Places::member_behind))]
fn beside(schema: &Schema, ps: &[Plan], column: usize) -> Told
    ensures { result ≡ none_set (told_at (flags_beside (flags_of_each schema.now (plans (map plan_seen ps.now)))) column) }
{
    let mut left = column;
    for p in ps {
        match placed(schema, p, left) {
            Told::Here(_) => return Told::Here(false),
            Told::Behind(at) => left = at,
        }
    }
    Told::Behind(left)
}

#[cycle(placed)]
#[tactic(auto, using(crate::proofs::Places::placed_first))]
fn in_common(schema: &Schema, ps: &[Plan], column: usize) -> Told
    ensures { result ≡ none_set (told_at (common (flags_of_each schema.now (plans (map plan_seen ps.now)))) column) }
{
    match ps {
        [] => Told::Behind(column),
        [first, ..] => placed(schema, first, column),
    }
}

#[tactic(auto, using(crate::proofs::Places::expr_placed, crate::proofs::Places::expr_behind))]
fn projected(schema: &Schema, es: &[Expr], p: &Plan, column: usize) -> Told
    ensures { result ≡ none_set (told_at (map (known_by (flags_of schema.now (plan_seen p.now))) (map expr_seen es.now)) column) }
{
    match at(es, column) {
        Some(_) => Told::Here(false),
        None => Told::Behind(column.saturating_sub(es.len())),
    }
}

// ---- columns of tables, and of no rows

/// By a table's columns: whether it is NOT NULL.
pub fn of_table(schema: &Schema, table: usize, column: usize) -> Told
    ensures { result ≡ told_at (map (λ c. c.not_null) (columns_of schema.now table)) column }
{
    of_columns(columns_at(schema, table), column)
}

#[tactic(auto, using(crate::proofs::Places::told_here, crate::proofs::Places::told_behind))]
fn of_columns(columns: &[Column], column: usize) -> Told
    ensures { result ≡ told_at (map (λ c. c.not_null) columns.now) column }
{
    match at(columns, column) {
        Some(c) => Told::Here(c.not_null),
        None => Told::Behind(column.saturating_sub(columns.len())),
    }
}

/// By columns of no rows.
#[tactic(auto, using(crate::proofs::Places::told_here, crate::proofs::Places::told_behind))]
pub fn of_none(kinds: &[SqlType], column: usize) -> Told
    ensures { result ≡ told_at (map (λ k. true) kinds.now) column }
{
    match at(kinds, column) {
        Some(_) => Told::Here(true),
        None => Told::Behind(column.saturating_sub(kinds.len())),
    }
}

/// The columns of a table, none where the schema does not have it.
fn columns_at<'a>(schema: &'a Schema, table: usize) -> &'a [Column]
    ensures { result.now ≡ columns_of schema.now table }
{
    match at(schema.tables(), table) {
        None => &[],
        Some(table) => table.columns.as_slice(),
    }
}
