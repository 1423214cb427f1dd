// Plans that have no row in common, by the verdict on two of their terms.
ghost use Rattle.std.specs.Prelude.{◌≡◌, ◌++◌, ◌||◌, false, IfOk, length, map, option_map};
ghost use Rattle.std.specs.Option.{option_map_or};
ghost use Rattle.vkg_columns.specs.Columns.{at_place, columns_from};
ghost use Rattle.vkg_expr.specs.Expr.{Same};
ghost use Rattle.vkg_expr.specs.Seen.{expr_seen};
ghost use Rattle.vkg_expr.specs.Strict.{put as put_in};
ghost use Rattle.vkg_plan.specs.Plan.{Project};
ghost use Rattle.vkg_plan.specs.Seen.{plan_seen};
ghost use Rattle.vkg_unique.specs.Apart.{are_apart as apart, differ as differ_always, is_false as constant_false, is_never as verdict_is_never, lists_differ as all_differ};
ghost use Rattle.vkg_equalities.specs.TableColumns.{table_columns};
ghost use Rattle.vkg_unique.specs.Sure.{is_sure as all_sure, sure_columns as sure_in};

use crate::kinds::{kinds, kinds_beside};
use crate::sure::{is_sure, sure_columns};
use std::alloc::Global;
use vkg_base::{Box, Items, Memory};
use vkg_cells::{Cell, SqlType};
use vkg_columns::put;
use vkg_equalities::{are_table_columns, decided};
use vkg_expr::Expr;
use vkg_plan::Plan;
use vkg_schema::Schema;

/// Whether the plans are projections that make terms at one place that are never the same.
pub fn are_apart(alloc: Global, schema: &Schema, p: &Plan, q: &Plan) -> Result<bool, Memory>
    ensures { IfOk result (λ b. b ≡ apart schema.now (plan_seen p.now) (plan_seen q.now)) }
{
    match p {
        Plan::Project(es, p) => is_apart_from(alloc, schema, es.as_slice(), p, q),
        _ => Ok(false),
    }
}

fn is_apart_from(
    alloc: Global,
    schema: &Schema,
    es: &[Expr],
    p: &Plan,
    q: &Plan,
) -> Result<bool, Memory>
    ensures { IfOk result (λ b. b ≡ apart schema.now (Project (map expr_seen es.now) (plan_seen p.now)) (plan_seen q.now)) }
{
    match q {
        Plan::Project(fs, q) => are_projects_apart(alloc, schema, es, p, fs.as_slice(), q),
        _ => Ok(false),
    }
}

fn are_projects_apart(
    alloc: Global,
    schema: &Schema,
    es: &[Expr],
    p: &Plan,
    fs: &[Expr],
    q: &Plan,
) -> Result<bool, Memory>
    ensures { IfOk result (λ b. b ≡ apart schema.now (Project (map expr_seen es.now) (plan_seen p.now)) (Project (map expr_seen fs.now) (plan_seen q.now))) }
{
    let before = kinds(alloc, schema, p)?;
    let own = kinds(alloc, schema, q)?;
    let tables = table_columns_beside(alloc, schema, p, q)?;
    let sure = sure_columns_beside(alloc, schema, p, q)?;
    let by = columns_behind(alloc, before.as_slice(), own.as_slice())?;
    let all = kinds_beside(alloc, before.as_slice(), own.as_slice())?;
    any_differ(
        alloc,
        tables.as_slice(),
        sure.as_slice(),
        all.as_slice(),
        by.as_slice(),
        es,
        fs,
    )
}

fn table_columns_beside(
    alloc: Global,
    schema: &Schema,
    p: &Plan,
    q: &Plan,
) -> Result<Items<bool>, Memory>
    ensures { IfOk result (λ fs. fs ≡ table_columns schema.now (plan_seen p.now) ++ table_columns schema.now (plan_seen q.now)) }
{
    let mut flags = are_table_columns(alloc, schema, p)?;
    flags.append(are_table_columns(alloc, schema, q)?)?;
    Ok(flags)
}

fn sure_columns_beside(
    alloc: Global,
    schema: &Schema,
    p: &Plan,
    q: &Plan,
) -> Result<Items<bool>, Memory>
    ensures { IfOk result (λ fs. fs ≡ sure_in schema.now (plan_seen p.now) ++ sure_in schema.now (plan_seen q.now)) }
{
    let mut flags = sure_columns(alloc, schema, p)?;
    flags.append(sure_columns(alloc, schema, q)?)?;
    Ok(flags)
}

/// As many columns as there are own kinds, from the first on that is behind those before.
#[tactic(auto, using(vkg_columns::proofs::Lists::next_column))]
fn columns_behind(alloc: Global, before: &[SqlType], own: &[SqlType]) -> Result<Items<Expr>, Memory>
    ensures { IfOk result (λ es. map expr_seen es ≡ columns_from (length before.now) (length own.now)) }
{
    let mut columns = Items::new(alloc);
    for i in 0..own.len() {
        columns.push(Expr::Col(before.len() + i))?;
    }
    Ok(columns)
}

/// Whether two expressions at one place of the lists never have one value, those of the second with others in the place of its columns.
#[tactic(auto, using(crate::proofs::Pairs::no_left, crate::proofs::Pairs::no_right), unfolding(crate::specs::Apart::lists_differ))]
fn any_differ(
    alloc: Global,
    tables: &[bool],
    sure: &[bool],
    kinds: &[SqlType],
    by: &[Expr],
    es: &[Expr],
    fs: &[Expr],
) -> Result<bool, Memory>
    ensures { IfOk result (λ b. b ≡ all_differ tables.now sure.now kinds.now (map expr_seen by.now) (map expr_seen es.now) (map expr_seen fs.now)) }
{
    let mut left = es;
    let mut right = fs;
    loop {
        match (left, right) {
            ([e, more @ ..], [f, others @ ..]) => {
                if differ(alloc, tables, sure, kinds, e, by, f)? {
                    return Ok(true);
                }
                left = more;
                right = others;
            }
            ([], _) => return Ok(false),
            ([_, ..], []) => return Ok(false),
        }
    }
}

/// Whether an expression and another, with others in the place of its columns, never have one value.
fn differ(
    alloc: Global,
    tables: &[bool],
    sure: &[bool],
    kinds: &[SqlType],
    e: &Expr,
    by: &[Expr],
    f: &Expr,
) -> Result<bool, Memory>
    ensures { IfOk result (λ b. b ≡ differ_always tables.now sure.now kinds.now (expr_seen e.now) (put_in (at_place (map expr_seen by.now)) (expr_seen f.now))) }
{
    let f = Box::new(alloc, put(alloc, f, by)?)?;
    if !is_either_sure(alloc, sure, e, &f)? {
        return Ok(false);
    }
    is_never(alloc, tables, kinds, e, &f)
}

fn is_either_sure(alloc: Global, sure: &[bool], e: &Expr, f: &Expr) -> Result<bool, Memory>
    ensures { IfOk result (λ b. b ≡ (all_sure sure.now (expr_seen e.now) || all_sure sure.now (expr_seen f.now))) }
{
    if is_sure(alloc, sure, e)? {
        return Ok(true);
    }
    is_sure(alloc, sure, f)
}

/// Whether the verdict on the equality of the two is never.
fn is_never(
    alloc: Global,
    tables: &[bool],
    kinds: &[SqlType],
    e: &Expr,
    f: &Expr,
) -> Result<bool, Memory>
    ensures { IfOk result (λ b. b ≡ verdict_is_never tables.now kinds.now (expr_seen e.now) (expr_seen f.now)) }
{
    let same = equality(alloc, e, f)?;
    let verdict = decided(alloc, tables, kinds, &same)?;
    Ok(is_false_if(verdict))
}

fn equality(alloc: Global, e: &Expr, f: &Expr) -> Result<Box<Expr>, Memory>
    ensures { IfOk result (λ c. expr_seen c ≡ Same (expr_seen e.now) (expr_seen f.now)) }
{
    let a = Box::new(alloc, e.copy(alloc)?)?;
    let b = Box::new(alloc, f.copy(alloc)?)?;
    Box::new(alloc, Expr::Same(a, b))
}

fn is_false_if(verdict: Option<Expr>) -> bool
    ensures { result ≡ option_map_or constant_false (option_map expr_seen verdict) false }
{
    match verdict {
        None => false,
        Some(c) => is_false(&c),
    }
}

fn is_false(c: &Expr) -> bool
    ensures { result ≡ constant_false (expr_seen c.now) }
{
    match c {
        Expr::Const(Cell::Bool(b), _) => !*b,
        _ => false,
    }
}
