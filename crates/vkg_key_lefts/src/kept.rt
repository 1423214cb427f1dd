// What is used of a right side whose row stands on the left already.
ghost use Rattle.std.specs.Prelude.{◌≡◌, ◌&&◌, ◌||◌, IfOk, map, nat_eq, nat_lt};
ghost use Rattle.std.specs.List.{list_all, list_any};
ghost use Rattle.vkg_columns.specs.Columns.{at_place};
ghost use Rattle.vkg_expr.specs.Logic.{conjuncts as conjuncts_of};
ghost use Rattle.vkg_expr.specs.Seen.{expr_seen};
ghost use Rattle.vkg_expr.specs.Strict.{columns as columns_named, is_strict as strict, put as put_in};
ghost use Rattle.vkg_keys.specs.Ties.{is_column as a_column};
ghost use Rattle.vkg_key_lefts.specs.SelfLeft.{is_itself as column_itself, is_known as known_column, is_left as left_alone, is_null_unless as null_unless, says_known as known_said, tests_known as known_tested};

use crate::columns::named_columns;
use crate::standing::StandingScan;
use crate::tables::is_full_at;
use std::alloc::Global;
use vkg_base::Memory;
use vkg_columns::put;
use vkg_conditions::is_strict;
use vkg_expr::Expr;
use vkg_schema::Schema;

/// Whether each expression names the first n columns alone, or is NULL, with the columns named in the left, where the condition over the left is not true.
pub fn all_kept(
    alloc: Global,
    schema: &Schema,
    x: &StandingScan,
    names: &[Expr],
    n: usize,
    c: &Expr,
    es: &[Expr],
) -> Result<bool, Memory>
    ensures { IfOk result (λ b. b ≡ list_all (λ e. left_alone n e || null_unless schema.now x.now (expr_seen c.now) (put_in (at_place (map expr_seen names.now)) e)) (map expr_seen es.now)) }
{
    for e in es {
        if !is_kept(alloc, schema, x, names, n, c, e)? {
            return Ok(false);
        }
    }
    Ok(true)
}

fn is_kept(
    alloc: Global,
    schema: &Schema,
    x: &StandingScan,
    names: &[Expr],
    n: usize,
    c: &Expr,
    e: &Expr,
) -> Result<bool, Memory>
    ensures { IfOk result (λ b. b ≡ (left_alone n (expr_seen e.now) || null_unless schema.now x.now (expr_seen c.now) (put_in (at_place (map expr_seen names.now)) (expr_seen e.now)))) }
{
    if is_left(alloc, e, n)? {
        return Ok(true);
    }
    is_null_named(alloc, schema, x, names, c, e)
}

/// Whether the expression, with the columns named in the left, is NULL where the condition is not true.
fn is_null_named(
    alloc: Global,
    schema: &Schema,
    x: &StandingScan,
    names: &[Expr],
    c: &Expr,
    e: &Expr,
) -> Result<bool, Memory>
    ensures { IfOk result (λ b. b ≡ null_unless schema.now x.now (expr_seen c.now) (put_in (at_place (map expr_seen names.now)) (expr_seen e.now))) }
{
    let left = put(alloc, e, names)?;
    is_null_unless(alloc, schema, x, c, &left)
}

/// Whether each column that the expression names is one of the first n.
#[tactic(auto, unfolding(crate::specs::SelfLeft::is_left))]
pub fn is_left(alloc: Global, e: &Expr, n: usize) -> Result<bool, Memory>
    ensures { IfOk result (λ b. b ≡ left_alone n (expr_seen e.now)) }
{
    let columns = named_columns(alloc, e)?;
    Ok(are_below(columns.as_slice(), n))
}

fn are_below(columns: &[usize], n: usize) -> bool
    ensures { result ≡ list_all (λ at. nat_lt at n) columns.now }
{
    for column in columns {
        if !is_below(*column, n) {
            return false;
        }
    }
    true
}

fn is_below(column: usize, n: usize) -> bool
    ensures { result ≡ nat_lt column n }
{
    column < n
}

// ---- conditions that ask for columns that are not NULL

/// Whether the expression is NULL on each row where the condition is not true.
#[tactic(auto, unfolding(crate::specs::SelfLeft::is_null_unless))]
fn is_null_unless(
    alloc: Global,
    schema: &Schema,
    x: &StandingScan,
    c: &Expr,
    e: &Expr,
) -> Result<bool, Memory>
    ensures { IfOk result (λ b. b ≡ null_unless schema.now x.now (expr_seen c.now) (expr_seen e.now)) }
{
    if !is_strict(e) {
        return Ok(false);
    }
    let names = named_columns(alloc, e)?;
    all_known(alloc, schema, x, names.as_slice(), c)
}

/// Whether each conjunct says no more than that known columns are not NULL.
#[tactic(auto, using(vkg_columns::proofs::Lists::conjunct_lists))]
fn all_known(
    alloc: Global,
    schema: &Schema,
    x: &StandingScan,
    names: &[usize],
    c: &Expr,
) -> Result<bool, Memory>
    ensures { IfOk result (λ b. b ≡ list_all (known_said (known_column schema.now x.now names.now)) (conjuncts_of (expr_seen c.now))) }
{
    match c {
        Expr::And(list) => each_known(alloc, schema, x, names, list.as_slice()),
        _ => says_known(alloc, schema, x, names, c),
    }
}

fn each_known(
    alloc: Global,
    schema: &Schema,
    x: &StandingScan,
    names: &[usize],
    list: &[Expr],
) -> Result<bool, Memory>
    ensures { IfOk result (λ b. b ≡ list_all (known_said (known_column schema.now x.now names.now)) (map expr_seen list.now)) }
{
    for c in list {
        if !says_known(alloc, schema, x, names, c)? {
            return Ok(false);
        }
    }
    Ok(true)
}

fn says_known(
    alloc: Global,
    schema: &Schema,
    x: &StandingScan,
    names: &[usize],
    c: &Expr,
) -> Result<bool, Memory>
    ensures { IfOk result (λ b. b ≡ known_said (known_column schema.now x.now names.now) (expr_seen c.now)) }
{
    match c {
        Expr::Same(a, b) => Ok(is_itself(schema, x, names, a, b)),
        Expr::Not(e) => tests_known(alloc, schema, x, names, e),
        _ => Ok(false),
    }
}

/// Whether both are one known column.
fn is_itself(schema: &Schema, x: &StandingScan, names: &[usize], a: &Expr, b: &Expr) -> bool
    ensures { result ≡ column_itself (known_column schema.now x.now names.now) (expr_seen a.now) (expr_seen b.now) }
{
    match a {
        Expr::Col(column) => { is_that_column(b, *column) && is_known(schema, x, names, *column) }
        _ => false,
    }
}

fn is_that_column(e: &Expr, column: usize) -> bool
    ensures { result ≡ a_column column (expr_seen e.now) }
{
    match e {
        Expr::Col(other) => column == *other,
        _ => false,
    }
}

/// Whether it is a test for NULL of a strict expression over known columns.
fn tests_known(
    alloc: Global,
    schema: &Schema,
    x: &StandingScan,
    names: &[usize],
    e: &Expr,
) -> Result<bool, Memory>
    ensures { IfOk result (λ b. b ≡ known_tested (known_column schema.now x.now names.now) (expr_seen e.now)) }
{
    match e {
        Expr::IsNull(y) => is_over_known(alloc, schema, x, names, y),
        _ => Ok(false),
    }
}

fn is_over_known(
    alloc: Global,
    schema: &Schema,
    x: &StandingScan,
    names: &[usize],
    e: &Expr,
) -> Result<bool, Memory>
    ensures { IfOk result (λ b. b ≡ (strict (expr_seen e.now) && list_all (known_column schema.now x.now names.now) (columns_named (expr_seen e.now)))) }
{
    if !is_strict(e) {
        return Ok(false);
    }
    let columns = named_columns(alloc, e)?;
    Ok(are_known(schema, x, names, columns.as_slice()))
}

fn are_known(schema: &Schema, x: &StandingScan, names: &[usize], columns: &[usize]) -> bool
    ensures { result ≡ list_all (known_column schema.now x.now names.now) columns.now }
{
    for column in columns {
        if !is_known(schema, x, names, *column) {
            return false;
        }
    }
    true
}

/// Whether the column is one of these, or the Scan's own and without NULL.
fn is_known(schema: &Schema, x: &StandingScan, names: &[usize], column: usize) -> bool
    ensures { result ≡ known_column schema.now x.now names.now column }
{
    let first = x.before.len();
    is_named(names, column) || first <= column && is_full_at(schema, x.table, column - first)
}

fn is_named(names: &[usize], column: usize) -> bool
    ensures { result ≡ list_any (λ k. nat_eq column k) names.now }
{
    names.iter().any(|name| column == *name)
}
