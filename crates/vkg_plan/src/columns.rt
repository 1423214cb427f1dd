// The kinds of the columns of tables, and what the nodes of a plan make of the kinds of their parts.
ghost use Rattle.std.specs.Prelude.{◌≡◌, IfOk, IsOkAnd, if◌then◌else◌, map, option_and_then};
ghost use Rattle.std.specs.Cmp.Lexicographic.{pointwise};
ghost use Rattle.vkg_lists.specs.Options.{joined};
ghost use Rattle.vkg_expr.specs.Expr.{exprs};
ghost use Rattle.vkg_expr.specs.Seen.{expr_seen};
ghost use Rattle.vkg_expr.specs.Typing.{kinds_of, same_kind as one_kind};
ghost use Rattle.vkg_schema.specs.Kinds.{table_kinds as kinds_of_table};
ghost use Rattle.vkg_plan.specs.Kinds.{checked as checked_kinds, first_checked as first_kinds, is_alike as alike};

use std::alloc::Global;
use vkg_base::{Items, Memory, at};
use vkg_cells::SqlType;
use vkg_expr::{Expr, same_kind, typed, typed_each};
use vkg_schema::{Column, Schema};

/// The kinds of the columns of a table, if there is such a table.
pub fn table_kinds(
    alloc: Global,
    schema: &Schema,
    table: usize,
) -> Result<Option<Items<SqlType>>, Memory>
    ensures { IfOk result (λ o. o ≡ kinds_of_table schema.now table) }
{
    match at(schema.tables(), table) {
        None => Ok(None),
        Some(table) => Ok(Some(column_kinds(alloc, table.columns.as_slice())?)),
    }
}

/// The kinds of columns.
pub fn column_kinds(alloc: Global, columns: &[Column]) -> Result<Items<SqlType>, Memory>
    ensures { IfOk result (λ ks. ks ≡ map (λ c. c.kind) columns.now) }
{
    let mut kinds = Items::new(alloc);
    for column in columns {
        kinds.push(column.kind)?;
    }
    Ok(kinds)
}

/// The kinds, where the condition over them is a truth.
pub fn checked(c: &Expr, kinds: Option<Items<SqlType>>) -> Option<Items<SqlType>>
    ensures { result ≡ checked_kinds (expr_seen c.now) kinds }
{
    let Some(kinds) = kinds else {
        return None;
    };
    match typed(c, kinds.as_slice()) {
        Some(SqlType::Bool) => Some(kinds),
        _ => None,
    }
}

/// The kinds of the expressions over these kinds.
pub fn projected(
    alloc: Global,
    es: &[Expr],
    kinds: Option<Items<SqlType>>,
) -> Result<Option<Items<SqlType>>, Memory>
    ensures { IfOk result (λ o. o ≡ option_and_then (kinds_of (exprs (map expr_seen es.now))) kinds) }
{
    match kinds {
        None => Ok(None),
        Some(kinds) => typed_each(alloc, es, kinds.as_slice()),
    }
}

/// The kinds of the one and then of the other, where the condition over them is a truth.
pub fn left_checked(
    c: &Expr,
    first: Result<Option<Items<SqlType>>, Memory>,
    second: Result<Option<Items<SqlType>>, Memory>,
) -> Result<Option<Items<SqlType>>, Memory>
    ensures { IfOk result (λ o. IsOkAnd first (λ a. IsOkAnd second (λ b. o ≡ checked_kinds (expr_seen c.now) (joined a b)))) }
{
    let first = first?;
    let second = second?;
    Ok(checked(c, beside(first, second)?))
}

/// The kinds of the one, where the condition over both is a truth.
pub fn first_checked(
    alloc: Global,
    c: &Expr,
    first: Result<Option<Items<SqlType>>, Memory>,
    second: Result<Option<Items<SqlType>>, Memory>,
) -> Result<Option<Items<SqlType>>, Memory>
    ensures { IfOk result (λ o. IsOkAnd first (λ a. IsOkAnd second (λ b. o ≡ first_kinds (expr_seen c.now) a b))) }
{
    let first = first?;
    let second = second?;
    let kinds = copied(alloc, &first)?;
    match checked(c, beside(first, second)?) {
        Some(_) => Ok(kinds),
        None => Ok(None),
    }
}

fn copied(alloc: Global, kinds: &Option<Items<SqlType>>) -> Result<Option<Items<SqlType>>, Memory>
    ensures { IfOk result (λ o. o ≡ kinds.now) }
{
    match kinds {
        Some(kinds) => Ok(Some(Items::from_slice(alloc, kinds.as_slice())?)),
        None => Ok(None),
    }
}

/// The kinds of the one and then of the other.
fn beside(
    first: Option<Items<SqlType>>,
    second: Option<Items<SqlType>>,
) -> Result<Option<Items<SqlType>>, Memory>
    ensures { IfOk result (λ o. o ≡ joined first second) }
{
    let Some(mut kinds) = first else {
        return Ok(None);
    };
    let Some(more) = second else {
        return Ok(None);
    };
    kinds.append(more)?;
    Ok(Some(kinds))
}

/// The kinds, where the test holds.
pub fn kept(kinds: Items<SqlType>, holds: bool) -> Option<Items<SqlType>>
    ensures { result ≡ (if holds then Some kinds else None) }
{
    if holds { Some(kinds) } else { None }
}

/// Whether there are kinds and they are these.
pub fn is_alike(kinds: &[SqlType], found: &Option<Items<SqlType>>) -> bool
    ensures { result ≡ alike kinds.now found.now }
{
    match found {
        None => false,
        Some(found) => are_same_kinds(kinds, found.as_slice()),
    }
}

fn are_same_kinds(a: &[SqlType], b: &[SqlType]) -> bool
    ensures { result ≡ pointwise one_kind a.now b.now }
{
    if a.len() != b.len() {
        return false;
    }
    for i in 0..a.len() {
        if !same_kind(a[i], b[i]) {
            return false;
        }
    }
    true
}
