// The quad rules of a mapping as rules over rows.
ghost use Rattle.std.specs.Prelude.{◌≡◌, IfOk, IfSome, length, map, option_map};
ghost use Rattle.vkg_row_rules.specs.RowRules.{AreOver, IsRuleOver, object_kinds, object_term as object_expr, row_rule as rule_over_rows};
ghost use Rattle.vkg_row_rules.specs.RowTerms.{row_term as term_over_row};
ghost use Rattle.vkg_maps.specs.Within.{IsOver, kinds_at as kinds_of_table};

use crate::row_rule::RowRule;
use crate::row_terms::{row_term, term_behind};
use std::alloc::Global;
use vkg_base::{Box, Items, Memory, Text, at};
use vkg_cells::SqlType;
use vkg_expr::TermExpr;
use vkg_maps::{Join, QuadRule, TermMap};
use vkg_plan::column_kinds;
use vkg_schema::Table;

/// The rules as rules over rows, in their order. Each term map has to be over the columns of its table, as those of a mapping within
/// its schema are: so a column has a place behind those of another table.
pub fn row_rules(
    alloc: Global,
    tables: &[Table],
    base: &Text,
    rules: &[QuadRule],
) -> Result<Items<RowRule>, Memory>
    requires { AreOver tables.now rules.now }
    ensures { IfOk result (λ rs. rs ≡ map (rule_over_rows base.now tables.now) rules.now) }
{
    let mut out = Items::new(alloc);
    for rule in rules {
        out.push(row_rule(alloc, tables, base, rule)?)?;
    }
    Ok(out)
}

fn row_rule(
    alloc: Global,
    tables: &[Table],
    base: &Text,
    rule: &QuadRule,
) -> Result<RowRule, Memory>
    requires { IsRuleOver tables.now rule.now }
    ensures { IfOk result (λ r. r ≡ rule_over_rows base.now tables.now rule.now) }
{
    let kinds = kinds_at(alloc, tables, rule.table)?;
    let join = copied(alloc, &rule.join)?;
    // boxed until all are there: where a later one fails, the drop of a box is a call, and that of a term is written out
    let object = object_term(alloc, base, tables, kinds.as_slice(), &join, &rule.object)?;
    let object = Box::new(alloc, object)?;
    let subject = Box::new(
        alloc,
        row_term(alloc, base, kinds.as_slice(), &rule.subject)?,
    )?;
    let predicate = row_term(alloc, base, kinds.as_slice(), &rule.predicate)?;
    let predicate = Box::new(alloc, predicate)?;
    let graph = graph_term(alloc, base, kinds.as_slice(), &rule.graph)?;
    Ok(RowRule {
        table: rule.table,
        join,
        subject: subject.into_inner(),
        predicate: predicate.into_inner(),
        object: object.into_inner(),
        graph,
    })
}

/// Of the row itself, or of the parent's row behind it.
fn object_term(
    alloc: Global,
    base: &Text,
    tables: &[Table],
    kinds: &[SqlType],
    join: &Option<Join>,
    object: &TermMap,
) -> Result<TermExpr, Memory>
    requires { IsOver (object_kinds tables.now kinds.now join.now) object.now }
    ensures { IfOk result (λ e. e ≡ object_expr base.now tables.now kinds.now join.now object.now) }
{
    match join {
        None => row_term(alloc, base, kinds, object),
        Some(join) => {
            let parents = kinds_at(alloc, tables, join.table)?;
            term_behind(alloc, base, parents.as_slice(), kinds, object)
        }
    }
}

fn graph_term(
    alloc: Global,
    base: &Text,
    kinds: &[SqlType],
    graph: &Option<TermMap>,
) -> Result<Option<TermExpr>, Memory>
    requires { IfSome graph.now (IsOver kinds.now) }
    ensures { IfOk result (λ g. g ≡ option_map (term_over_row base.now kinds.now) graph.now) }
{
    match graph {
        None => Ok(None),
        Some(graph) => Ok(Some(row_term(alloc, base, kinds, graph)?)),
    }
}

fn copied(alloc: Global, join: &Option<Join>) -> Result<Option<Join>, Memory>
    ensures { IfOk result (λ j. j ≡ join.now) }
{
    match join {
        None => Ok(None),
        Some(join) => {
            let conditions = Items::from_slice(alloc, join.conditions.as_slice())?;
            Ok(Some(Join {
                table: join.table,
                conditions,
            }))
        }
    }
}

/// The kinds of the columns of a table, and none where there is no such table.
fn kinds_at(alloc: Global, tables: &[Table], table: usize) -> Result<Items<SqlType>, Memory>
    ensures { IfOk result (λ ks. ks ≡ kinds_of_table tables.now table) }
{
    match at(tables, table) {
        None => Ok(Items::new(alloc)),
        Some(table) => column_kinds(alloc, table.columns.as_slice()),
    }
}
