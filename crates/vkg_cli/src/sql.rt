// The text of `sql`.
ghost use Rattle.std.specs.Prelude.{◌≡◌, [], ◌∷◌, ◌++◌, IfErr, IfOk, OnOk, false, length, string_bytes, true};
ghost use Rattle.vkg_terms.specs.Iri.{is_absolute};
ghost use Rattle.vkg_maps.specs.Within.{IsWithin};
ghost use Rattle.vkg_sparql.specs.Seen.{query_seen};
ghost use Rattle.vkg_algebra.specs.Answer.{modifiers_of, selected_variables};
ghost use Rattle.vkg_sqltext.specs.OrderText.{order_text};
ghost use Rattle.vkg_cli.specs.QueryText.{query_text as text_of_query};
ghost use Rattle.vkg_cli.specs.Headline.{IsTextOf};
ghost use Rattle.vkg_cli.specs.Stages.{Answers, Ran, Where};
ghost use Rattle.vkg_cli.specs.Words.{command_seen};
ghost use Rattle.vkg_cli.specs.declared.words.Command.TheVariants.{Sql};
ghost use Rattle.vkg_cli.specs.Work.{AsksFirst, GivesText, IsNumbered, Works, is_of_tables};

use crate::Stop;
use crate::load::load_schema;
use crate::mapping::load_mapping;
use crate::query::load_query;
use crate::words::SqlOptions;
use std::alloc::Global;
use vkg_algebra::{modifiers_of, selected_count};
use vkg_base::{Box, Lines, Memory, Store};
use vkg_maps::Mapping;
use vkg_rewrite::rewrite;
use vkg_schema::Schema;
use vkg_sparql::Query;
use vkg_sqltext::{order_text, sql_text};

/// The text of a query's plan, and behind it its order and its slice.
fn query_text(
    alloc: Global,
    schema: &Schema,
    mapping: &Mapping,
    query: &Query,
) -> Result<String, Memory>
    requires { IsWithin schema.now mapping.now }
    ensures { IfOk result (λ s. string_bytes s ≡ text_of_query schema.now mapping.now (query_seen query.now)) }
{
    let plan = Box::new(alloc, rewrite(alloc, schema, mapping, query)?)?;
    let mut text = sql_text(alloc, &plan, schema)?;
    push_order(alloc, &mut text, query)?;
    Ok(text)
}

fn push_order(alloc: Global, text: &mut String, query: &Query) -> Result<(), Memory>
    ensures { OnOk result (string_bytes text.new ≡ string_bytes text.old ++ order_text (length (selected_variables (query_seen query.now))) (modifiers_of (query_seen query.now))) }
{
    let first = selected_count(alloc, query)?;
    let modifiers = modifiers_of(alloc, query)?;
    let order = order_text(alloc, first, &modifiers)?;
    text.push_str(order.as_str())?;
    Ok(())
}

/// The line of a query.
fn query_line(
    alloc: Global,
    schema: &Schema,
    mapping: &Mapping,
    query: &Query,
) -> Result<Lines, Memory>
    requires { IsWithin schema.now mapping.now }
    ensures { IfOk result (λ lines. lines ≡ text_of_query schema.now mapping.now (query_seen query.now) ∷ []) }
{
    let mut lines = Lines::new(alloc);
    lines.push(query_text(alloc, schema, mapping, query)?)?;
    Ok(lines)
}

/// The text of a query's plan.
fn text(alloc: Global, schema: &Schema, mapping: &Mapping, query: &Query) -> Result<Lines, Stop>
    requires { IsWithin schema.now mapping.now }
    ensures value { Answers (GivesText schema.now mapping.now query.now) result }
    ensures kind { IfErr result (λ why. is_of_tables why ≡ false) }
    ensures numbered { IfErr result IsNumbered }
{
    match query_line(alloc, schema, mapping, query) {
        Ok(lines) => Ok(lines),
        Err(Memory) => Err(Stop::Memory),
    }
}

/// The text of `sql`: the schema, the mapping, the query, and the text of its plan. No table is loaded.
pub fn text_of_sql<S: Store>(
    alloc: Global,
    store: &mut S,
    options: &SqlOptions<'_>,
) -> Result<Lines, Stop>
    requires { is_absolute options.now.base.now ≡ true }
    ensures ran { Ran (Works (command_seen (Sql options.now))) (S.state store.old) (S.state store.new) result }
    ensures text { IfOk result (λ lines. Where (S.state store.old).files (λ files. IsTextOf (command_seen (Sql options.now)) files lines)) }
    ensures asked { AsksFirst (command_seen (Sql options.now)) (S.state store.old).asked (S.state store.new).asked }
    ensures kind { IfErr result (λ why. is_of_tables why ≡ false) }
    ensures numbered { IfErr result IsNumbered }
{
    let schema = match load_schema(alloc, store, options.schema) {
        Ok(schema) => schema,
        Err(stop) => return Err(stop),
    };
    let mapping = match load_mapping(alloc, store, options.mapping, &schema, options.base) {
        Ok(mapping) => mapping,
        Err(stop) => return Err(stop),
    };
    let query = match load_query(alloc, store, options.query, options.base) {
        Ok(query) => query,
        Err(stop) => return Err(stop),
    };
    text(alloc, &schema, &mapping, &query)
}
