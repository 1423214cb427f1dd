// The logical table of a triples map (R2RML, 5).
ghost use Rattle.std.specs.Prelude.{◌≡◌, IfOk, Err, ok_or, if◌then◌else◌};
ghost use Rattle.vkg_terms.specs.Name.{is_name};
ghost use Rattle.vkg_r2rml.specs.Checked.{and_then};
ghost use Rattle.vkg_r2rml.specs.LogicalTable.{source, table_named as named_table, table_of_text, table_of_node as of_node, table_of as of_map};

use crate::checked::Checked;
use crate::vocabulary::{RR_LOGICAL_TABLE, RR_SQL_QUERY, RR_TABLE_NAME};
use std::alloc::Global;
use vkg_base::Memory;
use vkg_schema::{Schema, Table};
use vkg_term_maps::{Graph, means};
use vkg_terms::{Annotation, Term, is_name};

/// The place of the table of a triples map, or the check of it that fails.
pub fn table_of(
    alloc: Global,
    graph: &Graph<'_>,
    schema: &Schema,
    map: &Term,
) -> Result<Checked<usize>, Memory>
    ensures { IfOk result (λ table. table ≡ of_map graph.now schema.now map.now) }
{
    let tables = graph.objects(alloc, map, RR_LOGICAL_TABLE)?;
    match tables.as_slice() {
        [Term::Lit(_, _)] => Ok(Err(6)),
        [node] => table_of_node(alloc, graph, schema, node),
        _ => Ok(Err(6)),
    }
}

fn table_of_node(
    alloc: Global,
    graph: &Graph<'_>,
    schema: &Schema,
    node: &Term,
) -> Result<Checked<usize>, Memory>
    ensures { IfOk result (λ table. table ≡ of_node graph.now schema.now node.now) }
{
    let names = graph.objects(alloc, node, RR_TABLE_NAME)?;
    let queries = graph.objects(alloc, node, RR_SQL_QUERY)?;
    Ok(table_of_source(schema, names.as_slice(), queries.as_slice()))
}

fn table_of_source(schema: &Schema, names: &[Term], queries: &[Term]) -> Checked<usize>
    ensures { result ≡ and_then (source names.now queries.now) (named_table schema.now) }
{
    match (names, queries) {
        ([name], []) => table_named(schema, name),
        ([], [_]) => Err(8),
        _ => Err(7),
    }
}

fn table_named(schema: &Schema, name: &Term) -> Checked<usize>
    ensures { result ≡ named_table schema.now name.now }
{
    match name {
        Term::Lit(text, Annotation::Plain) => table_of_name(schema.tables(), text.as_str()),
        _ => Err(7),
    }
}

fn table_of_name(tables: &[Table], text: &str) -> Checked<usize>
    ensures { result ≡ (if is_name text.now then ok_or (table_of_text tables.now text.now) 9 else Err 7) }
{
    if !is_name(text) {
        return Err(7);
    }
    match find_table(tables, text) {
        Some(table) => Ok(table),
        None => Err(9),
    }
}

fn find_table(tables: &[Table], text: &str) -> Option<usize>
    ensures { result ≡ table_of_text tables.now text.now }
{
    tables.iter().position(|t| means(text, t.name.as_str()))
}
