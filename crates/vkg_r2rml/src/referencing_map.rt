// Referencing object maps (R2RML, 8).
ghost use Rattle.std.specs.Prelude.{◌≡◌, map, IfOk};
ghost use Rattle.vkg_r2rml.specs.Checked.{all_of, exactly_one};
ghost use Rattle.vkg_r2rml.specs.ReferencingMap.{no_term_map as without_term_map, parent_of as parent_among, table_of_parent as parents_table, column_named as column_of_term, columns_of as columns_of_table, column_if_known as known_column, side as one_side, family_at as family_of_column, comparable as comparable_pair, condition as one_condition, same_table as one_table, conditions as all_conditions, reference as whole_reference, referencing_map as whole_map};

use crate::checked::{Checked, both};
use crate::gathered::Gathered;
use crate::maps::Maps;
use crate::vocabulary::{RR_CHILD, RR_JOIN_CONDITION, RR_PARENT};
use std::alloc::Global;
use vkg_base::{Items, Memory};
use vkg_cells::family;
use vkg_maps::ObjectMap;
use vkg_schema::{Column, Schema};
use vkg_term_maps::vocabulary::{RR_COLUMN, RR_CONSTANT, RR_TEMPLATE};
use vkg_term_maps::{Graph, column_of};
use vkg_terms::{Annotation, Term};

/// The columns of a table.
pub fn columns_of(schema: &Schema, table: usize) -> &[Column]
    ensures { result.now ≡ columns_of_table schema.now table }
{
    match schema.tables().get(table) {
        None => &[],
        Some(t) => t.columns.as_slice(),
    }
}

/// The referencing object map of a node with these parents, over a table.
pub fn referencing_map(
    alloc: Global,
    graph: &Graph<'_>,
    schema: &Schema,
    maps: &Maps,
    table: usize,
    node: &Term,
    parents: &[Term],
) -> Result<Checked<ObjectMap>, Memory>
    ensures { IfOk result (λ made. made ≡ whole_map graph.now schema.now maps.now table node.now parents.now) }
{
    let alone = no_term_map(alloc, graph, node)?;
    let parent = parent_of(alloc, maps, parents)?;
    let nodes = graph.objects(alloc, node, RR_JOIN_CONDITION)?;
    let reference = reference(alloc, graph, schema, maps, table, parent, nodes.as_slice())?;
    match both(alone, reference) {
        Ok((_, (parent, pairs))) => Ok(Ok(ObjectMap::Parent(parent, pairs))),
        Err(check) => Ok(Err(check)),
    }
}

fn no_term_map(
    alloc: Global,
    graph: &Graph<'_>,
    node: &Term,
) -> Result<Checked<Items<Term>>, Memory>
    ensures { IfOk result (λ checked. checked ≡ without_term_map graph.now node.now) }
{
    let mut found = graph.objects(alloc, node, RR_CONSTANT)?;
    found.append(graph.objects(alloc, node, RR_COLUMN)?)?;
    found.append(graph.objects(alloc, node, RR_TEMPLATE)?)?;
    if found.is_empty() {
        Ok(Ok(found))
    } else {
        Ok(Err(11))
    }
}

fn parent_of(alloc: Global, maps: &Maps, parents: &[Term]) -> Result<Checked<usize>, Memory>
    ensures { IfOk result (λ parent. parent ≡ parent_among maps.now parents.now) }
{
    let [parent] = parents else {
        return Ok(Err(18));
    };
    match maps.place_of(alloc, parent)? {
        Some(place) => Ok(Ok(place)),
        None => Ok(Err(18)),
    }
}

fn table_of_parent(maps: &Maps, parent: Checked<usize>) -> Option<usize>
    ensures { result ≡ parents_table maps.now parent }
{
    match parent {
        Ok(place) => maps.table_at(place),
        Err(_) => None,
    }
}

fn reference(
    alloc: Global,
    graph: &Graph<'_>,
    schema: &Schema,
    maps: &Maps,
    table: usize,
    parent: Checked<usize>,
    nodes: &[Term],
) -> Result<Checked<(usize, Items<(usize, usize)>)>, Memory>
    ensures { IfOk result (λ made. made ≡ whole_reference graph.now schema.now maps.now table parent nodes.now) }
{
    let parent_table = table_of_parent(maps, parent);
    let pairs = conditions(alloc, graph, schema, table, parent_table, nodes)?;
    Ok(both(parent, pairs))
}

fn conditions(
    alloc: Global,
    graph: &Graph<'_>,
    schema: &Schema,
    table: usize,
    parent: Option<usize>,
    nodes: &[Term],
) -> Result<Checked<Items<(usize, usize)>>, Memory>
    ensures { IfOk result (λ pairs. pairs ≡ all_conditions graph.now schema.now table parent nodes.now) }
{
    match nodes {
        [] => Ok(same_table(alloc, table, parent)),
        _ => each_condition(alloc, graph, schema, table, parent, nodes),
    }
}

fn same_table(alloc: Global, table: usize, parent: Option<usize>) -> Checked<Items<(usize, usize)>>
    ensures { result ≡ one_table table parent }
{
    match parent {
        None => Ok(Items::new(alloc)),
        Some(parent) => {
            if table == parent {
                Ok(Items::new(alloc))
            } else {
                Err(19)
            }
        }
    }
}

fn each_condition(
    alloc: Global,
    graph: &Graph<'_>,
    schema: &Schema,
    table: usize,
    parent: Option<usize>,
    nodes: &[Term],
) -> Result<Checked<Items<(usize, usize)>>, Memory>
    ensures { IfOk result (λ pairs. pairs ≡ all_of (map (one_condition graph.now schema.now table parent) nodes.now)) }
{
    let mut made = Gathered::new(alloc);
    for node in nodes {
        made.add(condition(alloc, graph, schema, table, parent, node)?)?;
    }
    Ok(made.all())
}

fn condition(
    alloc: Global,
    graph: &Graph<'_>,
    schema: &Schema,
    table: usize,
    parent: Option<usize>,
    node: &Term,
) -> Result<Checked<(usize, usize)>, Memory>
    ensures { IfOk result (λ pair. pair ≡ one_condition graph.now schema.now table parent node.now) }
{
    let children = graph.objects(alloc, node, RR_CHILD)?;
    let parents = graph.objects(alloc, node, RR_PARENT)?;
    let child = side(alloc, schema, Some(table), children.as_slice())?;
    let column = side(alloc, schema, parent, parents.as_slice())?;
    match both(child, column) {
        Ok(pair) => Ok(comparable(schema, table, parent, pair)),
        Err(check) => Ok(Err(check)),
    }
}

fn side(
    alloc: Global,
    schema: &Schema,
    table: Option<usize>,
    values: &[Term],
) -> Result<Checked<usize>, Memory>
    ensures { IfOk result (λ column. column ≡ one_side schema.now table values.now) }
{
    match each_column(alloc, schema, table, values)? {
        Ok(columns) => Ok(only_column(columns.as_slice())),
        Err(check) => Ok(Err(check)),
    }
}

fn only_column(columns: &[usize]) -> Checked<usize>
    ensures { result ≡ exactly_one 19 columns.now }
{
    match columns {
        [column] => Ok(*column),
        _ => Err(19),
    }
}

fn each_column(
    alloc: Global,
    schema: &Schema,
    table: Option<usize>,
    values: &[Term],
) -> Result<Checked<Items<usize>>, Memory>
    ensures { IfOk result (λ columns. columns ≡ all_of (map (known_column schema.now table) values.now)) }
{
    let mut made = Gathered::new(alloc);
    for value in values {
        made.add(column_if_known(schema, table, value))?;
    }
    Ok(made.all())
}

fn column_if_known(schema: &Schema, table: Option<usize>, value: &Term) -> Checked<usize>
    ensures { result ≡ known_column schema.now table value.now }
{
    let Some(table) = table else {
        return Ok(0);
    };
    match column_named(columns_of(schema, table), value) {
        Some(column) => Ok(column),
        None => Err(12),
    }
}

fn column_named(columns: &[Column], value: &Term) -> Option<usize>
    ensures { result ≡ column_of_term columns.now value.now }
{
    match value {
        Term::Lit(text, Annotation::Plain) => column_of(columns, text.as_str()),
        _ => None,
    }
}

fn comparable(
    schema: &Schema,
    table: usize,
    parent: Option<usize>,
    pair: (usize, usize),
) -> Checked<(usize, usize)>
    ensures { result ≡ comparable_pair schema.now table parent pair }
{
    let Some(parent) = parent else {
        return Ok(pair);
    };
    if family_at(schema, table, pair.0) == family_at(schema, parent, pair.1) {
        Ok(pair)
    } else {
        Err(20)
    }
}

fn family_at(schema: &Schema, table: usize, column: usize) -> u8
    ensures { result ≡ family_of_column schema.now table column }
{
    match columns_of(schema, table).get(column) {
        None => 0,
        Some(c) => family(c.kind),
    }
}
