// A triples map as it is read from the graph (R2RML, 6).
ghost use Rattle.std.specs.Prelude.{◌≡◌, IfOk, Ok};
ghost use Rattle.vkg_r2rml.specs.TriplesMap.{assembled as assembled_of, triples_map_over as map_over_table, triples_map as whole_map};

use crate::checked::{Checked, both};
use crate::map_node::MapNode;
use crate::maps::Maps;
use crate::predicate_object_map::predicate_object_maps;
use crate::referencing_map::columns_of;
use crate::subject_map::{SubjectMap, subject};
use std::alloc::Global;
use vkg_base::{Items, Memory};
use vkg_maps::{PredicateObjectMap, TriplesMap};
use vkg_schema::Schema;
use vkg_term_maps::Graph;
use vkg_terms::Term;

/// A triples map among these, or the least check of it that fails.
pub fn triples_map(
    alloc: Global,
    graph: &Graph<'_>,
    schema: &Schema,
    base: &str,
    maps: &Maps,
    map: &MapNode,
) -> Result<Checked<TriplesMap>, Memory>
    ensures { IfOk result (λ made. made ≡ whole_map graph.now schema.now base.now maps.now map.now) }
{
    match map.table {
        Ok(table) => triples_map_over(alloc, graph, schema, base, maps, &map.node, table),
        Err(check) => Ok(Err(check)),
    }
}

fn triples_map_over(
    alloc: Global,
    graph: &Graph<'_>,
    schema: &Schema,
    base: &str,
    maps: &Maps,
    map: &Term,
    table: usize,
) -> Result<Checked<TriplesMap>, Memory>
    ensures { IfOk result (λ made. made ≡ map_over_table graph.now schema.now base.now maps.now map.now table) }
{
    let columns = columns_of(schema, table);
    let pairs = predicate_object_maps(alloc, graph, schema, base, maps, table, map)?;
    let subject = subject(alloc, graph, columns, base, map)?;
    match both(subject, pairs) {
        Ok(made) => Ok(Ok(assembled(table, made))),
        Err(check) => Ok(Err(check)),
    }
}

fn assembled(table: usize, made: (SubjectMap, Items<PredicateObjectMap>)) -> TriplesMap
    ensures { assembled_of table made ≡ Ok result }
{
    let ((subject, (classes, graphs)), predicate_objects) = made;
    TriplesMap {
        table,
        subject,
        classes,
        graphs,
        predicate_objects,
    }
}
