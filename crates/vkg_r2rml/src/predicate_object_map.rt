// The predicate-object maps of a triples map (R2RML, 6.3).
ghost use Rattle.std.specs.Prelude.{◌≡◌, map, IfOk};
ghost use Rattle.vkg_r2rml.specs.Checked.{all_of};
ghost use Rattle.vkg_r2rml.specs.TriplesMap.{predicates as predicates_of_node, pair_at as pair_of_node, predicate_object_map as one_map, predicate_object_maps as all_maps};

use crate::checked::{Checked, both};
use crate::gathered::Gathered;
use crate::maps::Maps;
use crate::object_maps::objects_of;
use crate::referencing_map::columns_of;
use crate::term_maps::{graph_maps, term_maps};
use crate::vocabulary::RR_PREDICATE_OBJECT_MAP;
use std::alloc::Global;
use vkg_base::{Items, Memory};
use vkg_maps::{PredicateObjectMap, TermMap};
use vkg_schema::{Column, Schema};
use vkg_term_maps::{Graph, Role};
use vkg_terms::Term;

/// The predicate-object maps of a triples map, over a table.
pub fn predicate_object_maps(
    alloc: Global,
    graph: &Graph<'_>,
    schema: &Schema,
    base: &str,
    maps: &Maps,
    table: usize,
    map: &Term,
) -> Result<Checked<Items<PredicateObjectMap>>, Memory>
    ensures { IfOk result (λ made. made ≡ all_maps graph.now schema.now base.now maps.now table map.now) }
{
    let found = graph.objects(alloc, map, RR_PREDICATE_OBJECT_MAP)?;
    each_map(alloc, graph, schema, base, maps, table, found.as_slice())
}

fn each_map(
    alloc: Global,
    graph: &Graph<'_>,
    schema: &Schema,
    base: &str,
    maps: &Maps,
    table: usize,
    found: &[Term],
) -> Result<Checked<Items<PredicateObjectMap>>, Memory>
    ensures { IfOk result (λ made. made ≡ all_of (map (one_map graph.now schema.now base.now maps.now table) found.now)) }
{
    let mut made = Gathered::new(alloc);
    for node in found {
        made.add(predicate_object_map(alloc, graph, schema, base, maps, table, node)?)?;
    }
    Ok(made.all())
}

fn predicate_object_map(
    alloc: Global,
    graph: &Graph<'_>,
    schema: &Schema,
    base: &str,
    maps: &Maps,
    table: usize,
    node: &Term,
) -> Result<Checked<PredicateObjectMap>, Memory>
    ensures { IfOk result (λ made. made ≡ one_map graph.now schema.now base.now maps.now table node.now) }
{
    match node {
        Term::Lit(_, _) => Ok(Err(17)),
        _ => pair_at(alloc, graph, schema, base, maps, table, node),
    }
}

fn pair_at(
    alloc: Global,
    graph: &Graph<'_>,
    schema: &Schema,
    base: &str,
    maps: &Maps,
    table: usize,
    node: &Term,
) -> Result<Checked<PredicateObjectMap>, Memory>
    ensures { IfOk result (λ made. made ≡ pair_of_node graph.now schema.now base.now maps.now table node.now) }
{
    let columns = columns_of(schema, table);
    let predicates = predicates(alloc, graph, columns, base, node)?;
    let objects = objects_of(alloc, graph, schema, base, maps, table, node)?;
    let graphs = graph_maps(alloc, graph, columns, base, node)?;
    match both(predicates, both(objects, graphs)) {
        Ok((predicates, (objects, graphs))) => Ok(Ok(PredicateObjectMap {
            predicates,
            objects,
            graphs,
        })),
        Err(check) => Ok(Err(check)),
    }
}

fn predicates(
    alloc: Global,
    graph: &Graph<'_>,
    columns: &[Column],
    base: &str,
    node: &Term,
) -> Result<Checked<Items<TermMap>>, Memory>
    ensures { IfOk result (λ made. made ≡ predicates_of_node graph.now columns.now base.now node.now) }
{
    let places = graph.places(alloc, node, Role::Predicate)?;
    match places.as_slice() {
        [] => Ok(Err(17)),
        found => term_maps(alloc, graph, columns, base, Role::Predicate, found),
    }
}
