// The object maps of a predicate-object map (R2RML, 6.3 and 8).
ghost use Rattle.std.specs.Prelude.{◌≡◌, IfOk};
ghost use Rattle.vkg_term_maps.specs.declared.place.Role.TheVariants.{Object as ObjectRole};
ghost use Rattle.vkg_r2rml.specs.Checked.{and_then};
ghost use Rattle.vkg_r2rml.specs.ReferencingMap.{columns_of as columns_of_table};
ghost use Rattle.vkg_r2rml.specs.TriplesMap.{as_object, term_map as one_term_map, object_map as one_object_map, object_maps as all_object_maps, objects_of as objects_of_node};

use crate::checked::Checked;
use crate::gathered::Gathered;
use crate::maps::Maps;
use crate::referencing_map::{columns_of, referencing_map};
use crate::term_maps::term_map;
use crate::vocabulary::RR_PARENT_TRIPLES_MAP;
use std::alloc::Global;
use vkg_base::{Items, Memory};
use vkg_maps::ObjectMap;
use vkg_schema::Schema;
use vkg_term_maps::{Graph, Place, Role};
use vkg_terms::Term;

/// The object maps of the node of a predicate-object map, of which there is one at least.
pub fn objects_of(
    alloc: Global,
    graph: &Graph<'_>,
    schema: &Schema,
    base: &str,
    maps: &Maps,
    table: usize,
    node: &Term,
) -> Result<Checked<Items<ObjectMap>>, Memory>
    ensures { IfOk result (λ made. made ≡ objects_of_node graph.now schema.now base.now maps.now table node.now) }
{
    let places = graph.places(alloc, node, Role::Object)?;
    match places.as_slice() {
        [] => Ok(Err(17)),
        found => object_maps(alloc, graph, schema, base, maps, table, found),
    }
}

fn object_maps(
    alloc: Global,
    graph: &Graph<'_>,
    schema: &Schema,
    base: &str,
    maps: &Maps,
    table: usize,
    found: &[Place],
) -> Result<Checked<Items<ObjectMap>>, Memory>
    ensures { IfOk result (λ made. made ≡ all_object_maps graph.now schema.now base.now maps.now table found.now) }
{
    let mut made = Gathered::new(alloc);
    for place in found {
        made.add(object_map(alloc, graph, schema, base, maps, table, place)?)?;
    }
    Ok(made.all())
}

fn object_map(
    alloc: Global,
    graph: &Graph<'_>,
    schema: &Schema,
    base: &str,
    maps: &Maps,
    table: usize,
    place: &Place,
) -> Result<Checked<ObjectMap>, Memory>
    ensures { IfOk result (λ made. made ≡ one_object_map graph.now schema.now base.now maps.now table place.now) }
{
    match place {
        Place::Constant(_) => own_object(alloc, graph, schema, base, table, place),
        Place::Node(node) => {
            let parents = graph.objects(alloc, node, RR_PARENT_TRIPLES_MAP)?;
            match parents.as_slice() {
                [] => own_object(alloc, graph, schema, base, table, place),
                parents => referencing_map(alloc, graph, schema, maps, table, node, parents),
            }
        }
    }
}

/// An object map that is a term map.
fn own_object(
    alloc: Global,
    graph: &Graph<'_>,
    schema: &Schema,
    base: &str,
    table: usize,
    place: &Place,
) -> Result<Checked<ObjectMap>, Memory>
    ensures { IfOk result (λ made. made ≡ and_then (one_term_map graph.now (columns_of_table schema.now table) base.now ObjectRole place.now) as_object) }
{
    let columns = columns_of(schema, table);
    match term_map(alloc, graph, columns, base, Role::Object, place)? {
        Ok(made) => Ok(Ok(ObjectMap::Term(made))),
        Err(check) => Ok(Err(check)),
    }
}
