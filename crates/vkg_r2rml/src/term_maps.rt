// The term maps of a triples map (R2RML, 7).
ghost use Rattle.std.specs.Prelude.{◌≡◌, IfOk};
ghost use Rattle.vkg_r2rml.specs.TriplesMap.{term_map as one_term_map, term_maps as many_term_maps, graph_maps as maps_of_graphs};

use crate::checked::Checked;
use crate::gathered::Gathered;
use std::alloc::Global;
use vkg_base::{Items, Memory};
use vkg_maps::TermMap;
use vkg_schema::Column;
use vkg_term_maps::{Graph, Place, Role, TermMapError, read_term_map};
use vkg_terms::Term;

/// The term map at a place, or the number of the check that fails.
pub fn term_map(
    alloc: Global,
    graph: &Graph<'_>,
    columns: &[Column],
    base: &str,
    role: Role,
    place: &Place,
) -> Result<Checked<TermMap>, Memory>
    ensures { IfOk result (λ made. made ≡ one_term_map graph.now columns.now base.now role place.now) }
{
    match read_term_map(alloc, graph, role, place, columns, base) {
        Ok(made) => Ok(Ok(made)),
        Err(TermMapError::Fault(fault)) => Ok(Err(fault.check())),
        Err(TermMapError::Memory) => Err(Memory),
    }
}

/// The term maps at these places, or the least check that fails.
pub fn term_maps(
    alloc: Global,
    graph: &Graph<'_>,
    columns: &[Column],
    base: &str,
    role: Role,
    places: &[Place],
) -> Result<Checked<Items<TermMap>>, Memory>
    ensures { IfOk result (λ made. made ≡ many_term_maps graph.now columns.now base.now role places.now) }
{
    let mut made = Gathered::new(alloc);
    for place in places {
        made.add(term_map(alloc, graph, columns, base, role, place)?)?;
    }
    Ok(made.all())
}

/// The graph maps of a node (R2RML, 9).
pub fn graph_maps(
    alloc: Global,
    graph: &Graph<'_>,
    columns: &[Column],
    base: &str,
    node: &Term,
) -> Result<Checked<Items<TermMap>>, Memory>
    ensures { IfOk result (λ made. made ≡ maps_of_graphs graph.now columns.now base.now node.now) }
{
    let places = graph.places(alloc, node, Role::Graph)?;
    term_maps(alloc, graph, columns, base, Role::Graph, places.as_slice())
}
