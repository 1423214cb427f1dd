// The fault of a mapping whose first triples maps have too many rules.
ghost use Rattle.std.specs.Prelude.{◌≡◌, ◌+◌, drop, map, IfOk};
ghost use Rattle.std.specs.Result.{result_err};
ghost use Rattle.vkg_r2rml.specs.Mapping.{in_order, past_limit as fault_past_limit, IsFault};
ghost use Rattle.vkg_r2rml.specs.TriplesMap.{triples_map as one_map};

use crate::map_check::map_check;
use crate::map_error::{MapError, MapFault};
use crate::maps::Maps;
use std::alloc::Global;
use vkg_base::{Items, Memory};
use vkg_schema::Schema;
use vkg_term_maps::Graph;

/// What is told where the first triples maps, so many, have too many rules: the fault of those behind them, or else that limit.
pub fn past_limit(
    alloc: Global,
    graph: &Graph<'_>,
    schema: &Schema,
    base: &str,
    maps: &Maps,
    first: usize,
) -> MapError
    ensures { IsFault (fault_past_limit (result_err (in_order (first + 1) (map (one_map graph.now schema.now base.now maps.now) (drop first maps.now))))) result }
{
    match first_fault(alloc, graph, schema, base, maps, first) {
        Ok(None) => MapError::Fault(MapFault { check: 22, map: 0 }),
        Ok(Some(fault)) => MapError::Fault(fault),
        Err(_) => MapError::Memory,
    }
}

/// The first fault of the triples maps behind the first ones. None of these maps is kept.
fn first_fault(
    alloc: Global,
    graph: &Graph<'_>,
    schema: &Schema,
    base: &str,
    maps: &Maps,
    first: usize,
) -> Result<Option<MapFault>, Memory>
    ensures { IfOk result (λ fault. fault ≡ result_err (in_order (first + 1) (map (one_map graph.now schema.now base.now maps.now) (drop first maps.now)))) }
{
    let mut passed = Items::new(alloc);
    let nodes = maps.as_slice();
    for k in first..nodes.len() {
        let m = &nodes[k];
        if let Some(check) = map_check(alloc, graph, schema, base, maps, &mut passed, m)? {
            return Ok(Some(MapFault { check, map: k + 1 }));
        }
    }
    Ok(None)
}
