ghost use Rattle.std.specs.Prelude.{◌≡◌, ◌≤◌, map, sum_by, IfOk, IfErr, Ok};
ghost use Rattle.vkg_maps.specs.QuadRules.{rule_limit};
ghost use Rattle.vkg_r2rml.specs.Mapping.{mapping_of, mapping_over as mapping_of_maps, count_fault as fault_of_count, in_order as all_in_order, of_maps as of_read_maps, within_rules, IsFault, Fails};
ghost use Rattle.vkg_r2rml.specs.Faults.{IsFaultless, IsLeast};
ghost use Rattle.vkg_r2rml.specs.RuleCount.{rules_of_map};
ghost use Rattle.vkg_r2rml.specs.TriplesMaps.{triples_maps};
ghost use Rattle.vkg_r2rml.specs.TriplesMap.{triples_map as one_map};

use crate::map_error::{MapError, MapFault};
use crate::map_node::MapNode;
use crate::maps::{Maps, read_maps};
use crate::past_limit::past_limit;
use crate::rule_limit::{RULE_LIMIT, after_map};
use crate::triples_map::triples_map;
use std::alloc::Global;
use std::mem;
use vkg_base::{Items, Text};
use vkg_maps::{Mapping, TriplesMap};
use vkg_schema::Schema;
use vkg_term_maps::Graph;
use vkg_turtle::Triple;

const MAP_LIMIT: usize = 1024;

/// The mapping that the triples of a graph are (R2RML, 6), over a schema and under a base, which is an absolute IRI. Each
/// triple stands there once where `read_turtle` gave them; the clauses hold for all. The fault is that of the least triples map, and there the least check.
pub fn read_mapping(
    alloc: Global,
    triples: &[Triple],
    schema: &Schema,
    base: &str,
) -> Result<Mapping, MapError>
    ensures ok { IfOk result (λ mapping. mapping_of triples.now schema.now base.now ≡ Ok mapping) }
    ensures err { IfErr result (Fails triples.now schema.now base.now) }

    // The faults as a set of pairs, and the least of them.
    ensures faultless { IfOk result (λ _. IsFaultless triples.now schema.now base.now (triples_maps triples.now schema.now)) }
    ensures least { IfErr result (IsLeast triples.now schema.now base.now) }
{
    let graph = Graph::new(alloc, triples)?;
    let maps = read_maps(alloc, &graph, schema)?;
    mapping_over(alloc, &graph, schema, base, &maps)
}

fn mapping_over(
    alloc: Global,
    graph: &Graph<'_>,
    schema: &Schema,
    base: &str,
    maps: &Maps,
) -> Result<Mapping, MapError>
    ensures ok { IfOk result (λ mapping. mapping_of_maps graph.now schema.now base.now maps.now ≡ Ok mapping) }
    ensures err { IfErr result (IsFault (mapping_of_maps graph.now schema.now base.now maps.now)) }
{
    if let Some(fault) = count_fault(maps.as_slice()) {
        return Err(MapError::Fault(fault));
    }
    let maps = in_order(alloc, graph, schema, base, maps)?;
    let base = Text::new(alloc, base)?;
    Ok(Mapping { base, maps })
}

fn count_fault(maps: &[MapNode]) -> Option<MapFault>
    ensures { result ≡ fault_of_count maps.now }
{
    match maps {
        [] => Some(MapFault { check: 21, map: 0 }),
        _ => {
            if maps.len() > MAP_LIMIT {
                Some(MapFault { check: 22, map: 0 })
            } else {
                None
            }
        }
    }
}

/// The triples maps, if a mapping may have their rules. The first of them of which a check fails is told before the limit on rules:
/// once that is passed, those behind are not kept, but their checks are still asked.
fn in_order(
    alloc: Global,
    graph: &Graph<'_>,
    schema: &Schema,
    base: &str,
    maps: &Maps,
) -> Result<Items<TriplesMap>, MapError>
    ensures ok { IfOk result (λ read. (all_in_order 1 (map (one_map graph.now schema.now base.now maps.now) maps.now) ≡ Ok read) × (sum_by rules_of_map read ≤ rule_limit)) }
    ensures err { IfErr result (IsFault (of_read_maps base.now (all_in_order 1 (map (one_map graph.now schema.now base.now maps.now) maps.now)))) }
{
    let mut read = Items::new(alloc);
    let mut left = RULE_LIMIT;
    for (k, m) in maps.as_slice().iter().enumerate() {
        match triples_map(alloc, graph, schema, base, maps, m)? {
            Ok(made) => match after_map(left, &made) {
                Some(rest) => {
                    left = rest;
                    read.push(made)?;
                }
                None => {
                    mem::drop(made);
                    return Err(past_limit(alloc, graph, schema, base, maps, k + 1));
                }
            },
            Err(check) => return Err(MapError::Fault(MapFault { check, map: k + 1 })),
        }
    }
    Ok(read)
}
