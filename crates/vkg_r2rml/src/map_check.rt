// The checks of a triples map that is not kept (R2RML, 6).
ghost use Rattle.std.specs.Prelude.{◌≡◌, ◌==◌, ◌&&◌, IfOk, OnOk};
ghost use Rattle.std.specs.List.{list_any};
ghost use Rattle.std.specs.Result.{result_err};
ghost use Rattle.vkg_terms.specs.Same.{term_eq};
ghost use Rattle.vkg_r2rml.specs.Passed.{ArePassed};
ghost use Rattle.vkg_r2rml.specs.ReferencingMap.{columns_of as columns_of_table};
ghost use Rattle.vkg_r2rml.specs.TriplesMap.{subject_at as subject_of_place, subject as whole_subject, triples_map as whole_map};

use crate::checked::{fault_of, lesser};
use crate::map_node::MapNode;
use crate::maps::Maps;
use crate::predicate_object_map::predicate_object_maps;
use crate::referencing_map::columns_of;
use crate::subject_map::subject_at;
use std::alloc::Global;
use vkg_base::{Items, Memory};
use vkg_schema::Schema;
use vkg_term_maps::{Graph, Place, Role};
use vkg_terms::Term;

/// The node of a subject map and a table over which no check of it fails.
#[derive(Drop)]
pub struct Passed {
    pub node: Term,
    pub table: usize,
}

/// The least check of a triples map that fails. Subject maps that passed are not read again, since many triples maps may share one.
#[tactic(auto, using(crate::proofs::PassedLemmas::fault_of_map))]
pub fn map_check(
    alloc: Global,
    graph: &Graph<'_>,
    schema: &Schema,
    base: &str,
    maps: &Maps,
    passed: &mut Items<Passed>,
    map: &MapNode,
) -> Result<Option<u8>, Memory>
    requires { ArePassed graph.now schema.now base.now passed.old }
    ensures passed { OnOk result (ArePassed graph.now schema.now base.now passed.new) }
    ensures check { IfOk result (λ check. check ≡ result_err (whole_map graph.now schema.now base.now maps.now map.now)) }
{
    match map.table {
        Ok(table) => {
            let pairs = predicate_object_maps(alloc, graph, schema, base, maps, table, &map.node)?;
            let pairs = fault_of(pairs);
            let subject = subject_check(alloc, graph, schema, base, passed, &map.node, table)?;
            Ok(lesser(subject, pairs))
        }
        Err(check) => Ok(Some(check)),
    }
}

/// The least check of a triples map's subject map that fails, over a table.
fn subject_check(
    alloc: Global,
    graph: &Graph<'_>,
    schema: &Schema,
    base: &str,
    passed: &mut Items<Passed>,
    map: &Term,
    table: usize,
) -> Result<Option<u8>, Memory>
    requires { ArePassed graph.now schema.now base.now passed.old }
    ensures passed { OnOk result (ArePassed graph.now schema.now base.now passed.new) }
    ensures check { IfOk result (λ check. check ≡ result_err (whole_subject graph.now (columns_of_table schema.now table) base.now map.now)) }
{
    let places = graph.places(alloc, map, Role::Subject)?;
    match places.as_slice() {
        [place] => place_check(alloc, graph, schema, base, passed, place, table),
        _ => Ok(Some(10)),
    }
}

fn place_check(
    alloc: Global,
    graph: &Graph<'_>,
    schema: &Schema,
    base: &str,
    passed: &mut Items<Passed>,
    place: &Place,
    table: usize,
) -> Result<Option<u8>, Memory>
    requires { ArePassed graph.now schema.now base.now passed.old }
    ensures passed { OnOk result (ArePassed graph.now schema.now base.now passed.new) }
    ensures check { IfOk result (λ check. check ≡ result_err (subject_of_place graph.now (columns_of_table schema.now table) base.now place.now)) }
{
    let Place::Node(node) = place else {
        return fault_at(alloc, graph, schema, base, place, table);
    };
    if has_passed(passed.as_slice(), node, table) {
        return Ok(None);
    }
    match fault_at(alloc, graph, schema, base, place, table)? {
        None => {
            let node = node.copy()?;
            passed.push(Passed { node, table })?;
            Ok(None)
        }
        Some(check) => Ok(Some(check)),
    }
}

fn fault_at(
    alloc: Global,
    graph: &Graph<'_>,
    schema: &Schema,
    base: &str,
    place: &Place,
    table: usize,
) -> Result<Option<u8>, Memory>
    ensures { IfOk result (λ check. check ≡ result_err (subject_of_place graph.now (columns_of_table schema.now table) base.now place.now)) }
{
    let columns = columns_of(schema, table);
    Ok(fault_of(subject_at(alloc, graph, columns, base, place)?))
}

fn has_passed(passed: &[Passed], node: &Term, table: usize) -> bool
    ensures { result ≡ list_any (λ p. p.table == table && term_eq p.node node.now) passed.now }
{
    passed.iter().any(|p| p.table == table && p.node.same(node))
}
