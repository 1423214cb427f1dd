ghost use Rattle.std.specs.Prelude.{◌≡◌, IfOk};
ghost use Rattle.vkg_term_maps.specs.FirstCheck.{IsFirst, failing_checks};
ghost use Rattle.vkg_term_maps.specs.TermMaps.{Gives, column_map as map_of_column, constant as constant_kind, constant_map as map_of_constant, kind_at, natural_at as natural_of_column, no_properties, of_kind as map_of_kind, properties as properties_at, term_map_of};

use crate::columns::column_of;
use crate::error::{TermMapError, TermMapFault};
use crate::graph::Graph;
use crate::kind::{Kind, constant, read_kind};
use crate::place::{Place, Role};
use crate::template_map::template_map;
use crate::term_type::{Properties, sort_of, type_of};
use std::alloc::Global;
use std::mem;
use vkg_base::Memory;
use vkg_cells::{is_wide_number, natural};
use vkg_maps::TermMap;
use vkg_schema::Column;
use vkg_terms::{Annotation, Term};

/// The term map that stands at a place, over a table with these columns and under a base, which is an absolute IRI (R2RML,
/// 7). The fault is the first check that fails. It is asked of a graph that holds no triple twice.
pub fn read_term_map(
    alloc: Global,
    graph: &Graph<'_>,
    role: Role,
    place: &Place,
    columns: &[Column],
    base: &str,
) -> Result<TermMap, TermMapError>
    ensures value { Gives (term_map_of graph.now columns.now base.now role place.now) result }
    ensures first { IsFirst (failing_checks graph.now columns.now role place.now) result }
{
    term_map_at(alloc, graph, role, place, columns, base)
}

fn term_map_at(
    alloc: Global,
    graph: &Graph<'_>,
    role: Role,
    place: &Place,
    columns: &[Column],
    base: &str,
) -> Result<TermMap, TermMapError>
    ensures { Gives (term_map_of graph.now columns.now base.now role place.now) result }
{
    match place {
        Place::Constant(term) => constant_at(alloc, role, term, columns, base),
        Place::Node(node) => node_at(alloc, graph, role, node, columns, base),
    }
}

// Properties are let go by a call: a drop where a function is left is written out there, with that of each kind of term.

/// The term map of a shortcut property.
fn constant_at(
    alloc: Global,
    role: Role,
    term: &Term,
    columns: &[Column],
    base: &str,
) -> Result<TermMap, TermMapError>
    ensures { Gives (map_of_kind role no_properties columns.now base.now (constant_kind role term.now)) result }
{
    let kind = constant(role, term.copy()?);
    let properties = Properties::none();
    let map = of_kind(alloc, role, &properties, columns, base, kind);
    mem::drop(properties);
    map
}

/// The term map at a node.
fn node_at(
    alloc: Global,
    graph: &Graph<'_>,
    role: Role,
    node: &Term,
    columns: &[Column],
    base: &str,
) -> Result<TermMap, TermMapError>
    ensures { Gives (map_of_kind role (properties_at graph.now node.now) columns.now base.now (kind_at graph.now role node.now)) result }
{
    let properties = Properties::read(alloc, graph, node)?;
    let map = with_properties(alloc, graph, role, node, columns, base, &properties);
    mem::drop(properties);
    map
}

/// The term map at a node that has these properties.
fn with_properties(
    alloc: Global,
    graph: &Graph<'_>,
    role: Role,
    node: &Term,
    columns: &[Column],
    base: &str,
    properties: &Properties,
) -> Result<TermMap, TermMapError>
    ensures { Gives (map_of_kind role properties.now columns.now base.now (kind_at graph.now role node.now)) result }
{
    let kind = read_kind(alloc, graph, role, node)?;
    of_kind(alloc, role, properties, columns, base, kind)
}

fn of_kind(
    alloc: Global,
    role: Role,
    properties: &Properties,
    columns: &[Column],
    base: &str,
    kind: Option<Kind>,
) -> Result<TermMap, TermMapError>
    ensures { Gives (map_of_kind role properties.now columns.now base.now kind) result }
{
    match kind {
        None => Err(TermMapError::Fault(TermMapFault::Kind)),
        Some(Kind::Constant(term)) => constant_map(term),
        Some(Kind::Column(text)) => column_map(
            alloc,
            role,
            properties,
            columns,
            column_of(columns, text.as_str()),
        ),
        Some(Kind::Template(text)) => {
            template_map(alloc, role, properties, columns, base, text.as_str())
        }
    }
}

/// A constant-valued term map (R2RML, 7.1).
fn constant_map(term: Term) -> Result<TermMap, TermMapError>
    ensures { Gives (map_of_constant term) result }
{
    if is_wide_number(&term) {
        Err(TermMapError::Fault(TermMapFault::WideNumber))
    } else {
        Ok(TermMap::Constant(term))
    }
}

/// A column-valued term map (R2RML, 7.2).
fn column_map(
    alloc: Global,
    role: Role,
    properties: &Properties,
    columns: &[Column],
    column: Option<usize>,
) -> Result<TermMap, TermMapError>
    ensures { Gives (map_of_column role properties.now columns.now column) result }
{
    let Some(at) = column else {
        return Err(TermMapError::Fault(TermMapFault::UnknownColumn));
    };
    let natural = natural_at(alloc, columns, at)?;
    let sort = sort_of(role, true, &properties.types);
    let term_type = type_of(alloc, natural, properties, sort)?;
    Ok(TermMap::Column(at, term_type))
}

/// The natural datatype of the column at a place (R2RML, 10.2).
fn natural_at(alloc: Global, columns: &[Column], at: usize) -> Result<Annotation, Memory>
    ensures { IfOk result (λ annotation. annotation ≡ natural_of_column columns.now at) }
{
    match columns.get(at) {
        None => Ok(Annotation::Plain),
        Some(column) => natural(alloc, column.kind),
    }
}
