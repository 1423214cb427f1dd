// The subject map of a triples map, with its classes and graphs (R2RML, 6.1, 6.2 and 9).
ghost use Rattle.std.specs.Prelude.{◌≡◌, map, IfOk};
ghost use Rattle.vkg_r2rml.specs.Checked.{all_of};
ghost use Rattle.vkg_r2rml.specs.TriplesMap.{class as one_class, classes as all_classes, classes_and_graphs as all_classes_and_graphs, subject_at as subject_of_place, subject as whole_subject};

use crate::checked::{Checked, both};
use crate::gathered::Gathered;
use crate::term_maps::{graph_maps, term_map};
use crate::vocabulary::RR_CLASS;
use std::alloc::Global;
use vkg_base::{Items, Memory, Text};
use vkg_maps::TermMap;
use vkg_schema::Column;
use vkg_term_maps::{Graph, Place, Role};
use vkg_terms::Term;

/// Classes and graph maps.
pub type ClassesAndGraphs = (Items<Text>, Items<TermMap>);

/// A subject map, with its classes and graph maps.
pub type SubjectMap = (TermMap, ClassesAndGraphs);

/// The subject map of a triples map.
pub fn subject(
    alloc: Global,
    graph: &Graph<'_>,
    columns: &[Column],
    base: &str,
    map: &Term,
) -> Result<Checked<SubjectMap>, Memory>
    ensures { IfOk result (λ made. made ≡ whole_subject graph.now columns.now base.now map.now) }
{
    let places = graph.places(alloc, map, Role::Subject)?;
    match places.as_slice() {
        [place] => subject_at(alloc, graph, columns, base, place),
        _ => Ok(Err(10)),
    }
}

/// The subject map at a place.
pub fn subject_at(
    alloc: Global,
    graph: &Graph<'_>,
    columns: &[Column],
    base: &str,
    place: &Place,
) -> Result<Checked<SubjectMap>, Memory>
    ensures { IfOk result (λ made. made ≡ subject_of_place graph.now columns.now base.now place.now) }
{
    let rest = classes_and_graphs(alloc, graph, columns, base, place)?;
    let made = term_map(alloc, graph, columns, base, Role::Subject, place)?;
    Ok(both(made, rest))
}

fn classes_and_graphs(
    alloc: Global,
    graph: &Graph<'_>,
    columns: &[Column],
    base: &str,
    place: &Place,
) -> Result<Checked<ClassesAndGraphs>, Memory>
    ensures { IfOk result (λ made. made ≡ all_classes_and_graphs graph.now columns.now base.now place.now) }
{
    match place {
        Place::Constant(_) => Ok(Ok((Items::new(alloc), Items::new(alloc)))),
        Place::Node(node) => {
            let classes = classes(alloc, graph, node)?;
            let graphs = graph_maps(alloc, graph, columns, base, node)?;
            Ok(both(classes, graphs))
        }
    }
}

fn classes(alloc: Global, graph: &Graph<'_>, node: &Term) -> Result<Checked<Items<Text>>, Memory>
    ensures { IfOk result (λ made. made ≡ all_classes graph.now node.now) }
{
    let found = graph.objects(alloc, node, RR_CLASS)?;
    each_class(alloc, found.as_slice())
}

fn each_class(alloc: Global, found: &[Term]) -> Result<Checked<Items<Text>>, Memory>
    ensures { IfOk result (λ made. made ≡ all_of (map one_class found.now)) }
{
    let mut made = Gathered::new(alloc);
    for class in found {
        made.add(read_class(class)?)?;
    }
    Ok(made.all())
}

fn read_class(class: &Term) -> Result<Checked<Text>, Memory>
    ensures { IfOk result (λ made. made ≡ one_class class.now) }
{
    match class {
        Term::Iri(iri) => Ok(Ok(iri.copy()?)),
        _ => Ok(Err(11)),
    }
}
