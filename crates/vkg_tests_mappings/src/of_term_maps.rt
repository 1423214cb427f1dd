use std::alloc::Global;
use std::test::Fail;
use vkg_base::{Items, Text};
use vkg_maps::TermMap;
use vkg_term_maps::{Graph, Place, Role, TermMapError, TermMapFault, read_term_map};
use vkg_terms::{Annotation, Term};
use vkg_turtle::{Triple, read_turtle};

// Two objects, and a subject between them.
const OBJECTS: &str =
    "@prefix rr: <http://www.w3.org/ns/r2rml#> . <m> rr:objectMap <a> ; rr:subject <b> ; rr:object 'c' .";

fn triples(alloc: Global, text: &str) -> Result<Items<Triple>, Fail> {
    Ok(read_turtle(alloc, text.as_bytes(), "http://e/")?)
}

fn node(alloc: Global) -> Result<Term, Fail> {
    Ok(Term::Iri(Text::new(alloc, "http://e/m")?))
}

#[test]
fn places_in_order(rt: HostRuntime) -> Result<(), Fail> {
    let triples = triples(rt.alloc(), OBJECTS)?;
    let graph = Graph::new(rt.alloc(), triples.as_slice())?;
    let places = graph.places(rt.alloc(), &node(rt.alloc())?, Role::Object)?;
    assert!(rt; places.len() == 2);
    assert!(rt; matches!(places.get(0), Some(Place::Node(_))));
    assert!(rt; matches!(places.get(1), Some(Place::Constant(_))));
    assert!(rt; graph.triples().len() == 3);
    Ok(())
}

// A value of a shortcut property: the text `c`.
fn shortcut(alloc: Global, graph: &Graph<'_>, role: Role) -> Result<TermMap, TermMapError> {
    let text = Term::Lit(Text::new(alloc, "c")?, Annotation::Plain);
    read_term_map(alloc, graph, role, &Place::Constant(text), &[], "http://e/")
}

#[test]
fn a_shortcut_is_a_constant(rt: HostRuntime) -> Result<(), Fail> {
    let graph = Graph::new(rt.alloc(), &[])?;
    let fault = shortcut(rt.alloc(), &graph, Role::Graph).err();
    assert!(rt; fault == Some(TermMapError::Fault(TermMapFault::Kind)));
    let map = shortcut(rt.alloc(), &graph, Role::Object)?;
    assert!(rt; matches!(&map, TermMap::Constant(Term::Lit(_, Annotation::Plain))));
    Ok(())
}
