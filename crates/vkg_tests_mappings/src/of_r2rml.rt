use std::alloc::Global;
use std::test::Fail;
use vkg_maps::{Mapping, ObjectMap, TermMap, TermType};
use vkg_r2rml::{MapError, MapFault, read_mapping};
use vkg_schema::read_schema;
use vkg_turtle::read_turtle;

const COMPANY: &str =
    "CREATE TABLE dept (id INTEGER PRIMARY KEY, title VARCHAR(20)); CREATE TABLE emp (id INTEGER PRIMARY KEY, name VARCHAR(20), dept INTEGER REFERENCES dept);";

const BASE: &str = "http://e/";

const ALL_PARTS: &str =
    "@prefix rr: <http://www.w3.org/ns/r2rml#> . <m> rr:logicalTable [ rr:tableName 'emp' ] ; rr:subjectMap [ rr:template 'emp/{id}' ; rr:class <C> , <D> ; rr:graph <g> ] ; rr:predicateObjectMap [ rr:predicate <in> ; rr:predicateMap [ rr:constant <on> ] ; rr:graphMap [ rr:template 'h/{dept}' ] ; rr:objectMap [ rr:parentTriplesMap <d> ; rr:joinCondition [ rr:child 'DEPT' ; rr:parent '\"id\"' ] ] ; rr:object <o> ] . <d> rr:logicalTable [ rr:tableName 'dept' ] ; rr:subjectMap [ rr:template 'd/{id}' ] . <x> <y> <z> .";

const SECOND_MAP: &str =
    "@prefix rr: <http://www.w3.org/ns/r2rml#> . <m> rr:logicalTable [ rr:tableName 'emp' ] ; rr:subjectMap [ rr:column 'id' ] . <d> rr:logicalTable [ rr:tableName 'dept' ] ; rr:subjectMap [ rr:column 'nope' ] .";

// What the mapping of a text of Turtle is, or its fault.
fn read(alloc: Global, text: &str) -> Result<Result<Mapping, MapError>, Fail> {
    let schema = read_schema(alloc, COMPANY.as_bytes())?;
    let triples = read_turtle(alloc, text.as_bytes(), BASE)?;
    Ok(read_mapping(alloc, triples.as_slice(), &schema, BASE))
}

#[test]
fn a_mapping_with_all_parts(rt: HostRuntime) -> Result<(), Fail> {
    let mapping = read(rt.alloc(), ALL_PARTS)??;
    assert!(rt; mapping.base.as_str() == BASE);
    assert!(rt; mapping.maps.len() == 2);
    let Some(m) = mapping.maps.get(0) else {
        return Err(Fail::new("no map"));
    };
    assert!(rt; m.table == 1);
    assert!(rt; matches!(&m.subject, TermMap::Template(_, TermType::Iri)));
    assert!(rt; m.classes.len() == 2);
    assert!(rt; m.graphs.len() == 1);
    assert!(rt; m.predicate_objects.len() == 1);
    let Some(po) = m.predicate_objects.get(0) else {
        return Err(Fail::new("no predicate-object map"));
    };
    assert!(rt; po.predicates.len() == 2);
    assert!(rt; po.graphs.len() == 1);
    assert!(rt; po.objects.len() == 2);
    let Some(ObjectMap::Parent(parent, pairs)) = po.objects.get(0) else {
        return Err(Fail::new("no parent"));
    };
    assert!(rt; *parent == 1);
    assert!(rt; pairs.as_slice() == [(2, 0)].as_slice());
    Ok(())
}

#[test]
fn a_fault_is_of_its_map(rt: HostRuntime) -> Result<(), Fail> {
    let Err(MapError::Fault(MapFault { check, map })) = read(rt.alloc(), SECOND_MAP)? else {
        return Err(Fail::new("no fault"));
    };
    assert!(rt; (check, map) == (12, 2));
    Ok(())
}
