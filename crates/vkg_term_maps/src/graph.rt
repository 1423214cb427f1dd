ghost use Rattle.std.specs.Prelude.{◌≡◌, IfOk, filter_map};
ghost use Rattle.std.specs.List.{enumerate_from};
ghost use Rattle.vkg_terms.specs.Same.{term_name};
ghost use Rattle.vkg_term_maps.specs.Graph.{object_if as object_of_triple, objects, place_if as place_of_triple, place_of as place_by_role, places};
ghost use Rattle.vkg_term_maps.specs.Index.{given_at, numbers_named};
ghost use Rattle.vkg_term_maps.specs.Vocabulary.{map_property as map_property_of, shortcut as shortcut_of};

use crate::index::index_of;
use crate::place::{Place, Role};
use crate::vocabulary::{
    RR_GRAPH, RR_GRAPH_MAP, RR_OBJECT, RR_OBJECT_MAP, RR_PREDICATE, RR_PREDICATE_MAP, RR_SUBJECT,
    RR_SUBJECT_MAP,
};
use std::alloc::Global;
use std::marker::Model;
use vkg_base::{Items, Memory};
use vkg_hash::{Groups, numbers_of};
use vkg_terms::Term;
use vkg_turtle::Triple;

/// The triples of a mapping document (R2RML, 4.1, mapping graph), found by their subjects. It is seen as their list.
#[derive(Drop)]
pub struct Graph<'a> {
    triples: &'a [Triple],
    index: Groups,
}

impl<'a> Model for Graph<'a> {
    ghost use Rattle.std.specs.Prelude.{List};
    ghost use Rattle.vkg_turtle.specs.declared.triple.Triple.{Triple};
    ghost use Rattle.vkg_term_maps.specs.Index.{IsIndexOf};

    ghost Value = { List Triple };

    ghost view = { λ g. g.triples.now };

    ghost invariant = { λ g. IsIndexOf g.triples.now g.index };
}

impl<'a> Graph<'a> {
    /// The graph of these triples, in their order.
    pub fn new(alloc: Global, triples: &'a [Triple]) -> Result<Graph<'a>, Memory>
        ensures { IfOk result (λ graph. graph ≡ triples.now) }
    {
        let index = index_of(alloc, triples)?;
        Ok(Graph { triples, index })
    }

    /// The triples, in their order.
    pub fn triples(&self) -> &'a [Triple]
        ensures { result.now ≡ self.now }
    {
        self.triples
    }

    /// The objects of the triples with this subject and this property, in their order.
    pub fn objects(&self, alloc: Global, node: &Term, property: &str) -> Result<Items<Term>, Memory>
        ensures { IfOk result (λ found. found ≡ objects self.now node.now property.now) }
    {
        objects_at(alloc, self.triples, self.numbers(node), node, property)
    }

    /// Where the term maps of a node stand, in the order of the triples that name them (R2RML, 6 and 7.1).
    pub fn places(&self, alloc: Global, node: &Term, role: Role) -> Result<Items<Place>, Memory>
        ensures { IfOk result (λ found. found ≡ places self.now node.now role) }
    {
        places_at(alloc, self.triples, self.numbers(node), node, role)
    }

    /// The numbers of the triples whose subject has the text of this node.
    fn numbers(&self, node: &Term) -> &[usize]
        ensures { result.now ≡ numbers_named (term_name node.now) (enumerate_from 0 self.now) }
    {
        numbers_of(&self.index, node.name())
    }
}

fn objects_at(
    alloc: Global,
    triples: &[Triple],
    numbers: &[usize],
    node: &Term,
    property: &str,
) -> Result<Items<Term>, Memory>
    ensures { IfOk result (λ found. found ≡ filter_map (given_at (object_of_triple node.now property.now) triples.now) numbers.now) }
{
    let mut found = Items::new(alloc);
    for number in numbers {
        let Some(object) = object_at(triples, *number, node, property)? else {
            continue;
        };
        found.push(object)?;
    }
    Ok(found)
}

fn object_at(
    triples: &[Triple],
    number: usize,
    node: &Term,
    property: &str,
) -> Result<Option<Term>, Memory>
    ensures { IfOk result (λ object. object ≡ given_at (object_of_triple node.now property.now) triples.now number) }
{
    match triples.get(number) {
        None => Ok(None),
        Some(triple) => object_if(triple, node, property),
    }
}

fn object_if(triple: &Triple, node: &Term, property: &str) -> Result<Option<Term>, Memory>
    ensures { IfOk result (λ object. object ≡ object_of_triple node.now property.now triple.now) }
{
    if node.same(&triple.subject) && triple.predicate.is_iri(property) {
        Ok(Some(triple.object.copy()?))
    } else {
        Ok(None)
    }
}

fn places_at(
    alloc: Global,
    triples: &[Triple],
    numbers: &[usize],
    node: &Term,
    role: Role,
) -> Result<Items<Place>, Memory>
    ensures { IfOk result (λ found. found ≡ filter_map (given_at (place_of_triple node.now role) triples.now) numbers.now) }
{
    let mut found = Items::new(alloc);
    for number in numbers {
        let Some(place) = place_at(triples, *number, node, role)? else {
            continue;
        };
        found.push(place)?;
    }
    Ok(found)
}

fn place_at(
    triples: &[Triple],
    number: usize,
    node: &Term,
    role: Role,
) -> Result<Option<Place>, Memory>
    ensures { IfOk result (λ place. place ≡ given_at (place_of_triple node.now role) triples.now number) }
{
    match triples.get(number) {
        None => Ok(None),
        Some(triple) => place_if(triple, node, role),
    }
}

fn place_if(triple: &Triple, node: &Term, role: Role) -> Result<Option<Place>, Memory>
    ensures { IfOk result (λ place. place ≡ place_of_triple node.now role triple.now) }
{
    if node.same(&triple.subject) {
        place_of(triple, role)
    } else {
        Ok(None)
    }
}

fn place_of(triple: &Triple, role: Role) -> Result<Option<Place>, Memory>
    ensures { IfOk result (λ place. place ≡ place_by_role role triple.now) }
{
    if triple.predicate.is_iri(shortcut(role)) {
        Ok(Some(Place::Constant(triple.object.copy()?)))
    } else if triple.predicate.is_iri(map_property(role)) {
        Ok(Some(Place::Node(triple.object.copy()?)))
    } else {
        Ok(None)
    }
}

fn shortcut(role: Role) -> &'static str
    ensures { result.now ≡ shortcut_of role }
{
    match role {
        Role::Subject => RR_SUBJECT,
        Role::Predicate => RR_PREDICATE,
        Role::Object => RR_OBJECT,
        Role::Graph => RR_GRAPH,
    }
}

fn map_property(role: Role) -> &'static str
    ensures { result.now ≡ map_property_of role }
{
    match role {
        Role::Subject => RR_SUBJECT_MAP,
        Role::Predicate => RR_PREDICATE_MAP,
        Role::Object => RR_OBJECT_MAP,
        Role::Graph => RR_GRAPH_MAP,
    }
}
