use crate::term_map::TermMap;
use vkg_base::{Items, Text};

/// A mapping: the base for relative IRIs, and the triples maps in their order.
#[derive(Drop)]
pub struct Mapping {
    pub base: Text,
    pub maps: Items<TriplesMap>,
}

/// A triples map (R2RML, 6) over a table, by its place in the schema.
#[derive(Drop)]
pub struct TriplesMap {
    pub table: usize,
    pub subject: TermMap,
    pub classes: Items<Text>,
    pub graphs: Items<TermMap>,
    pub predicate_objects: Items<PredicateObjectMap>,
}

/// A predicate-object map (R2RML, 6.3).
#[derive(Drop)]
pub struct PredicateObjectMap {
    pub predicates: Items<TermMap>,
    pub objects: Items<ObjectMap>,
    pub graphs: Items<TermMap>,
}

/// An object map, or a referencing one (R2RML, 8): the place of the parent triples map, and of each join condition the
/// child's column and the parent's.
#[derive(Drop)]
pub enum ObjectMap {
    Term(TermMap),
    Parent(usize, Items<(usize, usize)>),
}
