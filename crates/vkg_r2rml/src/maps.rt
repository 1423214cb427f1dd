ghost use Rattle.std.specs.Prelude.{◌≡◌, ◌++◌, ◌∷◌, [], IfOk, OnOk, string_bytes};
ghost use Rattle.std.specs.Result.{result_ok};
ghost use Rattle.vkg_terms.specs.NQuads.{term_text as text_of_term};
ghost use Rattle.vkg_terms.specs.Writable.{HoldsText, IsOnlyTerm};
ghost use Rattle.vkg_r2rml.specs.TriplesMaps.{shows_triples_map, map_node as node_of_map, triples_maps, place_of, table_at};
ghost use Rattle.vkg_r2rml.specs.Index.{IsIndexOf, with_triple};

use crate::logical_table::table_of;
use crate::map_node::MapNode;
use crate::vocabulary::{RR_LOGICAL_TABLE, RR_TRIPLES_MAP};
use std::alloc::Global;
use std::collections::HashMap;
use std::marker::Model;
use vkg_base::{Items, Memory};
use vkg_hash::Seed;
use vkg_schema::Schema;
use vkg_term_maps::Graph;
use vkg_terms::vocabulary::RDF_TYPE;
use vkg_terms::{Term, term_text};
use vkg_turtle::Triple;

/// The triples maps of a graph in their order, found by their nodes.
#[derive(Drop)]
pub struct Maps {
    nodes: Items<MapNode>,
    /// The places of the triples maps, by the texts of their nodes.
    index: HashMap<String, usize, Seed>,
}

impl Model for Maps {
    ghost use Rattle.std.specs.Prelude.{List};
    ghost use Rattle.vkg_r2rml.specs.declared.map_node.MapNode.{MapNode};
    ghost use Rattle.vkg_r2rml.specs.Index.{IsIndexOf};

    ghost Value = { List MapNode };

    ghost view = { λ m. m.nodes };

    ghost invariant = { λ m. IsIndexOf m.nodes m.index };
}

impl Maps {
    pub fn as_slice(&self) -> &[MapNode]
        ensures { result.now ≡ self.now }
    {
        self.nodes.as_slice()
    }

    /// The place of the triples map that a term is.
    pub fn place_of(&self, alloc: Global, term: &Term) -> Result<Option<usize>, Memory>
        ensures { IfOk result (λ place. place ≡ place_of self.now term.now) }
    {
        find(alloc, &self.nodes, &self.index, term)
    }

    /// The table of the triples map at a place, where it is known.
    pub fn table_at(&self, place: usize) -> Option<usize>
        ensures { result ≡ table_at self.now place }
    {
        match self.nodes.get(place) {
            None => None,
            Some(m) => table_if_known(m),
        }
    }
}

fn table_if_known(m: &MapNode) -> Option<usize>
    ensures { result ≡ result_ok m.now.table }
{
    match m.table {
        Ok(table) => Some(table),
        Err(_) => None,
    }
}

/// The triples maps of a graph, each with its table.
pub fn read_maps(alloc: Global, graph: &Graph<'_>, schema: &Schema) -> Result<Maps, Memory>
    ensures { IfOk result (λ maps. maps ≡ triples_maps graph.now schema.now) }
{
    let mut nodes = Items::new(alloc);
    let mut index = HashMap::with_hasher(alloc, Seed::of_keys(graph.triples()));
    for t in graph.triples() {
        add_triple(alloc, &mut nodes, &mut index, graph, schema, t)?;
    }
    Ok(Maps { nodes, index })
}

fn add_triple(
    alloc: Global,
    nodes: &mut Items<MapNode>,
    index: &mut HashMap<String, usize, Seed>,
    graph: &Graph<'_>,
    schema: &Schema,
    t: &Triple,
) -> Result<(), Memory>
    requires { IsIndexOf nodes.old index.old }
    ensures index { OnOk result (IsIndexOf nodes.new index.new) }
    ensures nodes { OnOk result (nodes.new ≡ with_triple graph.now schema.now nodes.old t.now) }
{
    if !shows_triples_map(t) {
        return Ok(());
    }
    match find(alloc, nodes, index, &t.subject)? {
        Some(_) => Ok(()),
        None => {
            let node = map_node(alloc, graph, schema, &t.subject)?;
            add_node(alloc, nodes, index, node)
        }
    }
}

fn shows_triples_map(t: &Triple) -> bool
    ensures { result ≡ shows_triples_map t.now }
{
    t.predicate.is_iri(RR_LOGICAL_TABLE)
        || (t.predicate.is_iri(RDF_TYPE) && t.object.is_iri(RR_TRIPLES_MAP))
}

fn map_node(
    alloc: Global,
    graph: &Graph<'_>,
    schema: &Schema,
    node: &Term,
) -> Result<MapNode, Memory>
    ensures { IfOk result (λ m. m ≡ node_of_map graph.now schema.now node.now) }
{
    let table = table_of(alloc, graph, schema, node)?;
    let node = node.copy()?;
    Ok(MapNode { node, table })
}

fn add_node(
    alloc: Global,
    nodes: &mut Items<MapNode>,
    index: &mut HashMap<String, usize, Seed>,
    node: MapNode,
) -> Result<(), Memory>
    requires index { IsIndexOf nodes.old index.old }
    requires is_new { place_of nodes.old node.node ≡ None }
    ensures index { OnOk result (IsIndexOf nodes.new index.new) }
    ensures nodes { OnOk result (nodes.new ≡ nodes.old ++ node ∷ []) }
{
    let text = node_text(alloc, &node.node)?;
    index.insert(text, nodes.len())?;
    nodes.push(node)?;
    Ok(())
}

fn find(
    alloc: Global,
    nodes: &Items<MapNode>,
    index: &HashMap<String, usize, Seed>,
    term: &Term,
) -> Result<Option<usize>, Memory>
    requires { IsIndexOf nodes.now index.now }
    ensures { IfOk result (λ place. place ≡ place_of nodes.now term.now) }
{
    let _ = nodes;
    let text = node_text(alloc, term)?;
    Ok(index.get(text.as_str()).copied())
}

/// The text by which a node is found.
fn node_text(alloc: Global, node: &Term) -> Result<String, Memory>
    ensures text { IfOk result (λ text. string_bytes text ≡ text_of_term node.now) }
    ensures own { IfOk result (λ text. IsOnlyTerm node.now (string_bytes text)) }
    ensures utf8 { IfOk result (λ _. HoldsText node.now) }
{
    let _name = node.name();
    term_text(alloc, node)
}
