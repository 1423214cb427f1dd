// The graphs of a dataset (SPARQL 1.1, 18.1.3).
ghost use Rattle.std.specs.Prelude.{◌≡◌, ◌∷◌, IfOk, filter, filter_map, not};
ghost use Rattle.std.specs.List.{list_any};
ghost use Rattle.vkg_terms.specs.Same.{term_eq};
ghost use Rattle.vkg_algebra.specs.Evaluation.{graph_names as graph_names_of, graph_of as graph_in};

use crate::distinct::same_places;
use crate::quad::Quad;
use std::alloc::Global;
use vkg_base::{Items, Memory};
use vkg_terms::Term;

/// The triples of a graph.
pub fn graph_of(alloc: Global, quads: &[Quad], graph: &Option<Term>) -> Result<Items<Quad>, Memory>
    ensures { IfOk result (λ triples. triples ≡ graph_in quads.now graph.now) }
{
    let mut triples = Items::new(alloc);
    for quad in quads {
        if same_places(quad.graph(), graph) {
            triples.push(quad.copy()?)?;
        }
    }
    Ok(triples)
}

/// The names of the named graphs that are not empty, each once.
pub fn graph_names(alloc: Global, quads: &[Quad]) -> Result<Items<Term>, Memory>
    ensures { IfOk result (λ names. names ≡ graph_names_of quads.now) }
{
    let mut names = Items::new(alloc);
    let mut i = quads.len();
    while i > 0 {
        i -= 1;
        if let Some(name) = quads[i].graph() {
            names = before(alloc, name, names.as_slice())?;
        }
    }
    Ok(names)
}

/// The name, and then the others.
fn before(alloc: Global, name: &Term, names: &[Term]) -> Result<Items<Term>, Memory>
    ensures { IfOk result (λ out. out ≡ name.now ∷ filter (λ t. not (term_eq name.now t)) names.now) }
{
    let mut out = Items::new(alloc);
    out.push(name.copy()?)?;
    for other in names {
        if !name.same(other) {
            out.push(other.copy()?)?;
        }
    }
    Ok(out)
}

/// Whether a term is one of these.
pub fn is_one_of(term: &Term, names: &[Term]) -> bool
    ensures { result ≡ list_any (term_eq term.now) names.now }
{
    for name in names {
        if term.same(name) {
            return true;
        }
    }
    false
}
