ghost use Rattle.std.specs.Prelude.{◌≡◌, IfOk};

use std::alloc::Global;
use vkg_base::{Items, Memory, Text};
use vkg_terms::Term;

/// A place of a triple pattern (SPARQL 1.1, 4.2): a variable or a blank node label, by its number in the query, or a term.
#[derive(Drop)]
pub enum Node {
    Variable(usize),
    Label(usize),
    Fixed(Term),
}

/// A triple pattern (SPARQL 1.1, 18.1.5).
#[derive(Drop)]
pub struct TriplePattern {
    pub subject: Node,
    pub predicate: Node,
    pub object: Node,
}

/// What stands behind GRAPH (SPARQL 1.1, 13.3): a variable, by its number, or the IRI of a graph.
#[derive(Drop)]
pub enum GraphName {
    Each(usize),
    Named(Text),
}

impl Node {
    /// The same place.
    pub fn copy(&self) -> Result<Node, Memory>
        ensures { IfOk result (λ copied. copied ≡ self.now) }
    {
        match self {
            Node::Variable(number) => Ok(Node::Variable(*number)),
            Node::Label(number) => Ok(Node::Label(*number)),
            Node::Fixed(term) => Ok(Node::Fixed(term.copy()?)),
        }
    }
}

impl TriplePattern {
    /// The same pattern.
    pub fn copy(&self) -> Result<TriplePattern, Memory>
        ensures { IfOk result (λ copied. copied ≡ self.now) }
    {
        let subject = self.subject.copy()?;
        let predicate = self.predicate.copy()?;
        let object = self.object.copy()?;
        Ok(TriplePattern {
            subject,
            predicate,
            object,
        })
    }
}

impl GraphName {
    /// The same name.
    pub fn copy(&self) -> Result<GraphName, Memory>
        ensures { IfOk result (λ copied. copied ≡ self.now) }
    {
        match self {
            GraphName::Each(number) => Ok(GraphName::Each(*number)),
            GraphName::Named(iri) => Ok(GraphName::Named(iri.copy()?)),
        }
    }
}

/// The same patterns.
pub fn copy_patterns(
    alloc: Global,
    patterns: &[TriplePattern],
) -> Result<Items<TriplePattern>, Memory>
    ensures { IfOk result (λ copied. copied ≡ patterns.now) }
{
    let mut copied = Items::new(alloc);
    for pattern in patterns {
        copied.push(pattern.copy()?)?;
    }
    Ok(copied)
}
