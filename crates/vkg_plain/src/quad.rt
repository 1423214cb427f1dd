ghost use Rattle.std.specs.Prelude.{◌≡◌, IfOk};

use std::marker::Model;
use vkg_base::Memory;
use vkg_terms::Term;

/// A quad (RDF 1.1 Concepts, 4). No graph name is the default graph.
#[derive(Drop)]
pub struct Quad {
    subject: Term,
    predicate: Term,
    object: Term,
    graph: Option<Term>,
}

impl Model for Quad {
    ghost use Rattle.vkg_terms.specs.NQuads.{Quad as TermQuad};

    ghost Value = { TermQuad };

    ghost view = { λ q. record { subject = q.subject; predicate = q.predicate; object = q.object; graph = q.graph } };
}

impl Quad {
    pub fn new(subject: Term, predicate: Term, object: Term, graph: Option<Term>) -> Quad
        ensures { result ≡ record { subject = subject; predicate = predicate; object = object; graph = graph } }
    {
        Quad {
            subject,
            predicate,
            object,
            graph,
        }
    }

    pub fn subject(&self) -> &Term
        ensures { result.now ≡ self.now.subject }
    {
        &self.subject
    }

    pub fn predicate(&self) -> &Term
        ensures { result.now ≡ self.now.predicate }
    {
        &self.predicate
    }

    pub fn object(&self) -> &Term
        ensures { result.now ≡ self.now.object }
    {
        &self.object
    }

    pub fn graph(&self) -> &Option<Term>
        ensures { result.now ≡ self.now.graph }
    {
        &self.graph
    }

    /// The same quad.
    pub fn copy(&self) -> Result<Quad, Memory>
        ensures { IfOk result (λ q. q ≡ self.now) }
    {
        let subject = self.subject.copy()?;
        let predicate = self.predicate.copy()?;
        let object = self.object.copy()?;
        let graph = copy_place(&self.graph)?;
        Ok(Quad {
            subject,
            predicate,
            object,
            graph,
        })
    }
}

/// The same term, if there is one.
pub(crate) fn copy_place(place: &Option<Term>) -> Result<Option<Term>, Memory>
    ensures { IfOk result (λ o. o ≡ place.now) }
{
    match place {
        Some(term) => Ok(Some(term.copy()?)),
        None => Ok(None),
    }
}
