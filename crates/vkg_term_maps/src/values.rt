ghost use Rattle.std.specs.Prelude.{◌≡◌, ◌++◌, IfOk, codes};
ghost use Rattle.vkg_term_maps.specs.Graph.{objects};
ghost use Rattle.vkg_term_maps.specs.TermMaps.{counted as counted_of, is_absent};

use crate::graph::Graph;
use std::alloc::Global;
use vkg_base::{Items, Memory};
use vkg_terms::Term;

/// The values of a property that may have one at most.
#[derive(Drop)]
pub(crate) enum Values {
    Absent,
    One(Term),
    Several,
}

impl Values {
    /// The values of a property of a node.
    pub(crate) fn of(
        alloc: Global,
        graph: &Graph<'_>,
        node: &Term,
        property: &str,
    ) -> Result<Values, Memory>
        ensures { IfOk result (λ values. values ≡ counted_of (objects graph.now node.now property.now)) }
    {
        Ok(counted(graph.objects(alloc, node, property)?))
    }

    pub(crate) fn is_absent(&self) -> bool
        ensures { result ≡ is_absent self.now }
    {
        match self {
            Values::Absent => true,
            _ => false,
        }
    }
}

fn counted(terms: Items<Term>) -> Values
    ensures { result ≡ counted_of terms }
{
    let mut terms = terms;
    match terms.pop() {
        None => Values::Absent,
        Some(last) => {
            if terms.is_empty() {
                Values::One(last)
            } else {
                Values::Several
            }
        }
    }
}
