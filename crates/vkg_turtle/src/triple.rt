ghost use Rattle.std.specs.Prelude.{◌≡◌};
ghost use Rattle.std.specs.Cmp.{partial_equiv_from_equiv};
ghost use Rattle.vkg_terms.specs.Same.{annotation_name as name_of_annotation, term_annotation};
ghost use Rattle.vkg_turtle.specs.SameTriple.{triple_eq, triple_equiv, triple_hash, triple_alike};

use std::hash::{Hash, Hasher};
use vkg_terms::{Annotation, Term};

/// A triple of a document, and the byte at which its object begins. `==` compares its terms, wherever it stands.
#[derive(Drop)]
pub struct Triple {
    pub subject: Term,
    pub predicate: Term,
    pub object: Term,
    pub at: usize,
}

/// The language tag or the datatype of a literal.
fn annotation_name(term: &Term) -> &str
    ensures { result.now ≡ name_of_annotation (term_annotation term.now) }
{
    match term {
        Term::Lit(_, Annotation::Lang(tag)) => tag.as_str(),
        Term::Lit(_, Annotation::Typed(datatype)) => datatype.iri().as_str(),
        _ => "",
    }
}

impl PartialEq for Triple {
    ghost eq = { triple_eq };

    ghost laws = { partial_equiv_from_equiv triple_equiv };

    fn eq(&self, other: &Triple) -> bool {
        self.subject.same(&other.subject)
            && self.predicate.same(&other.predicate)
            && self.object.same(&other.object)
    }
}

impl Eq for Triple {
    ghost laws = { triple_equiv };
}

impl Hash for Triple {
    ghost hash_input = { triple_hash };

    ghost respects_eq = { triple_alike.fed };

    fn hash<H: Hasher>(&self, state: &mut H) {
        self.subject.name().hash(state);
        self.predicate.name().hash(state);
        self.object.name().hash(state);
        annotation_name(&self.object).hash(state);
    }
}
