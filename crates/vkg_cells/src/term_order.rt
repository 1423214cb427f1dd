ghost use Rattle.std.specs.Prelude.{◌≡◌};
ghost use Rattle.vkg_terms.specs.Same.{annotation_name, annotation_rank, term_annotation, term_cmp, term_rank};

use std::cmp::Ordering;
use vkg_terms::{Annotation, Term};

/// The order of two terms: IRIs, blank nodes, literals; then by text; then plain, tagged, typed; then by tag or datatype.
pub fn order_terms(a: &Term, b: &Term) -> Ordering
    ensures { result ≡ term_cmp a.now b.now }
{
    let by_annotation = annotation_kind(a)
        .cmp(&annotation_kind(b))
        .then(annotation_text(a).cmp(&annotation_text(b)));
    kind(a)
        .cmp(&kind(b))
        .then(a.name().cmp(&b.name()).then(by_annotation))
}

fn kind(term: &Term) -> u8
    ensures { result ≡ term_rank term.now }
{
    match term {
        Term::Iri(_) => 0,
        Term::Blank(_) => 1,
        Term::Lit(_, _) => 2,
    }
}

fn annotation_kind(term: &Term) -> u8
    ensures { result ≡ annotation_rank (term_annotation term.now) }
{
    match term {
        Term::Lit(_, Annotation::Lang(_)) => 1,
        Term::Lit(_, Annotation::Typed(_)) => 2,
        _ => 0,
    }
}

pub fn annotation_text(term: &Term) -> &str
    ensures { result.now ≡ annotation_name (term_annotation term.now) }
{
    match term {
        Term::Lit(_, Annotation::Lang(tag)) => tag.as_str(),
        Term::Lit(_, Annotation::Typed(datatype)) => datatype.iri().as_str(),
        _ => "",
    }
}
