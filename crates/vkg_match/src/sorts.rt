// The sorts of terms that expressions make.
ghost use Rattle.std.specs.Prelude.{◌≡◌, IfOk};
ghost use Rattle.vkg_match.specs.Verdict.{same_sort as is_one_sort, sort_of as sort_made, sort_of_term as sort_of_fixed};

use vkg_base::Memory;
use vkg_expr::{Sort, TermExpr};
use vkg_terms::Term;

/// Whether terms of the two sorts may be one (RDF 1.1 Concepts, 3.1 and 3.3).
pub fn same_sort(a: &Sort, b: &Sort) -> bool
    ensures { result ≡ is_one_sort a.now b.now }
{
    match (a, b) {
        (Sort::OfIri, Sort::OfIri) => true,
        (Sort::OfBlank, Sort::OfBlank) => true,
        (Sort::OfLit(a), Sort::OfLit(b)) => a.same(b),
        _ => false,
    }
}

fn copy_sort(sort: &Sort) -> Result<Sort, Memory>
    ensures { IfOk result (λ s. s ≡ sort.now) }
{
    match sort {
        Sort::OfIri => Ok(Sort::OfIri),
        Sort::OfBlank => Ok(Sort::OfBlank),
        Sort::OfLit(annotation) => Ok(Sort::OfLit(annotation.copy()?)),
    }
}

fn sort_of_term(term: &Term) -> Result<Sort, Memory>
    ensures { IfOk result (λ s. s ≡ sort_of_fixed term.now) }
{
    match term {
        Term::Iri(_) => Ok(Sort::OfIri),
        Term::Blank(_) => Ok(Sort::OfBlank),
        Term::Lit(_, annotation) => Ok(Sort::OfLit(annotation.copy()?)),
    }
}

/// The sort of term that an expression makes.
pub fn sort_of(e: &TermExpr) -> Result<Sort, Memory>
    ensures { IfOk result (λ s. s ≡ sort_made e.now) }
{
    match e {
        TermExpr::Fixed(term) => sort_of_term(term),
        TermExpr::Made(sort, _) => copy_sort(sort),
        TermExpr::Resolved(_, _, _) => Ok(Sort::OfIri),
    }
}
