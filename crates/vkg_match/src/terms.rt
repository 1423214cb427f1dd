// Whether two expressions make one term.
ghost use Rattle.std.specs.Prelude.{◌≡◌, IfOk, Some, option_map};
ghost use Rattle.vkg_expr.specs.Seen.{expr_seen};
ghost use Rattle.vkg_expr.specs.TermExprs.{text_const};
ghost use Rattle.vkg_match.specs.Cut.{cut_pieces as pieces_cut};
ghost use Rattle.vkg_match.specs.Laws.{IsExact};
ghost use Rattle.vkg_match.specs.Seen.{verdict_seen};
ghost use Rattle.vkg_match.specs.Verdict.{by_sorts as verdict_by_sorts, cut_of as cut_made, cuts_agree as cuts_verdict, fixed_pieces, if_cut as cuts_if_there, is_resolved as has_base, segment_at as segment_verdict_at, segments as segments_verdict, verdict_of, where_same as verdict_where_same, whole_text as text_made};
ghost use Rattle.vkg_terms.specs.Same.{term_name};

use crate::answer::{Verdict, both, when, where_same};
use crate::cut::{Cut, Segment, cut_constant, cut_pieces};
use crate::exprs::{form_of_column, pieces_expr, text_constant};
use crate::segment::segment;
use crate::sorts::{same_sort, sort_of};
use crate::sources::labelled_of;
use std::alloc::Global;
use vkg_base::{Box, Memory};
use vkg_expr::{Expr, Sort, TermExpr};
use vkg_terms::Term;

#[tactic(auto, using(crate::proofs::Joined::both_assoc, crate::proofs::Joined::nothing_both, crate::proofs::Joined::both_nothing))]
/// Of segments with their breaks: never where these differ.
fn segments(alloc: Global, sort: &Sort, ms: &[Segment], ns: &[Segment]) -> Result<Verdict, Memory>
    ensures { IfOk result (λ v. verdict_seen v ≡ segments_verdict sort.now ms.now ns.now) }
{
    let mut verdict = when(alloc, true);
    let mut left = ms;
    let mut right = ns;
    loop {
        match (left, right) {
            ([m, ms @ ..], [n, ns @ ..]) => {
                verdict = both(verdict, segment_at(alloc, sort, m, n)?)?;
                left = ms;
                right = ns;
            }
            ([], []) => return Ok(verdict),
            ([], [_, ..]) => return Ok(Verdict::Never),
            ([_, ..], []) => return Ok(Verdict::Never),
        }
    }
}

/// Of one segment with the break behind it.
#[tactic(auto, unfolding(crate::specs::Verdict::segment_at))]
fn segment_at(alloc: Global, sort: &Sort, m: &Segment, n: &Segment) -> Result<Verdict, Memory>
    ensures { IfOk result (λ v. verdict_seen v ≡ segment_verdict_at sort.now m.now n.now) }
{
    if m.mark != n.mark {
        return Ok(Verdict::Never);
    }
    segment(alloc, sort, m.pieces.as_slice(), n.pieces.as_slice())
}

fn cuts_agree(alloc: Global, sort: &Sort, c: Cut, d: Cut) -> Result<Verdict, Memory>
    ensures { IfOk result (λ v. verdict_seen v ≡ cuts_verdict sort.now c d) }
{
    let (ms, ps) = c.into_segments()?;
    let (ns, qs) = d.into_segments()?;
    let before = segments(alloc, sort, ms.as_slice(), ns.as_slice())?;
    let last = segment(alloc, sort, ps.as_slice(), qs.as_slice())?;
    both(before, last)
}

fn cut_of_term(alloc: Global, sort: &Sort, term: &Term) -> Result<Option<Cut>, Memory>
    ensures { IfOk result (λ o. o ≡ option_map (pieces_cut sort.now) (fixed_pieces term.now)) }
{
    match term {
        Term::Iri(text) => Ok(Some(cut_constant(alloc, sort, text.as_str())?)),
        Term::Lit(text, _) => Ok(Some(cut_constant(alloc, sort, text.as_str())?)),
        Term::Blank(label) => cut_of_blank(alloc, sort, label.as_str()),
    }
}

fn cut_of_blank(alloc: Global, sort: &Sort, label: &str) -> Result<Option<Cut>, Memory>
    ensures { IfOk result (λ o. o ≡ option_map (pieces_cut sort.now) (fixed_pieces (Term.Blank label.now))) }
{
    match labelled_of(alloc, label)? {
        Some(text) => Ok(Some(cut_constant(alloc, sort, text.as_str())?)),
        None => Ok(None),
    }
}

/// The text of an expression, cut; none of a column over a base, nor of a blank node whose label belongs to no text.
fn cut_of(alloc: Global, sort: &Sort, e: &TermExpr) -> Result<Option<Cut>, Memory>
    ensures { IfOk result (λ o. o ≡ cut_made sort.now e.now) }
{
    match e {
        TermExpr::Fixed(term) => cut_of_term(alloc, sort, term),
        TermExpr::Made(_, pieces) => Ok(Some(cut_pieces(alloc, sort, pieces.as_slice())?)),
        TermExpr::Resolved(_, _, _) => Ok(None),
    }
}

fn is_resolved(e: &TermExpr) -> bool
    ensures { result ≡ has_base e.now }
{
    match e {
        TermExpr::Fixed(_) => false,
        TermExpr::Made(_, _) => false,
        TermExpr::Resolved(_, _, _) => true,
    }
}

fn text_of_term(alloc: Global, term: &Term) -> Result<Expr, Memory>
    ensures { IfOk result (λ x. expr_seen x ≡ text_const (term_name term.now)) }
{
    text_constant(alloc, term.name())
}

fn whole_text(alloc: Global, e: &TermExpr) -> Result<Expr, Memory>
    ensures { IfOk result (λ x. expr_seen x ≡ text_made e.now) }
{
    match e {
        TermExpr::Fixed(term) => text_of_term(alloc, term),
        TermExpr::Made(sort, pieces) => pieces_expr(alloc, sort, pieces.as_slice()),
        TermExpr::Resolved(base, at, _) => {
            let base = base.copy()?;
            Ok(Expr::IriOf(base, form_of_column(alloc, *at)?))
        }
    }
}

fn whole_texts_agree(alloc: Global, e: &TermExpr, f: &TermExpr) -> Result<Verdict, Memory>
    ensures { IfOk result (λ v. verdict_seen v ≡ verdict_where_same (text_made e.now) (text_made f.now)) }
{
    let a = Box::new(alloc, whole_text(alloc, e)?)?;
    let b = Box::new(alloc, whole_text(alloc, f)?)?;
    where_same(alloc, a, b)
}

fn parts_agree(alloc: Global, sort: &Sort, e: &TermExpr, f: &TermExpr) -> Result<Verdict, Memory>
    ensures { IfOk result (λ v. verdict_seen v ≡ cuts_if_there sort.now (cut_made sort.now e.now) (cut_made sort.now f.now)) }
{
    let Some(c) = cut_of(alloc, sort, e)? else {
        return Ok(Verdict::Never);
    };
    let Some(d) = cut_of(alloc, sort, f)? else {
        return Ok(Verdict::Never);
    };
    cuts_agree(alloc, sort, c, d)
}

fn by_sorts(alloc: Global, e: &TermExpr, f: &TermExpr) -> Result<Verdict, Memory>
    ensures { IfOk result (λ v. verdict_seen v ≡ verdict_by_sorts e.now f.now) }
{
    let sort = sort_of(e)?;
    let other = sort_of(f)?;
    if !same_sort(&sort, &other) {
        return Ok(Verdict::Never);
    }
    if is_resolved(e) || is_resolved(f) {
        return whole_texts_agree(alloc, e, f);
    }
    parts_agree(alloc, &sort, e, f)
}

/// When two expressions make one term: on no row, or on the rows on which some equalities are all true.
#[tactic(auto, using(crate::proofs::Exact::exacts))]
pub fn verdict(alloc: Global, e: &TermExpr, f: &TermExpr) -> Result<Verdict, Memory>
    ensures exact { IfOk result (λ v. IsExact e.now f.now (verdict_seen v)) }
    ensures value { IfOk result (λ v. verdict_seen v ≡ verdict_of e.now f.now) }
{
    find(alloc, e, f)
}

fn find(alloc: Global, e: &TermExpr, f: &TermExpr) -> Result<Verdict, Memory>
    ensures { IfOk result (λ v. verdict_seen v ≡ verdict_of e.now f.now) }
{
    match (e, f) {
        (TermExpr::Fixed(s), TermExpr::Fixed(t)) => Ok(when(alloc, s.same(t))),
        _ => by_sorts(alloc, e, f),
    }
}
