// Expressions over rows: terms, and conditions as lists of conjuncts.
ghost use Rattle.std.specs.Prelude.{◌≡◌, [], ◌∷◌, ◌++◌, map, true, false, IfOk, OnOk};
ghost use Rattle.vkg_terms.specs.Vocabulary.{rr_default_graph};
ghost use Rattle.vkg_expr.specs.Expr.{Col, IriOf, IsNull, Lex, MakeIri, Not, Same};
ghost use Rattle.vkg_expr.specs.Logic.{and_of, or_of, truth_const};
ghost use Rattle.vkg_expr.specs.Seen.{expr_seen};
ghost use Rattle.vkg_expr.specs.TermExprs.{made, term_const, term_expr};
ghost use Rattle.vkg_unfolded.specs.Unfolded.{default_graph};

use std::alloc::Global;
use vkg_base::{Box, Items, Memory, Text};
use vkg_cells::{Cell, SqlType};
use vkg_expr::{Expr, Shared, Sort, TermExpr};
use vkg_match::pieces_expr;
use vkg_terms::Term;
use vkg_terms::vocabulary::DEFAULT_GRAPH;

/// The expression over a row that makes a term.
pub(crate) fn term_expr(alloc: Global, term: &TermExpr) -> Result<Expr, Memory>
    ensures { IfOk result (λ e. expr_seen e ≡ term_expr term.now) }
{
    match term {
        TermExpr::Fixed(term) => term_const(term),
        TermExpr::Made(sort, pieces) => {
            let text = Shared::new(alloc, pieces_expr(alloc, sort, pieces.as_slice())?)?;
            made(sort, text)
        }
        TermExpr::Resolved(base, at, _) => resolved(alloc, base, *at),
    }
}

pub(crate) fn term_const(term: &Term) -> Result<Expr, Memory>
    ensures { IfOk result (λ e. expr_seen e ≡ term_const term.now) }
{
    Ok(Expr::Const(Cell::Term(term.copy()?), SqlType::Term))
}

/// The name of the default graph (R2RML, 9).
pub(crate) fn default_graph(alloc: Global) -> Result<Term, Memory>
    ensures { IfOk result (λ t. t ≡ default_graph) }
{
    Ok(Term::Iri(Text::new(alloc, DEFAULT_GRAPH)?))
}

fn made(sort: &Sort, text: Shared<Expr>) -> Result<Expr, Memory>
    ensures { IfOk result (λ e. expr_seen e ≡ made sort.now (expr_seen text)) }
{
    match sort {
        Sort::OfIri => Ok(Expr::MakeIri(text)),
        Sort::OfBlank => Ok(Expr::MakeBlank(text)),
        Sort::OfLit(annotation) => Ok(Expr::MakeLit(text, annotation.copy()?)),
    }
}

/// The IRI of a column's form over a base.
fn resolved(alloc: Global, base: &Text, at: usize) -> Result<Expr, Memory>
    ensures { IfOk result (λ e. expr_seen e ≡ MakeIri (IriOf base.now (Lex (Col at)))) }
{
    let column = Box::new(alloc, Expr::Col(at))?;
    let form = Box::new(alloc, Expr::Lex(column))?;
    let text = Shared::new(alloc, Expr::IriOf(base.copy()?, form))?;
    Ok(Expr::MakeIri(text))
}

pub(crate) fn truth_const(truth: bool) -> Expr
    ensures { expr_seen result ≡ truth_const truth }
{
    Expr::Const(Cell::Bool(truth), SqlType::Bool)
}

/// All of some conditions: of one it is that one.
#[tactic(auto, using(crate::proofs::Steps::and_none, crate::proofs::Steps::and_one, crate::proofs::Steps::and_more))]
pub(crate) fn and_of(conditions: Items<Expr>) -> Expr
    ensures { expr_seen result ≡ and_of (map expr_seen conditions) }
{
    let mut conditions = conditions;
    if conditions.len() == 0 {
        return truth_const(true);
    }
    if conditions.len() == 1 {
        return conditions.remove(0);
    }
    Expr::And(conditions)
}

/// Any of some conditions: of one it is that one.
#[tactic(auto, using(crate::proofs::Steps::or_none, crate::proofs::Steps::or_one, crate::proofs::Steps::or_more))]
pub(crate) fn or_of(conditions: Items<Expr>) -> Expr
    ensures { expr_seen result ≡ or_of (map expr_seen conditions) }
{
    let mut conditions = conditions;
    if conditions.len() == 0 {
        return truth_const(false);
    }
    if conditions.len() == 1 {
        return conditions.remove(0);
    }
    Expr::Or(conditions)
}

/// Whether an expression is not NULL.
pub(crate) fn known(alloc: Global, e: Expr) -> Result<Expr, Memory>
    ensures { IfOk result (λ c. expr_seen c ≡ Not (IsNull (expr_seen e))) }
{
    let e = Box::new(alloc, e)?;
    let unknown = Shared::new(alloc, Expr::IsNull(e))?;
    Ok(Expr::Not(unknown))
}
