// Which quads of a rule belong to a mode, by the name of their graph (R2RML, 9; SPARQL 1.1, 13.3).
ghost use Rattle.std.specs.Prelude.{[], IfOk, map, option_map, Some, ◌∷◌, ◌≡◌};
ghost use Rattle.vkg_terms.specs.declared.term.Term.TheVariants.{Iri};
ghost use Rattle.vkg_expr.specs.Expr.{Not, Same};
ghost use Rattle.vkg_expr.specs.Seen.{expr_seen};
ghost use Rattle.vkg_expr.specs.TermExprs.{term_const, term_expr};
ghost use Rattle.vkg_unfolded.specs.declared.mode.Mode.TheVariants.{Each, InGraph};
ghost use Rattle.vkg_unfolded.specs.Unfolded.{default_graph, graph_test};

use crate::exprs::{default_graph, term_const, term_expr};
use std::alloc::Global;
use vkg_base::{Box, Items, Memory, Text};
use vkg_expr::{Expr, Shared, TermExpr};
use vkg_match::{Verdict, verdict};
use vkg_terms::Term;
use vkg_unfolded::Mode;

/// The conditions under which a quad of the graph is in the mode; none where no quad is.
pub(crate) fn graph_test(
    alloc: Global,
    mode: &Mode,
    graph: &Option<TermExpr>,
) -> Result<Option<Items<Expr>>, Memory>
    ensures { IfOk result (λ o. option_map (map expr_seen) o ≡ graph_test mode.now graph.now) }
{
    match (mode, graph) {
        (Mode::Default, None) => Ok(Some(Items::new(alloc))),
        (Mode::Default, Some(graph)) => {
            let name = default_graph(alloc)?;
            Ok(Some(is_name(alloc, graph, &name)?))
        }
        (Mode::InGraph(_), None) => Ok(None),
        (Mode::InGraph(iri), Some(graph)) => in_graph(alloc, iri, graph),
        (Mode::Each, None) => Ok(None),
        (Mode::Each, Some(graph)) => Ok(Some(in_some_graph(alloc, graph)?)),
    }
}

/// In the graph of a name: the default graph has none.
fn in_graph(alloc: Global, iri: &Text, graph: &TermExpr) -> Result<Option<Items<Expr>>, Memory>
    ensures { IfOk result (λ o. option_map (map expr_seen) o ≡ graph_test (InGraph iri.now) (Some graph.now)) }
{
    let name = Term::Iri(iri.copy()?);
    let default = default_graph(alloc)?;
    if name.same(&default) {
        return Ok(None);
    }
    Ok(Some(is_name(alloc, graph, &name)?))
}

/// In any named graph, which is not tested where the verdict says it already.
fn in_some_graph(alloc: Global, graph: &TermExpr) -> Result<Items<Expr>, Memory>
    ensures { IfOk result (λ es. Some (map expr_seen es) ≡ graph_test Each (Some graph.now)) }
{
    let name = TermExpr::Fixed(default_graph(alloc)?);
    match verdict(alloc, graph, &name)? {
        Verdict::Never => Ok(Items::new(alloc)),
        Verdict::All(_) => is_named(alloc, graph),
    }
}

/// The graph's name is this one.
fn is_name(alloc: Global, graph: &TermExpr, name: &Term) -> Result<Items<Expr>, Memory>
    ensures { IfOk result (λ es. map expr_seen es ≡ Same (term_expr graph.now) (term_const name.now) ∷ []) }
{
    let mut tests = Items::new(alloc);
    tests.push(equality(alloc, graph, name)?)?;
    Ok(tests)
}

/// The graph's name is not that of the default graph.
fn is_named(alloc: Global, graph: &TermExpr) -> Result<Items<Expr>, Memory>
    ensures { IfOk result (λ es. map expr_seen es ≡ Not (Same (term_expr graph.now) (term_const default_graph)) ∷ []) }
{
    let name = default_graph(alloc)?;
    let is_default = Shared::new(alloc, equality(alloc, graph, &name)?)?;
    let mut tests = Items::new(alloc);
    tests.push(Expr::Not(is_default))?;
    Ok(tests)
}

fn equality(alloc: Global, graph: &TermExpr, name: &Term) -> Result<Expr, Memory>
    ensures { IfOk result (λ e. expr_seen e ≡ Same (term_expr graph.now) (term_const name.now)) }
{
    let graph = Box::new(alloc, term_expr(alloc, graph)?)?;
    let name = Box::new(alloc, term_const(name)?)?;
    Ok(Expr::Same(graph, name))
}
