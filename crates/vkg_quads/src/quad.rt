// The line of a quad of a rule.
ghost use Rattle.std.specs.Prelude.{◌≡◌, ◌++◌, ◌∷◌, [], IfOk, OnOk, Option, Some, None, option_map, string_bytes};
ghost use Rattle.vkg_terms.specs.NQuads.{line};
ghost use Rattle.vkg_maps.specs.Terms.{term_of, term_if_any};
ghost use Rattle.vkg_maps.specs.Dataset.{quad_of, quad_from, target, graph_name};

use crate::made::made_term;
use std::alloc::Global;
use vkg_base::Memory;
use vkg_maps::{QuadRule, TermMap};
use vkg_tables::TableRow;
use vkg_terms::vocabulary::DEFAULT_GRAPH;
use vkg_terms::{Term, quad_line};

/// The line of the quad of a row and its object's row, if there is one.
pub fn line_of_rows(
    alloc: Global,
    base: &str,
    rule: &QuadRule,
    row: &TableRow<'_>,
    other: &TableRow<'_>,
) -> Result<Option<String>, Memory>
    ensures { IfOk result (λ o. option_map string_bytes o ≡ option_map line (quad_of base.now rule.now row.now other.now)) }
{
    let subject = term(alloc, base, &rule.subject, row)?;
    let predicate = term(alloc, base, &rule.predicate, row)?;
    let object = term(alloc, base, &rule.object, other)?;
    let graph = target_of(alloc, base, &rule.graph, row)?;
    line_from(alloc, &subject, &predicate, &object, &graph)
}

fn term(
    alloc: Global,
    base: &str,
    map: &TermMap,
    row: &TableRow<'_>,
) -> Result<Option<Term>, Memory>
    ensures { IfOk result (λ o. o ≡ term_if_any (term_of base.now map.now row.now)) }
{
    match made_term(alloc, base, map, row)? {
        Ok(t) => Ok(t),
        Err(_) => Ok(None),
    }
}

fn target_of(
    alloc: Global,
    base: &str,
    graph: &Option<TermMap>,
    row: &TableRow<'_>,
) -> Result<Option<Option<Term>>, Memory>
    ensures { IfOk result (λ o. o ≡ target base.now graph.now row.now) }
{
    match graph {
        None => Ok(Some(None)),
        Some(g) => match term(alloc, base, g, row)? {
            None => Ok(None),
            Some(name) => Ok(Some(named(name))),
        },
    }
}

fn named(name: Term) -> Option<Term>
    ensures { result ≡ graph_name name }
{
    if name.is_iri(DEFAULT_GRAPH) {
        None
    } else {
        Some(name)
    }
}

fn line_from(
    alloc: Global,
    subject: &Option<Term>,
    predicate: &Option<Term>,
    object: &Option<Term>,
    graph: &Option<Option<Term>>,
) -> Result<Option<String>, Memory>
    ensures { IfOk result (λ found. option_map string_bytes found ≡ option_map line (quad_from subject.now predicate.now object.now graph.now)) }
{
    match (subject, predicate, object, graph) {
        (Some(s), Some(p), Some(o), Some(g)) => Ok(Some(quad_line(alloc, s, p, o, g.as_ref())?)),
        _ => Ok(None),
    }
}
