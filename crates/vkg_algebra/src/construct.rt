// The graph that the template of a CONSTRUCT makes of solutions (SPARQL 1.1, 16.2).
ghost use Rattle.std.specs.Prelude.{◌≡◌, ◌&&◌, ◌+◌, ◌++◌, [], ◌∷◌, IfOk, OnOk, decimal, flat_map, if◌then◌else◌, map, nat_eq, string_bytes};
ghost use Rattle.std.specs.List.{enumerate_from, position_or_len};
ghost use Rattle.vkg_lists.specs.Ascending.{ascending_once};
ghost use Rattle.vkg_terms.specs.NQuads.{line};
ghost use Rattle.vkg_order.specs.Ranked.{ranked as ranked_of};
ghost use Rattle.vkg_order.specs.Values.{bound};
ghost use Rattle.vkg_sparql.specs.Seen.{query_seen};
ghost use Rattle.vkg_algebra.specs.Answer.{modifiers_of as modifiers_of_query, selected_variables as selected_of};
ghost use Rattle.vkg_algebra.specs.Construct.{filled as filled_with, graph_lines as lines_of_graph, is_predicate, is_subject, found_triples, made, made_label, node_labels, pattern_labels, solution_triples, template_labels as labels_of, term_of, triple, triple_if};
ghost use Rattle.vkg_algebra.specs.Solutions.{lookup};
ghost use Rattle.vkg_algebra.specs.Visible.{has as is_there};

use crate::algebra::Var;
use crate::modifiers::modifiers_of;
use crate::selected::{each_once, selected_variables};
use crate::translation::translate;
use itoa::Buffer;
use std::alloc::Global;
use vkg_base::{Items, Lines, Memory, Text, at};
use vkg_cells::Cell;
use vkg_order::{Candidate, ranked};
use vkg_sparql::{Node, Query, TriplePattern};
use vkg_terms::{Term, quad_line};

/// What a CONSTRUCT with this template gives of its solutions: the lines of the set of its triples, ascending. The solutions are
/// numbered from 1 in the asked order, behind OFFSET.
pub fn construct_lines(
    alloc: Global,
    query: &Query,
    template: &[TriplePattern],
    solutions: Vec<Candidate>,
) -> Result<Lines, Memory>
    ensures { IfOk result (λ lines. lines ≡ lines_of_graph template.now (selected_of (query_seen query.now)) (ranked_of (modifiers_of_query (query_seen query.now)) solutions.items)) }
{
    let algebra = translate(alloc, query)?;
    let variables = selected_variables(alloc, query, &algebra)?;
    let modifiers = modifiers_of(alloc, query)?;
    let found = ranked(&modifiers, solutions)?;
    graph_lines(alloc, template, variables.as_slice(), 1, &found)
}

/// The lines of the triples that a template makes of solutions, which are numbered from the first on. Their first cells are those of
/// these variables.
fn graph_lines(
    alloc: Global,
    template: &[TriplePattern],
    variables: &[Var],
    first: u64,
    solutions: &[Candidate],
) -> Result<Lines, Memory>
    ensures { IfOk result (λ lines. lines ≡ ascending_once (map line (flat_map (found_triples template.now variables.now (labels_of template.now)) (enumerate_from first solutions.now)))) }
{
    let labels = template_labels(alloc, template)?;
    let labels = labels.as_slice();
    let mut lines = all_lines(alloc, template, variables, labels, first, solutions)?;
    lines.sort_once();
    Ok(lines)
}

/// The blank nodes of a template, each once.
fn template_labels(alloc: Global, template: &[TriplePattern]) -> Result<Items<usize>, Memory>
    ensures { IfOk result (λ ls. ls ≡ labels_of template.now) }
{
    let mut labels = Items::new(alloc);
    for triple in template {
        push_labels(&mut labels, triple)?;
    }
    each_once(alloc, labels.as_slice())
}

fn push_labels(labels: &mut Items<usize>, triple: &TriplePattern) -> Result<(), Memory>
    ensures { OnOk result (labels.new ≡ labels.old ++ pattern_labels triple.now) }
{
    push_label(labels, &triple.subject)?;
    push_label(labels, &triple.predicate)?;
    push_label(labels, &triple.object)
}

fn push_label(labels: &mut Items<usize>, node: &Node) -> Result<(), Memory>
    ensures { OnOk result (labels.new ≡ labels.old ++ node_labels node.now) }
{
    match node {
        Node::Label(label) => labels.push(*label),
        _ => Ok(()),
    }
}

/// The lines of the triples of all solutions, as often as they are made.
fn all_lines(
    alloc: Global,
    template: &[TriplePattern],
    variables: &[Var],
    labels: &[usize],
    first: u64,
    solutions: &[Candidate],
) -> Result<Lines, Memory>
    ensures { IfOk result (λ lines. lines ≡ map line (flat_map (found_triples template.now variables.now labels.now) (enumerate_from first solutions.now))) }
{
    let mut out = Lines::new(alloc);
    for k in 0..solutions.len() {
        let number = numbered(first, k);
        push_found(
            alloc,
            &mut out,
            template,
            variables,
            labels,
            number,
            &solutions[k],
        )?;
    }
    Ok(out)
}

fn numbered(first: u64, k: usize) -> u128
    ensures { result ≡ first + k }
{
    first as u128 + k as u128
}

fn push_found(
    alloc: Global,
    out: &mut Lines,
    template: &[TriplePattern],
    variables: &[Var],
    labels: &[usize],
    number: u128,
    solution: &Candidate,
) -> Result<(), Memory>
    ensures { OnOk result (out.new ≡ out.old ++ map line (found_triples template.now variables.now labels.now (number, solution.now))) }
{
    let cells = solution.cells();
    push_solution(alloc, out, template, variables, labels, number, cells)
}

/// The lines of the triples of a solution, by its number.
fn push_solution(
    alloc: Global,
    out: &mut Lines,
    template: &[TriplePattern],
    variables: &[Var],
    labels: &[usize],
    number: u128,
    cells: &[Cell],
) -> Result<(), Memory>
    ensures { OnOk result (out.new ≡ out.old ++ map line (solution_triples template.now variables.now labels.now (number, map bound cells.now))) }
{
    for triple in template {
        push_triple(alloc, out, variables, labels, number, cells, triple)?;
    }
    Ok(())
}

/// The line of the triple that one of the template makes, if it makes one.
fn push_triple(
    alloc: Global,
    out: &mut Lines,
    variables: &[Var],
    labels: &[usize],
    number: u128,
    cells: &[Cell],
    triple: &TriplePattern,
) -> Result<(), Memory>
    ensures { OnOk result (out.new ≡ out.old ++ map line (made variables.now labels.now number (map bound cells.now) triple.now)) }
{
    let subject = filled(alloc, variables, labels, number, cells, &triple.subject)?;
    let predicate = filled(alloc, variables, labels, number, cells, &triple.predicate)?;
    let object = filled(alloc, variables, labels, number, cells, &triple.object)?;
    push_filled(alloc, out, &subject, &predicate, &object)
}

fn push_filled(
    alloc: Global,
    out: &mut Lines,
    subject: &Option<Term>,
    predicate: &Option<Term>,
    object: &Option<Term>,
) -> Result<(), Memory>
    ensures { OnOk result (out.new ≡ out.old ++ map line (triple_if subject.now predicate.now object.now)) }
{
    let Some(subject) = subject else {
        return Ok(());
    };
    let Some(predicate) = predicate else {
        return Ok(());
    };
    let Some(object) = object else {
        return Ok(());
    };
    push_if_triple(alloc, out, subject, predicate, object)
}

fn push_if_triple(
    alloc: Global,
    out: &mut Lines,
    subject: &Term,
    predicate: &Term,
    object: &Term,
) -> Result<(), Memory>
    ensures { OnOk result (out.new ≡ out.old ++ map line (if is_subject subject.now && is_predicate predicate.now then triple subject.now predicate.now object.now ∷ [] else [])) }
{
    if is_subject(subject) && is_predicate(predicate) {
        return out.push(quad_line(alloc, subject, predicate, object, None)?);
    }
    Ok(())
}

fn is_subject(term: &Term) -> bool
    ensures { result ≡ is_subject term.now }
{
    match term {
        Term::Iri(_) => true,
        Term::Blank(_) => true,
        Term::Lit(_, _) => false,
    }
}

fn is_predicate(term: &Term) -> bool
    ensures { result ≡ is_predicate term.now }
{
    match term {
        Term::Iri(_) => true,
        _ => false,
    }
}

/// What a place of the template is in a solution, if it is a term there.
fn filled(
    alloc: Global,
    variables: &[Var],
    labels: &[usize],
    number: u128,
    cells: &[Cell],
    node: &Node,
) -> Result<Option<Term>, Memory>
    ensures { IfOk result (λ t. t ≡ filled_with variables.now labels.now number (map bound cells.now) node.now) }
{
    match node {
        Node::Variable(variable) => term_of(variables, cells, *variable),
        Node::Label(label) => {
            let text = made_label(alloc, number, place(labels, *label))?;
            Ok(Some(Term::Blank(text)))
        }
        Node::Fixed(term) => Ok(Some(term.copy()?)),
    }
}

fn term_of(variables: &[Var], cells: &[Cell], variable: Var) -> Result<Option<Term>, Memory>
    ensures { IfOk result (λ t. t ≡ term_of variables.now (map bound cells.now) variable) }
{
    if has(variables, variable) {
        term_at(cells, place(variables, variable))
    } else {
        Ok(None)
    }
}

/// The term of a cell; NULL has none.
#[tactic(auto, using(crate::proofs::Numbered::place_is))]
fn term_at(cells: &[Cell], place: usize) -> Result<Option<Term>, Memory>
    ensures { IfOk result (λ t. t ≡ lookup (map bound cells.now) place) }
{
    match at(cells, place) {
        Some(Cell::Term(term)) => Ok(Some(term.copy()?)),
        _ => Ok(None),
    }
}

fn has(numbers: &[usize], number: usize) -> bool
    ensures { result ≡ is_there numbers.now number }
{
    numbers.iter().any(|n| number == *n)
}

/// Where a number first stands.
fn place(numbers: &[usize], number: usize) -> usize
    ensures { result ≡ position_or_len (nat_eq number) numbers.now }
{
    numbers.iter().take_while(|n| number != **n).count()
}

/// The label of a blank node of the template, before which so many others appear, in a solution.
fn made_label(alloc: Global, number: u128, before: usize) -> Result<Text, Memory>
    ensures { IfOk result (λ t. t ≡ made_label number (before + 1)) }
{
    let mut text = String::from_str(alloc, "c")?;
    push_number(&mut text, number)?;
    text.push_str("_")?;
    push_number(&mut text, before as u128 + 1)?;
    Ok(Text::from_string(text))
}

fn push_number(text: &mut String, number: u128) -> Result<(), Memory>
    ensures { OnOk result (string_bytes text.new ≡ string_bytes text.old ++ decimal number) }
{
    let mut buffer = Buffer::new();
    text.push_str(buffer.format(number))?;
    Ok(())
}
