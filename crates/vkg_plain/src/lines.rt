// What is written of solutions (SPARQL 1.1, 16; SPARQL 1.1 Query Results CSV and TSV Formats, 4).
ghost use Rattle.std.specs.Prelude.{◌≡◌, ◌∷◌, [], IfOk, drop, length, map, string_bytes, take};
ghost use Rattle.vkg_order.specs.Kept.{StandFor};
ghost use Rattle.vkg_order.specs.Listed.{listed};
ghost use Rattle.vkg_order.specs.Values.{bound};
ghost use Rattle.vkg_sparql.specs.Seen.{query_seen};
ghost use Rattle.vkg_algebra.specs.Answer.{found_of, has_solution as has_solution_of, header as header_of, modifiers_of as modifiers_of_query, ordered, place_text as text_of_place, selected_variables as selected_of, solution_entry, solution_line as line_of_solution, solutions_lines};
ghost use Rattle.vkg_algebra.specs.Construct.{graph_lines};

use crate::solution::Solution;
use std::alloc::Global;
use vkg_algebra::{ask_lines, construct_lines, header, modifiers_of, selected_count, tabbed};
use vkg_base::{Items, Lines, Memory, Text};
use vkg_cells::Cell;
use vkg_order::{Candidate, Keeper};
use vkg_sparql::{Form, Query, TriplePattern};
use vkg_terms::{Term, term_text};

/// What is written of these solutions, each the selected variables and behind them the values of the keys: of SELECT the header, then
/// their lines, in the asked order; of ASK whether there is one; of CONSTRUCT the graph that the template makes of them.
pub fn solution_lines(alloc: Global, query: &Query, rows: &[Solution]) -> Result<Lines, Memory>
    ensures { IfOk result (λ lines. lines ≡ solutions_lines (query_seen query.now) rows.now) }
{
    match &query.form {
        Form::Select => select_lines(alloc, query, rows),
        Form::Ask => ask_lines(alloc, has_solution(rows)),
        Form::Construct(template) => made_lines(alloc, query, template.as_slice(), rows),
    }
}

fn has_solution(rows: &[Solution]) -> bool
    ensures { result ≡ has_solution_of rows.now }
{
    match rows {
        [] => false,
        [_, ..] => true,
    }
}

/// The graph that a template makes of these solutions.
fn made_lines(
    alloc: Global,
    query: &Query,
    template: &[TriplePattern],
    rows: &[Solution],
) -> Result<Lines, Memory>
    ensures { IfOk result (λ lines. lines ≡ graph_lines template.now (selected_of (query_seen query.now)) (ordered (query_seen query.now) rows.now)) }
{
    let width = selected_count(alloc, query)?;
    let solutions = candidates(alloc, width, rows)?;
    construct_lines(alloc, query, template, solutions)
}

/// These solutions; the first so many terms of each are its own, and the others the values of keys.
fn candidates(alloc: Global, width: usize, rows: &[Solution]) -> Result<Vec<Candidate>, Memory>
    ensures { IfOk result (λ found. found.items ≡ map (found_of width) rows.now) }
{
    let mut found = Vec::new(alloc);
    for row in rows {
        found.push(candidate(alloc, width, row.as_slice())?)?;
    }
    Ok(found)
}

fn candidate(alloc: Global, width: usize, row: &[Option<Term>]) -> Result<Candidate, Memory>
    ensures { IfOk result (λ c. c ≡ found_of width row.now) }
{
    let (shown, _) = parts(row, width);
    let line = solution_line(alloc, shown)?;
    Ok(Candidate::new(width, cells(alloc, row)?, line))
}

/// The header, then the lines of the solutions.
fn select_lines(alloc: Global, query: &Query, rows: &[Solution]) -> Result<Lines, Memory>
    ensures { IfOk result (λ lines. lines ≡ header_of (query_seen query.now) ∷ listed (modifiers_of_query (query_seen query.now)) (map (solution_entry (length (selected_of (query_seen query.now)))) rows.now)) }
{
    let mut lines = Lines::new(alloc);
    lines.push(header(alloc, query)?)?;
    lines.append(ordered_lines(alloc, query, rows)?)?;
    Ok(lines)
}

fn ordered_lines(alloc: Global, query: &Query, rows: &[Solution]) -> Result<Lines, Memory>
    ensures { IfOk result (λ lines. lines ≡ listed (modifiers_of_query (query_seen query.now)) (map (solution_entry (length (selected_of (query_seen query.now)))) rows.now)) }
{
    let width = selected_count(alloc, query)?;
    let keeper = Keeper::new(alloc, modifiers_of(alloc, query)?);
    let keeper = offered(alloc, width, rows, keeper)?;
    keeper.finish(alloc)
}

/// The keeper, to which these solutions were offered; the first so many terms of each are its line, and the others the values of keys.
fn offered(alloc: Global, width: usize, rows: &[Solution], keeper: Keeper) -> Result<Keeper, Memory>
    requires { keeper.held ≡ [] }
    ensures asked { IfOk result (λ k. k.modifiers ≡ keeper.modifiers) }
    ensures stands { IfOk result (λ k. StandFor keeper.modifiers k.held (map (solution_entry width) rows.now)) }
{
    let mut keeper = keeper;
    for row in rows {
        let (shown, behind) = parts(row.as_slice(), width);
        keeper.offer(cells(alloc, behind)?, solution_line(alloc, shown)?)?;
    }
    Ok(keeper)
}

/// The first so many terms, and those behind them.
#[tactic(auto, using(std::proofs::lemmas::List::drop_all, std::proofs::lemmas::List::take_all))]
fn parts(row: &[Option<Term>], width: usize) -> (&[Option<Term>], &[Option<Term>])
    ensures shown { result.0.now ≡ take width row.now }
    ensures behind { result.1.now ≡ drop width row.now }
{
    if width <= row.len() {
        row.split_at(width)
    } else {
        (row, &[])
    }
}

/// Terms as cells; what is none is NULL.
fn cells(alloc: Global, terms: &[Option<Term>]) -> Result<Vec<Cell>, Memory>
    ensures { IfOk result (λ cells. map bound cells.items ≡ terms.now) }
{
    let mut cells = Vec::new(alloc);
    for term in terms {
        cells.push(cell_of(term)?)?;
    }
    Ok(cells)
}

fn cell_of(term: &Option<Term>) -> Result<Cell, Memory>
    ensures { IfOk result (λ c. bound c ≡ term.now) }
{
    match term {
        Some(term) => Ok(Cell::Term(term.copy()?)),
        None => Ok(Cell::Null),
    }
}

/// The terms of a solution, with tabs between them.
fn solution_line(alloc: Global, solution: &[Option<Term>]) -> Result<String, Memory>
    ensures { IfOk result (λ s. string_bytes s ≡ line_of_solution solution.now) }
{
    let texts = place_texts(alloc, solution)?;
    tabbed(alloc, texts.as_slice())
}

fn place_texts(alloc: Global, solution: &[Option<Term>]) -> Result<Items<Text>, Memory>
    ensures { IfOk result (λ ts. ts ≡ map text_of_place solution.now) }
{
    let mut texts = Items::new(alloc);
    for place in solution {
        texts.push(place_text(alloc, place)?)?;
    }
    Ok(texts)
}

/// The text of a term; an unbound variable has the empty text.
fn place_text(alloc: Global, place: &Option<Term>) -> Result<Text, Memory>
    ensures { IfOk result (λ t. t ≡ text_of_place place.now) }
{
    match place {
        Some(term) => Ok(Text::from_string(term_text(alloc, term)?)),
        None => Text::new(alloc, ""),
    }
}
