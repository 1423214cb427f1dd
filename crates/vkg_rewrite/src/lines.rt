// What is written of a query's rows.
ghost use Rattle.std.specs.Prelude.{◌≡◌, [], ◌∷◌, IfOk, drop, map, string_bytes, take};
ghost use Rattle.vkg_expr.specs.Value.{term_of};
ghost use Rattle.vkg_order.specs.Kept.{StandFor};
ghost use Rattle.vkg_order.specs.Listed.{listed};
ghost use Rattle.vkg_sparql.specs.Seen.{query_seen};
ghost use Rattle.vkg_algebra.specs.Answer.{has_solution, header as header_of, modifiers_of as modifiers_of_query, place_text as text_of_place, solution_entry, solution_line};
ghost use Rattle.vkg_answers.specs.Answering.{row_entry, row_solution};
ghost use Rattle.vkg_rewrite.specs.Lines.{result_lines as lines_of};

use crate::graph::made_lines;
use std::alloc::Global;
use vkg_algebra::{ask_lines, header, modifiers_of, selected_count, tabbed};
use vkg_base::{Items, Lines, Memory, Text};
use vkg_cells::Cell;
use vkg_engine::Rows;
use vkg_order::Keeper;
use vkg_sparql::{Form, Query};
use vkg_terms::term_text;

/// What is written of these rows, in whatever order they come. Each is one of the query's plan: the selected variables and behind
/// them the values of the keys. NULL is an unbound variable. Of SELECT it is the header, then the lines of the rows, in the asked order; of
/// ASK whether there is a row; of CONSTRUCT the graph that the template makes of them.
pub fn result_lines(alloc: Global, query: &Query, rows: &Rows) -> Result<Lines, Memory>
    ensures { IfOk result (λ lines. lines ≡ lines_of (query_seen query.now) rows.now) }
{
    match &query.form {
        Form::Select => select_lines(alloc, query, rows),
        Form::Ask => ask_lines(alloc, has_row(rows)),
        Form::Construct(template) => made_lines(alloc, query, template.as_slice(), rows),
    }
}

/// Whether there is a row.
#[tactic(auto, using(crate::proofs::Offers::some_row))]
fn has_row(rows: &Rows) -> bool
    ensures { result ≡ has_solution (map row_solution rows.now) }
{
    !rows.is_empty()
}

/// The header, then the lines of the rows.
fn select_lines(alloc: Global, query: &Query, rows: &Rows) -> Result<Lines, Memory>
    ensures { IfOk result (λ lines. lines ≡ header_of (query_seen query.now) ∷ listed (modifiers_of_query (query_seen query.now)) (map (row_entry (query_seen query.now)) rows.now)) }
{
    let mut lines = Lines::new(alloc);
    lines.push(header(alloc, query)?)?;
    lines.append(ordered_lines(alloc, query, rows)?)?;
    Ok(lines)
}

/// The lines of the rows, in the asked order.
fn ordered_lines(alloc: Global, query: &Query, rows: &Rows) -> Result<Lines, Memory>
    ensures { IfOk result (λ lines. lines ≡ listed (modifiers_of_query (query_seen query.now)) (map (row_entry (query_seen query.now)) rows.now)) }
{
    let width = selected_count(alloc, query)?;
    let keeper = Keeper::new(alloc, modifiers_of(alloc, query)?);
    let keeper = offered(alloc, width, rows, keeper)?;
    keeper.finish(alloc)
}

/// The keeper, to which these rows were offered; the first so many cells of each are its line, and the others the values of keys.
fn offered(alloc: Global, width: usize, rows: &Rows, keeper: Keeper) -> Result<Keeper, Memory>
    requires { keeper.held ≡ [] }
    ensures asked { IfOk result (λ k. k.modifiers ≡ keeper.modifiers) }
    ensures stands { IfOk result (λ k. StandFor keeper.modifiers k.held (map (λ row. solution_entry width (map term_of row)) rows.now)) }
{
    let mut keeper = keeper;
    for i in 0..rows.len() {
        let (shown, behind) = parts(rows.row(i), width);
        keeper.offer(copied(alloc, behind)?, row_line(alloc, shown)?)?;
    }
    Ok(keeper)
}

/// The first so many cells, and those behind them.
#[tactic(auto, using(std::proofs::lemmas::List::drop_all, std::proofs::lemmas::List::take_all))]
pub(crate) fn parts(row: &[Cell], width: usize) -> (&[Cell], &[Cell])
    ensures shown { result.0.now ≡ take width row.now }
    ensures behind { result.1.now ≡ drop width row.now }
{
    if width <= row.len() {
        row.split_at(width)
    } else {
        (row, &[])
    }
}

pub(crate) fn copied(alloc: Global, cells: &[Cell]) -> Result<Vec<Cell>, Memory>
    ensures { IfOk result (λ v. v.items ≡ cells.now) }
{
    let mut copied = Vec::new(alloc);
    for cell in cells {
        copied.push(cell.copy()?)?;
    }
    Ok(copied)
}

/// The terms of a row, with tabs between them.
pub(crate) fn row_line(alloc: Global, row: &[Cell]) -> Result<String, Memory>
    ensures { IfOk result (λ s. string_bytes s ≡ solution_line (map term_of row.now)) }
{
    let texts = place_texts(alloc, row)?;
    tabbed(alloc, texts.as_slice())
}

fn place_texts(alloc: Global, row: &[Cell]) -> Result<Items<Text>, Memory>
    ensures { IfOk result (λ ts. ts ≡ map text_of_place (map term_of row.now)) }
{
    let mut texts = Items::new(alloc);
    for cell in row {
        texts.push(place_text(alloc, cell)?)?;
    }
    Ok(texts)
}

/// The text of a term, and of NULL the empty text.
fn place_text(alloc: Global, cell: &Cell) -> Result<Text, Memory>
    ensures { IfOk result (λ t. t ≡ text_of_place (term_of cell.now)) }
{
    match cell {
        Cell::Term(term) => Ok(Text::from_string(term_text(alloc, term)?)),
        _ => Text::new(alloc, ""),
    }
}
