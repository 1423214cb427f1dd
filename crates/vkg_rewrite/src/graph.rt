// The graph that a CONSTRUCT makes of its rows (SPARQL 1.1, 16.2).
ghost use Rattle.std.specs.Prelude.{◌≡◌, IfOk, map};
ghost use Rattle.vkg_sparql.specs.Seen.{query_seen};
ghost use Rattle.vkg_algebra.specs.Answer.{found_of, ordered, selected_variables};
ghost use Rattle.vkg_algebra.specs.Construct.{graph_lines};
ghost use Rattle.vkg_answers.specs.Answering.{row_solution};

use crate::lines::{copied, parts, row_line};
use std::alloc::Global;
use vkg_algebra::{construct_lines, selected_count};
use vkg_base::{Lines, Memory};
use vkg_cells::Cell;
use vkg_engine::Rows;
use vkg_order::Candidate;
use vkg_sparql::{Query, TriplePattern};

/// The graph that a template makes of the solutions that these rows are.
pub(crate) fn made_lines(
    alloc: Global,
    query: &Query,
    template: &[TriplePattern],
    rows: &Rows,
) -> Result<Lines, Memory>
    ensures { IfOk result (λ lines. lines ≡ graph_lines template.now (selected_variables (query_seen query.now)) (ordered (query_seen query.now) (map row_solution rows.now))) }
{
    let width = selected_count(alloc, query)?;
    let solutions = candidates(alloc, width, rows)?;
    construct_lines(alloc, query, template, solutions)
}

/// The solutions that these rows are; the first so many cells of each are its terms, and the others the values of keys.
fn candidates(alloc: Global, width: usize, rows: &Rows) -> Result<Vec<Candidate>, Memory>
    ensures { IfOk result (λ found. found.items ≡ map (λ row. found_of width (row_solution row)) rows.now) }
{
    let mut found = Vec::new(alloc);
    for i in 0..rows.len() {
        found.push(candidate(alloc, width, rows.row(i))?)?;
    }
    Ok(found)
}

fn candidate(alloc: Global, width: usize, row: &[Cell]) -> Result<Candidate, Memory>
    ensures { IfOk result (λ c. c ≡ found_of width (row_solution row.now)) }
{
    let (shown, _) = parts(row, width);
    let line = row_line(alloc, shown)?;
    Ok(Candidate::new(width, copied(alloc, row)?, line))
}
