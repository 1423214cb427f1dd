// What the steps of an expression make of lists of cells.
ghost use Rattle.std.specs.Prelude.{◌≡◌, IfOk};
ghost use Rattle.vkg_cells.specs.declared.cell.SqlType.TheVariants as kind;
ghost use Rattle.vkg_expr.specs.Steps.{AllFit};
ghost use Rattle.vkg_expr.specs.Value.{all_of, any_of, coalesced, concat_of, text_cell, truth_cell as cell_of_truth};

use crate::cells::{is_null, text_of, truth_cell, truth_of};
use crate::value::Value;
use std::alloc::Global;
use vkg_base::{Items, Memory, Text};
use vkg_cells::Cell;
use vkg_values::{conjunction, disjunction};

/// The texts after each other, and NULL where one is.
#[tactic(auto, using(vkg_lists::proofs::Onto::onto_rules))]
pub fn concatenation(alloc: Global, cells: &[Value<'_>]) -> Result<Cell, Memory>
    requires { AllFit kind.Text cells.now }
    ensures { IfOk result (λ c. c ≡ text_cell (concat_of cells.now)) }
{
    let mut out = String::new(alloc);
    for cell in cells {
        let Some(text) = text_of(&cell.shown()) else {
            return Ok(Cell::Null);
        };
        out.push_str(text)?;
    }
    Ok(Cell::Text(Text::from_string(out)))
}

pub fn all(cells: &[Value<'_>]) -> Cell
    requires { AllFit kind.Bool cells.now }
    ensures { result ≡ cell_of_truth (all_of cells.now) }
{
    let mut all = Some(true);
    for cell in cells {
        all = conjunction(all, truth_of(&cell.shown()));
    }
    truth_cell(all)
}

pub fn any(cells: &[Value<'_>]) -> Cell
    requires { AllFit kind.Bool cells.now }
    ensures { result ≡ cell_of_truth (any_of cells.now) }
{
    let mut any = Some(false);
    for cell in cells {
        any = disjunction(any, truth_of(&cell.shown()));
    }
    truth_cell(any)
}

/// The first cell that is not NULL.
pub fn first_known(alloc: Global, cells: &[Value<'_>]) -> Result<Cell, Memory>
    ensures { IfOk result (λ c. c ≡ coalesced cells.now) }
{
    for cell in cells {
        let cell = cell.shown();
        if !is_null(&cell) {
            return cell.to_cell(alloc);
        }
    }
    Ok(Cell::Null)
}

/// The cells of some values; those that are lent are copied.
pub fn into_cells(alloc: Global, values: Items<Value<'_>>) -> Result<Items<Cell>, Memory>
    ensures { IfOk result (λ cells. cells ≡ values.entry) }
{
    let mut cells = Items::new(alloc);
    for value in values.into_vec() {
        cells.push(value.into_cell(alloc)?)?;
    }
    Ok(cells)
}
