// The rows of the company, one by one.
ghost use Rattle.std.specs.Prelude.{◌≡◌, ◌<◌, ◌++◌, decimal, IfOk};
ghost use Rattle.vkg_cells.specs.declared.cell.Cell.TheVariants as cell;
ghost use Rattle.vkg_company.specs.Company.{department as department_row, employee as employee_row, name as name_cell, number as number_cell, title as title_cell, workplace as workplace_cell};

use itoa::Buffer;
use std::alloc::Global;
use vkg_base::{Items, Memory, Text};
use vkg_cells::Cell;

fn number(alloc: Global, n: usize) -> Result<Cell, Memory>
    ensures { IfOk result (λ c. c ≡ number_cell n) }
{
    let mut buffer = Buffer::new();
    Ok(Cell::Int(Text::new(alloc, buffer.format(n))?))
}

/// A letter and a number.
fn tagged(alloc: Global, letter: &str, n: usize) -> Result<Cell, Memory>
    ensures { IfOk result (λ c. c ≡ cell.Text (letter.now ++ decimal n)) }
{
    let mut buffer = Buffer::new();
    let mut text = String::from_str(alloc, letter)?;
    text.push_str(buffer.format(n))?;
    Ok(Cell::Text(Text::from_string(text)))
}

fn title(alloc: Global, department: usize) -> Result<Cell, Memory>
    ensures { IfOk result (λ c. c ≡ title_cell department) }
{
    if department % 5 == 0 {
        Ok(Cell::Null)
    } else {
        tagged(alloc, "D", department)
    }
}

fn workplace(alloc: Global, departments: usize, employee: usize) -> Result<Cell, Memory>
    requires some { 0 < departments }
    requires small { departments < 4294967296 }
    ensures { IfOk result (λ c. c ≡ workplace_cell departments employee) }
{
    if employee % 4 == 0 {
        Ok(Cell::Null)
    } else {
        number(alloc, employee % departments + 1)
    }
}

pub fn department(alloc: Global, k: usize) -> Result<Vec<Cell>, Memory>
    ensures { IfOk result (λ row. row.items ≡ department_row k) }
{
    let mut row = Items::new(alloc);
    row.push(number(alloc, k)?)?;
    row.push(title(alloc, k)?)?;
    Ok(row.into_vec())
}

pub fn employee(alloc: Global, departments: usize, i: usize) -> Result<Vec<Cell>, Memory>
    requires some { 0 < departments }
    requires small { departments < 4294967296 }
    ensures { IfOk result (λ row. row.items ≡ employee_row departments i) }
{
    let mut row = Items::new(alloc);
    row.push(number(alloc, i)?)?;
    row.push(tagged(alloc, "N", i % 7)?)?;
    row.push(workplace(alloc, departments, i)?)?;
    Ok(row.into_vec())
}
