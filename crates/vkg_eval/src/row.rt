ghost use Rattle.std.specs.Prelude.{◌≡◌, ◌++◌, ◌∷◌, [], IfOk, OnOk, OnErr, length, replicate};
ghost use Rattle.vkg_cells.specs.declared.cell.Cell.TheVariants.{Null as null};
ghost use Rattle.vkg_schema.specs.Rows.{cell_at};

use crate::value::Value;
use std::alloc::Global;
use std::marker::Model;
use vkg_base::{Items, Memory};
use vkg_cells::{Cell, CellRef};

/// A row of lent and computed cells. It is seen as the list of its cells.
#[derive(Drop)]
pub struct Row<'a> {
    cells: Vec<Value<'a>>,
}

impl<'a> Model for Row<'a> {
    ghost use Rattle.std.specs.Prelude.{List};
    ghost use Rattle.vkg_cells.specs.declared.cell.Cell.{Cell};

    ghost Value = { List Cell };

    ghost view = { λ r. r.cells.items };
}

impl<'a> Row<'a> {
    /// A row without cells.
    pub fn new(alloc: Global) -> Row<'a>
        ensures { result ≡ [] }
    {
        Row {
            cells: Vec::new(alloc),
        }
    }

    pub(crate) fn from_values(values: Items<Value<'a>>) -> Row<'a>
        ensures { result ≡ values.entry }
    {
        Row {
            cells: values.into_vec(),
        }
    }

    /// Adds a computed cell at the end.
    pub fn push(&mut self, cell: Cell) -> Result<(), Memory>
        ensures ok { OnOk result (self.new ≡ self.old ++ cell ∷ []) }
        ensures err { OnErr result (self.new ≡ self.old) }
    {
        self.cells.push(Value::own(cell))?;
        Ok(())
    }

    /// Adds a lent cell at the end.
    pub fn push_ref(&mut self, cell: CellRef<'a>) -> Result<(), Memory>
        ensures ok { OnOk result (self.new ≡ self.old ++ cell.entry ∷ []) }
        ensures err { OnErr result (self.new ≡ self.old) }
    {
        self.cells.push(Value::lent(cell))?;
        Ok(())
    }

    /// Adds a value at the end.
    pub fn push_value(&mut self, value: Value<'a>) -> Result<(), Memory>
        ensures ok { OnOk result (self.new ≡ self.old ++ value.entry ∷ []) }
        ensures err { OnErr result (self.new ≡ self.old) }
    {
        self.cells.push(value)?;
        Ok(())
    }

    /// Adds the cells of a row, lent.
    pub fn push_row(&mut self, row: &'a Row<'_>) -> Result<(), Memory>
        ensures { OnOk result (self.new ≡ self.old ++ row.now) }
    {
        push_values(self, row.cells.as_slice())
    }

    /// Adds some cells, lent.
    pub fn push_cells(&mut self, cells: &'a [Cell]) -> Result<(), Memory>
        ensures { OnOk result (self.new ≡ self.old ++ cells.now) }
    {
        for cell in cells {
            self.push_ref(CellRef::of(cell))?;
        }
        Ok(())
    }

    /// Adds so many NULLs.
    pub fn push_nulls(&mut self, count: usize) -> Result<(), Memory>
        ensures { OnOk result (self.new ≡ self.old ++ replicate count null) }
    {
        for _place in 0..count {
            self.push_ref(CellRef::null())?;
        }
        Ok(())
    }

    /// How many cells there are.
    pub fn len(&self) -> usize
        ensures { result ≡ length self.now }
    {
        self.cells.len()
    }

    /// The cell at a place, lent, and NULL past the end.
    pub fn cell(&self, at: usize) -> CellRef<'_>
        ensures { result ≡ cell_at self.now at }
    {
        match self.cells.get(at) {
            Some(value) => value.shown(),
            None => CellRef::null(),
        }
    }

    /// Copies of the cells.
    pub fn to_cells(&self, alloc: Global) -> Result<Items<Cell>, Memory>
        ensures { IfOk result (λ cells. cells ≡ self.now) }
    {
        copies(alloc, self.cells.as_slice())
    }
}

fn push_values<'s>(row: &mut Row<'s>, values: &'s [Value<'_>]) -> Result<(), Memory>
    ensures { OnOk result (row.new ≡ row.old ++ values.now) }
{
    for value in values {
        row.push_ref(value.shown())?;
    }
    Ok(())
}

fn copies(alloc: Global, values: &[Value<'_>]) -> Result<Items<Cell>, Memory>
    ensures { IfOk result (λ cells. cells ≡ values.now) }
{
    let mut out = Items::from_vec(Vec::with_capacity(alloc, values.len())?);
    for value in values {
        out.push(value.shown().to_cell(alloc)?)?;
    }
    Ok(out)
}
