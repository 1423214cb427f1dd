ghost use Rattle.std.specs.Prelude.{◌≡◌, IfOk, option_and_then};
ghost use Rattle.vkg_cells.specs.declared.cell.SqlType.TheVariants as kind;
ghost use Rattle.vkg_values.specs.Known.{widest};
ghost use Rattle.vkg_values.specs.Operators.{ebv};
ghost use Rattle.vkg_expr.specs.Steps.{Fits};
ghost use Rattle.vkg_expr.specs.Value.{term_of, truth_cell};

use crate::cells::truth_of_term;
use std::alloc::Global;
use std::marker::Model;
use vkg_base::Memory;
use vkg_cells::{Cell, CellRef};

/// What a value has.
#[derive(Drop)]
pub(crate) enum Held<'a> {
    Lent(CellRef<'a>),
    Own(Cell),
}

/// A cell that is lent, or one that was computed. It is seen as the cell.
#[derive(Drop)]
pub struct Value<'a> {
    held: Held<'a>,
}

impl<'a> Model for Value<'a> {
    ghost use Rattle.vkg_cells.specs.declared.cell.Cell.{Cell};
    ghost use Rattle.vkg_eval.specs.Held.{held_cell};

    ghost Value = { Cell };

    ghost view = { λ v. held_cell v.held };
}

impl<'a> Value<'a> {
    /// A lent cell.
    pub fn lent(cell: CellRef<'a>) -> Value<'a>
        ensures { result ≡ cell.entry }
    {
        Value {
            held: Held::Lent(cell),
        }
    }

    /// A computed cell.
    pub fn own(cell: Cell) -> Value<'a>
        ensures { result ≡ cell }
    {
        Value {
            held: Held::Own(cell),
        }
    }

    /// The cell, lent.
    pub fn shown(&self) -> CellRef<'_>
        ensures { result ≡ self.now }
    {
        match &self.held {
            Held::Lent(cell) => cell.shown(),
            Held::Own(cell) => CellRef::of(cell),
        }
    }

    /// The cell; it is copied if it is lent.
    pub fn into_cell(self, alloc: Global) -> Result<Cell, Memory>
        ensures { IfOk result (λ c. c ≡ self.entry) }
    {
        match self.held {
            Held::Lent(cell) => cell.to_cell(alloc),
            Held::Own(cell) => Ok(cell),
        }
    }

    /// The effective boolean value of a term, which is copied if it is lent.
    pub(crate) fn truth_of_term(&self, alloc: Global) -> Result<Cell, Memory>
        requires { Fits kind.Term self.now }
        ensures { IfOk result (λ c. c ≡ truth_cell (option_and_then (ebv widest) (term_of self.now))) }
    {
        match &self.held {
            Held::Lent(cell) => truth_of_term(alloc, &cell.to_cell(alloc)?),
            Held::Own(cell) => truth_of_term(alloc, cell),
        }
    }
}
