ghost use Rattle.std.specs.Prelude.{◌≡◌, IfOk};
ghost use Rattle.std.specs.Option.{option_copied};
ghost use Rattle.vkg_cells.specs.Form.{lexical_form};

use crate::cell::Cell;
use std::alloc::Global;
use std::marker::Model;
use vkg_base::{Memory, Text};
use vkg_terms::Term;

/// What is lent of a cell.
#[derive(Clone, Copy)]
pub(crate) enum Lent<'a> {
    Null,
    Text(&'a str),
    Int(&'a str),
    Dec(&'a str),
    Bool(bool),
    Date(&'a str),
    Stamp(&'a str),
    Bin(&'a str),
    Time(&'a str),
    Term(&'a Term),
}

/// A cell that is lent, so that it is looked at without a copy. It is seen as the cell.
#[derive(Drop)]
pub struct CellRef<'a> {
    pub(crate) lent: Lent<'a>,
}

impl<'a> Model for CellRef<'a> {
    ghost use Rattle.vkg_cells.specs.declared.cell.Cell.{Cell};
    ghost use Rattle.vkg_cells.specs.Lent.{lent_cell};

    ghost Value = { Cell };

    ghost view = { λ c. lent_cell c.lent };
}

impl<'a> CellRef<'a> {
    /// A cell, lent.
    pub fn of(cell: &'a Cell) -> CellRef<'a>
        ensures { result ≡ cell.now }
    {
        match cell {
            Cell::Null => CellRef::null(),
            Cell::Text(text) => CellRef::text(text.as_str()),
            Cell::Int(form) => CellRef::int(form.as_str()),
            Cell::Dec(form) => CellRef::dec(form.as_str()),
            Cell::Bool(truth) => CellRef::truth(*truth),
            Cell::Date(form) => CellRef::date(form.as_str()),
            Cell::Stamp(form) => CellRef::stamp(form.as_str()),
            Cell::Bin(form) => CellRef::bin(form.as_str()),
            Cell::Time(form) => CellRef::time(form.as_str()),
            Cell::Term(term) => CellRef::term(term),
        }
    }

    /// NULL.
    pub fn null() -> CellRef<'a>
        ensures { result ≡ Cell.Null }
    {
        CellRef { lent: Lent::Null }
    }

    /// A text.
    pub fn text(text: &'a str) -> CellRef<'a>
        ensures { result ≡ Cell.Text text.now }
    {
        CellRef {
            lent: Lent::Text(text),
        }
    }

    /// The integer of this lexical form.
    pub fn int(form: &'a str) -> CellRef<'a>
        ensures { result ≡ Cell.Int form.now }
    {
        CellRef {
            lent: Lent::Int(form),
        }
    }

    /// The decimal of this lexical form.
    pub fn dec(form: &'a str) -> CellRef<'a>
        ensures { result ≡ Cell.Dec form.now }
    {
        CellRef {
            lent: Lent::Dec(form),
        }
    }

    /// A truth.
    pub fn truth(truth: bool) -> CellRef<'a>
        ensures { result ≡ Cell.Bool truth }
    {
        CellRef {
            lent: Lent::Bool(truth),
        }
    }

    /// The date of this lexical form.
    pub fn date(form: &'a str) -> CellRef<'a>
        ensures { result ≡ Cell.Date form.now }
    {
        CellRef {
            lent: Lent::Date(form),
        }
    }

    /// The moment of this lexical form.
    pub fn stamp(form: &'a str) -> CellRef<'a>
        ensures { result ≡ Cell.Stamp form.now }
    {
        CellRef {
            lent: Lent::Stamp(form),
        }
    }

    /// The octets of this lexical form.
    pub fn bin(form: &'a str) -> CellRef<'a>
        ensures { result ≡ Cell.Bin form.now }
    {
        CellRef {
            lent: Lent::Bin(form),
        }
    }

    /// The time of day of this lexical form.
    pub fn time(form: &'a str) -> CellRef<'a>
        ensures { result ≡ Cell.Time form.now }
    {
        CellRef {
            lent: Lent::Time(form),
        }
    }

    /// A term.
    pub fn term(term: &'a Term) -> CellRef<'a>
        ensures { result ≡ Cell.Term term.now }
    {
        CellRef {
            lent: Lent::Term(term),
        }
    }

    /// The same cell, lent by this one.
    pub fn shown(&self) -> CellRef<'_>
        ensures { result ≡ self.now }
    {
        CellRef { lent: self.lent }
    }

    /// The lexical form, lent as long as the cell is; NULL and a term have none.
    pub fn form(&self) -> Option<&'a str>
        ensures { option_copied result ≡ lexical_form self.now }
    {
        match self.lent {
            Lent::Text(text) => Some(text),
            Lent::Int(text) => Some(text),
            Lent::Dec(text) => Some(text),
            Lent::Bool(true) => Some("true"),
            Lent::Bool(false) => Some("false"),
            Lent::Date(text) => Some(text),
            Lent::Stamp(text) => Some(text),
            Lent::Bin(text) => Some(text),
            Lent::Time(text) => Some(text),
            Lent::Null | Lent::Term(_) => None,
        }
    }

    /// A copy of the cell.
    pub fn to_cell(&self, alloc: Global) -> Result<Cell, Memory>
        ensures { IfOk result (λ c. c ≡ self.now) }
    {
        match self.lent {
            Lent::Null => Ok(Cell::Null),
            Lent::Text(text) => Ok(Cell::Text(Text::new(alloc, text)?)),
            Lent::Int(text) => Ok(Cell::Int(Text::new(alloc, text)?)),
            Lent::Dec(text) => Ok(Cell::Dec(Text::new(alloc, text)?)),
            Lent::Bool(truth) => Ok(Cell::Bool(truth)),
            Lent::Date(text) => Ok(Cell::Date(Text::new(alloc, text)?)),
            Lent::Stamp(text) => Ok(Cell::Stamp(Text::new(alloc, text)?)),
            Lent::Bin(text) => Ok(Cell::Bin(Text::new(alloc, text)?)),
            Lent::Time(text) => Ok(Cell::Time(Text::new(alloc, text)?)),
            Lent::Term(term) => Ok(Cell::Term(term.copy()?)),
        }
    }
}
