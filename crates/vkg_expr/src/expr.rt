ghost use Rattle.std.specs.Prelude.{◌≡◌, IfOk};

use crate::Shared;
use std::alloc::Global;
use vkg_base::{Box, Items, Memory, Text};
use vkg_cells::{Cell, SqlType};
use vkg_terms::Annotation;
use vkg_values::{Compare, Take, Test};

/// An operator of SPARQL 1.1 Query, 17, over terms.
#[derive(Clone, Copy, Debug, PartialEq)]
pub enum Operator {
    Test(Test),
    Take(Take),
    Compare(Compare),
}

/// An expression over a row of cells. Columns count from 0.
#[derive(Drop)]
pub enum Expr {
    Col(usize),
    /// A cell of the kind, or NULL.
    Const(Cell, SqlType),
    /// Over a shared text, as the other terms that are made: plans have these many times.
    MakeIri(Shared<Expr>),
    /// The text itself where it is an absolute IRI, else the base and the text (R2RML, 7.4).
    IriOf(Text, Box<Expr>),
    MakeBlank(Shared<Expr>),
    MakeLit(Shared<Expr>, Annotation),
    /// The lexical form of a cell.
    Lex(Box<Expr>),
    /// The IRI-safe form of a text (R2RML, 7.3).
    IriSafe(Box<Expr>),
    Concat(Items<Expr>),
    /// SQL's equality.
    Same(Box<Expr>, Box<Expr>),
    IsNull(Box<Expr>),
    Not(Shared<Expr>),
    And(Items<Expr>),
    Or(Items<Expr>),
    /// The first value that is not NULL.
    Coalesce(Items<Expr>),
    Sparql(Operator, Items<Expr>),
    /// The effective boolean value of a term.
    Ebv(Box<Expr>),
}

impl Expr {
    /// An expression equal to this one.
    #[cycle(copy_expr)]
    pub fn copy(&self, alloc: Global) -> Result<Expr, Memory>
        ensures { IfOk result (λ e. e ≡ self.now) }
    {
        match self {
            Expr::Col(at) => Ok(Expr::Col(*at)),
            Expr::Const(cell, kind) => Ok(Expr::Const(cell.copy()?, *kind)),
            Expr::IriOf(base, e) => {
                let base = base.copy()?;
                Ok(Expr::IriOf(base, copy_boxed(alloc, e)?))
            }
            Expr::MakeLit(e, annotation) => {
                let e = e.share()?;
                Ok(Expr::MakeLit(e, annotation.copy()?))
            }
            Expr::Same(a, b) => {
                let a = copy_boxed(alloc, a)?;
                Ok(Expr::Same(a, copy_boxed(alloc, b)?))
            }
            Expr::Sparql(operator, list) => {
                Ok(Expr::Sparql(*operator, copy_exprs(alloc, list.as_slice())?))
            }
            Expr::MakeIri(e) => Ok(Expr::MakeIri(e.share()?)),
            Expr::MakeBlank(e) => Ok(Expr::MakeBlank(e.share()?)),
            Expr::Lex(e) => Ok(Expr::Lex(copy_boxed(alloc, e)?)),
            Expr::IriSafe(e) => Ok(Expr::IriSafe(copy_boxed(alloc, e)?)),
            Expr::IsNull(e) => Ok(Expr::IsNull(copy_boxed(alloc, e)?)),
            Expr::Not(e) => Ok(Expr::Not(e.share()?)),
            Expr::Ebv(e) => Ok(Expr::Ebv(copy_boxed(alloc, e)?)),
            Expr::Concat(list) => Ok(Expr::Concat(copy_exprs(alloc, list.as_slice())?)),
            Expr::And(list) => Ok(Expr::And(copy_exprs(alloc, list.as_slice())?)),
            Expr::Or(list) => Ok(Expr::Or(copy_exprs(alloc, list.as_slice())?)),
            Expr::Coalesce(list) => Ok(Expr::Coalesce(copy_exprs(alloc, list.as_slice())?)),
        }
    }
}

/// An expression equal to this one, on the heap.
#[cycle(copy_expr)]
pub fn copy_boxed(alloc: Global, e: &Expr) -> Result<Box<Expr>, Memory>
    ensures { IfOk result (λ b. b ≡ e.now) }
{
    Box::new(alloc, e.copy(alloc)?)
}

/// An expression equal to this one, to be shared.
pub fn copy_shared(alloc: Global, e: &Expr) -> Result<Shared<Expr>, Memory>
    ensures { IfOk result (λ s. s ≡ e.now) }
{
    Shared::new(alloc, e.copy(alloc)?)
}

/// Expressions equal to these.
#[cycle(copy_expr)]
pub fn copy_exprs(alloc: Global, list: &[Expr]) -> Result<Items<Expr>, Memory>
    ensures { IfOk result (λ es. es ≡ list.now) }
{
    let mut copies = Items::from_vec(Vec::with_capacity(alloc, list.len())?);
    for e in list {
        copies.push(e.copy(alloc)?)?;
    }
    Ok(copies)
}
