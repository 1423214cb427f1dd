ghost use Rattle.std.specs.Prelude.{◌≡◌, IfOk};

use std::alloc::Global;
use vkg_base::{Items, Memory, Text};
use vkg_terms::{Annotation, Term};

/// A term map (R2RML, 7).
#[derive(Drop)]
pub enum TermMap {
    /// Constant-valued (R2RML, 7.1).
    Constant(Term),
    /// Column-valued (R2RML, 7.2): the column's place.
    Column(usize, TermType),
    /// Template-valued (R2RML, 7.3). In a template for relative IRIs the base is the first piece.
    Template(Items<Piece>, TermType),
}

/// A piece of a template (R2RML, 7.3): fixed text, or a column's place.
#[derive(Drop)]
pub enum Piece {
    Fixed(Text),
    Column(usize),
}

/// What sort of term a term map makes (R2RML, 7.4 to 7.6). A column's natural datatype is filled in.
#[derive(Drop)]
pub enum TermType {
    Iri,
    Blank,
    Literal(Annotation),
}

impl TermType {
    pub fn copy(&self) -> Result<TermType, Memory>
        ensures { IfOk result (λ copied. copied ≡ self.now) }
    {
        match self {
            TermType::Iri => Ok(TermType::Iri),
            TermType::Blank => Ok(TermType::Blank),
            TermType::Literal(annotation) => Ok(TermType::Literal(annotation.copy()?)),
        }
    }
}

impl Piece {
    fn copy(&self) -> Result<Piece, Memory>
        ensures { IfOk result (λ copied. copied ≡ self.now) }
    {
        match self {
            Piece::Fixed(text) => Ok(Piece::Fixed(text.copy()?)),
            Piece::Column(column) => Ok(Piece::Column(*column)),
        }
    }
}

fn copy_pieces(alloc: Global, pieces: &[Piece]) -> Result<Items<Piece>, Memory>
    ensures { IfOk result (λ copied. copied ≡ pieces.now) }
{
    let mut copied = Items::new(alloc);
    for piece in pieces {
        copied.push(piece.copy()?)?;
    }
    Ok(copied)
}

impl TermMap {
    pub fn copy(&self, alloc: Global) -> Result<TermMap, Memory>
        ensures { IfOk result (λ copied. copied ≡ self.now) }
    {
        match self {
            TermMap::Constant(term) => Ok(TermMap::Constant(term.copy()?)),
            TermMap::Column(column, term_type) => Ok(TermMap::Column(*column, term_type.copy()?)),
            TermMap::Template(pieces, term_type) => {
                let pieces = copy_pieces(alloc, pieces.as_slice())?;
                Ok(TermMap::Template(pieces, term_type.copy()?))
            }
        }
    }
}
