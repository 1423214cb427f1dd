use vkg_base::{Items, Text};
use vkg_cells::SqlType;
use vkg_terms::{Annotation, Term};

/// What sort of term is made.
#[derive(Drop)]
pub enum Sort {
    OfIri,
    OfBlank,
    OfLit(Annotation),
}

/// A part of a composed text: a text, or a column and its kind.
#[derive(Drop)]
pub enum Piece {
    Chars(Text),
    Hole(usize, SqlType),
}

/// An expression that makes a term: a fixed term, one composed of pieces, or the IRI of a column's form over a base.
#[derive(Drop)]
pub enum TermExpr {
    Fixed(Term),
    Made(Sort, Items<Piece>),
    Resolved(Text, usize, SqlType),
}
