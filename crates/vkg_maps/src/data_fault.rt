ghost use Rattle.std.specs.Prelude.{◌≡◌};
ghost use Rattle.vkg_maps.specs.DataFaults.{check_of};

use thiserror::Error;

/// Why a term map makes no term of a row: a data error (R2RML, 4.3).
#[derive(Clone, Copy, Debug, Drop, Error, PartialEq, Eq)]
pub enum TermFault {
    /// The text is no absolute IRI (R2RML, 11.2).
    #[error("no absolute IRI")]
    NotIri,
    /// The form is not of the datatype's lexical space (R2RML, 10.3).
    #[error("not in the lexical space")]
    IllTyped,
    /// The form is a number of more than 38 digits.
    #[error("a number of more than 38 digits")]
    TooWide,
}

impl TermFault {
    /// The number of the check that fails: 1 of `X01`, 2 of `X02`, 3 of `X03`.
    pub fn check(self) -> u8
        ensures { result ≡ check_of self }
    {
        match self {
            TermFault::NotIri => 1,
            TermFault::IllTyped => 2,
            TermFault::TooWide => 3,
        }
    }
}

/// A data error and where it stands: its triples map and its row, counted from 1, and its term map within the triples
/// map, counted from 0.
#[derive(Clone, Copy, Debug, Drop, Error, PartialEq, Eq)]
#[error("{fault}: triples map {map}, row {row}, term map {term}")]
pub struct DataFault {
    pub fault: TermFault,
    pub map: usize,
    pub row: usize,
    pub term: usize,
}
