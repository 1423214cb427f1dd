// Why a call stops before its text is made.
use thiserror::Error;

/// Why words are not taken.
#[derive(Clone, Copy, Debug, PartialEq, Eq, Error)]
pub enum Usage {
    /// They are no help request, and the command line's definition does not take them.
    #[error("words not taken")]
    Words,
    /// The value of `--base` is no absolute IRI.
    #[error("base is not an absolute IRI")]
    Base,
}

/// A fault of the input, with its place.
#[derive(Clone, Copy, Debug, PartialEq, Eq, Error)]
pub enum Fault {
    /// A check of the schema's file fails at a byte.
    #[error("check {check} of the schema fails at byte {at}")]
    Schema {
        check: u8,
        at: usize,
    },
    /// A check of a table's file, or of its rows, fails. Table, row and column count from 1; the header is row 0. For
    /// keys the column is the number of the key or foreign key.
    #[error("check {check} of table {table} fails at row {row}, column {column}")]
    Table {
        check: u8,
        table: usize,
        row: usize,
        column: usize,
    },
    /// The direct mapping has no node for the rows of a table without a primary key. Tables count from 1.
    #[error("table {table} has no primary key")]
    Keyless {
        table: usize,
    },
    /// A check of the mapping fails: of its text at a byte, else at a triples map, which count from 1, or at 0 for all
    /// of it.
    #[error("check {check} of the mapping fails at {at}")]
    Mapping {
        check: u8,
        at: usize,
    },
    /// A term map makes no term of a row. Triples maps and rows count from 1, the term maps of a triples map from 0.
    #[error("check {check} fails of term map {term} of triples map {map} at row {row}")]
    Data {
        check: u8,
        map: usize,
        row: usize,
        term: usize,
    },
    /// A check of the query's file fails at a byte.
    #[error("check {check} of the query fails at byte {at}")]
    Query {
        check: u8,
        at: usize,
    },
}

/// Why a text is not made.
#[derive(Clone, Copy, Debug, PartialEq, Eq, Error)]
pub enum Stop {
    #[error(transparent)]
    Refused(Fault),
    /// A file was not read.
    #[error("a file was not read")]
    Read,
    #[error("want of memory")]
    Memory,
}
