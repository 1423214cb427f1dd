ghost use Rattle.std.specs.Prelude.{◌≡◌};
ghost use Rattle.vkg_tables.specs.declared.fault.FileError.TheVariants.{Memory as OutOfMemory};

use thiserror::Error;
use vkg_base::Memory;

// A check that fails at a row and a column of a file, which count from 1. The header is row 0, and column 0 is a whole row.
#[derive(Clone, Copy, Debug, PartialEq, Eq)]
pub struct FileFault {
    pub check: u8,
    pub row: usize,
    pub column: usize,
}

// Why the rows of a file are not read.
#[derive(Clone, Copy, Debug, PartialEq, Eq, Error)]
pub enum FileError {
    #[error("check {} fails at row {}, column {}", .0.check, .0.row, .0.column)]
    Fault(FileFault),
    #[error("out of memory")]
    Memory,
}

impl From<Memory> for FileError {
    ghost from_gives = { λ _ e. e ≡ OutOfMemory };

    fn from(_: Memory) -> FileError {
        FileError::Memory
    }
}

pub fn at(check: u8, row: usize, column: usize) -> FileError
    ensures { result ≡ FileError.Fault (record { check = check; row = row; column = column }) }
{
    FileError::Fault(FileFault { check, row, column })
}

/// A check that fails, and where: T01 to T11 by its number.
#[derive(Clone, Copy, Debug, PartialEq, Eq)]
pub struct TableFault {
    pub check: u8,
    /// From 1, in the order of the schema.
    pub table: usize,
    /// From 1. The header, and a fault of the whole file, are 0.
    pub row: usize,
    /// From 1. Of T02 a field of the header, of T09 a key and of T10 a foreign key of the table, of other faults a column
    /// of the schema; 0 where the whole row or file fails.
    pub column: usize,
}

/// Why a table is not loaded, or a database does not meet its schema.
#[derive(Clone, Copy, Debug, PartialEq, Eq, Error)]
pub enum TableError {
    #[error("check {} fails in table {} at row {}, column {}", .0.check, .0.table, .0.row, .0.column)]
    Fault(TableFault),
    #[error("out of memory")]
    Memory,
}
