ghost use Rattle.std.specs.Prelude.{◌≡◌};
ghost use Rattle.vkg_sparql.specs.Reading.{fault};
ghost use Rattle.vkg_sparql.specs.declared.fault.QueryError.TheVariants.{Fault, Memory as OutOfMemory};

use thiserror::Error;
use vkg_base::Memory;

/// The first fault of a query: the number of its check, and the byte at which it stands, counted behind a byte order mark.
#[derive(Clone, Copy, Debug, PartialEq, Eq)]
pub struct QueryFault {
    pub check: u8,
    pub at: usize,
}

/// Why bytes are no query.
#[derive(Clone, Copy, Debug, PartialEq, Eq, Error)]
pub enum QueryError {
    #[error("check {check} fails at byte {at}", check = .0.check, at = .0.at)]
    Fault(QueryFault),
    #[error("want of memory")]
    Memory,
}

impl From<Memory> for QueryError {
    ghost from_gives = { λ _ e. e ≡ OutOfMemory };

    fn from(_: Memory) -> QueryError {
        QueryError::Memory
    }
}

pub fn fault(check: u8, at: usize) -> QueryError
    ensures { result ≡ Fault (fault check at) }
{
    QueryError::Fault(QueryFault { check, at })
}
