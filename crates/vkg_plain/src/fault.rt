ghost use Rattle.std.specs.Prelude.{◌≡◌};
ghost use Rattle.vkg_plain.specs.declared.fault.PlainFault.TheVariants.{Memory as OutOfMemory};

use std::alloc::{AllocError, AllocFailed};
use thiserror::Error;
use vkg_base::Memory;

/// Why a query was not evaluated.
#[derive(Clone, Copy, Debug, Drop, Error, PartialEq, Eq)]
pub enum PlainFault {
    /// A filter asks for the value of a number of more than 38 digits.
    #[error("a number of more than 38 digits")]
    WideNumber,
    /// An allocation was refused.
    #[error("out of memory")]
    Memory,
}

impl From<Memory> for PlainFault {
    ghost from_gives = { λ _ fault. fault ≡ OutOfMemory };

    fn from(_: Memory) -> Self {
        PlainFault::Memory
    }
}

impl From<AllocError> for PlainFault {
    ghost from_gives = { λ _ fault. fault ≡ OutOfMemory };

    fn from(_: AllocError) -> Self {
        PlainFault::Memory
    }
}

impl<T: Drop> From<AllocFailed<T>> for PlainFault {
    ghost from_gives = { λ _ fault. fault ≡ OutOfMemory };

    fn from(_: AllocFailed<T>) -> Self {
        PlainFault::Memory
    }
}
