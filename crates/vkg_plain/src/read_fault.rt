ghost use Rattle.std.specs.Prelude.{◌≡◌};
ghost use Rattle.vkg_plain.specs.declared.read_fault.ReadFault.TheVariants.{Memory as OutOfMemory};

use std::alloc::{AllocError, AllocFailed};
use thiserror::Error;
use vkg_base::Memory;

/// Why no quads were read.
#[derive(Clone, Copy, Debug, Drop, Error, PartialEq, Eq)]
pub enum ReadFault {
    /// The text is not the lines of quads.
    #[error("not the lines of quads")]
    NoQuads,
    /// An allocation was refused.
    #[error("out of memory")]
    Memory,
}

impl From<Memory> for ReadFault {
    ghost from_gives = { λ _ fault. fault ≡ OutOfMemory };

    fn from(_: Memory) -> Self {
        ReadFault::Memory
    }
}

impl From<AllocError> for ReadFault {
    ghost from_gives = { λ _ fault. fault ≡ OutOfMemory };

    fn from(_: AllocError) -> Self {
        ReadFault::Memory
    }
}

impl<T: Drop> From<AllocFailed<T>> for ReadFault {
    ghost from_gives = { λ _ fault. fault ≡ OutOfMemory };

    fn from(_: AllocFailed<T>) -> Self {
        ReadFault::Memory
    }
}
