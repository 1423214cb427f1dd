ghost use Rattle.std.specs.Prelude.{◌≡◌};
ghost use Rattle.vkg_direct.specs.declared.direct_error.DirectError.TheVariants.{Memory as OutOfMemory};

use thiserror::Error;
use vkg_base::Memory;

/// Why a schema has no direct mapping.
#[derive(Clone, Copy, Debug, Drop, PartialEq, Eq, Error)]
pub enum DirectError {
    /// `D01`: the number, counted from 1, of the first table without a primary key.
    #[error("table {0} has no primary key")]
    NoPrimaryKey(usize),
    /// `M22`: more than 4,096 quad rules.
    #[error("more than 4096 quad rules")]
    TooManyRules,
    #[error("out of memory")]
    Memory,
}

impl From<Memory> for DirectError {
    ghost from_gives = { λ _ e. e ≡ OutOfMemory };

    fn from(_: Memory) -> DirectError {
        DirectError::Memory
    }
}
