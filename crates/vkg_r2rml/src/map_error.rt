ghost use Rattle.std.specs.Prelude.{◌≡◌};
ghost use Rattle.vkg_r2rml.specs.declared.map_error.MapError.TheVariants.{Memory as OutOfMemory};

use thiserror::Error;
use vkg_base::Memory;

/// The least fault of a mapping: the number of its check, and of its triples map counted from 1, or 0 for the whole.
#[derive(Clone, Copy, Debug, Drop, PartialEq, Eq)]
pub struct MapFault {
    pub check: u8,
    pub map: usize,
}

/// Why a graph is no mapping.
#[derive(Clone, Copy, Debug, Drop, PartialEq, Eq, Error)]
pub enum MapError {
    #[error("check {check} fails on triples map {map}", check = .0.check, map = .0.map)]
    Fault(MapFault),
    #[error("want of memory")]
    Memory,
}

impl From<Memory> for MapError {
    ghost from_gives = { λ _ e. e ≡ OutOfMemory };

    fn from(_: Memory) -> MapError {
        MapError::Memory
    }
}
