ghost use Rattle.std.specs.Prelude.{◌≡◌, ◌≤◌, length, IfOk};
ghost use Rattle.vkg_base.specs.declared.store.LoadFault.TheVariants.{Memory as OutOfMemory};
ghost use Rattle.vkg_base.specs.Outside.{StoreState, LoadCounts, Gives};

use std::alloc::{AllocError, AllocFailed, Global};
use thiserror::Error;

/// Why a file was not loaded.
#[derive(Clone, Copy, Debug, Drop, Error, PartialEq, Eq)]
pub enum LoadFault {
    /// The store failed, and counted a fault.
    #[error("file not loaded")]
    Failed,
    /// An allocation was refused.
    #[error("out of memory")]
    Memory,
}

impl From<AllocError> for LoadFault {
    ghost from_gives = { λ _ e. e ≡ OutOfMemory };

    fn from(_: AllocError) -> Self {
        LoadFault::Memory
    }
}

impl<T: Drop> From<AllocFailed<T>> for LoadFault {
    ghost from_gives = { λ _ e. e ≡ OutOfMemory };

    fn from(_: AllocFailed<T>) -> Self {
        LoadFault::Memory
    }
}

/// A store of files, by name. It keeps the names that it was asked for and counts its faults.
pub trait Store {
    ghost state: { Self → StoreState };

    /// Gives the bytes of a file: where the store tells its files, those of the first file of this name, cut after the
    /// first `limit` of them.
    fn load(&mut self, alloc: Global, name: &str, limit: u64) -> Result<Vec<u8>, LoadFault>
        ensures files { (state self.new).files ≡ (state self.old).files }
        ensures counts { LoadCounts (state self.old) (state self.new) name.now result }
        ensures bytes { IfOk result (λ v. Gives (state self.old).files name.now limit v.items) }
        ensures limit { IfOk result (λ v. length v.items ≤ limit) };

    /// A number that who wrote the files cannot know, where the store has one: a seed for hashes. No clause speaks of it, and no answer
    /// may depend on it.
    fn seed(&self) -> u64 {
        0
    }
}
