ghost use Rattle.std.specs.Prelude.{◌≡◌, [], nat_eq, find, is_ok, IfOk, OnOk, OnErr};
ghost use Rattle.std.specs.Option.{option_copied};
ghost use Rattle.vkg_base.specs.InMemory.{seen, listed, count_taken, is_whole, takes_all, after_write};
ghost use Rattle.vkg_base.specs.Outside.{Took, Broke};

use crate::{Failed, Memory, Sink};
use std::alloc::Global;
use std::marker::Model;

/// A sink in memory, with room for so many bytes. A listed write takes as many bytes as it is told, but no more than its
/// piece has and than there is room for, and fails; one past the room takes what fits and fails.
#[derive(Drop)]
pub struct MemSink {
    taken: Vec<u8>,
    room: usize,
    failing: Vec<(u64, usize)>,
    writes: u64,
    faults: u64,
}

impl Model for MemSink {
    ghost use Rattle.std.specs.Prelude.{◌≤◌, vec_len, vec_capacity};
    ghost use Rattle.vkg_base.specs.InMemory.{MemSinkState};

    ghost Value = { MemSinkState };

    ghost view = { λ s. record { taken = s.taken.items; room = s.room; failing = s.failing.items; writes = s.writes; faults = s.faults } };

    ghost invariant = { λ s. (vec_len s.taken ≤ s.room) × (s.room ≤ vec_capacity s.taken) };
}

impl MemSink {
    /// An empty sink with room for `room` bytes, and for each listed write its number, from 1, and how many bytes of its
    /// piece it takes at most.
    pub fn with_room(
        alloc: Global,
        room: usize,
        failing: Vec<(u64, usize)>,
    ) -> Result<MemSink, Memory>
        ensures { IfOk result (λ s. s ≡ record { taken = []; room = room; failing = failing.items; writes = 0; faults = 0 }) }
    {
        let taken = Vec::with_capacity(alloc, room)?;
        Ok(MemSink {
            taken,
            room,
            failing,
            writes: 0,
            faults: 0,
        })
    }

    /// How many writes failed.
    pub fn faults(&self) -> u64
        ensures { result ≡ self.now.faults }
    {
        self.faults
    }

    /// The bytes that were taken.
    pub fn taken(&self) -> &[u8]
        ensures { result.now ≡ self.now.taken }
    {
        &self.taken
    }
}

// The entry of a listed write.
fn find_entry(failing: &[(u64, usize)], write: u64) -> Option<&(u64, usize)>
    ensures { option_copied result ≡ find (λ entry. nat_eq entry.0 write) failing.now }
{
    failing.iter().find(|entry| entry.0 == write)
}

// How many bytes a write takes, if it is listed.
fn told(failing: &[(u64, usize)], write: u64) -> Option<usize>
    ensures { result ≡ listed failing.now write }
{
    match find_entry(failing, write) {
        Some(entry) => Some(entry.1),
        None => None,
    }
}

// How many bytes a write takes, and whether it takes its whole piece.
fn part(told: Option<usize>, len: usize, free: usize) -> (usize, bool)
    ensures count { result.0 ≡ count_taken told len free }
    ensures whole { result.1 ≡ is_whole told len free }
{
    match told {
        Some(told) => (told.min(len.min(free)), false),
        None => (len.min(free), len <= free),
    }
}

impl Sink for MemSink {
    ghost state = { seen };

    fn write(&mut self, piece: &[u8]) -> Result<(), Failed>
        ensures ok { OnOk result (Took (seen self.old) (seen self.new) piece.now) }
        ensures failed { OnErr result (Broke (seen self.old) (seen self.new) piece.now) }
        ensures whole { is_ok result ≡ takes_all self.old piece.now }
        ensures exactly { self.new ≡ after_write self.old piece.now }
    {
        self.writes = self.writes.saturating_add(1);
        let free = self.room - self.taken.len();
        let told = told(&self.failing, self.writes);
        let (count, whole) = part(told, piece.len(), free);
        self.taken.extend_from_slice(&piece[..count]).unwrap();
        if whole {
            return Ok(());
        }
        self.faults = self.faults.saturating_add(1);
        Err(Failed)
    }
}
