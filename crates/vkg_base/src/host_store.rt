ghost use Rattle.std.specs.Prelude.{◌≡◌, ◌<◌, ◌≤◌, [], take, length, None, IfOk, IfSome};

use crate::{LoadFault, Store};
use std::alloc::Global;
use std::fs;
use std::io::Read;
use std::marker::Model;
use std::random::RandomSource;
use std::rt::Files;

const PIECE: usize = 4096;

/// The files of the system, by their paths. It tells no content: what a real file holds is known to no contract.
#[derive(Drop)]
pub struct HostStore<'a, R: Files> {
    rt: &'a R,
    asked: Vec<String>,
    faults: u64,
}

impl<'a, R: Files> Model for HostStore<'a, R> {
    ghost use Rattle.std.specs.Prelude.{None, map, string_bytes};
    ghost use Rattle.vkg_base.specs.Outside.{StoreState};

    ghost Value = { StoreState };

    ghost view = { λ s. record { files = None; asked = map string_bytes s.asked.items; faults = s.faults } };
}

impl<'a, R: Files> HostStore<'a, R> {
    /// A store that was asked for nothing yet.
    pub fn new(alloc: Global, rt: &'a R) -> HostStore<'a, R>
        ensures files { result.files ≡ None }
        ensures asked { result.asked ≡ [] }
        ensures faults { result.faults ≡ 0 }
    {
        HostStore {
            rt,
            asked: Vec::new(alloc),
            faults: 0,
        }
    }
}

// Reads to the end, or to the limit, as much at once as the buffer takes.
fn read_up_to<F: Read>(
    alloc: Global,
    file: &mut F,
    buffer: &mut [u8],
    limit: u64,
) -> Result<Vec<u8>, LoadFault>
    requires { 0 < length buffer.old }
    ensures limit { IfOk result (λ v. length v.items ≤ limit) }
    ensures bytes { IfOk result (λ v. IfSome (F.remaining file.old) (λ left. v.items ≡ take limit left)) }
{
    let mut bytes = Vec::new(alloc);
    let mut left = limit;
    for _ in 0..limit {
        let room = left.min(buffer.len() as u64) as usize;
        if room == 0 {
            return Ok(bytes);
        }
        match file.read(&mut buffer[..room]) {
            Ok(0) => return Ok(bytes),
            Ok(count) => {
                bytes.extend_from_slice(&buffer[..count])?;
                left -= count as u64;
            }
            Err(_) => return Err(LoadFault::Failed),
        }
    }
    Ok(bytes)
}

fn read_file<R: Files>(rt: &R, alloc: Global, name: &str, limit: u64) -> Result<Vec<u8>, LoadFault>
    ensures { IfOk result (λ v. length v.items ≤ limit) }
{
    let mut buffer = [0u8; PIECE];
    match fs::open(rt, name) {
        Ok(mut file) => read_up_to(alloc, &mut file, &mut buffer, limit),
        Err(_) => Err(LoadFault::Failed),
    }
}

// Random bytes of the system as a number, or 0 where it gives none.
fn random_number<R: RandomSource>(rt: &R) -> u64 {
    let mut bytes = [0u8; 8];
    match rt.fill_bytes(&mut bytes) {
        Ok(()) => u64::from_le_bytes(bytes),
        Err(_) => 0,
    }
}

impl<'a, R: Files + RandomSource> Store for HostStore<'a, R> {
    ghost state = { λ s. s };

    fn load(&mut self, alloc: Global, name: &str, limit: u64) -> Result<Vec<u8>, LoadFault> {
        let own = String::from_str(alloc, name)?;
        self.asked.push(own)?;
        match read_file(self.rt, alloc, name, limit) {
            Ok(bytes) => Ok(bytes),
            Err(LoadFault::Memory) => Err(LoadFault::Memory),
            Err(LoadFault::Failed) => {
                self.faults = self.faults.saturating_add(1);
                Err(LoadFault::Failed)
            }
        }
    }

    fn seed(&self) -> u64 {
        random_number(self.rt)
    }
}
