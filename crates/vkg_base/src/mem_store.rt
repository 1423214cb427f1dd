ghost use Rattle.std.specs.Prelude.{◌≡◌, ◌≤◌, length, ◌++◌, [], ◌∷◌, map, take, is_ok, if◌then◌else◌, nat_eq, string_bytes, Some, None, IfOk, find, bytes_eq};
ghost use Rattle.std.specs.List.{list_any};
ghost use Rattle.std.specs.Option.{option_map, option_copied};
ghost use Rattle.vkg_base.specs.InMemory.{files_of, Loads};
ghost use Rattle.vkg_base.specs.Outside.{held, LoadCounts, Gives};

use crate::{LoadFault, Store};
use std::alloc::{AllocError, Global};
use std::marker::Model;

/// Files in memory, by name; the first of a name counts. The loads whose number, from 1, is listed fail, and so does
/// that of a name that is not there.
#[derive(Drop)]
pub struct MemStore {
    files: Vec<(String, Vec<u8>)>,
    failing: Vec<u64>,
    asked: Vec<String>,
    faults: u64,
}

impl Model for MemStore {
    ghost use Rattle.std.specs.Prelude.{Some, map, string_bytes};
    ghost use Rattle.vkg_base.specs.InMemory.{MemStoreState, files_of};

    ghost Value = { MemStoreState };

    ghost view = { λ s. record { store = record { files = Some (files_of s.files.items); asked = map string_bytes s.asked.items; faults = s.faults }; failing = s.failing.items } };
}

impl MemStore {
    /// A store of these files that was asked for nothing yet.
    pub fn new(files: Vec<(String, Vec<u8>)>, failing: Vec<u64>) -> MemStore
        ensures { result ≡ record { store = record { files = Some (files_of files.items); asked = []; faults = 0 }; failing = failing.items } }
    {
        let alloc: Global = *files.allocator();
        MemStore {
            files,
            failing,
            asked: Vec::new(alloc),
            faults: 0,
        }
    }

    /// How many loads failed.
    pub fn faults(&self) -> u64
        ensures { result ≡ self.now.store.faults }
    {
        self.faults
    }
}

// The first file of this name.
fn find_entry<'f>(files: &'f [(String, Vec<u8>)], name: &str) -> Option<&'f (String, Vec<u8>)>
    ensures { option_copied result ≡ find (λ file. bytes_eq (string_bytes file.0) name.now) files.now }
{
    files.iter().find(|file| file.0.as_str() == name)
}

// The bytes of the first file of this name.
#[tactic(auto, using(crate::proofs::Files::held_is_find))]
fn find_file<'f>(files: &'f [(String, Vec<u8>)], name: &str) -> Option<&'f Vec<u8>>
    ensures { option_map (λ v. v.items) (option_copied result) ≡ held (files_of files.now) name.now }
{
    match find_entry(files, name) {
        Some(file) => Some(&file.1),
        None => None,
    }
}

// The bytes that the load of this number gives: none where it is listed, or where no file has the name.
fn given<'f>(
    files: &'f [(String, Vec<u8>)],
    failing: &[u64],
    number: u64,
    name: &str,
) -> Option<&'f Vec<u8>>
    ensures { option_map (λ v. v.items) (option_copied result) ≡ (if list_any (λ k. nat_eq k number) failing.now then None else held (files_of files.now) name.now) }
{
    if failing.contains(&number) {
        return None;
    }
    find_file(files, name)
}

// Puts the name down.
fn ask(asked: &mut Vec<String>, alloc: Global, name: &str) -> Result<(), AllocError>
    ensures { map string_bytes asked.new.items ≡ (if is_ok result then map string_bytes asked.old.items ++ name.now ∷ [] else map string_bytes asked.old.items) }
{
    let own = String::from_str(alloc, name)?;
    asked.push(own)?;
    Ok(())
}

// The bytes, cut after the first `limit` of them.
fn cut(alloc: Global, bytes: &[u8], limit: u64) -> Result<Vec<u8>, AllocError>
    ensures { IfOk result (λ v. v.items ≡ take limit bytes.now) }
{
    if bytes.len() as u64 <= limit {
        return bytes.to_vec(alloc);
    }
    bytes[..limit as usize].to_vec(alloc)
}

impl Store for MemStore {
    ghost state = { λ s. s.store };

    fn load(&mut self, alloc: Global, name: &str, limit: u64) -> Result<Vec<u8>, LoadFault>
        ensures files { self.new.store.files ≡ self.old.store.files }
        ensures counts { LoadCounts self.old.store self.new.store name.now result }
        ensures bytes { IfOk result (λ v. Gives self.old.store.files name.now limit v.items) }
        ensures limit { IfOk result (λ v. length v.items ≤ limit) }
        ensures exactly { Loads self.old self.new name.now limit result }
    {
        ask(&mut self.asked, alloc, name)?;
        let number = self.asked.len() as u64;
        if let Some(bytes) = given(&self.files, &self.failing, number, name) {
            return Ok(cut(alloc, bytes, limit)?);
        }
        self.faults = self.faults.saturating_add(1);
        Err(LoadFault::Failed)
    }
}
