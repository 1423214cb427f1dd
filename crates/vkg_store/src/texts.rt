ghost use Rattle.std.specs.Prelude.{◌≡◌, ◌+◌, ◌++◌, ◌∷◌, [], ℕ, false, IfOk, OnErr, OnOk, Some, option_map, slice_get};
ghost use Rattle.std.specs.List.{list_any};
ghost use Rattle.std.specs.Str.{bytes_eq};
ghost use Rattle.vkg_store.specs.Stored.{Extends, interned};

use indexmap::IndexSet;
use std::alloc::Global;
use std::marker::Model;
use vkg_base::Memory;
use vkg_hash::Seed;

/// Texts under numbers, each text once. It is seen as the list of the texts.
#[derive(Drop)]
pub struct Texts {
    texts: IndexSet<String, Seed>,
}

impl Model for Texts {
    ghost use Rattle.std.specs.Prelude.{List, ℕ, map, string_bytes};

    ghost Value = { List (List ℕ) };

    ghost view = { λ t. map string_bytes t.texts.keys };
}

impl Texts {
    /// No texts. They will be found by hashes of this seed.
    pub fn new(alloc: Global, seed: Seed) -> Texts
        ensures { result ≡ [] }
    {
        Texts {
            texts: IndexSet::with_hasher(alloc, seed),
        }
    }

    /// The seed of the hashes.
    pub fn seed(&self) -> Seed {
        *self.texts.hasher()
    }

    /// The text under a number, counted from 0.
    pub fn text(&self, number: usize) -> Option<&str>
        ensures { option_map (λ s. s.now) result ≡ slice_get self.now number }
    {
        match self.texts.get_index(number) {
            Some(text) => Some(text.as_str()),
            None => None,
        }
    }

    /// The number of a text, plus 1. The text is added behind the others if it is new, and only then copied. A number past
    /// `u32` is want of memory.
    pub fn intern(&mut self, alloc: Global, text: &str) -> Result<u32, Memory>
        ensures stored { IfOk result (λ n. (i : ℕ) × (n ≡ i + 1) × (slice_get self.new i ≡ Some text.now)) }
        ensures once { OnOk result (self.new ≡ interned self.old text.now) }
        ensures extends { Extends self.old self.new }
        ensures err { OnErr result (self.new ≡ self.old) }
    {
        match self.texts.get_index_of(text) {
            Some(place) => next(place),
            None => {
                let number = next(self.texts.len())?;
                self.add(alloc, text)?;
                Ok(number)
            }
        }
    }

    fn add(&mut self, alloc: Global, text: &str) -> Result<(), Memory>
        requires { list_any (bytes_eq text.now) self.old ≡ false }
        ensures ok { OnOk result (self.new ≡ self.old ++ text.now ∷ []) }
        ensures err { OnErr result (self.new ≡ self.old) }
    {
        self.texts.insert_full(String::from_str(alloc, text)?)?;
        Ok(())
    }
}

/// The number behind a place.
fn next(place: usize) -> Result<u32, Memory>
    ensures { IfOk result (λ n. n ≡ place + 1) }
{
    match u32::try_from(place) {
        Ok(place) if place < u32::MAX => Ok(place + 1),
        _ => Err(Memory),
    }
}
