ghost use Rattle.std.specs.Prelude.{◌≡◌, [], OnOk};
ghost use Rattle.std.specs.Option.{option_copied};
ghost use Rattle.vkg_turtle.specs.Document.{declared, namespace};

use indexmap::IndexMap;
use std::alloc::Global;
use std::marker::Model;
use vkg_base::{Memory, Text};
use vkg_hash::Seed;

/// The prefixes that are declared, and what each stands for.
#[derive(Drop)]
pub struct Prefixes {
    map: IndexMap<String, Text, Seed>,
}

impl Model for Prefixes {
    ghost use Rattle.std.specs.Prelude.{List, ℕ};
    ghost use Rattle.vkg_turtle.specs.Entries.{texts_of_entries};

    ghost Value = { List (List ℕ × List ℕ) };

    ghost view = { λ p. texts_of_entries p.map.entries };
}

impl Prefixes {
    /// No prefix. They will be found by hashes of this seed.
    pub fn new(alloc: Global, seed: Seed) -> Prefixes
        ensures { result ≡ [] }
    {
        Prefixes {
            map: IndexMap::with_hasher(alloc, seed),
        }
    }

    /// Lets a prefix stand for an IRI from now on.
    pub fn declare(&mut self, alloc: Global, name: &str, iri: Text) -> Result<(), Memory>
        ensures { OnOk result (self.new ≡ declared name.now iri self.old) }
    {
        let name = String::from_str(alloc, name)?;
        self.map.insert(name, iri)?;
        Ok(())
    }

    /// What a prefix stands for.
    pub fn namespace(&self, name: &str) -> Option<&Text>
        ensures { option_copied result ≡ namespace name.now self.now }
    {
        self.map.get(name)
    }
}
