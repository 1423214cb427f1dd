// The places of the triples of a graph, by the texts of their subjects.
ghost use Rattle.std.specs.Prelude.{◌≡◌, ◌++◌, ◌∷◌, [], ℕ, List, IfOk, OnOk, if◌then◌else◌};
ghost use Rattle.std.specs.Str.{bytes_eq};
ghost use Rattle.vkg_hash.specs.Groups.{group};
ghost use Rattle.vkg_term_maps.specs.Index.{IsIndexOf};

use std::alloc::Global;
use std::collections::HashMap;
use vkg_base::Memory;
use vkg_hash::{Groups, Seed, put};
use vkg_turtle::Triple;

pub(crate) fn index_of(alloc: Global, triples: &[Triple]) -> Result<Groups, Memory>
    ensures { IfOk result (λ index. IsIndexOf triples.now index) }
{
    let mut index = HashMap::with_hasher(alloc, Seed::of_keys(triples));
    for (k, triple) in triples.iter().enumerate() {
        add(alloc, &mut index, triple.subject.name(), k)?;
    }
    Ok(index)
}

fn add(alloc: Global, index: &mut Groups, name: &str, k: usize) -> Result<(), Memory>
    ensures { OnOk result ((q : List ℕ) → group index.new q ≡ group index.old q ++ (if bytes_eq q name.now then k ∷ [] else [])) }
{
    let key = String::from_str(alloc, name)?;
    put(index, key, k)
}
