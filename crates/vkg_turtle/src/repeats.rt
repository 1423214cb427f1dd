ghost use Rattle.std.specs.Prelude.{◌≡◌, [], fold, IfOk};
ghost use Rattle.vkg_turtle.specs.Document.{with_triple};

use crate::triple::Triple;
use indexmap::IndexSet;
use std::alloc::Global;
use vkg_base::{Items, Memory};
use vkg_hash::Seed;

fn distinct(alloc: Global, triples: Vec<Triple>) -> Result<IndexSet<Triple, Seed>, Memory>
    ensures { IfOk result (λ s. s.keys ≡ fold with_triple [] triples.items) }
{
    let mut kept: IndexSet<Triple, Seed> = IndexSet::with_hasher(alloc, Seed::of_keys(&triples));
    for triple in triples {
        kept.insert_full(triple)?;
    }
    Ok(kept)
}

/// Each triple where it first stands.
pub(crate) fn without_repeats(
    alloc: Global,
    triples: Items<Triple>,
) -> Result<Items<Triple>, Memory>
    ensures { IfOk result (λ kept. kept ≡ fold with_triple [] triples) }
{
    let kept = distinct(alloc, triples.into_vec())?;
    Ok(Items::from_vec(kept.into_iter().collect(alloc)?))
}
