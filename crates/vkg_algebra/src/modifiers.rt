// What a query asks of its answer's lines.
ghost use Rattle.std.specs.Prelude.{◌≡◌, IfOk, if◌then◌else◌, map};
ghost use Rattle.vkg_order.specs.declared.modifiers.Direction.TheVariants.{Ascending, Descending};
ghost use Rattle.vkg_sparql.specs.Seen.{key_seen, query_seen};
ghost use Rattle.vkg_algebra.specs.Answer.{direction_of as direction_of_key, modifiers_of as modifiers_of_query};

use std::alloc::Global;
use vkg_base::{Items, Memory};
use vkg_order::{Direction, Modifiers, Slice};
use vkg_sparql::{Key, Query};

/// ORDER BY, DISTINCT, OFFSET and LIMIT of a query.
pub fn modifiers_of(alloc: Global, query: &Query) -> Result<Modifiers, Memory>
    ensures { IfOk result (λ m. m ≡ modifiers_of_query (query_seen query.now)) }
{
    let directions = directions_of(alloc, query.keys.as_slice())?;
    Ok(Modifiers {
        directions,
        distinct: query.distinct,
        slice: Slice {
            offset: query.slice.offset,
            limit: query.slice.limit,
        },
    })
}

/// The direction of each key.
fn directions_of(alloc: Global, keys: &[Key]) -> Result<Items<Direction>, Memory>
    ensures { IfOk result (λ ds. ds ≡ map direction_of_key (map key_seen keys.now)) }
{
    let mut directions = Items::new(alloc);
    for key in keys {
        directions.push(direction_of(key.descends))?;
    }
    Ok(directions)
}

fn direction_of(descends: bool) -> Direction
    ensures { result ≡ (if descends then Descending else Ascending) }
{
    if descends {
        Direction::Descending
    } else {
        Direction::Ascending
    }
}
