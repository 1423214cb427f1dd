ghost use Rattle.std.specs.Prelude.{◌≡◌};
ghost use Rattle.vkg_order.specs.Kept.{has_room as has_room_of, is_within as is_within_of};

use vkg_base::Items;

/// Whether a key's values ascend or descend (SPARQL 1.1, 15.1).
#[derive(Clone, Copy, Debug, Drop, PartialEq, Eq)]
pub enum Direction {
    Ascending,
    Descending,
}

/// Which of the lines are asked: those behind the first `offset`, and at most `limit` of them (SPARQL 1.1, 15.4 and 15.5).
#[derive(Clone, Copy, Debug, Drop, PartialEq, Eq)]
pub struct Slice {
    pub offset: u32,
    pub limit: Option<u32>,
}

impl Slice {
    /// Whether one entry more than so many can have a line in the slice.
    pub(crate) fn has_room(&self, count: usize) -> bool
        ensures { result ≡ has_room_of self.now count }
    {
        match self.limit {
            None => true,
            Some(limit) => (count as u64) < self.offset as u64 + limit as u64,
        }
    }

    /// Whether so many entries can have lines in the slice.
    pub(crate) fn is_within(&self, count: usize) -> bool
        ensures { result ≡ is_within_of self.now count }
    {
        match self.limit {
            None => true,
            Some(limit) => count as u64 <= self.offset as u64 + limit as u64,
        }
    }
}

/// What a query asks of its answer's list (SPARQL 1.1, 15).
#[derive(Drop)]
pub struct Modifiers {
    /// The direction of each key.
    pub directions: Items<Direction>,
    /// Whether each line is asked once (15.3).
    pub distinct: bool,
    pub slice: Slice,
}
