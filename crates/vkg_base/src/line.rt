ghost use Rattle.std.specs.Prelude.{◌≡◌, ◌++◌, [], ◌∷◌, Some, refl, IfOk, bytes_eq, string_bytes};
ghost use Rattle.std.specs.Cmp.{partial_equiv_from_equiv};
ghost use Rattle.std.specs.Cmp.Lexicographic.{slice_cmp, nat_list_eq_equiv, nat_list_cmp_total, texts_ties, texts_po};
ghost use Rattle.std.specs.Ordering.{nat_cmp};

use crate::Memory;
use std::cmp::Ordering;
use std::marker::Model;

/// A line of text that is stored with its line feed and seen, compared and ordered without it.
#[derive(Drop)]
pub struct Line {
    bytes: String,
}

impl Model for Line {
    ghost use Rattle.std.specs.Prelude.{◌≡◌, List, ℕ, ◌++◌, [], ◌∷◌, string_bytes};
    ghost use Rattle.vkg_base.specs.Written.{text_of};

    ghost Value = { List ℕ };

    ghost view = { λ l. text_of (string_bytes l.bytes) };

    ghost invariant = { λ l. string_bytes l.bytes ≡ text_of (string_bytes l.bytes) ++ 10 ∷ [] };
}

impl Line {
    /// The line of this text.
    pub fn new(mut text: String) -> Result<Line, Memory>
        ensures { IfOk result (λ line. line ≡ string_bytes text) }
    {
        text.push('\n')?;
        Ok(Line { bytes: text })
    }

    /// The text and its line feed.
    pub fn as_bytes(&self) -> &[u8]
        ensures { result.now ≡ self.now ++ 10 ∷ [] }
    {
        self.bytes.as_bytes()
    }

    /// The text without its line feed.
    pub fn text(&self) -> &[u8]
        ensures { result.now ≡ self.now }
    {
        let bytes = self.bytes.as_bytes();
        &bytes[..bytes.len() - 1]
    }
}

impl PartialEq for Line {
    ghost eq = { λ a b. bytes_eq a b };

    ghost laws = { partial_equiv_from_equiv nat_list_eq_equiv };

    fn eq(&self, other: &Line) -> bool {
        self.text() == other.text()
    }
}

impl Eq for Line {
    ghost laws = { nat_list_eq_equiv };
}

impl PartialOrd for Line {
    ghost partial_cmp = { λ a b. Some (slice_cmp nat_cmp a b) };

    ghost laws = { texts_po };

    fn partial_cmp(&self, other: &Line) -> Option<Ordering> {
        Some(self.cmp(other))
    }
}

impl Ord for Line {
    ghost cmp = { λ a b. slice_cmp nat_cmp a b };

    ghost total = { nat_list_cmp_total };

    ghost matches_partial_cmp = { λ a b. refl };

    ghost matches_eq = { λ a b. texts_ties a b };

    fn cmp(&self, other: &Line) -> Ordering {
        self.text().cmp(other.text())
    }
}
