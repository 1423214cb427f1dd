ghost use Rattle.std.specs.Prelude.{◌≡◌, ℕ, List, []};
ghost use Rattle.vkg_terms.specs.Resolve.{remove_dots};
ghost use Rattle.vkg_laws.specs.RemoveDots.{remove_dot_segments};

/// A law, which does nothing: the routine that removes dot segments by an input buffer and an output buffer (RFC 3986,
/// 5.2.4) ends of every path with the input empty, and its output is what `resolve` makes of the path by its segments.
pub fn dot_segments_are_removed()
    ensures ends { (path : List ℕ) → (remove_dot_segments path).input ≡ [] }
    ensures value { (path : List ℕ) → (remove_dot_segments path).output ≡ remove_dots path }
{}
