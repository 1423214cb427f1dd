// Places, and the least of them.
ghost use Rattle.std.specs.Prelude.{◌≡◌};
ghost use Rattle.vkg_lists.specs.Places.{lesser as lesser_of, earlier as earlier_of, place_if as place_where};

/// The lesser of two places, where there are any.
pub fn lesser(a: Option<usize>, b: Option<usize>) -> Option<usize>
    ensures { result ≡ lesser_of a b }
{
    match (a, b) {
        (None, b) => b,
        (Some(a), None) => Some(a),
        (Some(a), Some(b)) => Some(a.min(b)),
    }
}

/// The place that was noted first.
pub fn earlier(first: Option<usize>, at: usize) -> Option<usize>
    ensures { result ≡ earlier_of first at }
{
    match first {
        Some(first) => Some(first),
        None => Some(at),
    }
}

/// The place, if the test fails there.
pub fn place_if(fails: bool, at: usize) -> Option<usize>
    ensures { result ≡ place_where fails at }
{
    if fails { Some(at) } else { None }
}
