// What checks make of a part of a mapping.
ghost use Rattle.std.specs.Prelude.{◌≡◌, min};
ghost use Rattle.std.specs.Result.{result_err};
ghost use Rattle.vkg_lists.specs.Results.{unless as unless_of};
ghost use Rattle.vkg_lists.specs.Places.{lesser as lesser_of};
ghost use Rattle.vkg_r2rml.specs.Checked.{both as both_of};

/// The value of a part, or the number of the least check that fails.
pub type Checked<T> = Result<T, u8>;

/// The lesser of two checks, where any fails.
pub fn lesser(a: Option<u8>, b: Option<u8>) -> Option<u8>
    ensures { result ≡ lesser_of a b }
{
    match (a, b) {
        (None, b) => b,
        (Some(a), None) => Some(a),
        (Some(a), Some(b)) => Some(a.min(b)),
    }
}

/// The least check of a part that fails.
pub fn fault_of<A: Drop>(part: Checked<A>) -> Option<u8>
    ensures { result ≡ result_err part }
{
    match part {
        Ok(_) => None,
        Err(check) => Some(check),
    }
}

/// Two parts whose checks do not need each other.
pub fn both<A: Drop, B: Drop>(a: Checked<A>, b: Checked<B>) -> Checked<(A, B)>
    ensures { result ≡ both_of a b }
{
    match (a, b) {
        (Ok(a), Ok(b)) => Ok((a, b)),
        (Ok(_), Err(d)) => Err(d),
        (Err(c), Ok(_)) => Err(c),
        (Err(c), Err(d)) => Err(c.min(d)),
    }
}

/// A value, unless a check fails.
pub fn unless<A: Drop>(fault: Option<u8>, a: A) -> Checked<A>
    ensures { result ≡ unless_of fault (Ok a) }
{
    match fault {
        None => Ok(a),
        Some(check) => Err(check),
    }
}
