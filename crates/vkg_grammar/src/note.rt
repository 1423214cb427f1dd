ghost use Rattle.std.specs.Prelude.{◌≡◌, slice_get, unwrap_or};

/// How a symbol is made.
#[derive(Clone, Copy, Debug, PartialEq, Eq)]
pub enum Act {
    /// Of a token.
    Leaf,
    /// Of nothing: an option that is absent, the end of a repetition, or an empty rule.
    Nothing,
    /// Of one symbol and then another; in a repetition of an item and the repetition again.
    Pair,
    /// Of the first of two ways, or of an option that is present.
    First,
    /// Of the second of two ways.
    Second,
}

/// A symbol of a derivation, and how it is made.
#[derive(Clone, Copy, Debug, PartialEq, Eq)]
pub struct Note {
    pub symbol: usize,
    pub act: Act,
}

/// What a symbol means by a table of meanings, and `other` where the table has no meaning of it.
pub fn role_in<R: Copy>(roles: &[R], symbol: usize, other: R) -> R
    ensures { result ≡ unwrap_or (slice_get roles.now symbol) other }
{
    match roles.get(symbol) {
        None => other,
        Some(role) => *role,
    }
}
