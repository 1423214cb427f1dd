ghost use Rattle.std.specs.Prelude.{◌≡◌, ◌∷◌, ◌↔◌, IsTrue, List, ℕ, false};
ghost use Rattle.vkg_terms.specs.Name.{closes, is_name as name, IsDelimited};

/// Whether a text names a table or a column: what begins with a quote is a whole delimited identifier
/// (SQL-92, 5.2), every other text that is not empty is a name.
pub fn is_name(text: &str) -> bool
    ensures value { result ≡ name text.now }
    ensures delimited { (rest : List ℕ) → text.now ≡ 34 ∷ rest → (IsTrue result ↔ IsDelimited rest) }
{
    names_something(text.as_bytes())
}

// The same, octet by octet.
fn names_something(text: &[u8]) -> bool
    ensures { result ≡ name text.now }
{
    match text {
        [] => false,
        [b'"', rest @ ..] => is_closed(rest),
        _ => true,
    }
}

/// Whether the rest of a delimited identifier is not empty and ends at its quote.
fn is_closed(text: &[u8]) -> bool
    ensures { result ≡ closes false text.now }
{
    let mut rest = text;
    let mut some = false;
    while let Some((first, more)) = rest.split_first() {
        if *first != b'"' {
            some = true;
            rest = more;
            continue;
        }
        let Some((second, after)) = more.split_first() else {
            return some;
        };
        if *second != b'"' {
            return false;
        }
        some = true;
        rest = after;
    }
    false
}
