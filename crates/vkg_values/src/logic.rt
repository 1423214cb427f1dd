// Kleene's logic: `None` is the third value.
ghost use Rattle.std.specs.Prelude.{◌≡◌};
ghost use Rattle.vkg_values.specs.Logic.{and3, not3, or3};

/// `!` (SPARQL 1.1 Query, 17.3); an error stays one.
pub fn negation(a: Option<bool>) -> Option<bool>
    ensures { result ≡ not3 a }
{
    match a {
        Some(truth) => Some(!truth),
        None => None,
    }
}

/// `&&` (SPARQL 1.1 Query, 17.2): false where one side is, else an error where one side is.
pub fn conjunction(a: Option<bool>, b: Option<bool>) -> Option<bool>
    ensures { result ≡ and3 a b }
{
    match (a, b) {
        (Some(false), _) => Some(false),
        (Some(true), b) => b,
        (None, Some(false)) => Some(false),
        (None, _) => None,
    }
}

/// `||` (SPARQL 1.1 Query, 17.2): true where one side is, else an error where one side is.
pub fn disjunction(a: Option<bool>, b: Option<bool>) -> Option<bool>
    ensures { result ≡ or3 a b }
{
    match (a, b) {
        (Some(true), _) => Some(true),
        (Some(false), b) => b,
        (None, Some(true)) => Some(true),
        (None, _) => None,
    }
}
