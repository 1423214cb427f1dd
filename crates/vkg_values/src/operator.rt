/// What an operator asks of one term (SPARQL 1.1 Query, 17.4.2); it gives a truth.
#[derive(Clone, Copy, Debug, PartialEq)]
pub enum Test {
    IsIri,
    IsBlank,
    IsLiteral,
    IsNumeric,
}

/// What an operator takes from one term (SPARQL 1.1 Query, 17.4.2 and 17.4.3.2); it gives a term.
#[derive(Clone, Copy, Debug, PartialEq)]
pub enum Take {
    Str,
    Lang,
    Datatype,
    /// STRLEN.
    Length,
}

/// What an operator asks of two terms (SPARQL 1.1 Query, 17.3 and 17.4.3); it gives a truth.
#[derive(Clone, Copy, Debug, PartialEq)]
pub enum Compare {
    Equal,
    NotEqual,
    Less,
    Greater,
    LessOrEqual,
    GreaterOrEqual,
    /// STRSTARTS.
    Starts,
    /// STRENDS.
    Ends,
    /// CONTAINS.
    Contains,
}
