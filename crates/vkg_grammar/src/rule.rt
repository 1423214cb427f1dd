/// What a symbol is made of. Symbols are numbers of rules.
#[derive(Clone, Copy)]
pub enum Rule {
    /// One token of this kind.
    Token(usize),
    /// Nothing.
    Empty,
    /// One symbol, then another.
    Then(usize, usize),
    /// Either of two symbols.
    Either(usize, usize),
    /// A symbol or nothing.
    Optional(usize),
    /// A symbol any number of times.
    Repeated(usize),
}
