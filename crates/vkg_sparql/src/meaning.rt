ghost use Rattle.std.specs.Prelude.{◌≡◌, ◌<◌, IfOk, unwrap_or};
ghost use Rattle.vkg_grammar.specs.Forest.{tree, node_count};
ghost use Rattle.vkg_sparql.specs.Meanings.{first_token, meaning_at, node_of, number_of, variable_if, term_if, operand_of, compare_of, applied, applied_to_two, pattern_of, name_of};

use crate::condition::Condition;
use crate::pattern::{GraphName, Node, TriplePattern};
use std::alloc::Global;
use vkg_base::{Box, Memory, Text, at};
use vkg_grammar::{Forest, Node as Made};
use vkg_terms::Term;
use vkg_values::{Compare, Take, Test};

/// What a token of a query stands for.
#[derive(Drop)]
pub enum Meaning {
    /// A sign or a word at which the grammar alone looks.
    Mark,
    /// A variable, by its number.
    Variable(usize),
    /// A blank node label or a `[`, by its number.
    Label(usize),
    /// An IRI, or the literal that begins here.
    Fixed(Term),
    Compare(Compare),
    Test(Test),
    Take(Take),
}

/// A triple pattern, by the numbers of the tokens at which its subject, its predicate and its object begin.
#[derive(Clone, Copy)]
pub struct TripleTokens {
    pub subject: usize,
    pub predicate: usize,
    pub object: usize,
}

/// The number of the first token of a tree, or 0.
pub fn first_token(forest: &Forest, at: usize) -> usize
    requires { at < node_count forest.now }
    ensures { result ≡ first_token (tree forest.now at) }
{
    let mut rest = at;
    loop {
        match forest.node(rest) {
            Made::Leaf(token) => return token,
            Made::Nothing => return 0,
            Made::Pair(a, _) => rest = a,
            Made::First(a) => rest = a,
            Made::Second(a) => rest = a,
        }
    }
}

/// The place of a pattern that a token stands for.
pub fn node_of(meanings: &[Meaning], token: usize) -> Result<Node, Memory>
    ensures { IfOk result (λ n. n ≡ node_of (meaning_at meanings.now token)) }
{
    match at(meanings, token) {
        Some(Meaning::Variable(number)) => Ok(Node::Variable(*number)),
        Some(Meaning::Label(number)) => Ok(Node::Label(*number)),
        Some(Meaning::Fixed(term)) => Ok(Node::Fixed(term.copy()?)),
        _ => Ok(Node::Label(0)),
    }
}

/// The number of the variable that a token is, if it is one.
pub fn variable_if(meanings: &[Meaning], token: usize) -> Option<usize>
    ensures { result ≡ variable_if (meaning_at meanings.now token) }
{
    match at(meanings, token) {
        Some(Meaning::Variable(number)) => Some(*number),
        _ => None,
    }
}

/// The term that a token stands for, if it stands for one: UNDEF does not.
pub fn term_if(meanings: &[Meaning], token: usize) -> Result<Option<Term>, Memory>
    ensures { IfOk result (λ t. t ≡ term_if (meaning_at meanings.now token)) }
{
    match at(meanings, token) {
        Some(Meaning::Fixed(term)) => Ok(Some(term.copy()?)),
        _ => Ok(None),
    }
}

/// The number of a variable.
pub fn number_of(meanings: &[Meaning], token: usize) -> usize
    ensures { result ≡ number_of (meaning_at meanings.now token) }
{
    match at(meanings, token) {
        Some(Meaning::Variable(number)) => *number,
        _ => 0,
    }
}

/// The expression that a token is.
pub fn operand_of(meanings: &[Meaning], token: usize) -> Result<Condition, Memory>
    ensures { IfOk result (λ c. c ≡ operand_of (meaning_at meanings.now token)) }
{
    match at(meanings, token) {
        Some(Meaning::Variable(number)) => Ok(Condition::Variable(*number)),
        Some(Meaning::Fixed(term)) => Ok(Condition::Constant(term.copy()?)),
        _ => Ok(Condition::Variable(0)),
    }
}

/// The comparison that a sign stands for.
pub fn compare_of(meanings: &[Meaning], token: usize) -> Compare
    ensures { result ≡ compare_of (meaning_at meanings.now token) }
{
    match at(meanings, token) {
        Some(Meaning::Compare(compare)) => *compare,
        _ => Compare::Equal,
    }
}

/// The call of a word that takes one argument.
pub fn applied(meanings: &[Meaning], token: usize, argument: Box<Condition>) -> Condition
    ensures { result ≡ applied (meaning_at meanings.now token) argument }
{
    match at(meanings, token) {
        Some(Meaning::Test(test)) => Condition::Test(*test, argument),
        Some(Meaning::Take(take)) => Condition::Take(*take, argument),
        _ => Condition::Not(argument),
    }
}

/// The call of a word that takes two: STRSTARTS, STRENDS or CONTAINS, or else sameTerm.
pub fn applied_to_two(
    meanings: &[Meaning],
    token: usize,
    a: Box<Condition>,
    b: Box<Condition>,
) -> Condition
    ensures { result ≡ applied_to_two (meaning_at meanings.now token) a b }
{
    match at(meanings, token) {
        Some(Meaning::Compare(compare)) => Condition::Compare(*compare, a, b),
        _ => Condition::SameTerm(a, b),
    }
}

/// The pattern whose parts begin at these tokens.
pub fn pattern_of(meanings: &[Meaning], triple: TripleTokens) -> Result<TriplePattern, Memory>
    ensures { IfOk result (λ p. p ≡ pattern_of meanings.now triple) }
{
    let subject = node_of(meanings, triple.subject)?;
    let predicate = node_of(meanings, triple.predicate)?;
    let object = node_of(meanings, triple.object)?;
    Ok(TriplePattern {
        subject,
        predicate,
        object,
    })
}

/// What stands behind GRAPH.
pub fn name_of(alloc: Global, meanings: &[Meaning], token: usize) -> Result<GraphName, Memory>
    ensures { IfOk result (λ n. n ≡ name_of (meaning_at meanings.now token)) }
{
    match at(meanings, token) {
        Some(Meaning::Variable(number)) => Ok(GraphName::Each(*number)),
        Some(Meaning::Fixed(Term::Iri(iri))) => Ok(GraphName::Named(iri.copy()?)),
        _ => Ok(GraphName::Named(Text::new(alloc, "")?)),
    }
}
