ghost use Rattle.std.specs.Prelude.{◌≡◌, ◌<◌, ◌++◌, option_map, Some, [], IfOk, OnOk};
ghost use Rattle.std.specs.Option.{option_copied};
ghost use Rattle.vkg_grammar.specs.Forest.{tree, node_count};
ghost use Rattle.vkg_terms.specs.Resolve.{resolve};
ghost use Rattle.vkg_sparql.specs.Environment.{iri_of, iri_text, based, begun, relative_or, with_base, with_prefix, declaration, declarations, environment_of, body_start};

use crate::lexeme::Lexeme;
use crate::meaning::first_token;
use std::alloc::Global;
use std::mem;
use vkg_base::{Memory, Text, at as lexeme_at, earlier};
use vkg_grammar::{Forest, Node};
use vkg_hash::Seed;
use vkg_terms::is_absolute;
use vkg_turtle::{Base, Prefixes, Word, iri_named, or_empty, prefix_of};

/// What a query's IRIs are read against: the base and the prefixes, with the place of the first IRI of the prologue that is
/// not absolute.
#[derive(Drop)]
pub struct Environment {
    pub base: Base,
    pub prefixes: Prefixes,
    pub relative: Option<usize>,
}

fn relative_or(before: Option<usize>, iri: &str, at: usize) -> Option<usize>
    ensures { result ≡ relative_or before iri.now at }
{
    if is_absolute(iri) {
        before
    } else {
        earlier(before, at)
    }
}

impl Environment {
    fn new(alloc: Global, base: &str, seed: Seed) -> Result<Environment, Memory>
        ensures { IfOk result (λ e. e ≡ begun base.now) }
    {
        Ok(Environment {
            base: Base::new(alloc, base)?,
            prefixes: Prefixes::new(alloc, seed),
            relative: None,
        })
    }

    /// The IRI of a reference or of a name, if its prefix is declared.
    pub fn iri_of(&self, alloc: Global, word: &Word) -> Result<Option<Text>, Memory>
        ensures { IfOk result (λ o. o ≡ iri_of self.now word.now) }
    {
        iri_named(alloc, word, self.base.as_str(), &self.prefixes)
    }

    /// The same, or no bytes.
    pub fn iri_text(&self, alloc: Global, word: &Word) -> Result<Text, Memory>
        ensures { IfOk result (λ t. t ≡ iri_text self.now word.now) }
    {
        or_empty(alloc, self.iri_of(alloc, word)?)
    }

    // The base is moved by a reference, in place where that is plain.
    fn move_base(&mut self, alloc: Global, reference: &str, at: usize) -> Result<(), Memory>
        ensures { OnOk result (self.new ≡ based self.old (resolve self.old.base reference.now) at) }
    {
        let base = mem::replace(&mut self.base, Base::empty(alloc));
        self.base = base.moved(alloc, reference)?;
        if !self.base.is_absolute() {
            self.relative = earlier(self.relative, at);
        }
        Ok(())
    }

    fn put_base(&mut self, alloc: Global, lexeme: &Lexeme) -> Result<(), Memory>
        ensures { OnOk result (self.new ≡ with_base self.old (Some lexeme.now)) }
    {
        let iri = self.iri_text(alloc, &lexeme.word)?;
        self.relative = relative_or(self.relative, iri.as_str(), lexeme.at);
        self.base = Base::new(alloc, iri.as_str())?;
        Ok(())
    }

    fn set_base(&mut self, alloc: Global, lexeme: Option<&Lexeme>) -> Result<(), Memory>
        ensures { OnOk result (self.new ≡ with_base self.old (option_copied lexeme.entry)) }
    {
        let Some(lexeme) = lexeme else {
            return Ok(());
        };
        match &lexeme.word {
            Word::Reference(text) => self.move_base(alloc, text.as_str(), lexeme.at),
            _ => self.put_base(alloc, lexeme),
        }
    }

    fn declare(&mut self, alloc: Global, name: &Lexeme, lexeme: &Lexeme) -> Result<(), Memory>
        ensures { OnOk result (self.new ≡ with_prefix self.old (Some name.now) (Some lexeme.now)) }
    {
        let prefix = prefix_of(alloc, &name.word)?;
        let iri = self.iri_text(alloc, &lexeme.word)?;
        self.relative = relative_or(self.relative, iri.as_str(), lexeme.at);
        self.prefixes.declare(alloc, prefix.as_str(), iri)
    }

    fn set_prefix(
        &mut self,
        alloc: Global,
        name: Option<&Lexeme>,
        lexeme: Option<&Lexeme>,
    ) -> Result<(), Memory>
        ensures { OnOk result (self.new ≡ with_prefix self.old (option_copied name.entry) (option_copied lexeme.entry)) }
    {
        match (name, lexeme) {
            (Some(name), Some(lexeme)) => self.declare(alloc, name, lexeme),
            _ => Ok(()),
        }
    }

    // BASE IRIREF | PREFIX PNAME_NS IRIREF
    fn read_declaration(
        &mut self,
        alloc: Global,
        lexemes: &[Lexeme],
        forest: &Forest,
        at: usize,
    ) -> Result<(), Memory>
        requires { at < node_count forest.now }
        ensures { OnOk result (self.new ≡ declaration lexemes.now self.old (tree forest.now at)) }
    {
        match forest.node(at) {
            Node::First(step) => {
                let Node::Pair(_, iri) = forest.node(step) else {
                    return Ok(());
                };
                self.set_base(alloc, lexeme_at(lexemes, first_token(forest, iri)))
            }
            Node::Second(step) => {
                let Node::Pair(_, rest) = forest.node(step) else {
                    return Ok(());
                };
                let Node::Pair(name, iri) = forest.node(rest) else {
                    return Ok(());
                };
                let name = lexeme_at(lexemes, first_token(forest, name));
                self.set_prefix(alloc, name, lexeme_at(lexemes, first_token(forest, iri)))
            }
            _ => Ok(()),
        }
    }

    // { declaration }
    fn read_declarations(
        &mut self,
        alloc: Global,
        lexemes: &[Lexeme],
        forest: &Forest,
        at: usize,
    ) -> Result<(), Memory>
        requires { at < node_count forest.now }
        ensures { OnOk result (self.new ≡ declarations lexemes.now self.old (tree forest.now at)) }
    {
        let mut rest = at;
        while let Node::Pair(step, more) = forest.node(rest) {
            self.read_declaration(alloc, lexemes, forest, step)?;
            rest = more;
        }
        Ok(())
    }
}

/// What the prologue of a query declares.
pub fn environment_of(
    alloc: Global,
    seed: Seed,
    lexemes: &[Lexeme],
    base: &str,
    forest: &Forest,
    at: usize,
) -> Result<Environment, Memory>
    requires { at < node_count forest.now }
    ensures { IfOk result (λ e. e ≡ environment_of lexemes.now base.now (tree forest.now at)) }
{
    let mut environment = Environment::new(alloc, base, seed)?;
    let Node::Pair(prologue, _) = forest.node(at) else {
        return Ok(environment);
    };
    environment.read_declarations(alloc, lexemes, forest, prologue)?;
    Ok(environment)
}

/// The number of the token behind the prologue.
pub fn body_start(forest: &Forest, at: usize) -> usize
    requires { at < node_count forest.now }
    ensures { result ≡ body_start (tree forest.now at) }
{
    match forest.node(at) {
        Node::Pair(_, rest) => first_token(forest, rest),
        _ => 0,
    }
}
