ghost use Rattle.std.specs.Prelude.{◌≡◌, [], ◌∷◌, ◌++◌, false, length, option_map, position, if◌then◌else◌, string_bytes, IfOk, OnOk};
ghost use Rattle.std.specs.List.{list_any};
ghost use Rattle.std.specs.Str.{bytes_eq};
ghost use Rattle.vkg_sparql.specs.Lexemes.{key_of, label_key, name_of, place_of_more, with_new_key, with_key, named_of, number_in};

use crate::lexeme::Lexeme;
use indexmap::IndexSet;
use itoa::Buffer;
use std::alloc::Global;
use std::marker::Model;
use vkg_base::{Items, Memory, Text};
use vkg_hash::Seed;
use vkg_tokens::sparql_kinds as kinds;
use vkg_turtle::Word;

/// Texts in the order in which they first came, each once. A contract sees their list.
#[derive(Drop)]
pub struct Names {
    texts: IndexSet<String, Seed>,
}

impl Model for Names {
    ghost use Rattle.std.specs.Prelude.{List, ℕ, map, string_bytes};

    ghost Value = { List (List ℕ) };

    ghost view = { λ n. map string_bytes n.texts.keys };
}

impl Names {
    /// No texts. They will be found by hashes of this seed.
    pub fn new(alloc: Global, seed: Seed) -> Names
        ensures { result ≡ [] }
    {
        Names {
            texts: IndexSet::with_hasher(alloc, seed),
        }
    }

    /// How many texts there are.
    pub fn len(&self) -> usize
        ensures { result ≡ length self.now }
    {
        self.texts.len()
    }

    /// The text's number, if it has one.
    pub fn find(&self, text: &str) -> Option<usize>
        ensures { result ≡ position (bytes_eq text.now) self.now }
    {
        self.texts.get_index_of(text)
    }

    /// Whether the text is there.
    pub fn contains(&self, text: &str) -> bool
        ensures { result ≡ list_any (bytes_eq text.now) self.now }
    {
        self.texts.contains(text)
    }

    /// Adds a text behind those that are there; one that is there stays.
    pub fn add(&mut self, text: String) -> Result<(), Memory>
        ensures { OnOk result (self.new ≡ (if list_any (bytes_eq (string_bytes text)) self.old then self.old else self.old ++ string_bytes text ∷ [])) }
    {
        self.texts.insert_full(text)?;
        Ok(())
    }
}

/// The variables and blank nodes of a query: what tells each from the others, its name, and the place of the 257th.
#[derive(Drop)]
pub struct Named {
    pub keys: Names,
    pub names: Items<Text>,
    pub over: Option<usize>,
}

// What tells a variable or a blank node from the others.
pub fn key_of(alloc: Global, lexeme: &Lexeme) -> Result<Option<String>, Memory>
    ensures { IfOk result (λ key. option_map string_bytes key ≡ key_of lexeme.now) }
{
    if lexeme.kind == kinds::OPEN_BRACKET {
        let mut buffer = Buffer::new();
        let mut key = String::from_str(alloc, "[")?;
        key.push_str(buffer.format(lexeme.at))?;
        return Ok(Some(key));
    }
    label_key(alloc, lexeme.kind, &lexeme.word)
}

fn label_key(alloc: Global, kind: usize, word: &Word) -> Result<Option<String>, Memory>
    ensures { IfOk result (λ key. option_map string_bytes key ≡ label_key kind word.now) }
{
    let Word::Label(name) = word else {
        return Ok(None);
    };
    let mut key = String::from_str(alloc, if kind == kinds::VAR { "?" } else { "_:" })?;
    key.push_str(name.as_str())?;
    Ok(Some(key))
}

fn name_of(alloc: Global, word: &Word) -> Result<Text, Memory>
    ensures { IfOk result (λ t. t ≡ name_of word.now) }
{
    match word {
        Word::Label(name) => name.copy(),
        _ => Text::new(alloc, ""),
    }
}

fn place_of_more(named: &Named, at: usize) -> Option<usize>
    ensures { result ≡ place_of_more named.now at }
{
    if named.keys.len() == 256 {
        Some(at)
    } else {
        named.over
    }
}

impl Named {
    fn add_new(&mut self, alloc: Global, key: String, lexeme: &Lexeme) -> Result<(), Memory>
        requires { list_any (bytes_eq (string_bytes key)) self.old.keys ≡ false }
        ensures { OnOk result (self.new ≡ with_new_key self.old (string_bytes key) lexeme.now) }
    {
        let over = place_of_more(self, lexeme.at);
        let name = name_of(alloc, &lexeme.word)?;
        self.keys.add(key)?;
        self.names.push(name)?;
        self.over = over;
        Ok(())
    }

    fn add(&mut self, alloc: Global, lexeme: &Lexeme) -> Result<(), Memory>
        ensures { OnOk result (self.new ≡ with_key self.old (key_of lexeme.now) lexeme.now) }
    {
        let Some(key) = key_of(alloc, lexeme)? else {
            return Ok(());
        };
        if self.keys.contains(key.as_str()) {
            return Ok(());
        }
        self.add_new(alloc, key, lexeme)
    }
}

/// The variables and blank nodes of these tokens, each where it first stands.
pub fn named_of(alloc: Global, seed: Seed, lexemes: &[Lexeme]) -> Result<Named, Memory>
    ensures { IfOk result (λ named. named ≡ named_of lexemes.now) }
{
    let mut named = Named {
        keys: Names::new(alloc, seed),
        names: Items::new(alloc),
        over: None,
    };
    for lexeme in lexemes {
        named.add(alloc, lexeme)?;
    }
    Ok(named)
}

/// The number of what a token names, or 0.
pub fn number_in(alloc: Global, keys: &Names, lexeme: &Lexeme) -> Result<usize, Memory>
    ensures { IfOk result (λ n. n ≡ number_in keys.now (key_of lexeme.now)) }
{
    match key_of(alloc, lexeme)? {
        None => Ok(0),
        Some(key) => Ok(keys.find(key.as_str()).unwrap_or(0)),
    }
}
