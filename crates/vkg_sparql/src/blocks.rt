ghost use Rattle.std.specs.Prelude.{◌≡◌, position, OnOk, IfOk};
ghost use Rattle.std.specs.Str.{bytes_eq};
ghost use Rattle.vkg_sparql.specs.Checks.{is_here, with_found, with_label, ends_block, block_step, label_again};

use crate::lexeme::Lexeme;
use crate::names::Names;
use std::alloc::Global;
use vkg_base::{Items, Memory, earlier};
use vkg_hash::Seed;
use vkg_tokens::sparql_kinds as kinds;
use vkg_turtle::Word;

/// The blank node labels of a query, each with the last brace or BIND before its first use; the last brace or BIND; and the first use
/// of a label in a second basic graph pattern.
#[derive(Drop)]
pub struct Blocks {
    pub labels: Names,
    pub braces: Items<usize>,
    pub brace: usize,
    pub again: Option<usize>,
}

fn ends_block(kind: usize) -> bool
    ensures { result ≡ ends_block kind }
{
    kind == kinds::OPEN_BRACE || kind == kinds::CLOSE_BRACE || kind == kinds::BIND
}

impl Blocks {
    fn is_here(&self, brace: Option<usize>) -> bool
        ensures { result ≡ is_here self.now brace }
    {
        match brace {
            Some(brace) => brace == self.brace,
            None => false,
        }
    }

    fn meet(
        &mut self,
        alloc: Global,
        at: usize,
        label: &str,
        found: Option<usize>,
    ) -> Result<(), Memory>
        ensures { OnOk result (self.new ≡ with_found self.old at label.now found) }
    {
        match found {
            None => {
                self.labels.add(String::from_str(alloc, label)?)?;
                self.braces.push(self.brace)
            }
            Some(number) => {
                let brace = self.braces.get(number).copied();
                if !self.is_here(brace) {
                    self.again = earlier(self.again, at);
                }
                Ok(())
            }
        }
    }

    fn meet_word(&mut self, alloc: Global, at: usize, word: &Word) -> Result<(), Memory>
        ensures { OnOk result (self.new ≡ with_label self.old at word.now) }
    {
        match word {
            Word::Label(label) => {
                let found = self.labels.find(label.as_str());
                self.meet(alloc, at, label.as_str(), found)
            }
            _ => Ok(()),
        }
    }

    fn step(&mut self, alloc: Global, lexeme: &Lexeme) -> Result<(), Memory>
        ensures { OnOk result (self.new ≡ block_step self.old lexeme.now) }
    {
        if ends_block(lexeme.kind) {
            self.brace = lexeme.at;
            Ok(())
        } else if lexeme.kind == kinds::BLANK {
            self.meet_word(alloc, lexeme.at, &lexeme.word)
        } else {
            Ok(())
        }
    }
}

/// The first use of a blank node label in a second basic graph pattern.
pub fn label_again(alloc: Global, seed: Seed, lexemes: &[Lexeme]) -> Result<Option<usize>, Memory>
    ensures { IfOk result (λ at. at ≡ label_again lexemes.now) }
{
    let mut blocks = Blocks {
        labels: Names::new(alloc, seed),
        braces: Items::new(alloc),
        brace: 0,
        again: None,
    };
    for lexeme in lexemes {
        blocks.step(alloc, lexeme)?;
    }
    Ok(blocks.again)
}
