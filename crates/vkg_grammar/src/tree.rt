ghost use Rattle.std.specs.Prelude.{◌<◌, IfOk, IfErr, OnOk};
ghost use Rattle.vkg_grammar.specs.Forest.{tree, node_count};
ghost use Rattle.vkg_grammar.specs.Form.{IsShallow};
ghost use Rattle.vkg_grammar.specs.Grammar.{IsLL1};
ghost use Rattle.vkg_grammar.specs.Kinds.{kinds_of, AreBelow};
ghost use Rattle.vkg_grammar.specs.OneTree.{IsTheTree};
ghost use Rattle.vkg_grammar.specs.Parsing.{Fails};

use crate::building::build;
use crate::forest::Forest;
use crate::grammar::Grammar;
use crate::parsing::{ParseFault, parse};
use std::alloc::Global;
use vkg_tokens::Token;

/// A forest, and the number of a text's tree in it.
#[derive(Drop)]
pub struct Parsed {
    pub forest: Forest,
    pub root: usize,
}

/// The one tree of the tokens, or the fault that `parse` names. Asked of what `parse` is asked of.
pub fn parse_tree(alloc: Global, grammar: &Grammar, tokens: &[Token]) -> Result<Parsed, ParseFault>
    requires ll1 { IsLL1 grammar.now.rules }
    requires kinds { AreBelow grammar.now.kinds tokens.now }
    ensures shallow { OnOk result (IsShallow grammar.now (kinds_of tokens.now)) }
    ensures tree { IfOk result (λ p. IsTheTree grammar.now.rules (kinds_of tokens.now) (tree p.forest p.root)) }
    ensures root { IfOk result (λ p. p.root < node_count p.forest) }
    ensures fails { IfErr result (Fails grammar.now (kinds_of tokens.now)) }
{
    let notes = parse(alloc, grammar, tokens)?;
    let built = build(alloc, &notes, tokens.len())?;
    let root = built.stack[0];
    Ok(Parsed {
        forest: built.forest,
        root,
    })
}
