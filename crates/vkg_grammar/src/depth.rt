ghost use Rattle.std.specs.Prelude.{MatchOption};
ghost use Rattle.vkg_grammar.specs.Form.{IsTooDeep, IsShallow};
ghost use Rattle.vkg_grammar.specs.Kinds.{kinds_of};

use crate::grammar::Grammar;
use vkg_tokens::Token;

// The first token behind which more brackets are open than the grammar allows.
pub(crate) fn first_too_deep(grammar: &Grammar, tokens: &[Token]) -> Option<usize>
    ensures { MatchOption result (IsShallow grammar.now (kinds_of tokens.now))
        (λ n. IsTooDeep grammar.now (kinds_of tokens.now) n) }
{
    let mut depth = 0;
    for (index, token) in tokens.iter().enumerate() {
        depth = grammar.deepened(depth, token.kind);
        if !grammar.allows(depth) {
            return Some(index);
        }
    }
    None
}
