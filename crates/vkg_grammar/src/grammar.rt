ghost use Rattle.std.specs.Prelude.{◌≡◌, ◌+◌, ◌<◌, ◌^◌, [], Some, None};
ghost use Rattle.vkg_grammar.specs.Form.{Form, IsWellFormed, deepened as deepened_lem, allows as allows_lem};

use crate::rule::Rule;
use std::marker::Model;

/// A grammar: the rules of its symbols, of which the first makes the texts, and how many brackets may be open at once in a text.
#[derive(Drop)]
pub struct Grammar<'a> {
    rules: &'a [Rule],
    kinds: usize,
    openers: &'a [usize],
    closers: &'a [usize],
    limit: Option<usize>,
}

impl<'a> Model for Grammar<'a> {
    ghost use Rattle.vkg_grammar.specs.Form.{Form, IsWellFormed};

    ghost Value = { Form };

    ghost view = { λ g. record {
      rules = g.rules.now;
      kinds = g.kinds;
      openers = g.openers.now;
      closers = g.closers.now;
      limit = g.limit;
    } };

    ghost invariant = { λ g. IsWellFormed g.rules.now g.kinds };
}

impl<'a> Grammar<'a> {
    /// The grammar with these rules, whose tokens are of kinds below `kinds`. Brackets may be open without a limit.
    pub fn new(rules: &'a [Rule], kinds: usize) -> Grammar<'a>
        requires { IsWellFormed rules.now kinds }
        ensures { result ≡ record {
          rules = rules.now;
          kinds = kinds;
          openers = [];
          closers = [];
          limit = None;
        } }
    {
        Grammar {
            rules,
            kinds,
            openers: &[],
            closers: &[],
            limit: None,
        }
    }

    /// The grammar with these rules, in whose texts at most `limit` brackets are open at once. A bracket is opened by a token
    /// of a kind among `openers` and closed by one of a kind among `closers`.
    pub fn with_limit(
        rules: &'a [Rule],
        kinds: usize,
        openers: &'a [usize],
        closers: &'a [usize],
        limit: usize,
    ) -> Grammar<'a>
        requires { IsWellFormed rules.now kinds }
        ensures { result ≡ record {
          rules = rules.now;
          kinds = kinds;
          openers = openers.now;
          closers = closers.now;
          limit = Some limit;
        } }
    {
        Grammar {
            rules,
            kinds,
            openers,
            closers,
            limit: Some(limit),
        }
    }

    /// The rules of the symbols.
    pub fn rules(&self) -> &[Rule]
        ensures rules { result.now ≡ self.now.rules }
        ensures form { IsWellFormed self.now.rules self.now.kinds }
    {
        self.rules
    }

    // The columns of the parser's table: one for the end, and one for each kind.
    pub(crate) fn width(&self) -> usize
        ensures { result ≡ self.now.kinds + 1 }
    {
        self.kinds + 1
    }

    // How many brackets are open behind a token of this kind.
    #[tactic(auto, unfolding(crate::specs::Form::deepened))]
    pub(crate) fn deepened(&self, depth: usize, kind: usize) -> usize
        requires { depth + 1 < 2 ^ 64 }
        ensures { result ≡ deepened_lem self.now depth kind }
    {
        if self.openers.contains(&kind) {
            depth + 1
        } else if self.closers.contains(&kind) {
            depth.saturating_sub(1)
        } else {
            depth
        }
    }

    // Whether so many brackets may be open.
    pub(crate) fn allows(&self, depth: usize) -> bool
        ensures { result ≡ allows_lem self.now.limit depth }
    {
        match self.limit {
            None => true,
            Some(limit) => depth <= limit,
        }
    }
}
