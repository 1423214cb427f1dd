ghost use Rattle.vkg_grammar.specs.Laws.{CertificatesHold, HaveOneOutcome, TextsHaveTrees, TreesFollowRules};

/// A law, which does nothing: rules with a certificate are a grammar and are LL(1). So a language whose rules
/// and claims are written out needs no `check_ll1` when it runs.
pub fn certificates_hold()
    ensures { CertificatesHold }
{}

/// A law, which does nothing: of text, `TooDeep`, `Dead` and `Ended`, with their places, at most one holds of a
/// list of tokens.
pub fn tokens_have_one_outcome()
    ensures { HaveOneOutcome }
{}

/// A law, which does nothing: a tree stands for a symbol exactly where it is made as the symbol's rule says. What
/// reads a value off a tree knows by it which forms a tree can have.
pub fn trees_follow_rules()
    ensures { TreesFollowRules }
{}

/// A law, which does nothing: tokens have a tree exactly where the rules derive them. So what `parse_tree` gives and what
/// it refuses are told apart by one notion of a text.
pub fn texts_have_trees()
    ensures { TextsHaveTrees }
{}
