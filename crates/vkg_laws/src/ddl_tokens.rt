ghost use Rattle.vkg_laws.specs.DdlTokens.{AreProductions};

/// A law, which does nothing: the automaton by which a text of the data definition language is cut takes exactly what the
/// productions make, a word, an integer, a delimited identifier or one of the four signs, each with its class, and nothing
/// else. A word is a keyword exactly where it is spelled as one, whatever the case of its letters.
pub fn ddl_tokens_are_productions()
    ensures { AreProductions }
{}
