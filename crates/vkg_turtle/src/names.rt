// The IRIs that references and prefixed names stand for.
ghost use Rattle.std.specs.Prelude.{◌≡◌, ◌++◌, IfOk, option_map};
ghost use Rattle.std.specs.Option.{option_copied};
ghost use Rattle.vkg_turtle.specs.Document.{iri_named as named, prefix_of};

use crate::lexeme::Word;
use crate::prefixes::Prefixes;
use std::alloc::Global;
use vkg_base::{Memory, Text};
use vkg_terms::resolve;

/// The IRI of a reference against a base, or of a name whose prefix is declared (RDF 1.1 Turtle, 6.3 and 7.2).
pub fn iri_named(
    alloc: Global,
    word: &Word,
    base: &str,
    prefixes: &Prefixes,
) -> Result<Option<Text>, Memory>
    ensures { IfOk result (λ o. o ≡ named word.now base.now prefixes.now) }
{
    match word {
        Word::Reference(text) => {
            let iri = resolve(alloc, base, text.as_str())?;
            Ok(Some(Text::from_string(iri)))
        }
        Word::Name(prefix, local) => joined(alloc, prefixes.namespace(prefix.as_str()), local),
        _ => Ok(None),
    }
}

// What a prefix stands for, and a local part.
fn joined(alloc: Global, namespace: Option<&Text>, local: &Text) -> Result<Option<Text>, Memory>
    ensures { IfOk result (λ o. o ≡ option_map (λ iri. iri ++ local.now) (option_copied namespace.entry)) }
{
    let Some(namespace) = namespace else {
        return Ok(None);
    };
    let mut iri = String::from_str(alloc, namespace.as_str())?;
    iri.push_str(local.as_str())?;
    Ok(Some(Text::from_string(iri)))
}

/// The prefix of a name.
pub fn prefix_of(alloc: Global, word: &Word) -> Result<Text, Memory>
    ensures { IfOk result (λ t. t ≡ prefix_of word.now) }
{
    match word {
        Word::Name(prefix, _) => prefix.copy(),
        _ => Text::new(alloc, ""),
    }
}
