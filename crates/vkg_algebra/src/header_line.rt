// The first line of an answer (SPARQL 1.1 Query Results CSV and TSV Formats, 4).
ghost use Rattle.std.specs.Prelude.{◌≡◌, IfOk, map, slice_get, string_bytes};
ghost use Rattle.std.specs.Option.{option_copied};
ghost use Rattle.vkg_sparql.specs.Seen.{query_seen};
ghost use Rattle.vkg_algebra.specs.Answer.{header as header_of, variable_text as text_of_variable};

use crate::selected::selected_variables;
use crate::tabs::tabbed;
use crate::translation::translate;
use std::alloc::Global;
use vkg_base::{Items, Memory, Text, at};
use vkg_sparql::Query;

/// The selected variables, with tabs between them.
pub fn header(alloc: Global, query: &Query) -> Result<String, Memory>
    ensures { IfOk result (λ s. string_bytes s ≡ header_of (query_seen query.now)) }
{
    let algebra = translate(alloc, query)?;
    let variables = selected_variables(alloc, query, &algebra)?;
    let texts = variable_texts(alloc, query.names.as_slice(), variables.as_slice())?;
    tabbed(alloc, texts.as_slice())
}

fn variable_texts(alloc: Global, names: &[Text], variables: &[usize]) -> Result<Items<Text>, Memory>
    ensures { IfOk result (λ ts. ts ≡ map (λ v. text_of_variable (slice_get names.now v)) variables.now) }
{
    let mut texts = Items::new(alloc);
    for variable in variables {
        texts.push(variable_text(alloc, at(names, *variable))?)?;
    }
    Ok(texts)
}

/// A variable with its question mark.
fn variable_text(alloc: Global, name: Option<&Text>) -> Result<Text, Memory>
    ensures { IfOk result (λ t. t ≡ text_of_variable (option_copied name.entry)) }
{
    match name {
        None => Text::new(alloc, ""),
        Some(name) => {
            let mut out = String::from_str(alloc, "?")?;
            out.push_str(name.as_str())?;
            Ok(Text::from_string(out))
        }
    }
}
