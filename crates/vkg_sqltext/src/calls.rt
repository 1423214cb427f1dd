// The texts of calls, from the texts of their arguments.
ghost use Rattle.std.specs.Prelude.{◌≡◌, ◌∷◌, ◌++◌, [], IfOk, IsOkAnd, codes};
ghost use Rattle.vkg_sqltext.specs.Text.{call as call_text, lit_arguments, quoted as quoted_text};

use crate::lists::{call, quoted};
use std::alloc::Global;
use vkg_base::{Items, Memory, Text};
use vkg_terms::Annotation;

pub fn call_one(alloc: Global, name: &str, a: Result<Text, Memory>) -> Result<Text, Memory>
    ensures { IfOk result (λ t. IsOkAnd a (λ x. t ≡ call_text name.now (x ∷ []))) }
{
    let mut arguments = Items::new(alloc);
    arguments.push(a?)?;
    call(alloc, name, arguments.as_slice())
}

pub fn call_two(
    alloc: Global,
    name: &str,
    a: Result<Text, Memory>,
    b: Result<Text, Memory>,
) -> Result<Text, Memory>
    ensures { IfOk result (λ t. IsOkAnd a (λ x. IsOkAnd b (λ y. t ≡ call_text name.now (x ∷ y ∷ [])))) }
{
    let mut arguments = Items::new(alloc);
    arguments.push(a?)?;
    arguments.push(b?)?;
    call(alloc, name, arguments.as_slice())
}

pub fn call_list(
    alloc: Global,
    name: &str,
    list: Result<Items<Text>, Memory>,
) -> Result<Text, Memory>
    ensures { IfOk result (λ t. IsOkAnd list (λ xs. t ≡ call_text name.now xs)) }
{
    call(alloc, name, list?.as_slice())
}

pub fn call_literal(
    alloc: Global,
    a: Result<Text, Memory>,
    annotation: &Annotation,
) -> Result<Text, Memory>
    ensures { IfOk result (λ t. IsOkAnd a (λ x. t ≡ call_text (codes "LIT") (lit_arguments x annotation.now))) }
{
    match annotation {
        Annotation::Plain => call_one(alloc, "LIT", a),
        Annotation::Lang(tag) => call_two(alloc, "LIT", a, marked(alloc, "@", tag.as_str())),
        Annotation::Typed(datatype) => {
            call_two(
                alloc,
                "LIT",
                a,
                marked(alloc, "^^", datatype.iri().as_str()),
            )
        }
    }
}

/// A mark and a text, within quotes.
fn marked(alloc: Global, mark: &str, text: &str) -> Result<Text, Memory>
    ensures { IfOk result (λ t. t ≡ quoted_text (mark.now ++ text.now)) }
{
    let mut whole = String::from_str(alloc, mark)?;
    whole.push_str(text)?;
    quoted(alloc, whole.as_str())
}
