ghost use Rattle.std.specs.Prelude.{◌≡◌, ◌++◌, IfOk, IsTrue, OnOk, string_bytes};
ghost use Rattle.std.specs.Option.{option_copied};
ghost use Rattle.std.specs.List.{list_all};
ghost use Rattle.vkg_terms.specs.NQuads.{line, graph_text, quad_of};
ghost use Rattle.vkg_terms.specs.Writable.{IsOnlyQuad, IsWritableQuad, is_inline};

use crate::term::Term;
use crate::text_of::push_term;
use std::alloc::Global;
use vkg_base::Memory;

/// The line of a quad without its line feed (N-Quads, 4, statement). No graph is the default graph.
/// No two quads whose parts hold only what may stand in them have one line, and their lines hold no line feed and no
/// carriage return.
pub fn quad_line(
    alloc: Global,
    subject: &Term,
    predicate: &Term,
    object: &Term,
    graph: Option<&Term>,
) -> Result<String, Memory>
    ensures value { IfOk result (λ s. string_bytes s ≡ line (quad_of subject.now predicate.now object.now graph.entry)) }
    ensures one_to_one { IfOk result (λ s. IsOnlyQuad (quad_of subject.now predicate.now object.now graph.entry) (string_bytes s)) }
    ensures one_line { IfOk result (λ s. IsWritableQuad (quad_of subject.now predicate.now object.now graph.entry) → IsTrue (list_all is_inline (string_bytes s))) }
{
    let mut out = String::new(alloc);
    push_term(&mut out, subject)?;
    out.push(' ')?;
    push_term(&mut out, predicate)?;
    out.push(' ')?;
    push_term(&mut out, object)?;
    push_graph(&mut out, graph)?;
    out.push_str(" .")?;
    Ok(out)
}

fn push_graph(out: &mut String, graph: Option<&Term>) -> Result<(), Memory>
    ensures { OnOk result (string_bytes out.new ≡ string_bytes out.old ++ graph_text (option_copied graph.entry)) }
{
    match graph {
        None => Ok(()),
        Some(name) => {
            out.push(' ')?;
            push_term(out, name)
        }
    }
}
