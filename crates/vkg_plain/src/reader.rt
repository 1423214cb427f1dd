// The quads of a text (RDF 1.1 N-Quads, 2 to 4), in the very form in which `dump` writes them.
ghost use Rattle.std.specs.Prelude.{◌≡◌, ◌<◌, ◌≤◌, List, length, IfErr, IfOk, map, string_bytes};
ghost use Rattle.std.specs.List.{All};
ghost use Rattle.vkg_base.specs.Written.{written};
ghost use Rattle.vkg_terms.specs.NQuads.{Quad as TermQuad, line as line_of_quad};
ghost use Rattle.vkg_terms.specs.Writable.{IsWritableQuad};
ghost use Rattle.vkg_plain.specs.Reading.{Gives, IsHeldQuad, ReadsGraph, ReadsQuad};

use crate::quad::Quad;
use crate::read_fault::ReadFault;
use crate::term_reader::term;
use std::alloc::Global;
use vkg_base::{Items, Memory};
use vkg_terms::{Term, quad_line};

/// The quads whose lines a text is, one after another. Among the quads whose parts hold only what may stand in them, no others
/// have these lines; and a text is a fault only where it is the lines of none of those, so that `dump` writes no such text.
pub fn read_quads(alloc: Global, text: &str) -> Result<Items<Quad>, ReadFault>
    ensures lines { IfOk result (λ quads. written (map line_of_quad quads) ≡ text.now) }
    ensures no_others { IfOk result (λ found. (quads : List TermQuad) → All IsWritableQuad quads → All IsHeldQuad quads → written (map line_of_quad quads) ≡ text.now → quads ≡ found) }
    ensures no_quads { IfErr result (λ fault. fault ≡ ReadFault.NoQuads → (quads : List TermQuad) → All IsWritableQuad quads → All IsHeldQuad quads → written (map line_of_quad quads) ≡ text.now → ⊥) }
{
    let quads = found_quads(alloc, text)?;
    let again = text_of(alloc, quads.as_slice())?;
    if again.as_str() == text {
        Ok(quads)
    } else {
        Err(ReadFault::NoQuads)
    }
}

/// The lines of quads, one after another.
fn text_of(alloc: Global, quads: &[Quad]) -> Result<String, Memory>
    ensures { IfOk result (λ s. string_bytes s ≡ written (map line_of_quad quads.now)) }
{
    let mut out = String::new(alloc);
    for quad in quads {
        let line = line_of(alloc, quad)?;
        out.push_str(line.as_str())?;
        out.push_str("\n")?;
    }
    Ok(out)
}

fn line_of(alloc: Global, quad: &Quad) -> Result<String, Memory>
    ensures { IfOk result (λ s. string_bytes s ≡ line_of_quad quad.now) }
{
    let graph = quad.graph().as_ref();
    quad_line(
        alloc,
        quad.subject(),
        quad.predicate(),
        quad.object(),
        graph,
    )
}

/// What each line seems to say.
fn found_quads(alloc: Global, text: &str) -> Result<Items<Quad>, ReadFault>
    ensures { (quads : List TermQuad) → All IsWritableQuad quads → All IsHeldQuad quads → text.now ≡ written (map line_of_quad quads) → Gives result quads }
{
    let mut quads = Items::new(alloc);
    let mut rest = text;
    while !rest.is_empty() {
        let (quad, behind) = found_quad(alloc, rest)?;
        quads.push(quad)?;
        rest = behind;
    }
    Ok(quads)
}

/// What the first line seems to say, and what stands behind it.
fn found_quad(alloc: Global, text: &str) -> Result<(Quad, &str), ReadFault>
    ensures value { ReadsQuad text.now result }
    ensures shorter { IfOk result (λ p. length p.1.now < length text.now) }
{
    let (subject, text) = term(alloc, text)?;
    let (predicate, text) = term(alloc, text)?;
    let (object, text) = term(alloc, text)?;
    let (graph, text) = graph(alloc, text)?;
    Ok((Quad::new(subject, predicate, object, graph), text))
}

/// The name of a graph, if there is one, and what stands behind the line.
fn graph(alloc: Global, text: &str) -> Result<(Option<Term>, &str), ReadFault>
    ensures value { ReadsGraph text.now result }
    ensures shorter { IfOk result (λ p. length p.1.now ≤ length text.now) }
{
    if let Some(rest) = text.strip_prefix(".\n") {
        return Ok((None, rest));
    }
    let (name, text) = term(alloc, text)?;
    let Some(rest) = text.strip_prefix(".\n") else {
        return Err(ReadFault::NoQuads);
    };
    Ok((Some(name), rest))
}
