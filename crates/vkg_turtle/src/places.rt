// What is known of the text of a base.
ghost use Rattle.std.specs.Prelude.{◌≡◌, ◌<◌, ◌≤◌, ◌+◌, ◌^◌, IfOk, if◌then◌else◌, length, not, nat_lt};
ghost use Rattle.std.specs.List.{position, position_or_len};
ghost use Rattle.vkg_terms.specs.Iri.{is_iri_character as iri_character};
ghost use Rattle.vkg_turtle.specs.Fronts.{AreKnown, iri_length};

use crate::front::{front_end, has_scheme};
use crate::path::{before_fragment, before_query};
use std::alloc::Global;
use vkg_base::Memory;

/// The places at which the text of a base can be cut.
#[derive(Clone, Copy)]
pub(crate) struct Places {
    pub(crate) has_scheme: bool,
    /// Behind the last slash of its path, if it has a scheme and no dot segment among its directories.
    pub(crate) front: Option<usize>,
    /// The end of its path.
    pub(crate) path: usize,
    /// The end of its query.
    pub(crate) query: usize,
    /// The first byte that may not stand in an IRI, or the end.
    pub(crate) iri: usize,
}

fn is_iri_character(b: u8) -> bool
    ensures { result ≡ iri_character b }
{
    !(b <= 0x20)
        && !(b == b'<'
            || b == b'>'
            || b == b'"'
            || b == b'{'
            || b == b'}'
            || b == b'|'
            || b == b'^'
            || b == b'`'
            || b == b'\\')
}

fn find_outside(text: &[u8]) -> Option<usize>
    ensures { result ≡ position (λ b. not (iri_character b)) text.now }
{
    text.iter().position(|b| !is_iri_character(*b))
}

#[tactic(auto, using(vkg_lists::proofs::Positions::places))]
pub(crate) fn iri_length(text: &str) -> usize
    ensures value { result ≡ iri_length text.now }
    ensures within { result ≤ length text.now }
{
    match find_outside(text.as_bytes()) {
        Some(at) => at,
        None => text.len(),
    }
}

pub(crate) fn places_of(alloc: Global, text: &str) -> Result<Places, Memory>
    ensures { IfOk result (AreKnown text.now) }
{
    let has_scheme = has_scheme(alloc, text)?;
    let front = front_end(alloc, text)?;
    Ok(Places {
        has_scheme,
        front,
        path: before_query(text).len(),
        query: before_fragment(text).len(),
        iri: iri_length(text),
    })
}

impl Places {
    /// The first byte outside of IRIs once the text is cut off and another stands there.
    pub(crate) fn iri_behind(&self, at: usize, tail: &str) -> usize
        requires { at + length tail.now < 2 ^ 63 }
        ensures { result ≡ (if nat_lt self.now.iri at then self.now.iri else at + iri_length tail.now) }
    {
        if self.iri < at {
            self.iri
        } else {
            at + iri_length(tail)
        }
    }
}
