ghost use Rattle.std.specs.Prelude.{◌≡◌, IfOk, IfErr};
ghost use Rattle.vkg_turtle.specs.Reading.{IsDocumentOf, IsDocumentText, Fails, TextFails, IsDetermined, fault, fault_of};
ghost use Rattle.vkg_turtle.specs.declared.reading.TurtleError.TheVariants.{Fault, Memory as OutOfMemory};

use crate::bad_place::first_bad;
use crate::document::Document;
use crate::parsing::read_document;
use crate::repeats::without_repeats;
use crate::triple::Triple;
use std::alloc::Global;
use std::{mem, str};
use thiserror::Error;
use vkg_base::{Items, Memory};
use vkg_tokens::{Lang, without_mark};

/// The first fault of a document: the number of its check, and the byte at which it stands, counted behind a byte
/// order mark.
#[derive(Clone, Copy, Debug, PartialEq, Eq)]
pub struct TurtleFault {
    pub check: u8,
    pub at: usize,
}

/// Why bytes are no document.
#[derive(Clone, Copy, Debug, PartialEq, Eq, Error)]
pub enum TurtleError {
    #[error("check {check} fails at byte {at}", check = .0.check, at = .0.at)]
    Fault(TurtleFault),
    #[error("want of memory")]
    Memory,
}

impl From<Memory> for TurtleError {
    ghost from_gives = { λ _ e. e ≡ OutOfMemory };

    fn from(_: Memory) -> TurtleError {
        TurtleError::Memory
    }
}

pub(crate) fn fault(check: u8, at: usize) -> TurtleError
    ensures { result ≡ Fault (fault check at) }
{
    TurtleError::Fault(TurtleFault { check, at })
}

fn fault_of(document: &Document) -> Option<TurtleFault>
    ensures { result ≡ fault_of document.now }
{
    match (document.unknown, document.relative) {
        (Some(at), _) => Some(TurtleFault { check: 4, at }),
        (None, Some(at)) => Some(TurtleFault { check: 5, at }),
        (None, None) => None,
    }
}

fn read_text(alloc: Global, bytes: &[u8], base: &str) -> Result<Items<Triple>, TurtleError>
    ensures ok { IfOk result (IsDocumentText bytes.now base.now) }
    ensures err { IfErr result (TextFails bytes.now base.now) }
{
    let text = match str::from_utf8(bytes) {
        Ok(text) => text,
        Err(_) => return Err(fault(1, first_bad(alloc, Lang::Turtle, bytes)?)),
    };
    let document = read_document(alloc, text, base)?;
    if let Some(found) = fault_of(&document) {
        mem::drop(document);
        return Err(TurtleError::Fault(found));
    }
    let triples = triples_of(alloc, document);
    Ok(without_repeats(alloc, triples)?)
}

/// The triples of a document, the rest of which is let go. By a call: a drop at the end of a scope is written out there, with that
/// of each kind of term in it.
fn triples_of(alloc: Global, document: Document) -> Items<Triple>
    ensures { result ≡ document.triples }
{
    let mut document = document;
    let triples = mem::replace(&mut document.triples, Items::new(alloc));
    mem::drop(document);
    triples
}

/// The triples of a document (RDF 1.1 Turtle), whose IRI references are resolved against `base` where it gives no other.
///
/// They stand in the order in which their objects begin, a repeated triple once. One byte order mark at the front is
/// passed over. Collections are no part of the grammar, and at most 64 brackets may be open at once.
///
/// Faults, the first of which is named: 1, the least place at which no token begins or the bytes are no UTF-8; 3, the bracket that
/// makes depth 65; 2, the first token that no document goes on with, or the length of a text that ends too early; 4, a
/// name whose prefix is not declared; 5, an IRI that is not absolute.
pub fn read_turtle(alloc: Global, bytes: &[u8], base: &str) -> Result<Items<Triple>, TurtleError>
    ensures ok { IfOk result (λ triples. IsDocumentOf bytes.now base.now triples) }
    ensures err { IfErr result (Fails bytes.now base.now) }
{
    read_text(alloc, without_mark(bytes), base)
}

/// What `read_turtle` answers is determined by the bytes and the base, but for want of memory.
pub fn is_determined()
    ensures { IsDetermined }
{}
