ghost use Rattle.std.specs.Prelude.{◌≡◌, ◌++◌, ◌≤◌, [], IfOk, Some, codes, length, nat_eq, string_bytes, take, true, false};
ghost use Rattle.std.specs.List.{starts_with};
ghost use Rattle.vkg_terms.specs.Iri.{is_absolute as absolute};
ghost use Rattle.vkg_terms.specs.Resolve.{resolve as resolved};
ghost use Rattle.vkg_turtle.specs.Fronts.{AreKnown, IsPlain, before_query};

use crate::front::plain_end;
use crate::path::{before_fragment, before_query};
use crate::places::{Places, places_of};
use std::alloc::Global;
use std::marker::Model;
use vkg_base::Memory;
use vkg_terms::resolve;

/// The base of a text (RFC 3986, 5.1), which references in it move.
///
/// A reference that begins with a path without dot segments is put behind the directories of the base in place, and so is one
/// without a path behind the path or the query of the base: in time of its own length, however long the base has become. Any
/// other is resolved against the whole base.
#[derive(Drop)]
pub struct Base {
    text: String,
    places: Places,
}

impl Model for Base {
    ghost use Rattle.std.specs.Prelude.{List, ℕ, string_bytes};
    ghost use Rattle.vkg_turtle.specs.Fronts.{AreKnown};

    ghost Value = { List ℕ };

    ghost view = { λ b. string_bytes b.text };

    ghost invariant = { λ b. AreKnown (string_bytes b.text) b.places };
}

/// The base of a text.
fn of_string(alloc: Global, text: String) -> Result<Base, Memory>
    ensures { IfOk result (λ b. b ≡ string_bytes text) }
{
    let places = places_of(alloc, text.as_str())?;
    Ok(Base { text, places })
}

fn resolved(alloc: Global, base: &str, reference: &str) -> Result<Base, Memory>
    ensures { IfOk result (λ b. b ≡ resolved base.now reference.now) }
{
    of_string(alloc, resolve(alloc, base, reference)?)
}

/// A plain reference behind the front, which ends there and grows by so much.
fn put_path(
    text: String,
    places: Places,
    front: usize,
    reference: &str,
    end: usize,
) -> Result<Base, Memory>
    requires known { AreKnown (string_bytes text) places }
    requires front { places.front ≡ Some front }
    requires plain { IsPlain reference.now end }
    ensures { IfOk result (λ b. b ≡ resolved (string_bytes text) reference.now) }
{
    let mut text = text;
    text.truncate(front);
    text.push_str(reference)?;
    let places = Places {
        has_scheme: true,
        front: Some(front + end),
        path: front + before_query(reference).len(),
        query: front + before_fragment(reference).len(),
        iri: places.iri_behind(front, reference),
    };
    Ok(Base { text, places })
}

/// A reference that begins with a query, behind the path.
fn put_query(text: String, places: Places, reference: &str) -> Result<Base, Memory>
    requires known { AreKnown (string_bytes text) places }
    requires scheme { places.has_scheme ≡ true }
    requires empty { before_query reference.now ≡ [] }
    requires query { starts_with nat_eq reference.now (codes "?") ≡ true }
    ensures { IfOk result (λ b. b ≡ resolved (string_bytes text) reference.now) }
{
    let mut text = text;
    text.truncate(places.path);
    text.push_str(reference)?;
    let places = Places {
        query: places.path + before_fragment(reference).len(),
        iri: places.iri_behind(places.path, reference),
        ..places
    };
    Ok(Base { text, places })
}

/// A reference that is empty or begins with a fragment, behind the query.
fn put_fragment(text: String, places: Places, reference: &str) -> Result<Base, Memory>
    requires known { AreKnown (string_bytes text) places }
    requires scheme { places.has_scheme ≡ true }
    requires empty { before_query reference.now ≡ [] }
    requires fragment { starts_with nat_eq reference.now (codes "?") ≡ false }
    ensures { IfOk result (λ b. b ≡ resolved (string_bytes text) reference.now) }
{
    let mut text = text;
    text.truncate(places.query);
    text.push_str(reference)?;
    let places = Places {
        iri: places.iri_behind(places.query, reference),
        ..places
    };
    Ok(Base { text, places })
}

fn put_empty(text: String, places: Places, reference: &str) -> Result<Base, Memory>
    requires known { AreKnown (string_bytes text) places }
    requires scheme { places.has_scheme ≡ true }
    requires empty { before_query reference.now ≡ [] }
    ensures { IfOk result (λ b. b ≡ resolved (string_bytes text) reference.now) }
{
    if reference.starts_with('?') {
        return put_query(text, places, reference);
    }
    put_fragment(text, places, reference)
}

fn moved_by_path(
    alloc: Global,
    text: String,
    places: Places,
    reference: &str,
) -> Result<Base, Memory>
    requires { AreKnown (string_bytes text) places }
    ensures { IfOk result (λ b. b ≡ resolved (string_bytes text) reference.now) }
{
    let Some(front) = places.front else {
        return resolved(alloc, text.as_str(), reference);
    };
    match plain_end(alloc, reference)? {
        Some(end) => put_path(text, places, front, reference, end),
        None => resolved(alloc, text.as_str(), reference),
    }
}

impl Base {
    /// No bytes.
    pub fn empty(alloc: Global) -> Base
        ensures { result ≡ [] }
    {
        let places = Places {
            has_scheme: false,
            front: None,
            path: 0,
            query: 0,
            iri: 0,
        };
        Base {
            text: String::new(alloc),
            places,
        }
    }

    /// The base that a text is.
    pub fn new(alloc: Global, text: &str) -> Result<Base, Memory>
        ensures { IfOk result (λ b. b ≡ text.now) }
    {
        of_string(alloc, String::from_str(alloc, text)?)
    }

    /// The base as a `str`.
    pub fn as_str(&self) -> &str
        ensures { result.now ≡ self.now }
    {
        self.text.as_str()
    }

    /// Whether it is an absolute IRI.
    pub fn is_absolute(&self) -> bool
        ensures { result ≡ absolute self.now }
    {
        self.places.has_scheme && self.places.iri == self.text.len()
    }

    /// What a reference stands for against this base, as the next base.
    pub fn moved(self, alloc: Global, reference: &str) -> Result<Base, Memory>
        ensures { IfOk result (λ b. b ≡ resolved self reference.now) }
    {
        let Base { text, places } = self;
        if places.has_scheme && before_query(reference).is_empty() {
            return put_empty(text, places, reference);
        }
        moved_by_path(alloc, text, places, reference)
    }
}
