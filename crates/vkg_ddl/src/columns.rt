// Columns that are found by a table of their names.
ghost use Rattle.std.specs.Prelude.{◌≡◌, ◌++◌, ◌∷◌, [], ℕ, List, IfOk, OnOk, false, find, slice_get, string_bytes, if◌then◌else◌};
ghost use Rattle.std.specs.Option.{option_map_or};
ghost use Rattle.std.specs.Str.{bytes_eq, str_to_ascii_lowercase};
ghost use Rattle.vkg_hash.specs.Groups.{group};
ghost use Rattle.vkg_ddl.specs.Index.{IsIndexOf};
ghost use Rattle.vkg_ddl.specs.NameChecks.{column_place, matches};

use crate::matching::{column_place, matches};
use crate::name::Name;
use crate::written::WrittenColumn;
use std::alloc::Global;
use std::collections::HashMap;
use std::hash::{DefaultHasher, Hasher};
use std::marker::Model;
use vkg_base::Memory;
use vkg_hash::{Groups, Seed, numbers_of, put};

/// Columns as they are written, with a table of their names. It is seen as the list of the columns. Where no memory was
/// left for the table, a name is looked for from the first column on.
#[derive(Drop)]
pub struct Columns<'a> {
    alloc: Global,
    columns: &'a [WrittenColumn],
    places: Option<Groups>,
}

impl<'a> Model for Columns<'a> {
    ghost use Rattle.std.specs.Prelude.{List, IfSome};
    ghost use Rattle.vkg_ddl.specs.declared.written.WrittenColumn.{WrittenColumn};
    ghost use Rattle.vkg_ddl.specs.Index.{IsIndexOf};

    ghost Value = { List WrittenColumn };

    ghost view = { λ c. c.columns.now };

    ghost invariant = { λ c. IfSome c.places (IsIndexOf c.columns.now) };
}

impl<'a> Columns<'a> {
    /// The columns, in their order.
    pub fn new(alloc: Global, columns: &'a [WrittenColumn]) -> Columns<'a>
        ensures { result ≡ columns.now }
    {
        match places_of(alloc, columns) {
            Ok(places) => Columns {
                alloc,
                columns,
                places: Some(places),
            },
            Err(_) => Columns::plain(alloc, columns),
        }
    }

    /// The same, without a table of their names.
    pub fn plain(alloc: Global, columns: &'a [WrittenColumn]) -> Columns<'a>
        ensures { result ≡ columns.now }
    {
        Columns {
            alloc,
            columns,
            places: None,
        }
    }

    /// The columns, in their order.
    pub fn as_slice(&self) -> &'a [WrittenColumn]
        ensures { result.now ≡ self.now }
    {
        self.columns
    }

    /// The place of the first column that has the name.
    pub fn place(&self, n: &Name) -> Option<usize>
        ensures { result ≡ column_place self.now n.now }
    {
        let Some(places) = &self.places else {
            return column_place(self.columns, n);
        };
        match folded(self.alloc, n) {
            Ok(key) => first_of(self.columns, numbers_of(places, key.as_str()), n),
            Err(_) => column_place(self.columns, n),
        }
    }
}

fn folded(alloc: Global, n: &Name) -> Result<String, Memory>
    ensures { IfOk result (λ t. string_bytes t ≡ str_to_ascii_lowercase n.now.text) }
{
    Ok(n.text.as_str().to_ascii_lowercase(alloc)?)
}

// A seed by all names.
fn seed_of(columns: &[WrittenColumn]) -> Seed {
    let mut hasher = DefaultHasher::new();
    for column in columns {
        hasher.write(column.name.text.as_str().as_bytes());
    }
    Seed::new(hasher.finish())
}

// The places of the columns, by their names in small letters.
fn places_of(alloc: Global, columns: &[WrittenColumn]) -> Result<Groups, Memory>
    ensures { IfOk result (λ index. IsIndexOf columns.now index) }
{
    let mut index = HashMap::with_hasher(alloc, seed_of(columns));
    for (k, column) in columns.iter().enumerate() {
        add(alloc, &mut index, &column.name, k)?;
    }
    Ok(index)
}

fn add(alloc: Global, index: &mut Groups, name: &Name, k: usize) -> Result<(), Memory>
    ensures { OnOk result ((q : List ℕ) → group index.new q ≡ group index.old q ++ (if bytes_eq q (str_to_ascii_lowercase name.now.text) then k ∷ [] else [])) }
{
    let key = folded(alloc, name)?;
    put(index, key, k)
}

fn is_match(columns: &[WrittenColumn], place: usize, n: &Name) -> bool
    ensures { result ≡ option_map_or (λ c. matches n.now c.name) (slice_get columns.now place) false }
{
    match columns.get(place) {
        None => false,
        Some(c) => matches(n, &c.name),
    }
}

// The first of these places whose column has the name.
fn first_of(columns: &[WrittenColumn], places: &[usize], n: &Name) -> Option<usize>
    ensures { result ≡ find (λ k. option_map_or (λ c. matches n.now c.name) (slice_get columns.now k) false) places.now }
{
    places.iter().copied().find(|k| is_match(columns, *k, n))
}
