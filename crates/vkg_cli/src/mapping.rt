// The mapping: the direct one, or that of a file.
ghost use Rattle.std.specs.Prelude.{◌≡◌, [], ◌∷◌, IfErr, IfOk, None, false, option_map, true};
ghost use Rattle.vkg_terms.specs.Iri.{is_absolute};
ghost use Rattle.vkg_direct.specs.Laws.{GivesDirectGraph, MakesEachTerm};
ghost use Rattle.vkg_maps.specs.Within.{IsWithin};
ghost use Rattle.vkg_cli.specs.Stages.{Answers, AsksThese, Ran, listed};
ghost use Rattle.vkg_cli.specs.Work.{IsNumbered, LoadsMapping, LoadsText, MapsDirectly, MapsTriples, ReadsTriples, is_of_query, is_of_tables};

use crate::load::load_file;
use crate::{Fault, Stop};
use std::alloc::Global;
use vkg_base::{Items, Store};
use vkg_direct::{DirectError, direct};
use vkg_maps::Mapping;
use vkg_r2rml::{MapError, read_mapping};
use vkg_schema::Schema;
use vkg_tables::MOST_BYTES;
use vkg_turtle::{Triple, TurtleError, read_turtle};

/// The direct mapping of the schema.
#[tactic(auto, unfolding(crate::specs::Work::MapsDirectly))]
fn direct_mapping(alloc: Global, schema: &Schema, base: &str) -> Result<Mapping, Stop>
    requires { is_absolute base.now ≡ true }
    ensures maps { Answers (MapsDirectly schema.now base.now) result }
    ensures graph { IfOk result (GivesDirectGraph schema.now base.now) }
    ensures faultless { IfOk result (MakesEachTerm schema.now) }
    ensures within { IfOk result (IsWithin schema.now) }
    ensures kind { IfErr result (λ why. (is_of_query why ≡ false) × (is_of_tables why ≡ false)) }
    ensures numbered { IfErr result IsNumbered }
{
    let _tables = schema.tables();
    match direct(alloc, schema, base) {
        Ok(mapping) => Ok(mapping),
        Err(DirectError::NoPrimaryKey(table)) => Err(Stop::Refused(Fault::Keyless { table })),
        Err(DirectError::TooManyRules) => Err(Stop::Refused(Fault::Mapping { check: 22, at: 0 })),
        Err(DirectError::Memory) => Err(Stop::Memory),
    }
}

/// The triples of a file's bytes.
#[tactic(auto, unfolding(crate::specs::Work::ReadsTriples), using(crate::proofs::Numbers::turtle_number))]
fn triples_of(alloc: Global, base: &str, bytes: &[u8]) -> Result<Items<Triple>, Stop>
    requires { is_absolute base.now ≡ true }
    ensures value { Answers (ReadsTriples bytes.now base.now) result }
    ensures kind { IfErr result (λ why. (is_of_query why ≡ false) × (is_of_tables why ≡ false)) }
    ensures numbered { IfErr result IsNumbered }
{
    if bytes.len() > MOST_BYTES {
        return Err(Stop::Refused(Fault::Mapping {
            check: 22,
            at: MOST_BYTES,
        }));
    }
    match read_turtle(alloc, bytes, base) {
        Ok(triples) => Ok(triples),
        Err(TurtleError::Fault(fault)) => Err(Stop::Refused(Fault::Mapping {
            check: fault.check,
            at: fault.at,
        })),
        Err(TurtleError::Memory) => Err(Stop::Memory),
    }
}

/// The mapping that triples are.
#[tactic(auto, using(crate::proofs::MapNumbers::mapping_number))]
fn mapping_of(
    alloc: Global,
    triples: &[Triple],
    schema: &Schema,
    base: &str,
) -> Result<Mapping, Stop>
    requires { is_absolute base.now ≡ true }
    ensures value { Answers (MapsTriples triples.now schema.now base.now) result }
    ensures within { IfOk result (IsWithin schema.now) }
    ensures kind { IfErr result (λ why. (is_of_query why ≡ false) × (is_of_tables why ≡ false)) }
    ensures numbered { IfErr result IsNumbered }
{
    match read_mapping(alloc, triples, schema, base) {
        Ok(mapping) => Ok(mapping),
        Err(MapError::Fault(fault)) => Err(Stop::Refused(Fault::Mapping {
            check: fault.check,
            at: fault.map,
        })),
        Err(MapError::Memory) => Err(Stop::Memory),
    }
}

/// The mapping of a file.
fn load_text<S: Store>(
    alloc: Global,
    store: &mut S,
    name: &str,
    schema: &Schema,
    base: &str,
) -> Result<Mapping, Stop>
    requires { is_absolute base.now ≡ true }
    ensures ran { Ran (λ files. LoadsText files name.now schema.now base.now) (S.state store.old) (S.state store.new) result }
    ensures asked { AsksThese (name.now ∷ []) (S.state store.old).asked (S.state store.new).asked result }
    ensures within { IfOk result (IsWithin schema.now) }
    ensures kind { IfErr result (λ why. (is_of_query why ≡ false) × (is_of_tables why ≡ false)) }
    ensures numbered { IfErr result IsNumbered }
{
    let bytes = match load_file(alloc, store, name) {
        Ok(bytes) => bytes,
        Err(stop) => return Err(stop),
    };
    let triples = match triples_of(alloc, base, &bytes) {
        Ok(triples) => triples,
        Err(stop) => return Err(stop),
    };
    mapping_of(alloc, triples.as_slice(), schema, base)
}

/// The mapping of the file where one is named, else the direct mapping.
pub fn load_mapping<S: Store>(
    alloc: Global,
    store: &mut S,
    file: Option<&str>,
    schema: &Schema,
    base: &str,
) -> Result<Mapping, Stop>
    requires { is_absolute base.now ≡ true }
    ensures ran { Ran (λ files. LoadsMapping files (option_map (λ s. s.now) file.entry) schema.now base.now) (S.state store.old) (S.state store.new) result }
    ensures asked { AsksThese (listed (option_map (λ s. s.now) file.entry)) (S.state store.old).asked (S.state store.new).asked result }
    ensures graph { file.entry ≡ None → IfOk result (GivesDirectGraph schema.now base.now) }
    ensures faultless { file.entry ≡ None → IfOk result (MakesEachTerm schema.now) }
    ensures within { IfOk result (IsWithin schema.now) }
    ensures kind { IfErr result (λ why. (is_of_query why ≡ false) × (is_of_tables why ≡ false)) }
    ensures numbered { IfErr result IsNumbered }
{
    match file {
        None => direct_mapping(alloc, schema, base),
        Some(name) => load_text(alloc, store, name, schema, base),
    }
}
