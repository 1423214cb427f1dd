ghost use Rattle.std.specs.Prelude.{◌≡◌, ◌⊎◌, ◌<◌, IfOk, IfErr, IfSome, Ok, Err, None, length, not, true, position};
ghost use Rattle.vkg_terms.specs.Iri.{is_absolute};
ghost use Rattle.vkg_direct.specs.declared.direct_error.DirectError.TheVariants.{Memory as OutOfMemory};
ghost use Rattle.vkg_direct.specs.DirectMapping.{direct_result, within_limit, direct as direct_of, has_primary_key};
ghost use Rattle.vkg_direct.specs.Laws.{GivesDirectGraph, MakesEachTerm};

use crate::direct_error::DirectError;
use crate::rule_limit::exceeds_limit;
use crate::triples_map::direct_maps;
use std::alloc::Global;
use vkg_base::Text;
use vkg_maps::Mapping;
use vkg_schema::{Schema, Table};

/// The direct mapping of a schema under a base, which is an absolute IRI. It stands for the direct graph of each database
/// that meets the schema.
pub fn direct(alloc: Global, schema: &Schema, base: &str) -> Result<Mapping, DirectError>
    requires { is_absolute base.now ≡ true }
    ensures ok { IfOk result (λ mapping. direct_result schema.now base.now ≡ Ok mapping) }
    ensures err { IfErr result (λ e. (e ≡ OutOfMemory) ⊎ (direct_result schema.now base.now ≡ Err e)) }
    ensures graph { IfOk result (GivesDirectGraph schema.now base.now) }
    ensures faultless { IfOk result (MakesEachTerm schema.now) }
{
    let tables = schema.tables();
    match without_key(tables) {
        Some(place) => Err(DirectError::NoPrimaryKey(place + 1)),
        None => direct_within_limit(alloc, tables, base),
    }
}

/// The mapping, or that it has too many rules.
fn direct_within_limit(alloc: Global, tables: &[Table], base: &str) -> Result<Mapping, DirectError>
    ensures ok { IfOk result (λ mapping. within_limit (direct_of tables.now base.now) ≡ Ok mapping) }
    ensures err { IfErr result (λ e. (e ≡ OutOfMemory) ⊎ (within_limit (direct_of tables.now base.now) ≡ Err e)) }
{
    if exceeds_limit(tables) {
        return Err(DirectError::TooManyRules);
    }
    let maps = direct_maps(alloc, base, tables)?;
    let base = Text::new(alloc, base)?;
    Ok(Mapping { base, maps })
}

/// The first table without a primary key.
fn without_key(tables: &[Table]) -> Option<usize>
    ensures value { result ≡ position (λ t. not (has_primary_key t)) tables.now }
    ensures inside { IfSome result (λ place. place < length tables.now) }
{
    tables.iter().position(|t| !has_key(t))
}

fn has_key(table: &Table) -> bool
    ensures { result ≡ has_primary_key table.now }
{
    table.keys.as_slice().iter().any(|key| key.primary)
}
