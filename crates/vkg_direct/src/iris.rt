// The IRIs of tables, columns and foreign keys.
ghost use Rattle.std.specs.Prelude.{◌≡◌, ◌++◌, ◌∷◌, map, flat_map, IfOk, OnOk, string_bytes, codes};
ghost use Rattle.std.specs.Option.{option_copied};
ghost use Rattle.std.specs.List.{find, join_with_byte};
ghost use Rattle.vkg_terms.specs.Safe.{safe};
ghost use Rattle.vkg_direct.specs.DirectGraph.{primary_key as key_of, column_name as name_of, table_iri as iri_of_table, column_iri as iri_of_column, reference_iri as iri_of_reference};

use std::alloc::Global;
use vkg_base::Memory;
use vkg_schema::{Column, Key, Reference, Table};
use vkg_terms::iri_safe;

/// The columns of the primary key.
pub fn primary_key(table: &Table) -> &[usize]
    ensures { result.now ≡ key_of table.now }
{
    match find_primary(table.keys.as_slice()) {
        None => &[],
        Some(key) => key.columns.as_slice(),
    }
}

fn find_primary(keys: &[Key]) -> Option<&Key>
    ensures { option_copied result ≡ find (λ k. k.primary) keys.now }
{
    keys.iter().find(|k| k.primary)
}

pub fn column_name(table: &Table, column: usize) -> &str
    ensures { result.now ≡ name_of table.now column }
{
    match table.columns.as_slice().get(column) {
        None => "",
        Some(c) => c.name.as_str(),
    }
}

fn push_safe(alloc: Global, out: &mut String, name: &str) -> Result<(), Memory>
    ensures { OnOk result (string_bytes out.new ≡ string_bytes out.old ++ safe name.now) }
{
    let text = iri_safe(alloc, name)?;
    out.push_str(text.as_str())?;
    Ok(())
}

pub fn table_iri(alloc: Global, base: &str, table: &Table) -> Result<String, Memory>
    ensures { IfOk result (λ s. string_bytes s ≡ iri_of_table base.now table.now) }
{
    let mut out = String::from_str(alloc, base)?;
    push_safe(alloc, &mut out, table.name.as_str())?;
    Ok(out)
}

pub fn column_iri(
    alloc: Global,
    base: &str,
    table: &Table,
    column: &Column,
) -> Result<String, Memory>
    ensures { IfOk result (λ s. string_bytes s ≡ iri_of_column base.now table.now column.now) }
{
    let mut out = table_iri(alloc, base, table)?;
    out.push_str("#")?;
    push_safe(alloc, &mut out, column.name.as_str())?;
    Ok(out)
}

pub fn reference_iri(
    alloc: Global,
    base: &str,
    table: &Table,
    reference: &Reference,
) -> Result<String, Memory>
    ensures { IfOk result (λ s. string_bytes s ≡ iri_of_reference base.now table.now reference.now) }
{
    let mut out = table_iri(alloc, base, table)?;
    out.push_str("#ref-")?;
    push_names(alloc, &mut out, table, reference.pairs.as_slice())?;
    Ok(out)
}

#[tactic(auto, using(crate::proofs::Joined::joined_is))]
fn push_names(
    alloc: Global,
    out: &mut String,
    table: &Table,
    pairs: &[(usize, usize)],
) -> Result<(), Memory>
    ensures { OnOk result (string_bytes out.new ≡ string_bytes out.old ++ join_with_byte 59 (map (λ p. safe (name_of table.now p.0)) pairs.now)) }
{
    match pairs.split_first() {
        None => Ok(()),
        Some((first, rest)) => {
            push_safe(alloc, out, column_name(table, first.0))?;
            push_rest(alloc, out, table, rest)?;
            Ok(())
        }
    }
}

fn push_rest(
    alloc: Global,
    out: &mut String,
    table: &Table,
    pairs: &[(usize, usize)],
) -> Result<(), Memory>
    ensures { OnOk result (string_bytes out.new ≡ string_bytes out.old ++ flat_map (λ p. 59 ∷ safe (name_of table.now p.0)) pairs.now) }
{
    for p in pairs {
        out.push(';')?;
        push_safe(alloc, out, column_name(table, p.0))?;
    }
    Ok(())
}
