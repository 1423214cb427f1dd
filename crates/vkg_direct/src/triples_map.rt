// The triples maps of the direct mapping.
ghost use Rattle.std.specs.Prelude.{◌≡◌, ◌++◌, map, flat_map, IfOk, OnOk, string_bytes, codes};
ghost use Rattle.std.specs.List.{enumerate_from};
ghost use Rattle.vkg_direct.specs.DirectMapping.{node_pieces, key_pieces as pieces_of_key, property as property_of, column_property as property_of_column, reference_property as property_of_reference, direct_map as map_of, maps_of, properties_of};

use crate::iris::{column_iri, column_name, primary_key, reference_iri, table_iri};
use std::alloc::Global;
use vkg_base::{Items, Memory, Text};
use vkg_cells::natural;
use vkg_maps::{ObjectMap, Piece, PredicateObjectMap, TermMap, TermType, TriplesMap};
use vkg_schema::{Column, Reference, Table};
use vkg_terms::{Term, iri_safe};

/// The maps of these tables.
pub fn direct_maps(alloc: Global, base: &str, tables: &[Table]) -> Result<Items<TriplesMap>, Memory>
    ensures { IfOk result (λ maps. maps ≡ maps_of base.now tables.now) }
{
    let mut out = Items::new(alloc);
    for (k, table) in tables.iter().enumerate() {
        out.push(direct_map(alloc, base, k, table)?)?;
    }
    Ok(out)
}

fn direct_map(alloc: Global, base: &str, k: usize, table: &Table) -> Result<TriplesMap, Memory>
    ensures { IfOk result (λ made. made ≡ map_of base.now (k, table.now)) }
{
    let mut pieces = Items::new(alloc);
    pieces.push(Piece::Fixed(Text::from_string(table_iri(alloc, base, table)?)))?;
    push_key(alloc, &mut pieces, table, primary_key(table))?;
    let mut classes = Items::new(alloc);
    classes.push(Text::from_string(table_iri(alloc, base, table)?))?;
    let predicate_objects = properties(alloc, base, table)?;
    Ok(TriplesMap {
        table: k,
        subject: TermMap::Template(pieces, TermType::Iri),
        classes,
        graphs: Items::new(alloc),
        predicate_objects,
    })
}

fn push_key(
    alloc: Global,
    out: &mut Items<Piece>,
    table: &Table,
    columns: &[usize],
) -> Result<(), Memory>
    ensures { OnOk result (out.new ≡ out.old ++ pieces_of_key table.now columns.now) }
{
    match columns.split_first() {
        None => Ok(()),
        Some((first, rest)) => {
            push_node(alloc, out, table, "/", *first)?;
            push_nodes(alloc, out, table, rest)?;
            Ok(())
        }
    }
}

fn push_nodes(
    alloc: Global,
    out: &mut Items<Piece>,
    table: &Table,
    columns: &[usize],
) -> Result<(), Memory>
    ensures { OnOk result (out.new ≡ out.old ++ flat_map (node_pieces table.now (codes ";")) columns.now) }
{
    for column in columns {
        push_node(alloc, out, table, ";", *column)?;
    }
    Ok(())
}

fn push_node(
    alloc: Global,
    out: &mut Items<Piece>,
    table: &Table,
    sign: &str,
    column: usize,
) -> Result<(), Memory>
    ensures { OnOk result (out.new ≡ out.old ++ node_pieces table.now sign.now column) }
{
    let mut text = String::from_str(alloc, sign)?;
    let name = iri_safe(alloc, column_name(table, column))?;
    text.push_str(name.as_str())?;
    text.push_str("=")?;
    out.push(Piece::Fixed(Text::from_string(text)))?;
    out.push(Piece::Column(column))?;
    Ok(())
}

fn properties(alloc: Global, base: &str, table: &Table) -> Result<Items<PredicateObjectMap>, Memory>
    ensures { IfOk result (λ made. made ≡ properties_of base.now table.now) }
{
    let mut out = Items::new(alloc);
    push_columns(alloc, &mut out, base, table, table.columns.as_slice())?;
    push_references(alloc, &mut out, base, table, table.references.as_slice())?;
    Ok(out)
}

fn push_columns(
    alloc: Global,
    out: &mut Items<PredicateObjectMap>,
    base: &str,
    table: &Table,
    columns: &[Column],
) -> Result<(), Memory>
    ensures { OnOk result (out.new ≡ out.old ++ map (property_of_column base.now table.now) (enumerate_from 0 columns.now)) }
{
    for (k, column) in columns.iter().enumerate() {
        out.push(column_property(alloc, base, table, k, column)?)?;
    }
    Ok(())
}

fn push_references(
    alloc: Global,
    out: &mut Items<PredicateObjectMap>,
    base: &str,
    table: &Table,
    references: &[Reference],
) -> Result<(), Memory>
    ensures { OnOk result (out.new ≡ out.old ++ map (property_of_reference base.now table.now) references.now) }
{
    for reference in references {
        out.push(reference_property(alloc, base, table, reference)?)?;
    }
    Ok(())
}

fn column_property(
    alloc: Global,
    base: &str,
    table: &Table,
    k: usize,
    column: &Column,
) -> Result<PredicateObjectMap, Memory>
    ensures { IfOk result (λ made. made ≡ property_of_column base.now table.now (k, column.now)) }
{
    let iri = column_iri(alloc, base, table, column)?;
    let annotation = natural(alloc, column.kind)?;
    let object = ObjectMap::Term(TermMap::Column(k, TermType::Literal(annotation)));
    property(alloc, iri, object)
}

fn reference_property(
    alloc: Global,
    base: &str,
    table: &Table,
    reference: &Reference,
) -> Result<PredicateObjectMap, Memory>
    ensures { IfOk result (λ made. made ≡ property_of_reference base.now table.now reference.now) }
{
    let iri = reference_iri(alloc, base, table, reference)?;
    let pairs = Vec::from_slice(alloc, reference.pairs.as_slice())?;
    property(
        alloc,
        iri,
        ObjectMap::Parent(reference.table, Items::from_vec(pairs)),
    )
}

fn property(alloc: Global, iri: String, object: ObjectMap) -> Result<PredicateObjectMap, Memory>
    ensures { IfOk result (λ made. made ≡ property_of (string_bytes iri) object) }
{
    let mut predicates = Items::new(alloc);
    predicates.push(TermMap::Constant(Term::Iri(Text::from_string(iri))))?;
    let mut objects = Items::new(alloc);
    objects.push(object)?;
    Ok(PredicateObjectMap {
        predicates,
        objects,
        graphs: Items::new(alloc),
    })
}
