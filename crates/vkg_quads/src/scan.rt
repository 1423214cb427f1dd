// The least data error of a mapping over a database.
ghost use Rattle.std.specs.Prelude.{◌≡◌, ◌+◌, ◌++◌, ◌<◌, ◌^◌, map, flat_map, length, IfOk, OnOk, Option, Some, None};
ghost use Rattle.std.specs.Option.{option_copied};
ghost use Rattle.std.specs.List.{enumerate_from};
ghost use Rattle.vkg_lists.specs.Firsts.{first_of};
ghost use Rattle.vkg_schema.specs.Rows.{Row};
ghost use Rattle.vkg_maps.specs.DataFaults.{least_data_fault, map_faults, row_faults, term_faults, term_maps, asked};
ghost use Rattle.vkg_maps.specs.LeastFault.{FindsLeast};

use crate::made::made_term;
use std::alloc::Global;
use vkg_base::Memory;
use vkg_maps::{DataFault, Mapping, ObjectMap, PredicateObjectMap, TermFault, TermMap, TriplesMap};
use vkg_tables::{Database, TableRow, TableRows};

/// The least data error by map, row and term map, and none exactly where there is no data error (R2RML, 4.3).
pub fn scan_data(
    alloc: Global,
    mapping: &Mapping,
    db: &Database,
) -> Result<Option<DataFault>, Memory>
    ensures value { IfOk result (λ found. found ≡ least_data_fault mapping.now db.now.tables) }
    ensures least { IfOk result (FindsLeast mapping.now db.now.tables) }
{
    scan_maps(alloc, mapping.base.as_str(), mapping.maps.as_slice(), db)
}

fn scan_maps(
    alloc: Global,
    base: &str,
    maps: &[TriplesMap],
    db: &Database,
) -> Result<Option<DataFault>, Memory>
    ensures { IfOk result (λ o. o ≡ first_of (flat_map (map_faults base.now db.now.tables) (enumerate_from 1 maps.now))) }
{
    for (k, m) in maps.iter().enumerate() {
        let terms = asked_maps(alloc, m)?;
        let found = scan_rows(alloc, base, &terms, k + 1, &db.table(m.table))?;
        match found {
            Some(fault) => return Ok(Some(fault)),
            None => {}
        }
    }
    Ok(None)
}

fn scan_rows(
    alloc: Global,
    base: &str,
    terms: &[Option<&TermMap>],
    place: usize,
    rows: &TableRows<'_>,
) -> Result<Option<DataFault>, Memory>
    ensures { IfOk result (λ o. o ≡ first_of (flat_map (row_faults base.now (map option_copied terms.now) place) (enumerate_from 1 rows.now))) }
{
    for k in 0..rows.len() {
        let row = rows.row(k);
        let found = scan_row(alloc, base, terms, place, k + 1, &row)?;
        match found {
            Some(fault) => return Ok(Some(fault)),
            None => {}
        }
    }
    Ok(None)
}

fn scan_row(
    alloc: Global,
    base: &str,
    terms: &[Option<&TermMap>],
    place: usize,
    row: usize,
    cells: &TableRow<'_>,
) -> Result<Option<DataFault>, Memory>
    ensures { IfOk result (λ o. o ≡ first_of (row_faults base.now (map option_copied terms.now) place (row, cells.now))) }
{
    for (term, t) in terms.iter().enumerate() {
        match fault_of(alloc, base, cells, *t)? {
            Some(fault) => {
                return Ok(Some(DataFault {
                    fault,
                    map: place,
                    row,
                    term,
                }));
            }
            None => {}
        }
    }
    Ok(None)
}

fn fault_of(
    alloc: Global,
    base: &str,
    cells: &TableRow<'_>,
    t: Option<&TermMap>,
) -> Result<Option<TermFault>, Memory>
    ensures { IfOk result (λ o. o ≡ first_of (term_faults base.now cells.now (option_copied t.entry))) }
{
    match t {
        None => Ok(None),
        Some(t) => match made_term(alloc, base, t, cells)? {
            Ok(_) => Ok(None),
            Err(fault) => Ok(Some(fault)),
        },
    }
}

/// The term maps that are asked, each at its place.
fn asked_maps<'a>(alloc: Global, m: &'a TriplesMap) -> Result<Vec<Option<&'a TermMap>>, Memory>
    ensures { IfOk result (λ v. map option_copied v.items ≡ term_maps m.now) }
{
    let mut out = Vec::new(alloc);
    out.push(Some(&m.subject))?;
    push_maps(&mut out, m.graphs.as_slice())?;
    for po in m.predicate_objects.as_slice() {
        push_maps(&mut out, po.predicates.as_slice())?;
        push_objects(&mut out, po.objects.as_slice())?;
        push_maps(&mut out, po.graphs.as_slice())?;
    }
    Ok(out)
}

fn push_maps<'a>(out: &mut Vec<Option<&'a TermMap>>, maps: &'a [TermMap]) -> Result<(), Memory>
    ensures { OnOk result (map option_copied out.new.items ≡ map option_copied out.old.items ++ map Some maps.now) }
{
    for t in maps {
        out.push(Some(t))?;
    }
    Ok(())
}

fn push_objects<'a>(
    out: &mut Vec<Option<&'a TermMap>>,
    objects: &'a [ObjectMap],
) -> Result<(), Memory>
    ensures { OnOk result (map option_copied out.new.items ≡ map option_copied out.old.items ++ map asked objects.now) }
{
    for o in objects {
        match o {
            ObjectMap::Term(t) => out.push(Some(t))?,
            ObjectMap::Parent(_, _) => out.push(None)?,
        }
    }
    Ok(())
}
