// The lines of the dataset of a mapping over a database.
ghost use Rattle.std.specs.Prelude.{◌≡◌, ◌++◌, ◌∷◌, [], ℕ, List, map, flat_map, filter, filter_map, slice_get, IfOk, OnOk, string_bytes};
ghost use Rattle.vkg_terms.specs.NQuads.{line};
ghost use Rattle.vkg_schema.specs.Rows.{agree as rows_agree};
ghost use Rattle.vkg_index.specs.Keys.{has_key};
ghost use Rattle.vkg_maps.specs.Dataset.{quad_of, quads_of_rule, dataset};
ghost use Rattle.vkg_quads.specs.Dump.{IsDump, HasLineForEach, dump};
ghost use Rattle.vkg_hash.specs.Groups.{group};

use crate::quad::line_of_rows;
use crate::rule_list::rules;
use std::alloc::Global;
use vkg_base::{Lines, Memory};
use vkg_hash::Groups;
use vkg_index::{grouped_lent, key_of_lent};
use vkg_maps::{Mapping, QuadRule};
use vkg_tables::{Database, TableRow, TableRows, agree, child_columns, parent_columns};

/// The lines of the quads of the dataset, each once, ascending by bytes. Where each term map of the mapping can be written,
/// as in a mapping that is read and in the direct one, no two quads share a line.
pub fn dump_lines(alloc: Global, mapping: &Mapping, db: &Database) -> Result<Lines, Memory>
    ensures value { IfOk result (λ lines. lines ≡ dump (dataset mapping.now db.now.tables)) }
    ensures order { IfOk result (λ lines. IsDump lines (dataset mapping.now db.now.tables)) }
    ensures once { IfOk result (HasLineForEach mapping.now db.now) }
{
    let rules = rules(alloc, mapping)?;
    let mut lines = all_lines(alloc, mapping.base.as_str(), rules.as_slice(), db)?;
    lines.sort_once();
    Ok(lines)
}

/// The line of each quad that a rule makes, as often as it is made.
fn all_lines(alloc: Global, base: &str, rules: &[QuadRule], db: &Database) -> Result<Lines, Memory>
    ensures { IfOk result (λ lines. lines ≡ map line (flat_map (quads_of_rule base.now db.now.tables) rules.now)) }
{
    let mut out = Lines::new(alloc);
    for rule in rules {
        push_rule(alloc, &mut out, base, rule, db)?;
    }
    Ok(out)
}

fn push_rule(
    alloc: Global,
    out: &mut Lines,
    base: &str,
    rule: &QuadRule,
    db: &Database,
) -> Result<(), Memory>
    ensures { OnOk result (out.new ≡ out.old ++ map line (quads_of_rule base.now db.now.tables rule.now)) }
{
    match &rule.join {
        None => push_alone(alloc, out, base, rule, &db.table(rule.table)),
        Some(join) => push_joined(
            alloc,
            out,
            base,
            rule,
            join.conditions.as_slice(),
            &db.table(rule.table),
            &db.table(join.table),
        ),
    }
}

fn push_alone(
    alloc: Global,
    out: &mut Lines,
    base: &str,
    rule: &QuadRule,
    rows: &TableRows<'_>,
) -> Result<(), Memory>
    ensures { OnOk result (out.new ≡ out.old ++ map line (flat_map (λ row. filter_map (quad_of base.now rule.now row) (row ∷ [])) rows.now)) }
{
    for k in 0..rows.len() {
        let row = rows.row(k);
        push_quad(alloc, out, base, rule, &row, &row)?;
    }
    Ok(())
}

fn push_quad(
    alloc: Global,
    out: &mut Lines,
    base: &str,
    rule: &QuadRule,
    row: &TableRow<'_>,
    other: &TableRow<'_>,
) -> Result<(), Memory>
    ensures { OnOk result (out.new ≡ out.old ++ map line (filter_map (quad_of base.now rule.now row.now) (other.now ∷ []))) }
{
    match line_of_rows(alloc, base, rule, row, other)? {
        None => Ok(()),
        Some(text) => {
            out.push(text)?;
            Ok(())
        }
    }
}

fn push_joined(
    alloc: Global,
    out: &mut Lines,
    base: &str,
    rule: &QuadRule,
    conditions: &[(usize, usize)],
    rows: &TableRows<'_>,
    parents: &TableRows<'_>,
) -> Result<(), Memory>
    ensures { OnOk result (out.new ≡ out.old ++ map line (flat_map (λ row. filter_map (quad_of base.now rule.now row) (filter (rows_agree conditions.now row) parents.now)) rows.now)) }
{
    let own = child_columns(alloc, conditions)?;
    let theirs = parent_columns(alloc, conditions)?;
    let groups = grouped_lent(alloc, &theirs, parents)?;
    for k in 0..rows.len() {
        let row = rows.row(k);
        push_partners(
            alloc, out, base, rule, conditions, &own, &theirs, &row, parents, &groups,
        )?;
    }
    Ok(())
}

/// The lines of a row and the parents that it agrees with.
fn push_partners(
    alloc: Global,
    out: &mut Lines,
    base: &str,
    rule: &QuadRule,
    conditions: &[(usize, usize)],
    own: &[usize],
    theirs: &[usize],
    row: &TableRow<'_>,
    parents: &TableRows<'_>,
    groups: &Groups,
) -> Result<(), Memory>
    requires children { own.now ≡ map (λ p. p.0) conditions.now }
    requires parents { theirs.now ≡ map (λ p. p.1) conditions.now }
    requires index { (q : List ℕ) → filter_map (slice_get parents.now) (group groups.now q) ≡ filter (has_key theirs.now q) parents.now }
    ensures { OnOk result (out.new ≡ out.old ++ map line (filter_map (quad_of base.now rule.now row.now) (filter (rows_agree conditions.now row.now) parents.now))) }
{
    match key_of_lent(alloc, own, row)? {
        None => Ok(()),
        Some(key) => match groups.get(key.as_str()) {
            None => Ok(()),
            Some(numbers) => {
                push_agreeing(
                    alloc,
                    out,
                    base,
                    rule,
                    conditions,
                    row,
                    parents,
                    numbers.as_slice(),
                )?;
                Ok(())
            }
        },
    }
}

/// The lines of a row and those of the numbered parents that it agrees with.
fn push_agreeing(
    alloc: Global,
    out: &mut Lines,
    base: &str,
    rule: &QuadRule,
    conditions: &[(usize, usize)],
    row: &TableRow<'_>,
    parents: &TableRows<'_>,
    numbers: &[usize],
) -> Result<(), Memory>
    ensures { OnOk result (out.new ≡ out.old ++ flat_map (λ n. map line (filter_map (quad_of base.now rule.now row.now) (filter (rows_agree conditions.now row.now) (filter_map (slice_get parents.now) (n ∷ []))))) numbers.now) }
{
    for n in numbers {
        push_if_agrees(alloc, out, base, rule, conditions, row, parents, *n)?;
    }
    Ok(())
}

fn push_if_agrees(
    alloc: Global,
    out: &mut Lines,
    base: &str,
    rule: &QuadRule,
    conditions: &[(usize, usize)],
    row: &TableRow<'_>,
    parents: &TableRows<'_>,
    n: usize,
) -> Result<(), Memory>
    ensures { OnOk result (out.new ≡ out.old ++ map line (filter_map (quad_of base.now rule.now row.now) (filter (rows_agree conditions.now row.now) (filter_map (slice_get parents.now) (n ∷ []))))) }
{
    match parent_at(parents, n) {
        None => Ok(()),
        Some(other) => push_agreed(alloc, out, base, rule, conditions, row, &other),
    }
}

fn parent_at<'a>(parents: &TableRows<'a>, n: usize) -> Option<TableRow<'a>>
    ensures { result ≡ slice_get parents.now n }
{
    if n < parents.len() {
        Some(parents.row(n))
    } else {
        None
    }
}

fn push_agreed(
    alloc: Global,
    out: &mut Lines,
    base: &str,
    rule: &QuadRule,
    conditions: &[(usize, usize)],
    row: &TableRow<'_>,
    other: &TableRow<'_>,
) -> Result<(), Memory>
    ensures { OnOk result (out.new ≡ out.old ++ map line (filter_map (quad_of base.now rule.now row.now) (filter (rows_agree conditions.now row.now) (other.now ∷ [])))) }
{
    if agree(conditions, row, other) {
        push_quad(alloc, out, base, rule, row, other)
    } else {
        Ok(())
    }
}
