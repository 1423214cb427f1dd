// The lines of the report.
ghost use Rattle.std.specs.Prelude.{◌≡◌, ◌<◌, ◌≤◌, ◌++◌, ◌∷◌, [], IfOk, OnOk, ℕ, decimal};
ghost use Rattle.vkg_schema.specs.Company.{company};
ghost use Rattle.vkg_schema.specs.Meets.{MeetsSchema};
ghost use Rattle.vkg_maps.specs.DataFaults.{data_faults};
ghost use Rattle.vkg_maps.specs.Within.{IsWithin};
ghost use Rattle.vkg_company.specs.Company.{company_of};
ghost use Rattle.vkg_gen.specs.Report.{IsReport, company_mapping as company_mapping_of, counted_line};

use crate::counts::{company_mapping, count_quads, count_solutions};
use itoa::Buffer;
use std::alloc::Global;
use std::mem;
use vkg_base::{Lines, Memory};
use vkg_company::generate;
use vkg_maps::Mapping;
use vkg_tables::Database;

fn push_line(alloc: Global, lines: &mut Lines, word: &str, count: usize) -> Result<(), Memory>
    ensures { OnOk result (lines.new ≡ lines.old ++ counted_line word.now count ∷ []) }
{
    let mut buffer = Buffer::new();
    let mut line = String::from_str(alloc, word)?;
    line.push_str(" ")?;
    line.push_str(buffer.format(count))?;
    lines.push(line)
}

/// The four lines on the company of `n` employees.
pub fn report(alloc: Global, n: usize) -> Result<Lines, Memory>
    requires some { 0 < n }
    requires limit { n ≤ 100000 }
    ensures { IfOk result (IsReport n) }
{
    let db = generate(alloc, n)?;
    let lines = report_on(alloc, &db);
    // (by a call: a database that is dropped where `?` leaves has its drop written out at each)
    mem::drop(db);
    lines
}

/// The four lines on a company.
fn report_on(alloc: Global, db: &Database) -> Result<Lines, Memory>
    requires company { db.now.schema ≡ company }
    requires meets { MeetsSchema db.now.schema db.now.tables }
    ensures { IfOk result (λ lines. (n : ℕ) → db.now ≡ company_of n → IsReport n lines) }
{
    let mapping = company_mapping(alloc, db.schema())?;
    let lines = report_by(alloc, &mapping, db);
    mem::drop(mapping);
    lines
}

/// The four lines on a company with its direct mapping.
fn report_by(alloc: Global, mapping: &Mapping, db: &Database) -> Result<Lines, Memory>
    requires meets { MeetsSchema db.now.schema db.now.tables }
    requires within { IsWithin db.now.schema mapping.now }
    requires faultless { data_faults mapping.now db.now.tables ≡ [] }
    ensures { IfOk result (λ lines. (n : ℕ) → db.now ≡ company_of n → mapping.now ≡ company_mapping_of → IsReport n lines) }
{
    let quads = count_quads(alloc, mapping, db)?;
    let names = count_solutions(
        alloc,
        mapping,
        db,
        "SELECT ?n { ?e <http://e/emp#name> ?n }",
    )?;
    let distinct = count_solutions(
        alloc,
        mapping,
        db,
        "SELECT DISTINCT ?n { ?e <http://e/emp#name> ?n }",
    )?;
    let depts = count_solutions(
        alloc,
        mapping,
        db,
        "SELECT ?n ?d { ?e <http://e/emp#name> ?n OPTIONAL { ?e <http://e/emp#ref-dept> ?d } }",
    )?;
    let mut lines = Lines::new(alloc);
    push_line(alloc, &mut lines, "quads", quads)?;
    push_line(alloc, &mut lines, "names", names)?;
    push_line(alloc, &mut lines, "distinct", distinct)?;
    push_line(alloc, &mut lines, "depts", depts)?;
    Ok(lines)
}
