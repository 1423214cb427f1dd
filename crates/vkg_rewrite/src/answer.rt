// The answer to a query.
ghost use Rattle.std.specs.Prelude.{◌≡◌, [], IfOk, IsPermutation};
ghost use Rattle.vkg_schema.specs.Meets.{MeetsSchema};
ghost use Rattle.vkg_maps.specs.DataFaults.{data_faults};
ghost use Rattle.vkg_maps.specs.Dataset.{dataset};
ghost use Rattle.vkg_sparql.specs.Lawful.{IsLawfulQuery};
ghost use Rattle.vkg_sparql.specs.Seen.{query_seen};
ghost use Rattle.vkg_algebra.specs.Answer.{answer};
ghost use Rattle.vkg_plan.specs.Rows.{rows_of};
ghost use Rattle.vkg_maps.specs.Within.{IsWithin};
ghost use Rattle.vkg_rewrite.specs.Lines.{result_lines as lines_of};
ghost use Rattle.vkg_rewrite.specs.Rewritten.{rewritten};

use crate::lines::result_lines;
use crate::rewriting::rewrite;
use std::alloc::Global;
use vkg_base::{Box, Lines, Memory};
use vkg_engine::{Rows, run_uncounted};
use vkg_maps::Mapping;
use vkg_sparql::Query;
use vkg_tables::Database;

/// The answer to a query over the dataset of a mapping without a data error. Of SELECT it is the header, then the lines of the solutions in the asked
/// order and then that of their bytes, each as often as the algebra gives it or, under DISTINCT, once, and of them the slice; of ASK whether there is
/// a solution; of CONSTRUCT the lines of the set of its template's triples over the solutions, ascending. It is what is written of the rows of its
/// plan. The query is asked to be one that `read_query` answers, the mapping one of the database's schema.
pub fn answer_lines(
    alloc: Global,
    db: &Database,
    mapping: &Mapping,
    query: &Query,
) -> Result<Lines, Memory>
    requires meets { MeetsSchema db.now.schema db.now.tables }
    requires within { IsWithin db.now.schema mapping.now }
    requires faultless { data_faults mapping.now db.now.tables ≡ [] }
    requires lawful { IsLawfulQuery (query_seen query.now) }
    ensures answer { IfOk result (λ lines. lines ≡ answer (query_seen query.now) (dataset mapping.now db.now.tables)) }
    ensures rows { IfOk result (λ lines. lines ≡ lines_of (query_seen query.now) (rows_of db.now.schema (rewritten db.now.schema mapping.now (query_seen query.now)) db.now.tables)) }
{
    let _tables = db.schema().tables();
    let rows = plan_rows(alloc, db, mapping, query)?;
    result_lines(alloc, query, &rows)
}

/// The rows of the query's plan.
fn plan_rows(alloc: Global, db: &Database, mapping: &Mapping, query: &Query) -> Result<Rows, Memory>
    requires { IsWithin db.now.schema mapping.now }
    ensures { IfOk result (λ rows. IsPermutation rows (rows_of db.now.schema (rewritten db.now.schema mapping.now (query_seen query.now)) db.now.tables)) }
{
    let plan = Box::new(alloc, rewrite(alloc, db.schema(), mapping, query)?)?;
    run_uncounted(alloc, &plan, db)
}
