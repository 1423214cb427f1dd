// The text of `query`.
ghost use Rattle.std.specs.Prelude.{◌≡◌, [], ◌∷◌, IfErr, IfOk, false, true};
ghost use Rattle.vkg_terms.specs.Iri.{is_absolute};
ghost use Rattle.vkg_schema.specs.Meets.{MeetsSchema};
ghost use Rattle.vkg_maps.specs.DataFaults.{data_faults};
ghost use Rattle.vkg_maps.specs.Within.{IsWithin};
ghost use Rattle.vkg_sparql.specs.Lawful.{IsLawfulQuery};
ghost use Rattle.vkg_sparql.specs.Seen.{query_seen};
ghost use Rattle.vkg_plan.specs.Rows.{rows_of};
ghost use Rattle.vkg_rewrite.specs.Lines.{result_lines};
ghost use Rattle.vkg_rewrite.specs.Rewritten.{rewritten};
ghost use Rattle.vkg_cli.specs.Headline.{IsTextOf};
ghost use Rattle.vkg_cli.specs.Stages.{Answers, AsksThese, Ran, Where};
ghost use Rattle.vkg_cli.specs.Words.{command_seen};
ghost use Rattle.vkg_cli.specs.declared.words.Command.TheVariants.{Query as OfQuery};
ghost use Rattle.vkg_cli.specs.Work.{AsksFirst, GivesAnswer, IsNumbered, LoadsQuery, ReadsQuery, Works, is_of_tables};

use crate::database::load_database;
use crate::load::load_file;
use crate::scan::load_faultless;
use crate::words::QueryOptions;
use crate::{Fault, Stop};
use std::alloc::Global;
use vkg_base::{Lines, Memory, Store};
use vkg_maps::Mapping;
use vkg_rewrite::answer_lines;
use vkg_sparql::{Query, QueryError, read_query};
use vkg_tables::{Database, MOST_BYTES};

/// The query of a file's bytes.
#[tactic(auto, unfolding(crate::specs::Work::ReadsQuery), using(crate::proofs::Numbers::query_number, crate::proofs::Numbers::is_limit))]
fn query_of(alloc: Global, base: &str, bytes: &[u8]) -> Result<Query, Stop>
    ensures value { Answers (ReadsQuery bytes.now base.now) result }
    ensures lawful { IfOk result (λ query. IsLawfulQuery (query_seen query)) }
    ensures kind { IfErr result (λ why. is_of_tables why ≡ false) }
    ensures numbered { IfErr result IsNumbered }
{
    if bytes.len() > MOST_BYTES {
        return Err(Stop::Refused(Fault::Query {
            check: 9,
            at: MOST_BYTES,
        }));
    }
    match read_query(alloc, bytes, base) {
        Ok(query) => Ok(query),
        Err(QueryError::Fault(fault)) => Err(Stop::Refused(Fault::Query {
            check: fault.check,
            at: fault.at,
        })),
        Err(QueryError::Memory) => Err(Stop::Memory),
    }
}

/// The query of a file.
pub fn load_query<S: Store>(
    alloc: Global,
    store: &mut S,
    name: &str,
    base: &str,
) -> Result<Query, Stop>
    ensures ran { Ran (λ files. LoadsQuery files name.now base.now) (S.state store.old) (S.state store.new) result }
    ensures asked { AsksThese (name.now ∷ []) (S.state store.old).asked (S.state store.new).asked result }
    ensures lawful { IfOk result (λ query. IsLawfulQuery (query_seen query)) }
    ensures kind { IfErr result (λ why. is_of_tables why ≡ false) }
    ensures numbered { IfErr result IsNumbered }
{
    let bytes = match load_file(alloc, store, name) {
        Ok(bytes) => bytes,
        Err(stop) => return Err(stop),
    };
    query_of(alloc, base, &bytes)
}

/// The answer over the dataset of a mapping without a data error.
#[tactic(auto, unfolding(crate::specs::Work::GivesAnswer))]
fn answer(alloc: Global, db: &Database, mapping: &Mapping, query: &Query) -> Result<Lines, Stop>
    requires meets { MeetsSchema db.now.schema db.now.tables }
    requires within { IsWithin db.now.schema mapping.now }
    requires faultless { data_faults mapping.now db.now.tables ≡ [] }
    requires lawful { IsLawfulQuery (query_seen query.now) }
    ensures value { Answers (GivesAnswer db.now mapping.now query.now) result }
    ensures rows { IfOk result (λ lines. lines ≡ result_lines (query_seen query.now) (rows_of db.now.schema (rewritten db.now.schema mapping.now (query_seen query.now)) db.now.tables)) }
    ensures numbered { IfErr result IsNumbered }
{
    match answer_lines(alloc, db, mapping, query) {
        Ok(lines) => Ok(lines),
        Err(Memory) => Err(Stop::Memory),
    }
}

/// The text of `query`: the database, the mapping, the query, and the answer.
pub fn text_of_query<S: Store>(
    alloc: Global,
    store: &mut S,
    options: &QueryOptions<'_>,
) -> Result<Lines, Stop>
    requires { is_absolute options.now.base.now ≡ true }
    ensures ran { Ran (Works (command_seen (OfQuery options.now))) (S.state store.old) (S.state store.new) result }
    ensures text { IfOk result (λ lines. Where (S.state store.old).files (λ files. IsTextOf (command_seen (OfQuery options.now)) files lines)) }
    ensures asked { AsksFirst (command_seen (OfQuery options.now)) (S.state store.old).asked (S.state store.new).asked }
    ensures numbered { IfErr result IsNumbered }
{
    let db = match load_database(alloc, store, options.schema, options.data) {
        Ok(db) => db,
        Err(stop) => return Err(stop),
    };
    let mapping = match load_faultless(alloc, store, options.mapping, &db, options.base) {
        Ok(mapping) => mapping,
        Err(stop) => return Err(stop),
    };
    let query = match load_query(alloc, store, options.query, options.base) {
        Ok(query) => query,
        Err(stop) => return Err(stop),
    };
    answer(alloc, &db, &mapping, &query)
}
