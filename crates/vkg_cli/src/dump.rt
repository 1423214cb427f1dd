// The text of `dump`.
ghost use Rattle.std.specs.Prelude.{◌≡◌, IfErr, IfOk, false, true};
ghost use Rattle.vkg_terms.specs.Iri.{is_absolute};
ghost use Rattle.vkg_maps.specs.Dataset.{dataset};
ghost use Rattle.vkg_quads.specs.Dump.{IsDump};
ghost use Rattle.vkg_cli.specs.Headline.{IsTextOf};
ghost use Rattle.vkg_cli.specs.Stages.{Answers, Ran, Where};
ghost use Rattle.vkg_cli.specs.Words.{command_seen};
ghost use Rattle.vkg_cli.specs.declared.words.Command.TheVariants.{Dump};
ghost use Rattle.vkg_cli.specs.Work.{AsksFirst, Dumps, IsNumbered, Works, is_of_query};

use crate::Stop;
use crate::database::load_database;
use crate::scan::load_faultless;
use crate::words::DumpOptions;
use std::alloc::Global;
use vkg_base::{Lines, Memory, Store};
use vkg_maps::Mapping;
use vkg_quads::dump_lines;
use vkg_tables::Database;

/// The lines of the dataset.
#[tactic(auto, unfolding(crate::specs::Work::Dumps))]
fn lines(alloc: Global, mapping: &Mapping, db: &Database) -> Result<Lines, Stop>
    ensures value { Answers (Dumps db.now.tables mapping.now) result }
    ensures order { IfOk result (λ lines. IsDump lines (dataset mapping.now db.now.tables)) }
    ensures kind { IfErr result (λ why. is_of_query why ≡ false) }
    ensures numbered { IfErr result IsNumbered }
{
    match dump_lines(alloc, mapping, db) {
        Ok(lines) => Ok(lines),
        Err(Memory) => Err(Stop::Memory),
    }
}

/// The text of `dump`: the database, the mapping, and the lines of the dataset.
pub fn text_of_dump<S: Store>(
    alloc: Global,
    store: &mut S,
    options: &DumpOptions<'_>,
) -> Result<Lines, Stop>
    requires { is_absolute options.now.base.now ≡ true }
    ensures ran { Ran (Works (command_seen (Dump options.now))) (S.state store.old) (S.state store.new) result }
    ensures text { IfOk result (λ lines. Where (S.state store.old).files (λ files. IsTextOf (command_seen (Dump options.now)) files lines)) }
    ensures asked { AsksFirst (command_seen (Dump options.now)) (S.state store.old).asked (S.state store.new).asked }
    ensures kind { IfErr result (λ why. is_of_query why ≡ false) }
    ensures numbered { IfErr result IsNumbered }
{
    let db = match load_database(alloc, store, options.schema, options.data) {
        Ok(db) => db,
        Err(stop) => return Err(stop),
    };
    let mapping = match load_faultless(alloc, store, options.mapping, &db, options.base) {
        Ok(mapping) => mapping,
        Err(stop) => return Err(stop),
    };
    lines(alloc, &mapping, &db)
}
