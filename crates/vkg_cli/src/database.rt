// The database of the files of a schema and its tables.
ghost use Rattle.std.specs.Prelude.{◌≡◌, None, IfErr, IfOk, OnOk, false};
ghost use Rattle.vkg_schema.specs.Meets.{MeetsSchema};
ghost use Rattle.vkg_tables.specs.Checks.{key_fault, reference_fault};
ghost use Rattle.vkg_cli.specs.Stages.{Answers, AsksFrom, Ran, carried, done_or};
ghost use Rattle.vkg_cli.specs.Work.{Checks, IsNumbered, LoadsDatabase, checked, is_of_query};

use crate::Stop;
use crate::load::{load_schema, load_tables, table_stop};
use std::alloc::Global;
use vkg_base::Store;
use vkg_tables::{Database, TableError};

#[tactic(auto, using(crate::proofs::Numbers::key_number))]
fn check_keys(alloc: Global, db: &Database) -> Result<(), Stop>
    ensures value { Answers (λ outcome. outcome ≡ checked (key_fault db.now.schema db.now.tables)) (done_or result) }
    ensures kind { IfErr result (λ why. is_of_query why ≡ false) }
    ensures numbered { IfErr result IsNumbered }
{
    match db.check_keys(alloc) {
        Ok(()) => Ok(()),
        Err(TableError::Fault(repeated)) => Err(table_stop(repeated)),
        Err(TableError::Memory) => Err(Stop::Memory),
    }
}

#[tactic(auto, using(crate::proofs::Numbers::reference_number))]
fn check_references(alloc: Global, db: &Database) -> Result<(), Stop>
    requires { key_fault db.now.schema db.now.tables ≡ None }
    ensures value { Answers (λ outcome. outcome ≡ checked (reference_fault db.now.schema db.now.tables)) (done_or result) }
    ensures meets { OnOk result (MeetsSchema db.now.schema db.now.tables) }
    ensures kind { IfErr result (λ why. is_of_query why ≡ false) }
    ensures numbered { IfErr result IsNumbered }
{
    match db.check_references(alloc) {
        Ok(()) => Ok(()),
        Err(TableError::Fault(fault)) => Err(table_stop(fault)),
        Err(TableError::Memory) => Err(Stop::Memory),
    }
}

/// The first repeated key, else the first reference without a target.
fn check(alloc: Global, db: &Database) -> Result<(), Stop>
    ensures value { Answers (Checks db.now) (carried db.now result) }
    ensures meets { OnOk result (MeetsSchema db.now.schema db.now.tables) }
    ensures kind { IfErr result (λ why. is_of_query why ≡ false) }
    ensures numbered { IfErr result IsNumbered }
{
    match check_keys(alloc, db) {
        Err(stop) => Err(stop),
        Ok(()) => check_references(alloc, db),
    }
}

/// The database of a schema's file and the files of its tables, which meets its schema.
pub fn load_database<S: Store>(
    alloc: Global,
    store: &mut S,
    schema: &str,
    folder: &str,
) -> Result<Database, Stop>
    ensures ran { Ran (λ files. LoadsDatabase files schema.now folder.now) (S.state store.old) (S.state store.new) result }
    ensures asked { AsksFrom schema.now (S.state store.old).asked (S.state store.new).asked result }
    ensures meets { IfOk result (λ db. MeetsSchema db.schema db.tables) }
    ensures kind { IfErr result (λ why. is_of_query why ≡ false) }
    ensures numbered { IfErr result IsNumbered }
{
    let schema = match load_schema(alloc, store, schema) {
        Ok(schema) => schema,
        Err(stop) => return Err(stop),
    };
    let db = match load_tables(alloc, store, folder, &schema) {
        Ok(db) => db,
        Err(stop) => return Err(stop),
    };
    match check(alloc, &db) {
        Ok(()) => Ok(db),
        Err(stop) => Err(stop),
    }
}
