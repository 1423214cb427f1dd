// Files loaded from a store, and read.
ghost use Rattle.std.specs.Prelude.{◌≡◌, ◌≤◌, ◌<◌, [], ◌∷◌, length, string_bytes, IfErr, IfOk, false};
ghost use Rattle.vkg_lists.specs.Results.{mapped};
ghost use Rattle.vkg_cli.specs.Stages.{Answers, AsksThese, Loads, Ran, carried};
ghost use Rattle.vkg_tables.specs.Seen.{loaded, without_rows};
ghost use Rattle.vkg_cli.specs.Work.{IsNumbered, LoadsSchema, LoadsTable, LoadsTables, ReadsSchema, is_of_query, is_of_tables, loaded_or, table_file, table_stop as stop_at};

use crate::{Fault, Stop};
use std::alloc::Global;
use vkg_base::{LoadFault, Memory, Store};
use vkg_hash::Seed;
use vkg_schema::{Schema, SchemaError, Table, read_schema};
use vkg_tables::{Database, MOST_BYTES, TableError, TableFault};
use vkg_terms::iri_safe;

/// The most bytes that are taken of a file: one more than a file may have.
pub const LIMIT: u64 = 2147483648;

pub fn load_file<S: Store>(alloc: Global, store: &mut S, name: &str) -> Result<Vec<u8>, Stop>
    ensures ran { Ran (λ files. Loads LIMIT files name.now) (S.state store.old) (S.state store.new) (mapped (λ v. v.items) result) }
    ensures asked { AsksThese (name.now ∷ []) (S.state store.old).asked (S.state store.new).asked result }
    ensures kind { IfErr result (λ why. (is_of_query why ≡ false) × (is_of_tables why ≡ false)) }
    ensures numbered { IfErr result IsNumbered }
{
    match store.load(alloc, name, LIMIT) {
        Ok(bytes) => Ok(bytes),
        Err(LoadFault::Failed) => Err(Stop::Read),
        Err(LoadFault::Memory) => Err(Stop::Memory),
    }
}

/// The schema of a file's bytes.
#[tactic(auto, unfolding(crate::specs::Work::ReadsSchema), using(crate::proofs::Numbers::schema_number))]
fn schema_of(alloc: Global, bytes: &[u8]) -> Result<Schema, Stop>
    ensures value { Answers (ReadsSchema bytes.now) result }
    ensures kind { IfErr result (λ why. (is_of_query why ≡ false) × (is_of_tables why ≡ false)) }
    ensures numbered { IfErr result IsNumbered }
{
    if bytes.len() > MOST_BYTES {
        return Err(Stop::Refused(Fault::Schema {
            check: 14,
            at: MOST_BYTES,
        }));
    }
    match read_schema(alloc, bytes) {
        Ok(schema) => Ok(schema),
        Err(SchemaError::Fault(fault)) => Err(Stop::Refused(Fault::Schema {
            check: fault.check,
            at: fault.at,
        })),
        Err(SchemaError::Memory) => Err(Stop::Memory),
    }
}

/// The schema of a file.
pub fn load_schema<S: Store>(alloc: Global, store: &mut S, name: &str) -> Result<Schema, Stop>
    ensures ran { Ran (λ files. LoadsSchema files name.now) (S.state store.old) (S.state store.new) result }
    ensures asked { AsksThese (name.now ∷ []) (S.state store.old).asked (S.state store.new).asked result }
    ensures kind { IfErr result (λ why. (is_of_query why ≡ false) × (is_of_tables why ≡ false)) }
    ensures numbered { IfErr result IsNumbered }
{
    let bytes = match load_file(alloc, store, name) {
        Ok(bytes) => bytes,
        Err(stop) => return Err(stop),
    };
    schema_of(alloc, &bytes)
}

fn table_path(alloc: Global, folder: &str, table: &Table) -> Result<String, Memory>
    ensures { IfOk result (λ path. string_bytes path ≡ table_file folder.now table.now) }
{
    let name = iri_safe(alloc, table.name.as_str())?;
    let mut path = String::from_str(alloc, folder)?;
    path.push_str("/")?;
    path.push_str(name.as_str())?;
    path.push_str(".csv")?;
    Ok(path)
}

pub fn table_stop(fault: TableFault) -> Stop
    ensures { result ≡ stop_at fault }
{
    Stop::Refused(Fault::Table {
        check: fault.check,
        table: fault.table,
        row: fault.row,
        column: fault.column,
    })
}

#[tactic(auto, using(crate::proofs::Numbers::loaded_number))]
fn read_table(alloc: Global, db: &mut Database, k: usize, bytes: &[u8]) -> Result<(), Stop>
    requires { k < length db.old.schema }
    ensures read { Answers (λ outcome. outcome ≡ loaded_or (loaded db.old k bytes.now)) (carried db.new result) }
    ensures schema { db.new.schema ≡ db.old.schema }
    ensures kind { IfErr result (λ why. is_of_query why ≡ false) }
    ensures numbered { IfErr result IsNumbered }
{
    match db.load_table(alloc, k, bytes) {
        Ok(()) => Ok(()),
        Err(TableError::Fault(fault)) => Err(table_stop(fault)),
        Err(TableError::Memory) => Err(Stop::Memory),
    }
}

/// One table's file, in place of its rows.
fn load_table<S: Store>(
    alloc: Global,
    store: &mut S,
    folder: &str,
    db: &mut Database,
    k: usize,
    table: &Table,
) -> Result<(), Stop>
    requires { k < length db.old.schema }
    ensures ran { Ran (λ files. LoadsTable files folder.now db.old k table.now) (S.state store.old) (S.state store.new) (carried db.new result) }
    ensures schema { db.new.schema ≡ db.old.schema }
    ensures kind { IfErr result (λ why. is_of_query why ≡ false) }
    ensures numbered { IfErr result IsNumbered }
{
    let path = match table_path(alloc, folder, table) {
        Ok(path) => path,
        Err(Memory) => return Err(Stop::Memory),
    };
    let bytes = match load_file(alloc, store, path.as_str()) {
        Ok(bytes) => bytes,
        Err(stop) => return Err(stop),
    };
    read_table(alloc, db, k, &bytes)
}

/// The files of all tables, in the order of the schema.
pub fn load_tables<S: Store>(
    alloc: Global,
    store: &mut S,
    folder: &str,
    schema: &Schema,
) -> Result<Database, Stop>
    ensures ran { Ran (λ files. LoadsTables files folder.now (without_rows schema.now) 0 schema.now) (S.state store.old) (S.state store.new) result }
    ensures kind { IfErr result (λ why. is_of_query why ≡ false) }
    ensures numbered { IfErr result IsNumbered }
{
    let seed = Seed::new(store.seed());
    let mut db = match Database::with_seed(alloc, schema, seed) {
        Ok(db) => db,
        Err(Memory) => return Err(Stop::Memory),
    };
    for (k, table) in schema.tables().iter().enumerate() {
        match load_table(alloc, store, folder, &mut db, k, table) {
            Ok(()) => {}
            Err(stop) => return Err(stop),
        }
    }
    Ok(db)
}
