// A mapping without a data error.
ghost use Rattle.std.specs.Prelude.{◌≡◌, [], None, IfErr, IfOk, OnOk, false, option_map, true};
ghost use Rattle.vkg_terms.specs.Iri.{is_absolute};
ghost use Rattle.vkg_schema.specs.Meets.{MeetsSchema};
ghost use Rattle.vkg_maps.specs.DataFaults.{data_faults, least_data_fault};
ghost use Rattle.vkg_maps.specs.Within.{IsWithin};
ghost use Rattle.vkg_direct.specs.Laws.{GivesDirectGraph};
ghost use Rattle.vkg_cli.specs.Stages.{Answers, Ran, carried};
ghost use Rattle.vkg_cli.specs.Work.{IsNumbered, LoadsFaultless, Scans, data_stop as stop_of, is_of_query};

use crate::mapping::load_mapping;
use crate::{Fault, Stop};
use std::alloc::Global;
use vkg_base::{Memory, Store};
use vkg_maps::{DataFault, Mapping};
use vkg_quads::scan_data;
use vkg_tables::Database;

fn data_stop(fault: DataFault) -> Stop
    ensures { result ≡ stop_of fault }
{
    Stop::Refused(Fault::Data {
        check: fault.fault.check(),
        map: fault.map,
        row: fault.row,
        term: fault.term,
    })
}

/// The least data error of a mapping over the tables.
#[tactic(auto, using(crate::proofs::Numbers::data_number))]
fn scan(alloc: Global, mapping: &Mapping, db: &Database) -> Result<(), Stop>
    ensures value { Answers (Scans db.now.tables mapping.now) (carried mapping.now result) }
    ensures none { OnOk result (least_data_fault mapping.now db.now.tables ≡ None) }
    ensures kind { IfErr result (λ why. is_of_query why ≡ false) }
    ensures numbered { IfErr result IsNumbered }
{
    match scan_data(alloc, mapping, db) {
        Err(Memory) => Err(Stop::Memory),
        Ok(Some(fault)) => Err(data_stop(fault)),
        Ok(None) => Ok(()),
    }
}

/// The least data error of a file's mapping. The direct mapping has none, and its rows are not scanned for one.
fn scan_file(
    alloc: Global,
    file: Option<&str>,
    mapping: &Mapping,
    db: &Database,
) -> Result<(), Stop>
    requires { file ≡ None → least_data_fault mapping.now db.now.tables ≡ None }
    ensures value { Answers (Scans db.now.tables mapping.now) (carried mapping.now result) }
    ensures none { OnOk result (least_data_fault mapping.now db.now.tables ≡ None) }
    ensures kind { IfErr result (λ why. is_of_query why ≡ false) }
    ensures numbered { IfErr result IsNumbered }
{
    match file {
        None => Ok(()),
        Some(_) => scan(alloc, mapping, db),
    }
}

/// The mapping of a file, or the direct mapping, which makes each of its terms over the tables.
pub fn load_faultless<S: Store>(
    alloc: Global,
    store: &mut S,
    file: Option<&str>,
    db: &Database,
    base: &str,
) -> Result<Mapping, Stop>
    requires base { is_absolute base.now ≡ true }
    requires meets { MeetsSchema db.now.schema db.now.tables }
    ensures ran { Ran (λ files. LoadsFaultless files (option_map (λ s. s.now) file.entry) db.now base.now) (S.state store.old) (S.state store.new) result }
    ensures within { IfOk result (IsWithin db.now.schema) }
    ensures graph { file.entry ≡ None → IfOk result (GivesDirectGraph db.now.schema base.now) }
    ensures faultless { IfOk result (λ mapping. data_faults mapping db.now.tables ≡ []) }
    ensures kind { IfErr result (λ why. is_of_query why ≡ false) }
    ensures numbered { IfErr result IsNumbered }
{
    let mapping = match load_mapping(alloc, store, file, db.schema(), base) {
        Ok(mapping) => mapping,
        Err(stop) => return Err(stop),
    };
    match scan_file(alloc, file, &mapping, db) {
        Ok(()) => Ok(mapping),
        Err(stop) => Err(stop),
    }
}
