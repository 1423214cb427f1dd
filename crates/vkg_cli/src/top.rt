// The top call.
ghost use Rattle.std.specs.Prelude.{◌≡◌, ◌<◌, ◌≤◌, OnErr, OnOk, codes, map, string_bytes};
ghost use Rattle.std.specs.List.{flat_map};
ghost use Rattle.vkg_base.specs.Outside.{Broke, StoreState, Took};
ghost use Rattle.vkg_cli.specs.Answer.{Delivers, IsAnswer, Reports, Tells, TellsStop, World, WritesHelp};
ghost use Rattle.vkg_cli.specs.Clauses.{AsksByWords, AsksInOrder, HasNoneFallen, HelpIsGiven, IsComplete, IsDoneOnly, IsMemoryTold, IsNoOther, IsNoOtherText, IsReadFaultOnly, IsRefusedExactly, IsReported, IsUntouched, IsUsageExactly, IsWriteFaultOnly, KeepsFiles};
ghost use Rattle.vkg_cli.specs.FaultLine.{usage_line as usage_line_of};
ghost use Rattle.vkg_cli.specs.Words.{asked_of};

use crate::company::text_of_gen;
use crate::fault_line::{fault_line, fault_status, usage_line};
use crate::words::{Request, read_request};
use crate::work::text_of;
use crate::{Stop, Usage};
use std::alloc::Global;
use vkg_base::{Lines, Memory, Sink, Status, Store, WriteFault};

const HELP: [&str; 4] = [
    "vkg dump --schema F --data DIR --base IRI [--mapping F]\n",
    "vkg query --schema F --data DIR --base IRI --query F [--mapping F]\n",
    "vkg sql --schema F --base IRI --query F [--mapping F]\n",
    "vkg gen N\n",
];

/// Tells one line. A sink that fails changes nothing else.
fn tell<E: Sink>(err: &mut E, line: &str)
    ensures { Tells (E.state err.old) (E.state err.new) line.now }
{
    let _ = err.write(line.as_bytes());
}

/// Tells the line of a fault.
fn tell_bytes<E: Sink>(err: &mut E, line: &[u8])
    ensures { Tells (E.state err.old) (E.state err.new) line.now }
{
    let _ = err.write(line);
}

/// Tells why words are not taken.
pub fn refuse<E: Sink>(usage: Usage, err: &mut E) -> Status
    ensures status { result ≡ Status.Usage }
    ensures told { Tells (E.state err.old) (E.state err.new) (usage_line_of usage) }
{
    tell(err, usage_line(usage));
    Status::Usage
}

/// Tells that memory is short.
pub fn give_up<E: Sink>(err: &mut E) -> Status
    ensures status { result ≡ Status.Memory }
    ensures told { Tells (E.state err.old) (E.state err.new) (codes "vkg: want of memory\n") }
{
    tell(err, "vkg: want of memory\n");
    Status::Memory
}

/// Tells why there is no text.
fn tell_stop<E: Sink>(stop: Stop, err: &mut E) -> Status
    ensures { TellsStop stop (E.state err.old) (E.state err.new) result }
{
    match stop {
        Stop::Refused(fault) => {
            tell_bytes(err, fault_line(fault).as_bytes());
            fault_status(fault)
        }
        Stop::Read => {
            tell(err, "vkg: read fault\n");
            Status::ReadFault
        }
        Stop::Memory => {
            tell(err, "vkg: want of memory\n");
            Status::Memory
        }
    }
}

/// Writes the text, or tells why there is none.
fn deliver<O: Sink, E: Sink>(made: Result<Lines, Stop>, out: &mut O, err: &mut E) -> Status
    ensures { Delivers made (O.state out.old) (O.state out.new) (E.state err.old) (E.state err.new) result }
{
    match made {
        Ok(lines) => match lines.write_all(out) {
            Ok(()) => Status::Done,
            Err(_) => {
                tell(err, "vkg: write fault\n");
                Status::WriteFault
            }
        },
        Err(stop) => tell_stop(stop, err),
    }
}

/// Writes each line, with its line feed.
fn write_each<O: Sink>(lines: &[&'static str], out: &mut O) -> Result<(), WriteFault>
    ensures ok { OnOk result (Took (O.state out.old) (O.state out.new) (flat_map (λ line. line.now) lines.now)) }
    ensures fault { OnErr result (Broke (O.state out.old) (O.state out.new) (flat_map (λ line. line.now) lines.now)) }
{
    for line in lines {
        let Ok(()) = out.write(line.as_bytes()) else {
            return Err(WriteFault);
        };
    }
    Ok(())
}

fn write_help<O: Sink, E: Sink>(out: &mut O, err: &mut E) -> Status
    ensures { WritesHelp (O.state out.old) (O.state out.new) (E.state err.old) (E.state err.new) result }
{
    match write_each(&HELP, out) {
        Ok(()) => Status::Done,
        Err(_) => {
            tell(err, "vkg: write fault\n");
            Status::WriteFault
        }
    }
}

/// Writes the report on a company, or tells why there is none. No file is asked for.
fn write_report<O: Sink, E: Sink>(alloc: Global, n: usize, out: &mut O, err: &mut E) -> Status
    requires some { 0 < n }
    requires limit { n ≤ 100000 }
    ensures { (store : StoreState) → Reports n
        (record { store = store; out = O.state out.old; err = E.state err.old })
        (record { store = store; out = O.state out.new; err = E.state err.new }) result }
{
    let made = text_of_gen(alloc, n);
    deliver(made, out, err)
}

fn run<S: Store, O: Sink, E: Sink>(
    alloc: Global,
    words: &Vec<String>,
    store: &mut S,
    out: &mut O,
    err: &mut E,
) -> Status
    ensures { IsAnswer (asked_of (map string_bytes words.now.items))
        (record { store = S.state store.old; out = O.state out.old; err = E.state err.old })
        (record { store = S.state store.new; out = O.state out.new; err = E.state err.new }) result }
{
    match read_request(alloc, words) {
        Ok(Request::Help) => write_help(out, err),
        Ok(Request::Refused(usage)) => {
            tell(err, usage_line(usage));
            Status::Usage
        }
        Ok(Request::Run(command)) => {
            let made = text_of(alloc, store, &command);
            deliver(made, out, err)
        }
        Ok(Request::Gen(n)) => write_report(alloc, n, out, err),
        Err(Memory) => {
            tell(err, "vkg: want of memory\n");
            Status::Memory
        }
    }
}

/// Does what the words ask for, of which the first is the program's name: loads files from the store, writes to `out`, and
/// tells one line of `err` where it stops.
#[tactic(auto, using(crate::proofs::Clauses::done_only, crate::proofs::Clauses::usage_exactly, crate::proofs::Clauses::bad_schema, crate::proofs::Clauses::bad_table, crate::proofs::Clauses::bad_mapping, crate::proofs::Clauses::bad_data, crate::proofs::Clauses::bad_query, crate::proofs::Clauses::read_only, crate::proofs::Clauses::write_only, crate::proofs::Clauses::memory_told, crate::proofs::Clauses::no_other, crate::proofs::Clauses::complete, crate::proofs::Clauses::help_given, crate::proofs::Clauses::reported, crate::proofs::Clauses::untouched, crate::proofs::Clauses::in_order, crate::proofs::Clauses::no_other_text, crate::proofs::Clauses::by_words, crate::proofs::Clauses::keeps_files, crate::proofs::Clauses::none_fallen))]
pub fn vkg<S: Store, O: Sink, E: Sink>(
    alloc: Global,
    words: &Vec<String>,
    store: &mut S,
    out: &mut O,
    err: &mut E,
) -> Status
    ensures done { IsDoneOnly (asked_of (map string_bytes words.now.items))
        (record { store = S.state store.old; out = O.state out.old; err = E.state err.old })
        (record { store = S.state store.new; out = O.state out.new; err = E.state err.new }) result }
    ensures usage { IsUsageExactly (asked_of (map string_bytes words.now.items))
        (record { store = S.state store.old; out = O.state out.old; err = E.state err.old })
        (record { store = S.state store.new; out = O.state out.new; err = E.state err.new }) result }
    ensures bad_schema { IsRefusedExactly Status.BadSchema (asked_of (map string_bytes words.now.items))
        (record { store = S.state store.old; out = O.state out.old; err = E.state err.old })
        (record { store = S.state store.new; out = O.state out.new; err = E.state err.new }) result }
    ensures bad_table { IsRefusedExactly Status.BadTable (asked_of (map string_bytes words.now.items))
        (record { store = S.state store.old; out = O.state out.old; err = E.state err.old })
        (record { store = S.state store.new; out = O.state out.new; err = E.state err.new }) result }
    ensures bad_mapping { IsRefusedExactly Status.BadMapping (asked_of (map string_bytes words.now.items))
        (record { store = S.state store.old; out = O.state out.old; err = E.state err.old })
        (record { store = S.state store.new; out = O.state out.new; err = E.state err.new }) result }
    ensures bad_data { IsRefusedExactly Status.BadData (asked_of (map string_bytes words.now.items))
        (record { store = S.state store.old; out = O.state out.old; err = E.state err.old })
        (record { store = S.state store.new; out = O.state out.new; err = E.state err.new }) result }
    ensures bad_query { IsRefusedExactly Status.BadQuery (asked_of (map string_bytes words.now.items))
        (record { store = S.state store.old; out = O.state out.old; err = E.state err.old })
        (record { store = S.state store.new; out = O.state out.new; err = E.state err.new }) result }
    ensures read_fault { IsReadFaultOnly
        (record { store = S.state store.old; out = O.state out.old; err = E.state err.old })
        (record { store = S.state store.new; out = O.state out.new; err = E.state err.new }) result }
    ensures write_fault { IsWriteFaultOnly (asked_of (map string_bytes words.now.items))
        (record { store = S.state store.old; out = O.state out.old; err = E.state err.old })
        (record { store = S.state store.new; out = O.state out.new; err = E.state err.new }) result }
    ensures memory { IsMemoryTold
        (record { store = S.state store.old; out = O.state out.old; err = E.state err.old })
        (record { store = S.state store.new; out = O.state out.new; err = E.state err.new }) result }
    ensures no_other { IsNoOther (asked_of (map string_bytes words.now.items)) result }
    ensures complete { IsComplete (asked_of (map string_bytes words.now.items))
        (record { store = S.state store.old; out = O.state out.old; err = E.state err.old })
        (record { store = S.state store.new; out = O.state out.new; err = E.state err.new }) result }
    ensures no_other_text { IsNoOtherText (asked_of (map string_bytes words.now.items))
        (record { store = S.state store.old; out = O.state out.old; err = E.state err.old })
        (record { store = S.state store.new; out = O.state out.new; err = E.state err.new }) result }
    ensures reported { IsReported (asked_of (map string_bytes words.now.items))
        (record { store = S.state store.old; out = O.state out.old; err = E.state err.old })
        (record { store = S.state store.new; out = O.state out.new; err = E.state err.new }) result }
    ensures help { HelpIsGiven (asked_of (map string_bytes words.now.items)) result }
    ensures untouched { IsUntouched
        (record { store = S.state store.old; out = O.state out.old; err = E.state err.old })
        (record { store = S.state store.new; out = O.state out.new; err = E.state err.new }) result }
    ensures in_order { AsksInOrder (asked_of (map string_bytes words.now.items))
        (record { store = S.state store.old; out = O.state out.old; err = E.state err.old })
        (record { store = S.state store.new; out = O.state out.new; err = E.state err.new }) }
    ensures by_words { AsksByWords (asked_of (map string_bytes words.now.items))
        (record { store = S.state store.old; out = O.state out.old; err = E.state err.old })
        (record { store = S.state store.new; out = O.state out.new; err = E.state err.new }) }
    ensures files { KeepsFiles
        (record { store = S.state store.old; out = O.state out.old; err = E.state err.old })
        (record { store = S.state store.new; out = O.state out.new; err = E.state err.new }) }
    ensures none_fallen { HasNoneFallen
        (record { store = S.state store.old; out = O.state out.old; err = E.state err.old })
        (record { store = S.state store.new; out = O.state out.new; err = E.state err.new }) result }
{
    run(alloc, words, store, out, err)
}
