// The text of a command.
ghost use Rattle.std.specs.Prelude.{◌≡◌, IfErr, IfOk, true};
ghost use Rattle.vkg_terms.specs.Iri.{is_absolute};
ghost use Rattle.vkg_cli.specs.Headline.{IsTextOf};
ghost use Rattle.vkg_cli.specs.Stages.{Ran, Where};
ghost use Rattle.vkg_cli.specs.Words.{base_of, command_seen};
ghost use Rattle.vkg_cli.specs.Work.{AsksFirst, IsNumbered, MayStop, Works};

use crate::Stop;
use crate::dump::text_of_dump;
use crate::query::text_of_query;
use crate::sql::text_of_sql;
use crate::words::Command;
use std::alloc::Global;
use vkg_base::{Lines, Store};

/// The text of a command, or why there is none.
pub fn text_of<S: Store>(alloc: Global, store: &mut S, command: &Command<'_>) -> Result<Lines, Stop>
    requires { is_absolute (base_of (command_seen command.now)) ≡ true }
    ensures ran { Ran (Works (command_seen command.now)) (S.state store.old) (S.state store.new) result }
    ensures text { IfOk result (λ lines. Where (S.state store.old).files (λ files. IsTextOf (command_seen command.now) files lines)) }
    ensures asked { AsksFirst (command_seen command.now) (S.state store.old).asked (S.state store.new).asked }
    ensures kind { IfErr result (MayStop (command_seen command.now)) }
    ensures numbered { IfErr result IsNumbered }
{
    match command {
        Command::Dump(options) => text_of_dump(alloc, store, options),
        Command::Query(options) => text_of_query(alloc, store, options),
        Command::Sql(options) => text_of_sql(alloc, store, options),
    }
}
