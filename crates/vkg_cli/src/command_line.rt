// The command line's definition.
ghost use Rattle.std.specs.Prelude.{◌≡◌, IfOk, false};
ghost use Rattle.clap.specs.Words.{app_of, rule_of};
ghost use Rattle.clap.specs.declared.builder.Command.TheViews.{out-Command};
ghost use Rattle.vkg_cli.specs.CommandLine.{dump_app, gen_app, option_rule, optional_rule, query_app, sql_app, tables_app, vkg_alone, vkg_app, word_rule};

use clap::{Arg, ArgAction, Command};
use std::alloc::{AllocError, Global};

/// An option with one value, which has to be given.
fn option<'a>(alloc: Global, name: &'a str) -> Arg<'a>
    ensures rule { rule_of result ≡ option_rule name.entry.now }
    ensures local { result.global ≡ false }
{
    Arg::new(alloc, name)
        .long(name)
        .required(true)
        .action(ArgAction::Set)
}

/// An option with one value, which may be left out.
fn optional<'a>(alloc: Global, name: &'a str) -> Arg<'a>
    ensures rule { rule_of result ≡ optional_rule name.entry.now }
    ensures local { result.global ≡ false }
{
    Arg::new(alloc, name).long(name).action(ArgAction::Set)
}

/// A word of its own, which has to be given.
fn word<'a>(alloc: Global, name: &'a str) -> Arg<'a>
    ensures rule { rule_of result ≡ word_rule name.entry.now }
    ensures local { result.global ≡ false }
{
    Arg::new(alloc, name).required(true).action(ArgAction::Set)
}

/// A command over a schema, tables and a base.
fn over_tables<'a>(alloc: Global, name: &'a str) -> Result<Command<'a>, AllocError>
    ensures app { IfOk result (λ c. app_of c ≡ tables_app name.entry.now) }
    ensures local { IfOk result (λ c. (out-Command c).has_globals ≡ false) }
{
    Command::new(alloc, name)
        .arg(option(alloc, "schema"))?
        .arg(option(alloc, "data"))?
        .arg(option(alloc, "base"))
}

fn dump<'a>(alloc: Global) -> Result<Command<'a>, AllocError>
    ensures app { IfOk result (λ c. app_of c ≡ dump_app) }
    ensures local { IfOk result (λ c. (out-Command c).has_globals ≡ false) }
{
    over_tables(alloc, "dump")?.arg(optional(alloc, "mapping"))
}

fn query<'a>(alloc: Global) -> Result<Command<'a>, AllocError>
    ensures app { IfOk result (λ c. app_of c ≡ query_app) }
    ensures local { IfOk result (λ c. (out-Command c).has_globals ≡ false) }
{
    over_tables(alloc, "query")?
        .arg(option(alloc, "query"))?
        .arg(optional(alloc, "mapping"))
}

fn sql<'a>(alloc: Global) -> Result<Command<'a>, AllocError>
    ensures app { IfOk result (λ c. app_of c ≡ sql_app) }
    ensures local { IfOk result (λ c. (out-Command c).has_globals ≡ false) }
{
    Command::new(alloc, "sql")
        .arg(option(alloc, "schema"))?
        .arg(option(alloc, "base"))?
        .arg(option(alloc, "query"))?
        .arg(optional(alloc, "mapping"))
}

fn gen_command<'a>(alloc: Global) -> Result<Command<'a>, AllocError>
    ensures app { IfOk result (λ c. app_of c ≡ gen_app) }
    ensures local { IfOk result (λ c. (out-Command c).has_globals ≡ false) }
{
    Command::new(alloc, "gen").arg(word(alloc, "N"))
}

/// The program without a command. No flag or command asks for help or a version, and a command has to be named.
fn alone<'a>(alloc: Global) -> Command<'a>
    ensures { app_of result ≡ vkg_alone }
{
    Command::new(alloc, "vkg")
        .disable_help_flag(true)
        .disable_help_subcommand(true)
        .disable_version_flag(true)
        .subcommand_required(true)
}

/// The whole command line.
pub fn program<'a>(alloc: Global) -> Result<Command<'a>, AllocError>
    ensures { IfOk result (λ c. app_of c ≡ vkg_app) }
{
    alone(alloc)
        .subcommand(dump(alloc)?)?
        .subcommand(query(alloc)?)?
        .subcommand(sql(alloc)?)?
        .subcommand(gen_command(alloc)?)
}
