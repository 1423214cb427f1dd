// What the words of the command line ask for.
ghost use Rattle.std.specs.Prelude.{◌≡◌, ◌≢◌, ◌↔◌, [], IfNone, IfOk, IfSome, IsTrue, IsOk, map, option_and_then, option_map, string_bytes};
ghost use Rattle.clap.specs.Words.{fault_of, first_of, found_of, rows_of, subcommand_of, subcommand_rows_of};
ghost use Rattle.vkg_cli.specs.CommandLine.{vkg_app};
ghost use Rattle.vkg_cli.specs.Words.{AreNotTaken, IsFit, asked_of, asked_or, base_of as base_of_command, command_seen, dump_words, gen_words, is_help, named_words, query_words, request_seen, sql_words, taken_command, with_base as asked_for};

use crate::Usage;
use crate::command_line::program;
use clap::ArgMatches;
use clap::error::ErrorKind;
use std::alloc::Global;
use vkg_base::Memory;
use vkg_company::count_of;
use vkg_terms::is_absolute;

/// The values of the options of `dump`.
#[derive(Clone, Copy, Debug, PartialEq, Eq)]
pub struct DumpOptions<'w> {
    /// The file of the schema.
    pub schema: &'w str,
    /// The folder of the tables' files.
    pub data: &'w str,
    /// The base IRI.
    pub base: &'w str,
    /// The file of the mapping; without one it is the direct mapping.
    pub mapping: Option<&'w str>,
}

/// The values of the options of `query`.
#[derive(Clone, Copy, Debug, PartialEq, Eq)]
pub struct QueryOptions<'w> {
    /// The file of the schema.
    pub schema: &'w str,
    /// The folder of the tables' files.
    pub data: &'w str,
    /// The base IRI.
    pub base: &'w str,
    /// The file of the query.
    pub query: &'w str,
    /// The file of the mapping; without one it is the direct mapping.
    pub mapping: Option<&'w str>,
}

/// The values of the options of `sql`.
#[derive(Clone, Copy, Debug, PartialEq, Eq)]
pub struct SqlOptions<'w> {
    /// The file of the schema.
    pub schema: &'w str,
    /// The base IRI.
    pub base: &'w str,
    /// The file of the query.
    pub query: &'w str,
    /// The file of the mapping; without one it is the direct mapping.
    pub mapping: Option<&'w str>,
}

/// A command over files, with its options.
#[derive(Clone, Copy, Debug, PartialEq, Eq)]
pub enum Command<'w> {
    Dump(DumpOptions<'w>),
    Query(QueryOptions<'w>),
    Sql(SqlOptions<'w>),
}

/// What the words ask for.
#[derive(Clone, Copy, Debug, PartialEq, Eq)]
pub enum Request<'w> {
    Help,
    Refused(Usage),
    Run(Command<'w>),
    /// The report on the company of so many employees.
    Gen(usize),
}

/// The first value of an option.
fn value<'w>(matches: &ArgMatches<'w>, name: &str) -> Option<&'w str>
    ensures { option_map (λ s. s.now) result ≡ first_of name.now (rows_of (found_of matches.now)) }
{
    matches.get_str(name)
}

fn read_dump<'w>(matches: &ArgMatches<'w>) -> Option<Command<'w>>
    ensures { option_map command_seen result ≡ dump_words (rows_of (found_of matches.now)) }
{
    Some(Command::Dump(DumpOptions {
        schema: value(matches, "schema")?,
        data: value(matches, "data")?,
        base: value(matches, "base")?,
        mapping: value(matches, "mapping"),
    }))
}

fn read_query<'w>(matches: &ArgMatches<'w>) -> Option<Command<'w>>
    ensures { option_map command_seen result ≡ query_words (rows_of (found_of matches.now)) }
{
    Some(Command::Query(QueryOptions {
        schema: value(matches, "schema")?,
        data: value(matches, "data")?,
        base: value(matches, "base")?,
        query: value(matches, "query")?,
        mapping: value(matches, "mapping"),
    }))
}

fn read_sql<'w>(matches: &ArgMatches<'w>) -> Option<Command<'w>>
    ensures { option_map command_seen result ≡ sql_words (rows_of (found_of matches.now)) }
{
    Some(Command::Sql(SqlOptions {
        schema: value(matches, "schema")?,
        base: value(matches, "base")?,
        query: value(matches, "query")?,
        mapping: value(matches, "mapping"),
    }))
}

/// The base of a command.
fn base_of<'w>(command: &Command<'w>) -> &'w str
    ensures { result.now ≡ base_of_command (command_seen command.now) }
{
    match command {
        Command::Dump(options) => options.base,
        Command::Query(options) => options.base,
        Command::Sql(options) => options.base,
    }
}

fn with_base<'w>(command: Option<Command<'w>>) -> Option<Request<'w>>
    ensures value { option_map request_seen result ≡ option_map asked_for (option_map command_seen command.entry) }
    ensures fit { IfSome result IsFit }
{
    match command {
        None => None,
        Some(command) => {
            if is_absolute(base_of(&command)) {
                Some(Request::Run(command))
            } else {
                Some(Request::Refused(Usage::Base))
            }
        }
    }
}

fn read_gen<'w>(matches: &ArgMatches<'w>) -> Option<Request<'w>>
    ensures value { option_map request_seen result ≡ gen_words (rows_of (found_of matches.now)) }
    ensures fit { IfSome result IsFit }
{
    match count_of(value(matches, "N")?) {
        None => None,
        Some(n) => Some(Request::Gen(n)),
    }
}

fn read_named<'w>(name: &str, matches: &ArgMatches<'w>) -> Option<Request<'w>>
    ensures value { option_map request_seen result ≡ named_words name.now (rows_of (found_of matches.now)) }
    ensures fit { IfSome result IsFit }
{
    match name {
        "dump" => with_base(read_dump(matches)),
        "query" => with_base(read_query(matches)),
        "sql" => with_base(read_sql(matches)),
        "gen" => read_gen(matches),
        _ => None,
    }
}

fn read_matches<'w>(matches: &ArgMatches<'w>) -> Option<Request<'w>>
    ensures value { option_map request_seen result ≡ option_and_then (λ p. named_words p.0 p.1) (subcommand_rows_of matches.now) }
    ensures fit { IfSome result IsFit }
{
    let (name, inner) = matches.subcommand()?;
    read_named(name, inner)
}

/// What a command asks for, where the command line's definition takes the words.
fn read_command<'w>(alloc: Global, words: &'w Vec<String>) -> Result<Option<Request<'w>>, Memory>
    ensures value { IfOk result (λ r. option_map request_seen r ≡ taken_command (map string_bytes words.entry.now.items)) }
    ensures taken { IfOk result (λ r. IfSome r (λ _. fault_of vkg_app (map string_bytes words.entry.now.items) ≡ [])) }
    ensures refused { IfOk result (λ r. IfNone r (AreNotTaken (map string_bytes words.entry.now.items))) }
    ensures fit { IfOk result (λ r. IfSome r IsFit) }
{
    let program = program(alloc)?;
    match program.try_get_matches_from(words.as_slice()) {
        Ok(matches) => Ok(read_matches(&matches)),
        Err(error) => match error.kind() {
            ErrorKind::OutOfMemory => Err(Memory),
            _ => Ok(None),
        },
    }
}

/// Whether the words are a help request.
fn is_help_request(words: &[String]) -> bool
    ensures { result ≡ is_help (map string_bytes words.now) }
{
    match words {
        [_program, word] => word.as_str() == "--help",
        _ => false,
    }
}

/// Words that are not taken are refused.
fn or_refused<'w>(request: Option<Request<'w>>) -> Request<'w>
    requires { IfSome request IsFit }
    ensures value { request_seen result ≡ asked_or (option_map request_seen request.entry) }
    ensures fit { IsFit result }
{
    match request {
        None => Request::Refused(Usage::Words),
        Some(request) => request,
    }
}

/// What the words ask for, of which the first is the program's name. A help request takes no memory.
pub fn read_request<'w>(alloc: Global, words: &'w Vec<String>) -> Result<Request<'w>, Memory>
    ensures value { IfOk result (λ r. request_seen r ≡ asked_of (map string_bytes words.entry.now.items)) }
    ensures help { IsTrue (is_help (map string_bytes words.entry.now.items)) → IsOk result }
    ensures fit { IfOk result IsFit }
{
    if is_help_request(words) {
        return Ok(Request::Help);
    }
    Ok(or_refused(read_command(alloc, words)?))
}
