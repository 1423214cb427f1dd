// The lines of the standard error that name a fault. They take no memory.
ghost use Rattle.std.specs.Prelude.{◌≡◌, ◌≤◌, ◌++◌, codes, length, map};
ghost use Rattle.vkg_cli.specs.FaultLine.{data_words as data_words_of, fault_line as line_of, mapping_words as mapping_words_of, place_line as place_line_of, places_line as places_line_of, query_words as query_words_of, schema_words as schema_words_of, status_of, table_words as table_words_of, usage_line as usage_line_of, words_at as words_in};

use crate::{Fault, Usage};
use vkg_base::{FixedLine, Status};

/// The checks of a schema, by their number.
pub const SCHEMA_CHECKS: [&str; 16] = [
    "",
    "S01 lexical",
    "S02 grammar",
    "S03 table named twice",
    "S04 column named twice",
    "S05 type unknown",
    "S06 precision",
    "S07 key column unknown",
    "S08 key column twice",
    "S09 second primary key",
    "S10 reference table unknown",
    "S11 reference columns",
    "S12 target is no key",
    "S13 types incomparable",
    "S14 limit",
    "S15 not UTF-8",
];

/// The checks of tables, by their number.
pub const TABLE_CHECKS: [&str; 12] = [
    "",
    "T01 no header",
    "T02 column unknown",
    "T03 column twice or missing",
    "T04 row length",
    "T05 not UTF-8",
    "T06 bad value",
    "T07 NULL not allowed",
    "T08 number too wide",
    "T09 key repeated",
    "T10 reference without target",
    "T11 limit",
];

/// The checks of a mapping, by their number.
pub const MAPPING_CHECKS: [&str; 23] = [
    "",
    "M01 lexical",
    "M02 grammar",
    "M03 too deep",
    "M04 prefix unknown",
    "M05 bad IRI",
    "M06 logical table",
    "M07 table name",
    "M08 view",
    "M09 table unknown",
    "M10 subject map",
    "M11 term map kind",
    "M12 column unknown",
    "M13 bad template",
    "M14 doubtful template",
    "M15 term type",
    "M16 language or datatype",
    "M17 predicate or object missing",
    "M18 parent unknown",
    "M19 condition missing",
    "M20 incomparable columns",
    "M21 no triples map",
    "M22 limit",
];

/// The checks of the terms that a mapping makes of rows, by their number.
pub const DATA_CHECKS: [&str; 4] = ["", "X01 not an IRI", "X02 ill-typed", "X03 number too wide"];

/// The checks of a query, by their number.
pub const QUERY_CHECKS: [&str; 13] = [
    "",
    "Q01 lexical",
    "Q02 grammar",
    "Q03 too deep",
    "Q04 prefix unknown",
    "Q05 bad IRI",
    "Q06 blank label in two patterns",
    "Q07 outside the profile",
    "Q08 number too wide",
    "Q09 limit",
    "Q10 values width",
    "Q11 variable in use",
    "Q12 slice number",
];

fn words_at(checks: &[&'static str], check: u8) -> &'static str
    ensures { result.now ≡ words_in (map (λ words. words.now) checks.entry.now) check }
{
    match checks.get(check as usize) {
        Some(words) => *words,
        None => "",
    }
}

fn schema_words(check: u8) -> &'static str
    ensures words { result.now ≡ schema_words_of check }
    ensures short { length result.now ≤ 32 }
{
    words_at(&SCHEMA_CHECKS, check)
}

fn table_words(check: u8) -> &'static str
    ensures words { result.now ≡ table_words_of check }
    ensures short { length result.now ≤ 32 }
{
    words_at(&TABLE_CHECKS, check)
}

fn mapping_words(check: u8) -> &'static str
    ensures words { result.now ≡ mapping_words_of check }
    ensures short { length result.now ≤ 32 }
{
    words_at(&MAPPING_CHECKS, check)
}

fn data_words(check: u8) -> &'static str
    ensures words { result.now ≡ data_words_of check }
    ensures short { length result.now ≤ 32 }
{
    words_at(&DATA_CHECKS, check)
}

fn query_words(check: u8) -> &'static str
    ensures words { result.now ≡ query_words_of check }
    ensures short { length result.now ≤ 32 }
{
    words_at(&QUERY_CHECKS, check)
}

/// The line up to its places.
fn start(words: &str) -> FixedLine
    requires { length words.now ≤ 32 }
    ensures text { result ≡ codes "vkg: " ++ words.now ++ codes " at " }
    ensures short { length result ≤ 41 }
{
    let mut line = FixedLine::new();
    line.push_str("vkg: ");
    line.push_str(words);
    line.push_str(" at ");
    line
}

/// The line of a fault with one place.
fn place_line(words: &str, at: usize) -> FixedLine
    requires { length words.now ≤ 32 }
    ensures { result ≡ place_line_of words.now at }
{
    let mut line = start(words);
    line.push_number(at as u64);
    line.push_str("\n");
    line
}

/// The line of a fault with three places.
fn places_line(words: &str, first: usize, second: usize, third: usize) -> FixedLine
    requires { length words.now ≤ 32 }
    ensures { result ≡ places_line_of words.now first second third }
{
    let mut line = start(words);
    line.push_number(first as u64);
    line.push_str(":");
    line.push_number(second as u64);
    line.push_str(":");
    line.push_number(third as u64);
    line.push_str("\n");
    line
}

/// The line of a fault.
pub fn fault_line(fault: Fault) -> FixedLine
    ensures { result ≡ line_of fault }
{
    match fault {
        Fault::Schema { check, at } => place_line(schema_words(check), at),
        Fault::Table {
            check,
            table,
            row,
            column,
        } => places_line(table_words(check), table, row, column),
        Fault::Keyless { table } => place_line("D01 no primary key", table),
        Fault::Mapping { check, at } => place_line(mapping_words(check), at),
        Fault::Data {
            check,
            map,
            row,
            term,
        } => places_line(data_words(check), map, row, term),
        Fault::Query { check, at } => place_line(query_words(check), at),
    }
}

/// The status of a fault.
pub fn fault_status(fault: Fault) -> Status
    ensures { result ≡ status_of fault }
{
    match fault {
        Fault::Schema { .. } => Status::BadSchema,
        Fault::Table { .. } => Status::BadTable,
        Fault::Keyless { .. } | Fault::Mapping { .. } => Status::BadMapping,
        Fault::Data { .. } => Status::BadData,
        Fault::Query { .. } => Status::BadQuery,
    }
}

/// The line of words that are not taken.
pub fn usage_line(usage: Usage) -> &'static str
    ensures { result.now ≡ usage_line_of usage }
{
    match usage {
        Usage::Words => "vkg: words not taken\n",
        Usage::Base => "vkg: base is not an absolute IRI\n",
    }
}
