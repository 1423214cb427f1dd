// The texts of constants and of the names of kinds and operators.
ghost use Rattle.std.specs.Prelude.{◌≡◌, ◌++◌, IfOk, codes};
ghost use Rattle.vkg_sqltext.specs.Text.{compare_text, constant_text as text_of_constant, kind_text, operator_text, quoted as quoted_text, take_text, test_text};

use crate::lists::{push_quoted, quoted};
use std::alloc::Global;
use vkg_base::{Memory, Text};
use vkg_cells::{Cell, SqlType};
use vkg_expr::Operator;
use vkg_terms::term_text;
use vkg_values::{Compare, Take, Test};

pub fn kind_name(kind: SqlType) -> &'static str
    ensures { result.now ≡ kind_text kind }
{
    match kind {
        SqlType::Int => "INT",
        SqlType::Dec => "DEC",
        SqlType::Bool => "BOOL",
        SqlType::Text => "TEXT",
        SqlType::Date => "DATE",
        SqlType::Stamp => "STAMP",
        SqlType::Bin => "BIN",
        SqlType::Time => "TIME",
        SqlType::Term => "TERM",
    }
}

pub fn operator_name(operator: Operator) -> &'static str
    ensures { result.now ≡ operator_text operator }
{
    match operator {
        Operator::Compare(compare) => compare_name(compare),
        Operator::Take(take) => take_name(take),
        Operator::Test(test) => test_name(test),
    }
}

fn compare_name(compare: Compare) -> &'static str
    ensures { result.now ≡ compare_text compare }
{
    match compare {
        Compare::Equal => "EQ",
        Compare::NotEqual => "NE",
        Compare::Less => "LT",
        Compare::Greater => "GT",
        Compare::LessOrEqual => "LE",
        Compare::GreaterOrEqual => "GE",
        Compare::Starts => "STRSTARTS",
        Compare::Ends => "STRENDS",
        Compare::Contains => "CONTAINS",
    }
}

fn take_name(take: Take) -> &'static str
    ensures { result.now ≡ take_text take }
{
    match take {
        Take::Str => "STR",
        Take::Lang => "LANG",
        Take::Datatype => "DATATYPE",
        Take::Length => "STRLEN",
    }
}

fn test_name(test: Test) -> &'static str
    ensures { result.now ≡ test_text test }
{
    match test {
        Test::IsIri => "IS_IRI",
        Test::IsBlank => "IS_BLANK",
        Test::IsLiteral => "IS_LITERAL",
        Test::IsNumeric => "IS_NUMERIC",
    }
}

pub fn constant_text(alloc: Global, cell: &Cell, kind: SqlType) -> Result<Text, Memory>
    ensures { IfOk result (λ t. t ≡ text_of_constant cell.now kind) }
{
    match cell {
        Cell::Null => null_text(alloc, kind),
        Cell::Int(form) => tagged(alloc, "INT ", form.as_str()),
        Cell::Dec(form) => tagged(alloc, "DEC ", form.as_str()),
        Cell::Bool(true) => Text::new(alloc, "TRUE"),
        Cell::Bool(false) => Text::new(alloc, "FALSE"),
        Cell::Text(text) => quoted(alloc, text.as_str()),
        Cell::Date(form) => tagged(alloc, "DATE ", form.as_str()),
        Cell::Stamp(form) => tagged(alloc, "STAMP ", form.as_str()),
        Cell::Bin(form) => tagged(alloc, "BIN ", form.as_str()),
        Cell::Time(form) => tagged(alloc, "TIME ", form.as_str()),
        Cell::Term(term) => tagged(alloc, "TERM ", term_text(alloc, term)?.as_str()),
    }
}

fn null_text(alloc: Global, kind: SqlType) -> Result<Text, Memory>
    ensures { IfOk result (λ t. t ≡ codes "CAST(NULL AS " ++ kind_text kind ++ codes ")") }
{
    let mut out = String::from_str(alloc, "CAST(NULL AS ")?;
    out.push_str(kind_name(kind))?;
    out.push_str(")")?;
    Ok(Text::from_string(out))
}

/// A word, and a text within quotes.
fn tagged(alloc: Global, word: &str, text: &str) -> Result<Text, Memory>
    ensures { IfOk result (λ t. t ≡ word.now ++ quoted_text text.now) }
{
    let mut out = String::from_str(alloc, word)?;
    push_quoted(&mut out, text)?;
    Ok(Text::from_string(out))
}
