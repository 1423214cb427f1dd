ghost use Rattle.std.specs.Prelude.{◌≡◌, ◌<◌};
ghost use Rattle.vkg_tokens.specs.Words.{is_exactly, is_caseless, turtle_word, turtle_tag, is_outside_form, is_outside_call, outside_word, modifier_word, pattern_word, string_word, call_word, sparql_word};
ghost use Rattle.vkg_tokens.specs.declared.sparql_kinds.TheConstants as sparql;
ghost use Rattle.vkg_tokens.specs.declared.turtle_kinds.TheConstants as turtle;

use crate::{sparql_kinds, turtle_kinds};

fn is_exactly(text: &[u8], word: &[u8]) -> bool
    ensures { result ≡ is_exactly text.now word.now }
{
    text == word
}

/// Whether a text is this word, whatever the case of ASCII letters.
pub fn is_caseless(text: &[u8], word: &[u8]) -> bool
    ensures { result ≡ is_caseless text.now word.now }
{
    text.eq_ignore_ascii_case(word)
}

/// The kind of a word in Turtle.
#[tactic(auto, unfolding(crate::specs::Words::turtle_word))]
pub fn turtle_word(text: &[u8]) -> usize
    ensures kind { result ≡ turtle_word text.now }
    ensures below { result < turtle.KIND_COUNT }
{
    if is_exactly(text, b"a") {
        turtle_kinds::IS_A
    } else if is_exactly(text, b"true") {
        turtle_kinds::TRUE
    } else if is_exactly(text, b"false") {
        turtle_kinds::FALSE
    } else if is_caseless(text, b"prefix") {
        turtle_kinds::PREFIX
    } else if is_caseless(text, b"base") {
        turtle_kinds::BASE
    } else {
        turtle_kinds::WORD
    }
}

/// The kind of a language tag in Turtle, where two are directives.
#[tactic(auto, unfolding(crate::specs::Words::turtle_tag))]
pub fn turtle_tag(text: &[u8]) -> usize
    ensures kind { result ≡ turtle_tag text.now }
    ensures below { result < turtle.KIND_COUNT }
{
    if is_exactly(text, b"@prefix") {
        turtle_kinds::AT_PREFIX
    } else if is_exactly(text, b"@base") {
        turtle_kinds::AT_BASE
    } else {
        turtle_kinds::LANGTAG
    }
}

#[tactic(auto, unfolding(crate::specs::Words::is_outside_form))]
fn is_outside_form(text: &[u8]) -> bool
    ensures { result ≡ is_outside_form text.now }
{
    is_caseless(text, b"describe")
        || is_caseless(text, b"from")
        || is_caseless(text, b"service")
        || is_caseless(text, b"group")
        || is_caseless(text, b"having")
        || is_caseless(text, b"insert")
        || is_caseless(text, b"delete")
        || is_caseless(text, b"load")
        || is_caseless(text, b"clear")
}

#[tactic(auto, unfolding(crate::specs::Words::is_outside_call))]
fn is_outside_call(text: &[u8]) -> bool
    ensures { result ≡ is_outside_call text.now }
{
    is_caseless(text, b"count")
        || is_caseless(text, b"sum")
        || is_caseless(text, b"min")
        || is_caseless(text, b"max")
        || is_caseless(text, b"avg")
        || is_caseless(text, b"sample")
        || is_caseless(text, b"group_concat")
        || is_caseless(text, b"exists")
        || is_caseless(text, b"not")
        || is_caseless(text, b"in")
        || is_caseless(text, b"regex")
        || is_caseless(text, b"if")
        || is_caseless(text, b"coalesce")
        || is_caseless(text, b"langmatches")
}

#[tactic(auto, unfolding(crate::specs::Words::outside_word))]
fn outside_word(text: &[u8]) -> usize
    ensures kind { result ≡ outside_word text.now }
    ensures below { result < sparql.KIND_COUNT }
{
    if is_outside_form(text) || is_outside_call(text) {
        sparql_kinds::OUTSIDE
    } else {
        sparql_kinds::WORD
    }
}

#[tactic(auto, unfolding(crate::specs::Words::modifier_word))]
fn modifier_word(text: &[u8]) -> usize
    ensures kind { result ≡ modifier_word text.now }
    ensures below { result < sparql.KIND_COUNT }
{
    if is_caseless(text, b"order") {
        sparql_kinds::ORDER
    } else if is_caseless(text, b"by") {
        sparql_kinds::BY
    } else if is_caseless(text, b"asc") {
        sparql_kinds::ASC
    } else if is_caseless(text, b"desc") {
        sparql_kinds::DESC
    } else if is_caseless(text, b"limit") {
        sparql_kinds::LIMIT
    } else if is_caseless(text, b"offset") {
        sparql_kinds::OFFSET
    } else {
        outside_word(text)
    }
}

#[tactic(auto, unfolding(crate::specs::Words::pattern_word))]
fn pattern_word(text: &[u8]) -> usize
    ensures kind { result ≡ pattern_word text.now }
    ensures below { result < sparql.KIND_COUNT }
{
    if is_caseless(text, b"ask") {
        sparql_kinds::ASK
    } else if is_caseless(text, b"construct") {
        sparql_kinds::CONSTRUCT
    } else if is_caseless(text, b"minus") {
        sparql_kinds::MINUS
    } else if is_caseless(text, b"bind") {
        sparql_kinds::BIND
    } else if is_caseless(text, b"as") {
        sparql_kinds::AS
    } else if is_caseless(text, b"values") {
        sparql_kinds::VALUES
    } else if is_caseless(text, b"undef") {
        sparql_kinds::UNDEF
    } else {
        modifier_word(text)
    }
}

#[tactic(auto, unfolding(crate::specs::Words::string_word))]
fn string_word(text: &[u8]) -> usize
    ensures kind { result ≡ string_word text.now }
    ensures below { result < sparql.KIND_COUNT }
{
    if is_caseless(text, b"strlen") {
        sparql_kinds::STRLEN
    } else if is_caseless(text, b"strstarts") {
        sparql_kinds::STRSTARTS
    } else if is_caseless(text, b"strends") {
        sparql_kinds::STRENDS
    } else if is_caseless(text, b"contains") {
        sparql_kinds::CONTAINS
    } else {
        pattern_word(text)
    }
}

#[tactic(auto, unfolding(crate::specs::Words::call_word))]
fn call_word(text: &[u8]) -> usize
    ensures kind { result ≡ call_word text.now }
    ensures below { result < sparql.KIND_COUNT }
{
    if is_caseless(text, b"bound") {
        sparql_kinds::BOUND
    } else if is_caseless(text, b"sameterm") {
        sparql_kinds::SAMETERM
    } else if is_caseless(text, b"isiri") {
        sparql_kinds::ISIRI
    } else if is_caseless(text, b"isuri") {
        sparql_kinds::ISURI
    } else if is_caseless(text, b"isblank") {
        sparql_kinds::ISBLANK
    } else if is_caseless(text, b"isliteral") {
        sparql_kinds::ISLITERAL
    } else if is_caseless(text, b"isnumeric") {
        sparql_kinds::ISNUMERIC
    } else if is_caseless(text, b"str") {
        sparql_kinds::STR
    } else if is_caseless(text, b"lang") {
        sparql_kinds::LANG
    } else if is_caseless(text, b"datatype") {
        sparql_kinds::DATATYPE
    } else {
        string_word(text)
    }
}

/// The kind of a word in SPARQL.
#[tactic(auto, unfolding(crate::specs::Words::sparql_word))]
pub fn sparql_word(text: &[u8]) -> usize
    ensures kind { result ≡ sparql_word text.now }
    ensures below { result < sparql.KIND_COUNT }
{
    if is_exactly(text, b"a") {
        sparql_kinds::IS_A
    } else if is_caseless(text, b"true") {
        sparql_kinds::TRUE
    } else if is_caseless(text, b"false") {
        sparql_kinds::FALSE
    } else if is_caseless(text, b"base") {
        sparql_kinds::BASE
    } else if is_caseless(text, b"prefix") {
        sparql_kinds::PREFIX
    } else if is_caseless(text, b"select") {
        sparql_kinds::SELECT
    } else if is_caseless(text, b"distinct") {
        sparql_kinds::DISTINCT
    } else if is_caseless(text, b"reduced") {
        sparql_kinds::REDUCED
    } else if is_caseless(text, b"where") {
        sparql_kinds::WHERE
    } else if is_caseless(text, b"optional") {
        sparql_kinds::OPTIONAL
    } else if is_caseless(text, b"graph") {
        sparql_kinds::GRAPH
    } else if is_caseless(text, b"filter") {
        sparql_kinds::FILTER
    } else if is_caseless(text, b"union") {
        sparql_kinds::UNION
    } else {
        call_word(text)
    }
}
