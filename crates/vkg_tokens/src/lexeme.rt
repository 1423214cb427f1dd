ghost use Rattle.std.specs.Prelude.{◌≡◌, ◌<◌, IfSome};
ghost use Rattle.vkg_tokens.specs.Lexeme.{mark_begin, lexeme_begin, lexeme_step, turtle_name, turtle_number, string_or_none, tag_or_none, turtle_iri, turtle_lexeme, sparql_name, sparql_number, sparql_iri, sparql_variable, sparql_lexeme};
ghost use Rattle.vkg_tokens.specs.declared.sparql_kinds.TheConstants as sparql;
ghost use Rattle.vkg_tokens.specs.declared.turtle_kinds.TheConstants as turtle;

use crate::iris::IriRef;
use crate::names::Name;
use crate::numbers::Number;
use crate::signs::Sign;
use crate::strings::Quoted;
use crate::tags::Tag;
use crate::variables::Variable;
use crate::{iris, names, numbers, signs, sparql_kinds, strings, tags, turtle_kinds, variables};

/// What was read of a token of Turtle or SPARQL.
#[derive(Clone, Copy)]
pub enum Lexeme {
    Start,
    OfName(Name),
    OfNumber(Number),
    OfString(Quoted),
    OfIri(IriRef),
    OfSign(Sign),
    OfTag(Tag),
    OfVariable(Variable),
}

fn mark_begin(c: char) -> Option<Lexeme>
    ensures { result ≡ mark_begin c }
{
    match c {
        '<' => Some(Lexeme::OfIri(IriRef::Less)),
        '@' => Some(Lexeme::OfTag(Tag::At)),
        '?' => Some(Lexeme::OfVariable(Variable::Question)),
        '$' => Some(Lexeme::OfVariable(Variable::Dollar)),
        _ => None,
    }
}

fn begin(c: char) -> Option<Lexeme>
    ensures { result ≡ lexeme_begin c }
{
    if let Some(state) = names::begin(c) {
        return Some(Lexeme::OfName(state));
    }
    if let Some(state) = numbers::begin(c) {
        return Some(Lexeme::OfNumber(state));
    }
    if let Some(state) = strings::begin(c) {
        return Some(Lexeme::OfString(state));
    }
    if let Some(sign) = signs::begin(c) {
        return Some(Lexeme::OfSign(sign));
    }
    mark_begin(c)
}

/// What was read with one more character.
pub fn step(state: Lexeme, c: char) -> Option<Lexeme>
    ensures { result ≡ lexeme_step state c }
{
    match state {
        Lexeme::Start => begin(c),
        Lexeme::OfName(state) => names::step(state, c).map(Lexeme::OfName),
        Lexeme::OfNumber(state) => numbers::step(state, c).map(Lexeme::OfNumber),
        Lexeme::OfString(state) => strings::step(state, c).map(Lexeme::OfString),
        Lexeme::OfIri(state) => iris::step(state, c).map(Lexeme::OfIri),
        Lexeme::OfSign(sign) => signs::step(sign, c).map(Lexeme::OfSign),
        Lexeme::OfTag(state) => tags::step(state, c).map(Lexeme::OfTag),
        Lexeme::OfVariable(state) => variables::step(state, c).map(Lexeme::OfVariable),
    }
}

fn turtle_name(state: Name) -> Option<usize>
    ensures class { result ≡ turtle_name state }
    ensures below { IfSome result (λ class. class < turtle.KIND_COUNT) }
{
    match state {
        Name::Word | Name::LowLine | Name::LowWord => Some(turtle_kinds::WORD),
        Name::Colon => Some(turtle_kinds::PNAME_NS),
        Name::Local => Some(turtle_kinds::PNAME_LN),
        Name::Blank => Some(turtle_kinds::BLANK),
        _ => None,
    }
}

fn turtle_number(state: Number) -> Option<usize>
    ensures class { result ≡ turtle_number state }
    ensures below { IfSome result (λ class. class < turtle.KIND_COUNT) }
{
    match state {
        Number::Dot => Some(turtle_kinds::DOT),
        Number::Digits => Some(turtle_kinds::INTEGER),
        Number::Fraction => Some(turtle_kinds::DECIMAL),
        Number::ExponentDigits => Some(turtle_kinds::DOUBLE),
        _ => None,
    }
}

fn string_or_none(class: usize, state: Quoted) -> Option<usize>
    requires { class < sparql.KIND_COUNT }
    ensures class { result ≡ string_or_none class state }
    ensures below { IfSome result (λ class. class < sparql.KIND_COUNT) }
{
    match state {
        Quoted::Emptied(_) => Some(class),
        Quoted::Closed => Some(class),
        _ => None,
    }
}

fn tag_or_none(class: usize, state: Tag) -> Option<usize>
    requires { class < sparql.KIND_COUNT }
    ensures class { result ≡ tag_or_none class state }
    ensures below { IfSome result (λ class. class < sparql.KIND_COUNT) }
{
    match state {
        Tag::Letters => Some(class),
        Tag::Part => Some(class),
        _ => None,
    }
}

fn turtle_iri(state: IriRef) -> Option<usize>
    ensures class { result ≡ turtle_iri state }
    ensures below { IfSome result (λ class. class < turtle.KIND_COUNT) }
{
    match state {
        IriRef::Closed => Some(turtle_kinds::IRIREF),
        _ => None,
    }
}

/// The class of what was read, if it is a token of Turtle.
pub fn turtle_class(state: Lexeme) -> Option<usize>
    ensures class { result ≡ turtle_lexeme state }
    ensures below { IfSome result (λ class. class < turtle.KIND_COUNT) }
{
    match state {
        Lexeme::Start => None,
        Lexeme::OfName(state) => turtle_name(state),
        Lexeme::OfNumber(state) => turtle_number(state),
        Lexeme::OfString(state) => string_or_none(turtle_kinds::STRING, state),
        Lexeme::OfIri(state) => turtle_iri(state),
        Lexeme::OfSign(sign) => signs::turtle_class(sign),
        Lexeme::OfTag(state) => tag_or_none(turtle_kinds::LANGTAG, state),
        Lexeme::OfVariable(_) => None,
    }
}

fn sparql_name(state: Name) -> Option<usize>
    ensures class { result ≡ sparql_name state }
    ensures below { IfSome result (λ class. class < sparql.KIND_COUNT) }
{
    match state {
        Name::Word | Name::LowLine | Name::LowWord => Some(sparql_kinds::WORD),
        Name::Colon => Some(sparql_kinds::PNAME_NS),
        Name::Local => Some(sparql_kinds::PNAME_LN),
        Name::Blank => Some(sparql_kinds::BLANK),
        _ => None,
    }
}

fn sparql_number(state: Number) -> Option<usize>
    ensures class { result ≡ sparql_number state }
    ensures below { IfSome result (λ class. class < sparql.KIND_COUNT) }
{
    match state {
        Number::Dot => Some(sparql_kinds::DOT),
        Number::Plus => Some(sparql_kinds::PLUS_SIGN),
        Number::Minus => Some(sparql_kinds::MINUS_SIGN),
        Number::Digits => Some(sparql_kinds::INTEGER),
        Number::Fraction => Some(sparql_kinds::DECIMAL),
        Number::ExponentDigits => Some(sparql_kinds::DOUBLE),
        _ => None,
    }
}

fn sparql_iri(state: IriRef) -> Option<usize>
    ensures class { result ≡ sparql_iri state }
    ensures below { IfSome result (λ class. class < sparql.KIND_COUNT) }
{
    match state {
        IriRef::Less => Some(sparql_kinds::LESS),
        IriRef::LessEqual => Some(sparql_kinds::LESS_EQUAL),
        IriRef::Closed => Some(sparql_kinds::IRIREF),
        _ => None,
    }
}

fn sparql_variable(state: Variable) -> Option<usize>
    ensures class { result ≡ sparql_variable state }
    ensures below { IfSome result (λ class. class < sparql.KIND_COUNT) }
{
    match state {
        Variable::Question => Some(sparql_kinds::QUESTION),
        Variable::Dollar => None,
        Variable::Named => Some(sparql_kinds::VAR),
    }
}

/// The class of what was read, if it is a token of SPARQL.
pub fn sparql_class(state: Lexeme) -> Option<usize>
    ensures class { result ≡ sparql_lexeme state }
    ensures below { IfSome result (λ class. class < sparql.KIND_COUNT) }
{
    match state {
        Lexeme::Start => None,
        Lexeme::OfName(state) => sparql_name(state),
        Lexeme::OfNumber(state) => sparql_number(state),
        Lexeme::OfString(state) => string_or_none(sparql_kinds::STRING, state),
        Lexeme::OfIri(state) => sparql_iri(state),
        Lexeme::OfSign(sign) => signs::sparql_class(sign),
        Lexeme::OfTag(state) => tag_or_none(sparql_kinds::LANGTAG, state),
        Lexeme::OfVariable(state) => sparql_variable(state),
    }
}
