ghost use Rattle.std.specs.Prelude.{◌≡◌, ◌<◌, IfSome};
ghost use Rattle.vkg_tokens.specs.Signs.{sign_begin, sign_step, turtle_sign, sparql_sign};
ghost use Rattle.vkg_tokens.specs.declared.sparql_kinds.TheConstants as sparql;
ghost use Rattle.vkg_tokens.specs.declared.turtle_kinds.TheConstants as turtle;

use crate::{sparql_kinds, turtle_kinds};

/// A sign that begins nothing longer than a sign.
#[derive(Clone, Copy)]
pub enum Sign {
    OpenBrace,
    CloseBrace,
    Open,
    Close,
    OpenBracket,
    CloseBracket,
    Semicolon,
    Comma,
    Equal,
    Greater,
    GreaterEqual,
    Not,
    NotEqual,
    /// `&`, which is no token.
    Ampersand,
    And,
    Bar,
    Or,
    Caret,
    Carets,
    Star,
    Slash,
}

pub fn begin(c: char) -> Option<Sign>
    ensures { result ≡ sign_begin c }
{
    match c {
        '(' => Some(Sign::Open),
        ')' => Some(Sign::Close),
        '*' => Some(Sign::Star),
        ',' => Some(Sign::Comma),
        '/' => Some(Sign::Slash),
        ';' => Some(Sign::Semicolon),
        '=' => Some(Sign::Equal),
        '>' => Some(Sign::Greater),
        '[' => Some(Sign::OpenBracket),
        ']' => Some(Sign::CloseBracket),
        '^' => Some(Sign::Caret),
        '{' => Some(Sign::OpenBrace),
        '|' => Some(Sign::Bar),
        '}' => Some(Sign::CloseBrace),
        '!' => Some(Sign::Not),
        '&' => Some(Sign::Ampersand),
        _ => None,
    }
}

pub fn step(state: Sign, c: char) -> Option<Sign>
    ensures { result ≡ sign_step state c }
{
    match state {
        Sign::Greater => (c == '=').then_some(Sign::GreaterEqual),
        Sign::Not => (c == '=').then_some(Sign::NotEqual),
        Sign::Ampersand => (c == '&').then_some(Sign::And),
        Sign::Bar => (c == '|').then_some(Sign::Or),
        Sign::Caret => (c == '^').then_some(Sign::Carets),
        _ => None,
    }
}

pub fn turtle_class(sign: Sign) -> Option<usize>
    ensures class { result ≡ turtle_sign sign }
    ensures below { IfSome result (λ class. class < turtle.KIND_COUNT) }
{
    match sign {
        Sign::OpenBracket => Some(turtle_kinds::OPEN_BRACKET),
        Sign::CloseBracket => Some(turtle_kinds::CLOSE_BRACKET),
        Sign::Semicolon => Some(turtle_kinds::SEMICOLON),
        Sign::Comma => Some(turtle_kinds::COMMA),
        Sign::Carets => Some(turtle_kinds::CARETS),
        Sign::Open => Some(turtle_kinds::OPEN),
        Sign::Close => Some(turtle_kinds::CLOSE),
        _ => None,
    }
}

pub fn sparql_class(sign: Sign) -> Option<usize>
    ensures class { result ≡ sparql_sign sign }
    ensures below { IfSome result (λ class. class < sparql.KIND_COUNT) }
{
    match sign {
        Sign::OpenBrace => Some(sparql_kinds::OPEN_BRACE),
        Sign::CloseBrace => Some(sparql_kinds::CLOSE_BRACE),
        Sign::Open => Some(sparql_kinds::OPEN),
        Sign::Close => Some(sparql_kinds::CLOSE),
        Sign::OpenBracket => Some(sparql_kinds::OPEN_BRACKET),
        Sign::CloseBracket => Some(sparql_kinds::CLOSE_BRACKET),
        Sign::Semicolon => Some(sparql_kinds::SEMICOLON),
        Sign::Comma => Some(sparql_kinds::COMMA),
        Sign::Equal => Some(sparql_kinds::EQUAL),
        Sign::NotEqual => Some(sparql_kinds::NOT_EQUAL),
        Sign::Greater => Some(sparql_kinds::GREATER),
        Sign::GreaterEqual => Some(sparql_kinds::GREATER_EQUAL),
        Sign::Not => Some(sparql_kinds::NOT),
        Sign::And => Some(sparql_kinds::AND),
        Sign::Or => Some(sparql_kinds::OR),
        Sign::Star => Some(sparql_kinds::STAR),
        Sign::Slash => Some(sparql_kinds::SLASH),
        Sign::Bar => Some(sparql_kinds::BAR),
        Sign::Caret => Some(sparql_kinds::CARET),
        Sign::Carets => Some(sparql_kinds::CARETS),
        Sign::Ampersand => None,
    }
}
