ghost use Rattle.std.specs.Prelude.{◌≡◌};
ghost use Rattle.vkg_tokens.specs.Numbers.{number_begin, is_exponent_mark, digit_or_none, behind_sign, exponent_begin, in_digits, in_fraction, in_exponent, number_step};

/// What was read of a number.
#[derive(Clone, Copy)]
pub enum Number {
    Plus,
    Minus,
    Dot,
    SignDot,
    Digits,
    DigitsDot,
    Fraction,
    Exponent,
    ExponentSign,
    ExponentDigits,
}

pub fn begin(c: char) -> Option<Number>
    ensures { result ≡ number_begin c }
{
    if c.is_ascii_digit() {
        Some(Number::Digits)
    } else if c == '.' {
        Some(Number::Dot)
    } else if c == '+' {
        Some(Number::Plus)
    } else if c == '-' {
        Some(Number::Minus)
    } else {
        None
    }
}

fn is_exponent_mark(c: char) -> bool
    ensures { result ≡ is_exponent_mark c }
{
    c == 'e' || c == 'E'
}

fn digit_or_none(next: Number, c: char) -> Option<Number>
    ensures { result ≡ digit_or_none next c }
{
    if c.is_ascii_digit() { Some(next) } else { None }
}

fn behind_sign(c: char) -> Option<Number>
    ensures { result ≡ behind_sign c }
{
    if c == '.' {
        Some(Number::SignDot)
    } else {
        digit_or_none(Number::Digits, c)
    }
}

fn exponent_begin(c: char) -> Option<Number>
    ensures { result ≡ exponent_begin c }
{
    if is_exponent_mark(c) {
        Some(Number::Exponent)
    } else {
        None
    }
}

fn in_digits(c: char) -> Option<Number>
    ensures { result ≡ in_digits c }
{
    if c.is_ascii_digit() {
        Some(Number::Digits)
    } else if c == '.' {
        Some(Number::DigitsDot)
    } else {
        exponent_begin(c)
    }
}

fn in_fraction(c: char) -> Option<Number>
    ensures { result ≡ in_fraction c }
{
    if c.is_ascii_digit() {
        Some(Number::Fraction)
    } else {
        exponent_begin(c)
    }
}

fn in_exponent(c: char) -> Option<Number>
    ensures { result ≡ in_exponent c }
{
    if c == '+' || c == '-' {
        Some(Number::ExponentSign)
    } else {
        digit_or_none(Number::ExponentDigits, c)
    }
}

pub fn step(state: Number, c: char) -> Option<Number>
    ensures { result ≡ number_step state c }
{
    match state {
        Number::Plus | Number::Minus => behind_sign(c),
        Number::Dot | Number::SignDot => digit_or_none(Number::Fraction, c),
        Number::Digits => in_digits(c),
        Number::DigitsDot | Number::Fraction => in_fraction(c),
        Number::Exponent => in_exponent(c),
        Number::ExponentSign | Number::ExponentDigits => digit_or_none(Number::ExponentDigits, c),
    }
}
