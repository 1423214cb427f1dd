// The forms of dates and moments without a zone, lent.
ghost use Rattle.std.specs.Prelude.{◌≡◌, ◌<◌, ◌≤◌, ◌+◌, ◌++◌, ◌∷◌, ◌&&◌, ℕ, List, length, nat_le, option_map};
ghost use Rattle.std.specs.Bool.{then_some};
ghost use Rattle.std.specs.Char.{is_ascii_digit};
ghost use Rattle.std.specs.List.{list_all};
ghost use Rattle.vkg_cells.specs.Moment.{cut, form_at, is_clock as is_clock_text, is_date, two_digits_at};
ghost use Rattle.vkg_cells.specs.Number.{after_point, is_digits as is_digits_text, without_trailing_zeros};
ghost use Rattle.vkg_values.specs.Known.{moment_of};
ghost use Rattle.vkg_order.specs.Marks.{EndsInFraction};

use vkg_cells::{Cell, is_well_typed};
use vkg_terms::vocabulary::XSD_DATE;

/// The form of a date and a time, lent: the beginning of the text that ends before the last zeros of a fraction.
pub(crate) fn moment_form(text: &str) -> Option<&[u8]>
    ensures { option_map (λ form. Cell.Stamp form.now) result ≡ moment_of text.now }
{
    let Some((day, clock)) = around_t(text) else {
        return None;
    };
    form_of_parts(text, day, clock)
}

/// What stands round the `T`.
fn around_t(text: &str) -> Option<(&str, &str)>
    ensures { option_map (λ p. (p.0.now, p.1.now)) result ≡ cut 84 text.now }
{
    text.split_once('T')
}

/// What stands round the point.
fn around_point(text: &str) -> Option<(&str, &str)>
    ensures { option_map (λ p. (p.0.now, p.1.now)) result ≡ cut 46 text.now }
{
    text.split_once('.')
}

fn form_of_parts<'a>(text: &'a str, day: &str, time: &str) -> Option<&'a [u8]>
    requires { text.now ≡ day.now ++ 84 ∷ time.now }
    ensures { option_map (λ form. Cell.Stamp form.now) result ≡ option_map Cell.Stamp (form_at day.now time.now (cut 46 time.now)) }
{
    match around_point(time) {
        None => whole_form(text, is_moment(day, time)),
        Some((clock, fraction)) => fraction_form(text, fraction, is_moment(day, clock)),
    }
}

fn is_moment(day: &str, clock: &str) -> bool
    ensures { result ≡ (is_date day.now && is_clock_text clock.now) }
{
    is_day(day) && is_clock(clock.as_bytes())
}

/// The form with a fraction: without its last zeros, and without the point where no digit is left.
fn fraction_form<'a>(text: &'a str, fraction: &str, is_moment: bool) -> Option<&'a [u8]>
    requires { EndsInFraction text.now fraction.now }
    ensures { (front : List ℕ) → text.now ≡ front ++ 46 ∷ fraction.now → option_map (λ form. Cell.Stamp form.now) result ≡ then_some (is_moment && is_digits_text fraction.now && nat_le (length fraction.now) 9) (Cell.Stamp (front ++ after_point (without_trailing_zeros fraction.now))) }
{
    if !(is_moment && is_digits(fraction.as_bytes()) && fraction.len() <= 9) {
        return None;
    }
    let front = text.len() - fraction.len() - 1;
    let end = front + point_length(fraction.as_bytes());
    Some(&text.as_bytes()[..end])
}

fn whole_form(text: &str, is_moment: bool) -> Option<&[u8]>
    ensures { option_map (λ form. Cell.Stamp form.now) result ≡ then_some is_moment (Cell.Stamp text.now) }
{
    if is_moment {
        Some(text.as_bytes())
    } else {
        None
    }
}

/// Whether the text is a day's, without a zone.
pub(crate) fn is_day(text: &str) -> bool
    ensures { result ≡ is_date text.now }
{
    text.len() == 10 && is_well_typed(XSD_DATE, text)
}

/// Whether the text is a time's, `HH:MM:SS`.
#[tactic(auto, unfolding(vkg_cells::specs::Moment::clock_of_text))]
fn is_clock(text: &[u8]) -> bool
    ensures { result ≡ is_clock_text text.now }
{
    if !(text.len() == 8 && text[2] == b':' && text[5] == b':') {
        return false;
    }
    match (
        two_digits(text, 0),
        two_digits(text, 3),
        two_digits(text, 6),
    ) {
        (Some(hour), Some(minute), Some(second)) => hour <= 23 && minute <= 59 && second <= 59,
        _ => false,
    }
}

/// The number of the two digits at a place.
fn two_digits(text: &[u8], at: usize) -> Option<u8>
    requires { at + 1 < length text.now }
    ensures { result ≡ two_digits_at text.now at }
{
    let (tens, ones) = (text[at], text[at + 1]);
    if tens.is_ascii_digit() && ones.is_ascii_digit() {
        Some((tens - b'0') * 10 + (ones - b'0'))
    } else {
        None
    }
}

/// Whether there are digits alone, and one at least.
fn is_digits(text: &[u8]) -> bool
    ensures { result ≡ is_digits_text text.now }
{
    match text {
        [] => false,
        [first, rest @ ..] => first.is_ascii_digit() && are_digits(rest),
    }
}

fn are_digits(text: &[u8]) -> bool
    ensures { result ≡ list_all is_ascii_digit text.now }
{
    text.iter().all(|b| b.is_ascii_digit())
}

/// How many octets the point and the digits before the last zeros have, and 0 where no digit is left.
fn point_length(fraction: &[u8]) -> usize
    ensures value { result ≡ length (after_point (without_trailing_zeros fraction.now)) }
    ensures within { result ≤ length fraction.now + 1 }
{
    let kept = kept_digits(fraction);
    if kept == 0 { 0 } else { kept + 1 }
}

/// How many digits there are before the last zeros.
fn kept_digits(fraction: &[u8]) -> usize
    ensures value { result ≡ length (without_trailing_zeros fraction.now) }
    ensures within { result ≤ length fraction.now }
{
    let mut n = fraction.len();
    while n > 0 && fraction[n - 1] == b'0' {
        n -= 1;
    }
    n
}
