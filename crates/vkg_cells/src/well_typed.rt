ghost use Rattle.std.specs.Prelude.{◌≡◌, ◌==◌, ◌||◌, ◌&&◌, take, drop};
ghost use Rattle.std.specs.List.{list_all, position};
ghost use Rattle.vkg_cells.specs.Moment.{is_clock as is_clock_text};
ghost use Rattle.vkg_cells.specs.WellTyped.{is_end_of_day as is_end_of_day_text, is_fraction as is_fraction_text, is_moment as is_moment_text, is_offset as is_offset_text, is_too_wide as too_wide, is_well_typed as well_typed, is_wide_number as wide_number, is_xsd_date as is_xsd_date_text, is_xsd_date_time as is_xsd_date_time_text, is_zone as is_zone_text, zone_place as zone_place_of};

use crate::moment::{is_clock, is_date, two_digits};
use crate::number::{is_decimal, is_digits, is_integer, is_wide};
use vkg_terms::vocabulary::{XSD_BOOLEAN, XSD_DATE, XSD_DATE_TIME, XSD_DECIMAL, XSD_INTEGER};
use vkg_terms::{Annotation, Term};

/// Whether a text is of a datatype's lexical space, for the datatypes that are looked at: xsd:integer, xsd:decimal,
/// xsd:boolean, xsd:date and xsd:dateTime (XML Schema 1.1 Part 2), with the years 0001 to 9999.
pub fn is_well_typed(datatype: &str, text: &str) -> bool
    ensures { result ≡ well_typed datatype.now text.now }
{
    if datatype == XSD_INTEGER {
        is_integer(text)
    } else if datatype == XSD_DECIMAL {
        is_decimal(text)
    } else if datatype == XSD_BOOLEAN {
        text == "true" || text == "false" || text == "1" || text == "0"
    } else if datatype == XSD_DATE {
        is_xsd_date(text.as_bytes())
    } else if datatype == XSD_DATE_TIME {
        is_xsd_date_time(text.as_bytes())
    } else {
        true
    }
}

/// Whether a text, read as a literal of xsd:integer or xsd:decimal, has more than 38 digits that count. It is asked of
/// well-typed literals; of another text it tells no more than its length does.
pub fn is_too_wide(datatype: &str, text: &str) -> bool
    ensures { result ≡ too_wide datatype.now text.now }
{
    (datatype == XSD_INTEGER || datatype == XSD_DECIMAL) && is_wide(text)
}

fn is_wide_text(datatype: &str, text: &str) -> bool
    ensures { result ≡ (well_typed datatype.now text.now && too_wide datatype.now text.now) }
{
    is_well_typed(datatype, text) && is_too_wide(datatype, text)
}

/// Whether a term is a well-typed number of more than 38 digits.
pub fn is_wide_number(term: &Term) -> bool
    ensures { result ≡ wide_number term.now }
{
    match term {
        Term::Lit(text, Annotation::Typed(datatype)) => {
            is_wide_text(datatype.iri().as_str(), text.as_str())
        }
        _ => false,
    }
}

/// What stands before a place, and what stands from there on.
fn cut_at(text: &[u8], place: usize) -> (&[u8], &[u8])
    ensures front { result.0.now ≡ take place text.now }
    ensures back { result.1.now ≡ drop place text.now }
{
    text.split_at(place.min(text.len()))
}

fn is_xsd_date(text: &[u8]) -> bool
    ensures { result ≡ is_xsd_date_text text.now }
{
    let (date, zone) = cut_at(text, 10);
    is_date(date) && is_zone(zone)
}

fn is_xsd_date_time(text: &[u8]) -> bool
    ensures { result ≡ is_xsd_date_time_text text.now }
{
    let (date, rest) = cut_at(text, 10);
    let (sign, rest) = cut_at(rest, 1);
    let (clock, rest) = cut_at(rest, 8);
    let (fraction, zone) = cut_at(rest, zone_place(rest));
    is_moment(date, sign, clock, fraction) && is_zone(zone)
}

fn is_moment(date: &[u8], sign: &[u8], clock: &[u8], fraction: &[u8]) -> bool
    ensures { result ≡ is_moment_text date.now sign.now clock.now fraction.now }
{
    is_date(date) && sign == b"T".as_slice() && is_time(clock, fraction) && is_fraction(fraction)
}

fn is_time(clock: &[u8], fraction: &[u8]) -> bool
    ensures { result ≡ is_clock_text clock.now || is_end_of_day_text clock.now fraction.now }
{
    is_clock(clock) || is_end_of_day(clock, fraction)
}

/// Where a zone begins.
#[tactic(auto, using(vkg_lists::proofs::Positions::places))]
fn zone_place(text: &[u8]) -> usize
    ensures { result ≡ zone_place_of text.now }
{
    match find_zone(text) {
        Some(place) => place,
        None => text.len(),
    }
}

fn find_zone(text: &[u8]) -> Option<usize>
    ensures { result ≡ position (λ b. (b == 90) || (b == 43) || (b == 45)) text.now }
{
    text.iter()
        .position(|&b| b == b'Z' || b == b'+' || b == b'-')
}

fn is_fraction(text: &[u8]) -> bool
    ensures { result ≡ is_fraction_text text.now }
{
    match text {
        [] => true,
        [first, digits @ ..] => *first == b'.' && is_digits(digits),
    }
}

fn is_end_of_day(clock: &[u8], fraction: &[u8]) -> bool
    ensures { result ≡ is_end_of_day_text clock.now fraction.now }
{
    clock == b"24:00:00".as_slice() && are_zeros(fraction)
}

fn are_zeros(fraction: &[u8]) -> bool
    ensures { result ≡ list_all (λ b. (b == 46) || (b == 48)) fraction.now }
{
    fraction.iter().all(|&b| b == b'.' || b == b'0')
}

fn is_zone(text: &[u8]) -> bool
    ensures { result ≡ is_zone_text text.now }
{
    match text {
        [] => true,
        [b'Z', rest @ ..] => rest.is_empty(),
        [sign, rest @ ..] => (*sign == b'+' || *sign == b'-') && is_offset(rest),
    }
}

#[tactic(auto, unfolding(crate::specs::WellTyped::is_offset))]
fn is_offset(text: &[u8]) -> bool
    ensures { result ≡ is_offset_text text.now }
{
    if !(text.len() == 5 && text[2] == b':') {
        return false;
    }
    match (two_digits(text, 0), two_digits(text, 3)) {
        (Some(hour), Some(minute)) => (hour <= 13 && minute <= 59) || (hour == 14 && minute == 0),
        _ => false,
    }
}
