// The order of the texts of literals, which are not written.
ghost use Rattle.std.specs.Prelude.{◌≡◌, ◌++◌, IsUtf8};
ghost use Rattle.std.specs.Option.{option_copied};
ghost use Rattle.vkg_lists.specs.Texts.{bytes_cmp};
ghost use Rattle.vkg_terms.specs.NQuads.{annotation_text};
ghost use Rattle.vkg_order.specs.Marks.{bracketed_mark as bracketed_mark_of, bracketed_order, common_length as common_length_of, quoted_mark as quoted_mark_of, quoted_order};
ghost use Rattle.vkg_order.specs.Values.{literal_text};

use std::cmp::Ordering;
use vkg_base::at;
use vkg_terms::Annotation;

/// The order of two literals by their texts as N-Quads has them.
pub(crate) fn order_literals(s: &str, x: &Annotation, t: &str, y: &Annotation) -> Ordering
    ensures { result ≡ bytes_cmp (literal_text s.now x.now) (literal_text t.now y.now) }
{
    order_quoted(s.as_bytes(), t.as_bytes()).then(order_annotations(x, y))
}

fn order_quoted(a: &[u8], b: &[u8]) -> Ordering
    ensures { result ≡ quoted_order a.now b.now }
{
    let place = common_length(a, b);
    quoted_mark(at(a, place)).cmp(&quoted_mark(at(b, place)))
}

/// Nothing, `@` and a tag, or `^^` and an IRI in brackets.
fn order_annotations(x: &Annotation, y: &Annotation) -> Ordering
    ensures { result ≡ bytes_cmp (annotation_text x.now) (annotation_text y.now) }
{
    match (x, y) {
        (Annotation::Plain, Annotation::Plain) => Ordering::Equal,
        (Annotation::Lang(a), Annotation::Lang(b)) => a.as_str().cmp(b.as_str()),
        (Annotation::Typed(a), Annotation::Typed(b)) => {
            order_bracketed(a.iri().as_str().as_bytes(), b.iri().as_str().as_bytes())
        }
        (Annotation::Plain, _) | (Annotation::Lang(_), Annotation::Typed(_)) => Ordering::Less,
        (_, Annotation::Plain) | (Annotation::Typed(_), Annotation::Lang(_)) => Ordering::Greater,
    }
}

fn order_bracketed(a: &[u8], b: &[u8]) -> Ordering
    ensures { result ≡ bracketed_order a.now b.now }
{
    let place = common_length(a, b);
    bracketed_mark(at(a, place))
        .cmp(&bracketed_mark(at(b, place)))
        .then(a.len().cmp(&b.len()))
}

fn quoted_mark(octet: Option<&u8>) -> u16
    ensures { result ≡ quoted_mark_of (option_copied octet.entry) }
{
    match octet {
        None => 34 * 256,
        Some(&octet) => escaped_mark(octet),
    }
}

fn escaped_mark(octet: u8) -> u16
    ensures { result ≡ quoted_mark_of (Some octet) }
{
    match octet {
        b'"' => 92 * 256 + 34,
        b'\\' => 92 * 256 + 92,
        b'\n' => 92 * 256 + 110,
        b'\r' => 92 * 256 + 114,
        b'\t' => 92 * 256 + 116,
        _ => octet as u16 * 256,
    }
}

fn bracketed_mark(octet: Option<&u8>) -> u8
    ensures { result ≡ bracketed_mark_of (option_copied octet.entry) }
{
    match octet {
        None => 62,
        Some(octet) => *octet,
    }
}

/// How many octets the texts begin with in common.
fn common_length(a: &[u8], b: &[u8]) -> usize
    ensures { result ≡ common_length_of a.now b.now }
{
    let mut n = 0;
    while n < a.len() && n < b.len() && a[n] == b[n] {
        n += 1;
    }
    n
}
