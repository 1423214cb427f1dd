// The path of a reference, and where it is cut (RFC 3986, 3.3).
ghost use Rattle.std.specs.Prelude.{◌≡◌, ◌<◌, ◌≤◌, ◌==◌, IfOk, length, map};
ghost use Rattle.std.specs.List.{before_first, list_any};
ghost use Rattle.vkg_terms.specs.Resolve.{from_slash, path_of, segments as segments_of};
ghost use Rattle.vkg_turtle.specs.Fronts.{IsBehindSlash, before_fragment, before_query, has_dots, is_dot_segment, is_path_noscheme};

use std::alloc::{AllocError, Global};
use vkg_base::Memory;

/// What stands before the first sign, or all where there is none.
fn before(text: &str, sign: char) -> &str
    requires { sign < 128 }
    ensures front { result.now ≡ before_first (λ b. b == sign) text.now }
    ensures within { length result.now ≤ length text.now }
{
    match text.split_once(sign) {
        Some((front, _)) => front,
        None => text,
    }
}

/// What stands before the query and the fragment.
#[tactic(auto, using(vkg_terms::proofs::Cuts::before_either))]
pub(crate) fn before_query(text: &str) -> &str
    ensures front { result.now ≡ before_query text.now }
    ensures within { length result.now ≤ length text.now }
{
    before(before(text, '#'), '?')
}

/// What stands before the fragment.
pub(crate) fn before_fragment(text: &str) -> &str
    ensures front { result.now ≡ before_fragment text.now }
    ensures within { length result.now ≤ length text.now }
{
    before(text, '#')
}

fn from_slash(text: &str) -> &str
    ensures back { result.now ≡ from_slash text.now }
    ensures within { length result.now ≤ length text.now }
{
    match text.find('/') {
        Some(at) => {
            let (_, back) = text.split_at(at);
            back
        }
        None => "",
    }
}

/// The path of what stands before a query, behind the authority, if any.
pub(crate) fn path_of(hierarchy: &str) -> &str
    ensures path { result.now ≡ path_of hierarchy.now }
    ensures within { length result.now ≤ length hierarchy.now }
{
    match hierarchy.strip_prefix("//") {
        Some(rest) => from_slash(rest),
        None => hierarchy,
    }
}

fn has_colon(text: &[u8]) -> bool
    ensures { result ≡ list_any (λ b. b == 58) text.now }
{
    text.iter().any(|b| *b == b':')
}

/// Whether a path begins with a segment that is not empty and could be no scheme.
pub(crate) fn is_path_noscheme(path: &str) -> bool
    ensures { result ≡ is_path_noscheme path.now }
{
    !path.is_empty() && !path.starts_with('/') && !has_colon(before(path, '/').as_bytes())
}

fn segments(alloc: Global, path: &str) -> Result<Vec<&str>, AllocError>
    ensures { IfOk result (λ v. map (λ s. s.now) v.items ≡ segments_of path.now) }
{
    path.split('/').collect(alloc)
}

fn is_dot_segment(segment: &str) -> bool
    ensures { result ≡ is_dot_segment segment.now }
{
    segment == "." || segment == ".."
}

fn any_dots(segments: &[&str]) -> bool
    ensures { result ≡ list_any (λ s. is_dot_segment s.now) segments.now }
{
    segments.iter().any(|segment| is_dot_segment(*segment))
}

/// Whether a segment of a path is `.` or `..`.
#[tactic(auto, using(crate::proofs::PathLemmas::any_of_texts))]
pub(crate) fn has_dots(alloc: Global, path: &str) -> Result<bool, Memory>
    ensures { IfOk result (λ b. b ≡ has_dots path.now) }
{
    let segments = segments(alloc, path)?;
    Ok(any_dots(segments.as_slice()))
}

/// The place behind the last slash, or 0 where there is none.
pub(crate) fn behind_slash(path: &str) -> usize
    ensures { IsBehindSlash path.now result }
{
    match path.rfind('/') {
        Some(at) => at + 1,
        None => 0,
    }
}
