ghost use Rattle.std.specs.Prelude.{◌≡◌, ◌++◌, ◌<◌, ◌==◌, OnOk, string_bytes, codes};
ghost use Rattle.std.specs.List.{before_first};
ghost use Rattle.std.specs.Option.{option_copied};
ghost use Rattle.vkg_terms.specs.Components.{seen};
ghost use Rattle.vkg_terms.specs.Resolve.{after, after_scheme, authority_of, from_slash, join as joined, path_of, prefixed, scheme_of, split as split_of, suffixed};

use crate::absolute::has_scheme;
use vkg_base::Memory;

/// The five components of a reference (RFC 3986, 3).
#[derive(Clone, Copy)]
pub(crate) struct Components<'a> {
    pub(crate) scheme: Option<&'a str>,
    pub(crate) authority: Option<&'a str>,
    pub(crate) path: &'a str,
    pub(crate) query: Option<&'a str>,
    pub(crate) fragment: Option<&'a str>,
}

pub(crate) fn split(text: &str) -> Components<'_>
    ensures { seen result ≡ split_of text.now }
{
    let (scheme, rest) = split_scheme(text);
    let (rest, fragment) = cut(rest, '#');
    let (hierarchy, query) = cut(rest, '?');
    let (authority, path) = split_authority(hierarchy);
    Components {
        scheme,
        authority,
        path,
        query,
        fragment,
    }
}

fn split_scheme(text: &str) -> (Option<&str>, &str)
    ensures scheme { option_copied result.0 ≡ scheme_of text.now }
    ensures rest { result.1.now ≡ after_scheme text.now }
{
    if !has_scheme(text.as_bytes()) {
        return (None, text);
    }
    match cut(text, ':') {
        (scheme, Some(rest)) => (Some(scheme), rest),
        (_, None) => (None, text),
    }
}

/// What stands before the first sign, and what stands after it.
#[tactic(auto, using(crate::proofs::Cuts::after_lacks))]
fn cut(text: &str, sign: char) -> (&str, Option<&str>)
    requires { sign < 128 }
    ensures front { result.0.now ≡ before_first (λ b. b == sign) text.now }
    ensures back { option_copied result.1 ≡ after sign text.now }
{
    match text.split_once(sign) {
        Some((front, back)) => (front, Some(back)),
        None => (text, None),
    }
}

fn split_authority(hierarchy: &str) -> (Option<&str>, &str)
    ensures authority { option_copied result.0 ≡ authority_of hierarchy.now }
    ensures path { result.1.now ≡ path_of hierarchy.now }
{
    match hierarchy.strip_prefix("//") {
        Some(rest) => {
            let (authority, path) = split_at_slash(rest);
            (Some(authority), path)
        }
        None => (None, hierarchy),
    }
}

fn split_at_slash(text: &str) -> (&str, &str)
    ensures front { result.0.now ≡ before_first (λ b. b == 47) text.now }
    ensures back { result.1.now ≡ from_slash text.now }
{
    match text.find('/') {
        Some(at) => text.split_at(at),
        None => (text, ""),
    }
}

/// Writes the components one after another (RFC 3986, 5.3).
pub(crate) fn push_joined(out: &mut String, parts: &Components<'_>) -> Result<(), Memory>
    ensures { OnOk result (string_bytes out.new ≡ string_bytes out.old ++ joined (seen parts.now)) }
{
    if let Some(scheme) = parts.scheme {
        out.push_str(scheme)?;
        out.push(':')?;
    }
    push_prefixed(out, "//", parts.authority)?;
    out.push_str(parts.path)?;
    push_prefixed(out, "?", parts.query)?;
    push_prefixed(out, "#", parts.fragment)
}

fn push_prefixed(out: &mut String, sign: &str, part: Option<&str>) -> Result<(), Memory>
    ensures { OnOk result (string_bytes out.new ≡ string_bytes out.old ++ prefixed sign.now (option_copied part.entry)) }
{
    if let Some(text) = part {
        out.push_str(sign)?;
        out.push_str(text)?;
    }
    Ok(())
}
