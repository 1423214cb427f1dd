ghost use Rattle.std.specs.Prelude.{◌≡◌, ◌++◌, IfOk, OnOk, string_bytes};
ghost use Rattle.vkg_terms.specs.Components.{seen};
ghost use Rattle.vkg_terms.specs.Resolve.{merge as merged, path_on, resolve as resolved, transform, up_to_last_slash};

use crate::components::{Components, push_joined, split};
use crate::dot_segments::remove_dots;
use std::alloc::Global;
use vkg_base::Memory;

/// The reference resolved against the base, strictly (RFC 3986, 5.2.2 to 5.2.4 and 5.3).
///
/// A base is meant to begin with a scheme and `:`. Nothing is percent-encoded or decoded.
pub fn resolve(alloc: Global, base: &str, reference: &str) -> Result<String, Memory>
    ensures { IfOk result (λ s. string_bytes s ≡ resolved base.now reference.now) }
{
    let base = split(base);
    let reference = split(reference);
    let path = target_path(alloc, &base, &reference)?;
    let target = target(&base, &reference, path.as_str());
    let mut out = String::new(alloc);
    push_joined(&mut out, &target)?;
    Ok(out)
}

fn target_path(
    alloc: Global,
    base: &Components<'_>,
    reference: &Components<'_>,
) -> Result<String, Memory>
    ensures { IfOk result (λ s. string_bytes s ≡ (transform (seen base.now) (seen reference.now)).path) }
{
    if reference.scheme.is_some() || reference.authority.is_some() {
        return remove_dots(alloc, reference.path);
    }
    relative_path(alloc, base, reference.path)
}

fn relative_path(alloc: Global, base: &Components<'_>, path: &str) -> Result<String, Memory>
    ensures { IfOk result (λ s. string_bytes s ≡ path_on (seen base.now) path.now) }
{
    if path.is_empty() {
        return Ok(String::from_str(alloc, base.path)?);
    }
    if path.starts_with('/') {
        return remove_dots(alloc, path);
    }
    let merged = merge(alloc, base, path)?;
    remove_dots(alloc, merged.as_str())
}

/// The reference's path in place of the base's last segment (RFC 3986, 5.2.3).
fn merge(alloc: Global, base: &Components<'_>, path: &str) -> Result<String, Memory>
    ensures { IfOk result (λ s. string_bytes s ≡ merged (seen base.now) path.now) }
{
    let mut out = String::new(alloc);
    if base.authority.is_some() && base.path.is_empty() {
        out.push('/')?;
        out.push_str(path)?;
        return Ok(out);
    }
    push_up_to_last_slash(&mut out, base.path)?;
    out.push_str(path)?;
    Ok(out)
}

fn push_up_to_last_slash(out: &mut String, path: &str) -> Result<(), Memory>
    ensures { OnOk result (string_bytes out.new ≡ string_bytes out.old ++ up_to_last_slash path.now) }
{
    match path.rfind('/') {
        None => Ok(()),
        Some(at) => {
            let (front, _) = path.split_at(at);
            out.push_str(front)?;
            out.push('/')?;
            Ok(())
        }
    }
}

/// The components of the target, with the path that was made for it (RFC 3986, 5.2.2).
fn target<'a>(base: &Components<'a>, reference: &Components<'a>, path: &'a str) -> Components<'a>
    ensures { seen result ≡ record (transform (seen base.now) (seen reference.now)) { path = path.now } }
{
    let mut target = Components { path, ..*reference };
    if reference.scheme.is_some() {
        return target;
    }
    target.scheme = base.scheme;
    if reference.authority.is_some() {
        return target;
    }
    target.authority = base.authority;
    if reference.path.is_empty() && reference.query.is_none() {
        target.query = base.query;
    }
    target
}
