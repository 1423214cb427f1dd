// Where the directories of a base and of a reference end.
ghost use Rattle.std.specs.Prelude.{◌≡◌, ◌++◌, IfOk, IfSome, codes};
ghost use Rattle.vkg_terms.specs.Iri.{has_scheme as begins_with_scheme, is_absolute as absolute};
ghost use Rattle.vkg_turtle.specs.Fronts.{HasFront, IsPlain};

use crate::path::{before_query, behind_slash, has_dots, is_path_noscheme, path_of};
use std::alloc::Global;
use vkg_base::Memory;
use vkg_terms::is_absolute;

fn is_scheme(alloc: Global, scheme: &str) -> Result<bool, Memory>
    ensures { IfOk result (λ b. b ≡ absolute (scheme.now ++ codes ":")) }
{
    let mut iri = String::from_str(alloc, scheme)?;
    iri.push(':')?;
    Ok(is_absolute(iri.as_str()))
}

/// Whether a text begins with a scheme and `:`.
pub(crate) fn has_scheme(alloc: Global, text: &str) -> Result<bool, Memory>
    ensures { IfOk result (λ b. b ≡ begins_with_scheme text.now) }
{
    match text.split_once(':') {
        Some((scheme, _)) => is_scheme(alloc, scheme),
        None => Ok(false),
    }
}

/// Where the directories of a base end, if it has a scheme, a slash in its path and no dot segment there.
pub(crate) fn front_end(alloc: Global, text: &str) -> Result<Option<usize>, Memory>
    ensures { IfOk result (λ o. IfSome o (HasFront text.now)) }
{
    let Some((scheme, rest)) = text.split_once(':') else {
        return Ok(None);
    };
    if !is_scheme(alloc, scheme)? {
        return Ok(None);
    }
    let hierarchy = before_query(rest);
    let path = path_of(hierarchy);
    let end = behind_slash(path);
    if end == 0 {
        return Ok(None);
    }
    if has_dots(alloc, path)? {
        return Ok(None);
    }
    Ok(Some(scheme.len() + 1 + (hierarchy.len() - path.len()) + end))
}

/// Where the directories of a reference end, if it begins with a path and no dot segment is in that.
pub(crate) fn plain_end(alloc: Global, reference: &str) -> Result<Option<usize>, Memory>
    ensures { IfOk result (λ o. IfSome o (IsPlain reference.now)) }
{
    let path = before_query(reference);
    if !is_path_noscheme(path) {
        return Ok(None);
    }
    if has_dots(alloc, path)? {
        return Ok(None);
    }
    Ok(Some(behind_slash(path)))
}
