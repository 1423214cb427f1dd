// The variables that a query selects (SPARQL 1.1, 16.1).
ghost use Rattle.std.specs.Prelude.{◌≡◌, IfOk, length};
ghost use Rattle.vkg_sparql.specs.Seen.{query_seen};
ghost use Rattle.vkg_algebra.specs.Answer.{selected_variables as selected_of};
ghost use Rattle.vkg_algebra.specs.Seen.{algebra_seen};
ghost use Rattle.vkg_algebra.specs.Translation.{algebra_of};
ghost use Rattle.vkg_algebra.specs.Visible.{each_once as once_each};

use crate::algebra::{Algebra, Var};
use crate::translation::translate;
use crate::visible_variables::{add, visible};
use std::alloc::Global;
use vkg_base::{Items, Memory};
use vkg_sparql::{Query, Selected};

/// Each variable once, at its first place.
pub fn each_once(alloc: Global, variables: &[Var]) -> Result<Items<Var>, Memory>
    ensures { IfOk result (λ vs. vs ≡ once_each variables.now) }
{
    let mut found = Items::new(alloc);
    for variable in variables {
        add(&mut found, *variable)?;
    }
    Ok(found)
}

/// The variables that a query selects, each once; its algebra is asked beside it.
pub fn selected_variables(
    alloc: Global,
    query: &Query,
    algebra: &Algebra,
) -> Result<Items<Var>, Memory>
    requires { algebra_seen algebra.now ≡ algebra_of (query_seen query.now) }
    ensures { IfOk result (λ vs. vs ≡ selected_of (query_seen query.now)) }
{
    match &query.selected {
        Selected::All => visible(alloc, algebra),
        Selected::Listed(variables) => each_once(alloc, variables.as_slice()),
    }
}

/// How many variables a query selects.
pub fn selected_count(alloc: Global, query: &Query) -> Result<usize, Memory>
    ensures { IfOk result (λ n. n ≡ length (selected_of (query_seen query.now))) }
{
    let algebra = translate(alloc, query)?;
    let variables = selected_variables(alloc, query, &algebra)?;
    Ok(variables.len())
}
