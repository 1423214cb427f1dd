// The solutions of a query (SPARQL 1.1, 18.2.5).
ghost use Rattle.std.specs.List.{list_any};
ghost use Rattle.std.specs.Prelude.{◌≡◌, ◌++◌, IfErr, IfOk, map, true};
ghost use Rattle.vkg_sparql.specs.Seen.{key_seen, query_seen};
ghost use Rattle.vkg_algebra.specs.Answer.{key_values, projected as projected_to, solutions_of};
ghost use Rattle.vkg_algebra.specs.Seen.{algebra_seen};
ghost use Rattle.vkg_algebra.specs.Translation.{algebra_of};
ghost use Rattle.vkg_plain.specs.Asks.{asks_keys, asks_query};

use crate::conditions::value;
use crate::distinct::once_each;
use crate::evaluation::evaluate;
use crate::fault::PlainFault;
use crate::quad::Quad;
use crate::solution::{Solution, copied, lookup};
use std::alloc::Global;
use vkg_algebra::{Algebra, selected_variables, translate};
use vkg_base::{Items, Memory};
use vkg_sparql::{Key, Query};
use vkg_terms::Term;

/// The solutions of a query over a dataset: the selected variables and behind them the values of the keys, and with DISTINCT each once.
pub fn answer(alloc: Global, query: &Query, quads: &[Quad]) -> Result<Items<Solution>, PlainFault>
    ensures value { IfOk result (λ rows. rows ≡ solutions_of (query_seen query.now) quads.now) }
    ensures wide { IfErr result (λ f. f ≡ PlainFault.WideNumber → asks_query (query_seen query.now) quads.now ≡ true) }
{
    let algebra = translate(alloc, query)?;
    answer_by(alloc, query, &algebra, quads)
}

/// The solutions of a query, whose algebra is asked beside it.
fn answer_by(
    alloc: Global,
    query: &Query,
    algebra: &Algebra,
    quads: &[Quad],
) -> Result<Items<Solution>, PlainFault>
    requires { algebra_seen algebra.now ≡ algebra_of (query_seen query.now) }
    ensures value { IfOk result (λ rows. rows ≡ solutions_of (query_seen query.now) quads.now) }
    ensures wide { IfErr result (λ f. f ≡ PlainFault.WideNumber → asks_query (query_seen query.now) quads.now ≡ true) }
{
    let variables = selected_variables(alloc, query, algebra)?;
    let rows = evaluate(alloc, query.names.len(), quads, algebra, &None)?;
    let keys = query.keys.as_slice();
    let shown = each_with_keys(alloc, variables.as_slice(), keys, rows.as_slice())?;
    if query.distinct {
        Ok(once_each(alloc, shown.as_slice())?)
    } else {
        Ok(shown)
    }
}

fn each_with_keys(
    alloc: Global,
    variables: &[usize],
    keys: &[Key],
    rows: &[Solution],
) -> Result<Items<Solution>, PlainFault>
    ensures value { IfOk result (λ out. out ≡ map (λ s. projected_to variables.now s ++ key_values (map key_seen keys.now) s) rows.now) }
    ensures wide { IfErr result (λ f. f ≡ PlainFault.WideNumber → list_any (asks_keys (map key_seen keys.now)) rows.now ≡ true) }
{
    let mut out = Items::new(alloc);
    for row in rows {
        out.push(with_keys(alloc, variables, keys, row.as_slice())?)?;
    }
    Ok(out)
}

/// The terms of these variables, and behind them the values of the keys.
fn with_keys(
    alloc: Global,
    variables: &[usize],
    keys: &[Key],
    solution: &[Option<Term>],
) -> Result<Solution, PlainFault>
    ensures value { IfOk result (λ s. s ≡ projected_to variables.now solution.now ++ key_values (map key_seen keys.now) solution.now) }
    ensures wide { IfErr result (λ f. f ≡ PlainFault.WideNumber → asks_keys (map key_seen keys.now) solution.now ≡ true) }
{
    let mut out = projected(alloc, variables, solution)?;
    for key in keys {
        out.push(value(alloc, &key.condition, solution)?)?;
    }
    Ok(out)
}

/// The terms of these variables.
fn projected(
    alloc: Global,
    variables: &[usize],
    solution: &[Option<Term>],
) -> Result<Solution, Memory>
    ensures { IfOk result (λ s. s ≡ projected_to variables.now solution.now) }
{
    let mut out = Items::new(alloc);
    for variable in variables {
        out.push(copied(lookup(solution, *variable))?)?;
    }
    Ok(out)
}
