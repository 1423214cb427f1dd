// The filters of a group (SPARQL 1.1, 18.2.2.2 and 18.2.2.7).
ghost use Rattle.std.specs.Prelude.{◌≡◌, [], ◌∷◌, ◌++◌, IfOk, OnOk, map};
ghost use Rattle.vkg_sparql.specs.Seen.{condition_seen, group_seen, part_seen};
ghost use Rattle.vkg_algebra.specs.Seen.{condition_seen_if_any};
ghost use Rattle.vkg_algebra.specs.Translation.{condition_of, element, elements, tests_of};

use std::alloc::Global;
use vkg_base::{Box, Items, Memory};
use vkg_sparql::{Condition, Part};

/// The conditions of a group's filters, in order, as one by `&&`; none where it has no filter.
pub(crate) fn filter_of(alloc: Global, parts: &[Part]) -> Result<Option<Box<Condition>>, Memory>
    ensures { IfOk result (λ c. condition_seen_if_any c ≡ condition_of (tests_of (elements (group_seen parts.now)))) }
{
    conjunction(alloc, conditions(alloc, parts)?)
}

fn conditions(alloc: Global, parts: &[Part]) -> Result<Items<Condition>, Memory>
    ensures { IfOk result (λ cs. map condition_seen cs ≡ tests_of (elements (group_seen parts.now))) }
{
    let mut found = Items::new(alloc);
    for part in parts {
        push_condition(alloc, &mut found, part)?;
    }
    Ok(found)
}

fn push_condition(alloc: Global, found: &mut Items<Condition>, part: &Part) -> Result<(), Memory>
    ensures { OnOk result (map condition_seen found.new ≡ map condition_seen found.old ++ tests_of (element (part_seen part.now) ∷ [])) }
{
    match part {
        Part::Filter(condition) => found.push(condition.copy(alloc)?),
        Part::Triples(_) => Ok(()),
        Part::Optional(_) => Ok(()),
        Part::Graph(_, _) => Ok(()),
        Part::Groups(_, _) => Ok(()),
        Part::Minus(_) => Ok(()),
        Part::Values(_, _) => Ok(()),
        Part::Bind(_, _) => Ok(()),
    }
}

fn conjunction(
    alloc: Global,
    conditions: Items<Condition>,
) -> Result<Option<Box<Condition>>, Memory>
    ensures { IfOk result (λ c. condition_seen_if_any c ≡ condition_of (map condition_seen conditions)) }
{
    let mut more = conditions;
    if more.is_empty() {
        return Ok(None);
    }
    let first = Box::new(alloc, more.remove(0))?;
    if more.is_empty() {
        return Ok(Some(first));
    }
    Ok(Some(Box::new(alloc, Condition::And(first, more))?))
}
