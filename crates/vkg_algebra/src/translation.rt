// The algebra of a query (SPARQL 1.1, 18.2.2). It is simplified as it grows.
ghost use Rattle.std.specs.Prelude.{◌≡◌, [], ◌∷◌, List, length, IfOk};
ghost use Rattle.vkg_sparql.specs.Lawful.{IsLawfulQuery};
ghost use Rattle.vkg_sparql.specs.Seen.{group_seen, part_seen, query_seen};
ghost use Rattle.vkg_algebra.specs.Algebra as algebra;
ghost use Rattle.vkg_algebra.specs.Lawful.{IsLawfulAlgebra};
ghost use Rattle.vkg_algebra.specs.Seen.{algebra_seen};
ghost use Rattle.vkg_algebra.specs.Simplified.{grown_by, grown_simply, inner_of};
ghost use Rattle.vkg_algebra.specs.Translation.{Element, Optionally, algebra_of, element, elements, group_algebra, pattern_of, simplified};

use crate::algebra::Algebra;
use crate::filters::filter_of;
use crate::join::{extended, filtered, joined, joined_block, left_joined, minus, united};
use std::alloc::Global;
use vkg_base::{Box, Items, Memory};
use vkg_sparql::{Part, Query, TriplePattern, copy_patterns, copy_rows};

/// The algebra of a query. That of a lawful query is lawful.
pub fn translate(alloc: Global, query: &Query) -> Result<Algebra, Memory>
    ensures value { IfOk result (λ a. algebra_seen a ≡ algebra_of (query_seen query.now)) }
    ensures lawful { IfOk result (λ a. IsLawfulQuery (query_seen query.now) → IsLawfulAlgebra (length query.now.names) (algebra_seen a)) }
{
    Ok(translated(alloc, query.group.as_slice())?.into_inner())
}

/// The algebra of a group.
#[cycle(translate)]
fn translated(alloc: Global, parts: &[Part]) -> Result<Box<Algebra>, Memory>
    ensures { IfOk result (λ a. algebra_seen a ≡ simplified (group_algebra (elements (group_seen parts.now)))) }
{
    let pattern = pattern(alloc, parts)?;
    filtered(alloc, filter_of(alloc, parts)?, pattern)
}

/// A group that grows: its algebra, and the block of triples behind it that has not ended.
#[derive(Drop)]
struct Growing {
    grown: Box<Algebra>,
    block: Items<TriplePattern>,
}

/// The algebra of a group without its filters.
#[cycle(translate)]
#[tactic(auto, using(crate::proofs::Translations::simplified_pattern))]
fn pattern(alloc: Global, parts: &[Part]) -> Result<Box<Algebra>, Memory>
    ensures { IfOk result (λ a. algebra_seen a ≡ simplified (pattern_of (elements (group_seen parts.now)))) }
{
    let mut growing = empty(alloc)?;
    for part in parts {
        growing = grow(alloc, part, growing)?;
    }
    joined_block(alloc, growing.grown, growing.block)
}

fn empty(alloc: Global) -> Result<Growing, Memory>
    ensures { IfOk result (λ g. (algebra_seen g.grown ≡ algebra.Bgp []) × (g.block ≡ [])) }
{
    Ok(ended(alloc, unit(alloc)?))
}

/// The group with one more part. A filter ends no block.
#[cycle(translate)]
fn grow(alloc: Global, part: &Part, growing: Growing) -> Result<Growing, Memory>
    ensures { IfOk result (λ g. (es : List Element) → grown_by (algebra_seen g.grown) g.block es ≡ grown_by (algebra_seen growing.grown) growing.block (element (part_seen part.now) ∷ es)) }
{
    let Growing { grown, block } = growing;
    match part {
        Part::Triples(patterns) => {
            let mut block = block;
            block.append(copy_patterns(alloc, patterns.as_slice())?)?;
            Ok(Growing { grown, block })
        }
        Part::Filter(_) => Ok(Growing { grown, block }),
        Part::Optional(parts) => {
            let grown = joined_block(alloc, grown, block)?;
            Ok(ended(alloc, optional(alloc, parts.as_slice(), grown)?))
        }
        Part::Graph(_, _) => {
            let grown = joined_block(alloc, grown, block)?;
            let inner = inner(alloc, part)?;
            Ok(ended(alloc, joined(alloc, grown, inner)?))
        }
        Part::Groups(_, _) => {
            let grown = joined_block(alloc, grown, block)?;
            let inner = inner(alloc, part)?;
            Ok(ended(alloc, joined(alloc, grown, inner)?))
        }
        Part::Values(_, _) => {
            let grown = joined_block(alloc, grown, block)?;
            let inner = inner(alloc, part)?;
            Ok(ended(alloc, joined(alloc, grown, inner)?))
        }
        Part::Minus(parts) => {
            let grown = joined_block(alloc, grown, block)?;
            let without = translated(alloc, parts.as_slice())?;
            Ok(ended(alloc, minus(alloc, grown, without)?))
        }
        Part::Bind(condition, variable) => {
            let grown = joined_block(alloc, grown, block)?;
            Ok(ended(alloc, extended(alloc, grown, *variable, condition)?))
        }
    }
}

fn ended(alloc: Global, grown: Box<Algebra>) -> Growing
    ensures { result ≡ record { grown = grown; block = [] } }
{
    Growing {
        grown,
        block: Items::new(alloc),
    }
}

/// The group with an OPTIONAL: the filters of the optional group are the condition.
#[cycle(translate)]
#[tactic(auto, using(crate::proofs::Translations::grown_optional))]
fn optional(alloc: Global, parts: &[Part], grown: Box<Algebra>) -> Result<Box<Algebra>, Memory>
    ensures { IfOk result (λ a. algebra_seen a ≡ grown_simply (algebra_seen grown) (Optionally (group_algebra (elements (group_seen parts.now))))) }
{
    let pattern = pattern(alloc, parts)?;
    let condition = filter_of(alloc, parts)?;
    left_joined(alloc, grown, pattern, condition)
}

/// The algebra of a GRAPH, of a nested group and of those that UNION joins to it, or of VALUES; of other parts Z.
#[cycle(translate)]
#[tactic(auto, using(crate::proofs::Translations::simplified_united))]
fn inner(alloc: Global, part: &Part) -> Result<Box<Algebra>, Memory>
    ensures { IfOk result (λ a. algebra_seen a ≡ simplified (inner_of (element (part_seen part.now)))) }
{
    match part {
        Part::Graph(name, parts) => {
            let inner = translated(alloc, parts.as_slice())?;
            Box::new(alloc, Algebra::Graph(name.copy()?, inner))
        }
        Part::Groups(first, more) => {
            let mut whole = translated(alloc, first.as_slice())?;
            for parts in more.as_slice() {
                let next = translated(alloc, parts.as_slice())?;
                whole = united(alloc, whole, next)?;
            }
            Ok(whole)
        }
        Part::Values(variables, rows) => {
            let variables = Items::from_slice(alloc, variables.as_slice())?;
            let rows = copy_rows(alloc, rows.as_slice())?;
            Box::new(alloc, Algebra::Table(variables, rows))
        }
        Part::Triples(_) => unit(alloc),
        Part::Filter(_) => unit(alloc),
        Part::Optional(_) => unit(alloc),
        Part::Minus(_) => unit(alloc),
        Part::Bind(_, _) => unit(alloc),
    }
}

fn unit(alloc: Global) -> Result<Box<Algebra>, Memory>
    ensures { IfOk result (λ a. algebra_seen a ≡ algebra.Bgp []) }
{
    Box::new(alloc, Algebra::Bgp(Items::new(alloc)))
}
