// Algebras over simplified ones (SPARQL 1.1, 18.2.2.8).
ghost use Rattle.std.specs.Prelude.{◌≡◌, ◌↔◌, [], IfOk, IsTrue};
ghost use Rattle.vkg_sparql.specs.Seen.{condition_seen};
ghost use Rattle.vkg_algebra.specs.Algebra.{Bgp, Extend, LeftJoin, Minus, Union};
ghost use Rattle.vkg_algebra.specs.Seen.{algebra_seen, condition_seen_if_any};
ghost use Rattle.vkg_algebra.specs.Translation.{filtered as filtered_by, joined as joined_of};

use crate::algebra::{Algebra, Var};
use std::alloc::Global;
use vkg_base::{Box, Items, Memory};
use vkg_sparql::{Condition, TriplePattern};

/// Whether it is Z, the empty basic graph pattern.
fn is_unit(a: &Algebra) -> bool
    ensures { IsTrue result ↔ (algebra_seen a.now ≡ Bgp []) }
{
    match a {
        Algebra::Bgp(patterns) => patterns.is_empty(),
        _ => false,
    }
}

/// The join of two, or the other where one is Z.
pub(crate) fn joined(
    alloc: Global,
    a: Box<Algebra>,
    b: Box<Algebra>,
) -> Result<Box<Algebra>, Memory>
    ensures { IfOk result (λ r. algebra_seen r ≡ joined_of (algebra_seen a) (algebra_seen b)) }
{
    if is_unit(&a) {
        Ok(b)
    } else if is_unit(&b) {
        Ok(a)
    } else {
        Box::new(alloc, Algebra::Join(a, b))
    }
}

/// One more block of triples.
pub(crate) fn joined_block(
    alloc: Global,
    a: Box<Algebra>,
    patterns: Items<TriplePattern>,
) -> Result<Box<Algebra>, Memory>
    ensures { IfOk result (λ r. algebra_seen r ≡ joined_of (algebra_seen a) (Bgp patterns)) }
{
    let block = Box::new(alloc, Algebra::Bgp(patterns))?;
    joined(alloc, a, block)
}

/// The left join of two under a condition, if there is one.
pub(crate) fn left_joined(
    alloc: Global,
    a: Box<Algebra>,
    b: Box<Algebra>,
    condition: Option<Box<Condition>>,
) -> Result<Box<Algebra>, Memory>
    ensures { IfOk result (λ r. algebra_seen r ≡ LeftJoin (algebra_seen a) (algebra_seen b) (condition_seen_if_any condition)) }
{
    Box::new(alloc, Algebra::LeftJoin(a, b, condition))
}

/// The first without what the second takes away.
pub(crate) fn minus(alloc: Global, a: Box<Algebra>, b: Box<Algebra>) -> Result<Box<Algebra>, Memory>
    ensures { IfOk result (λ r. algebra_seen r ≡ Minus (algebra_seen a) (algebra_seen b)) }
{
    Box::new(alloc, Algebra::Minus(a, b))
}

/// A variable has the value of an expression.
pub(crate) fn extended(
    alloc: Global,
    a: Box<Algebra>,
    variable: Var,
    condition: &Condition,
) -> Result<Box<Algebra>, Memory>
    ensures { IfOk result (λ r. algebra_seen r ≡ Extend (algebra_seen a) variable (condition_seen condition.now)) }
{
    let condition = Box::new(alloc, condition.copy(alloc)?)?;
    Box::new(alloc, Algebra::Extend(a, variable, condition))
}

/// The union of two.
pub(crate) fn united(
    alloc: Global,
    a: Box<Algebra>,
    b: Box<Algebra>,
) -> Result<Box<Algebra>, Memory>
    ensures { IfOk result (λ r. algebra_seen r ≡ Union (algebra_seen a) (algebra_seen b)) }
{
    Box::new(alloc, Algebra::Union(a, b))
}

/// The algebra under a condition, if there is one.
pub(crate) fn filtered(
    alloc: Global,
    condition: Option<Box<Condition>>,
    a: Box<Algebra>,
) -> Result<Box<Algebra>, Memory>
    ensures { IfOk result (λ r. algebra_seen r ≡ filtered_by (condition_seen_if_any condition) (algebra_seen a)) }
{
    match condition {
        None => Ok(a),
        Some(condition) => Box::new(alloc, Algebra::Filter(condition, a)),
    }
}
