// An expression with another part in the place of one of its own, if there is another.
ghost use Rattle.std.specs.Prelude.{◌≡◌, IfOk, option_map};
ghost use Rattle.vkg_conditions.specs.Cases.{exprs_seen, with_part as part_put, with_parts as parts_put};
ghost use Rattle.vkg_expr.specs.Expr.{Same};
ghost use Rattle.vkg_expr.specs.Seen.{expr_seen};

use std::alloc::Global;
use vkg_base::{Box, Items, Memory};
use vkg_expr::{Expr, Shared, copy_boxed};

/// The expression of one part with another part.
pub fn over_part(
    alloc: Global,
    e: &Expr,
    part: Option<Box<Expr>>,
) -> Result<Option<Box<Expr>>, Memory>
    ensures { IfOk result (λ o. option_map expr_seen o ≡ option_map (part_put (expr_seen e.now)) (option_map expr_seen part)) }
{
    match part {
        None => Ok(None),
        Some(part) => Ok(Some(Box::new(alloc, with_part(alloc, e, part)?)?)),
    }
}

#[tactic(auto, using(crate::proofs::ListLemmas::lists_seen))]
fn with_part(alloc: Global, e: &Expr, part: Box<Expr>) -> Result<Expr, Memory>
    ensures { IfOk result (λ d. expr_seen d ≡ part_put (expr_seen e.now) (expr_seen part)) }
{
    match e {
        Expr::MakeIri(_) => Ok(Expr::MakeIri(Shared::from_box(alloc, part)?)),
        Expr::IriOf(base, _) => Ok(Expr::IriOf(base.copy()?, part)),
        Expr::MakeBlank(_) => Ok(Expr::MakeBlank(Shared::from_box(alloc, part)?)),
        Expr::MakeLit(_, annotation) => {
            let part = Shared::from_box(alloc, part)?;
            Ok(Expr::MakeLit(part, annotation.copy()?))
        }
        Expr::Lex(_) => Ok(Expr::Lex(part)),
        Expr::IriSafe(_) => Ok(Expr::IriSafe(part)),
        Expr::IsNull(_) => Ok(Expr::IsNull(part)),
        Expr::Not(_) => Ok(Expr::Not(Shared::from_box(alloc, part)?)),
        Expr::Ebv(_) => Ok(Expr::Ebv(part)),
        Expr::Col(_) => Ok(part.into_inner()),
        Expr::Const(_, _) => Ok(part.into_inner()),
        Expr::Same(_, _) => Ok(part.into_inner()),
        Expr::Concat(_) => Ok(part.into_inner()),
        Expr::And(_) => Ok(part.into_inner()),
        Expr::Or(_) => Ok(part.into_inner()),
        Expr::Coalesce(_) => Ok(part.into_inner()),
        Expr::Sparql(_, _) => Ok(part.into_inner()),
    }
}

/// The expression of a list of parts with other parts.
pub fn over_parts(
    alloc: Global,
    e: &Expr,
    parts: Option<Items<Expr>>,
) -> Result<Option<Box<Expr>>, Memory>
    ensures { IfOk result (λ o. option_map expr_seen o ≡ option_map (parts_put (expr_seen e.now)) (option_map exprs_seen parts)) }
{
    match parts {
        None => Ok(None),
        Some(parts) => Ok(Some(Box::new(alloc, with_parts(e, parts))?)),
    }
}

fn with_parts(e: &Expr, parts: Items<Expr>) -> Expr
    ensures { expr_seen result ≡ parts_put (expr_seen e.now) (exprs_seen parts) }
{
    match e {
        Expr::And(_) => Expr::And(parts),
        Expr::Or(_) => Expr::Or(parts),
        Expr::Coalesce(_) => Expr::Coalesce(parts),
        Expr::Sparql(operator, _) => Expr::Sparql(*operator, parts),
        _ => Expr::Concat(parts),
    }
}

/// An equality with another left side.
pub fn with_left(alloc: Global, a: Option<Box<Expr>>, b: &Expr) -> Result<Option<Box<Expr>>, Memory>
    ensures { IfOk result (λ o. option_map expr_seen o ≡ option_map (λ x. Same x (expr_seen b.now)) (option_map expr_seen a)) }
{
    match a {
        None => Ok(None),
        Some(a) => {
            let b = copy_boxed(alloc, b)?;
            Ok(Some(Box::new(alloc, Expr::Same(a, b))?))
        }
    }
}

/// An equality with another right side.
pub fn with_right(
    alloc: Global,
    a: &Expr,
    b: Option<Box<Expr>>,
) -> Result<Option<Box<Expr>>, Memory>
    ensures { IfOk result (λ o. option_map expr_seen o ≡ option_map (Same (expr_seen a.now)) (option_map expr_seen b)) }
{
    match b {
        None => Ok(None),
        Some(b) => {
            let a = copy_boxed(alloc, a)?;
            Ok(Some(Box::new(alloc, Expr::Same(a, b))?))
        }
    }
}
