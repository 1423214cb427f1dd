// Conditions as lists of conjuncts.
ghost use Rattle.std.specs.Prelude.{◌≡◌, [], ◌∷◌, IfOk, map};
ghost use Rattle.vkg_expr.specs.Logic.{and_of as all_of, and_then as one_then_other, conjuncts as conjuncts_of};
ghost use Rattle.vkg_expr.specs.Seen.{expr_seen};

use std::alloc::Global;
use vkg_base::{Items, Memory};
use vkg_cells::{Cell, SqlType};
use vkg_expr::{Expr, copy_exprs};

/// A condition that holds where both do: of the inner one's conjuncts, then the outer one's.
#[tactic(auto, using(crate::proofs::Lists::both_seen))]
pub fn and_then(alloc: Global, inner: &Expr, outer: &Expr) -> Result<Expr, Memory>
    ensures { IfOk result (λ c. expr_seen c ≡ one_then_other (expr_seen inner.now) (expr_seen outer.now)) }
{
    let mut all = conjuncts(alloc, inner)?;
    all.append(conjuncts(alloc, outer)?)?;
    Ok(and_of(all))
}

/// A condition itself, or the members of its And.
#[tactic(auto, using(crate::proofs::Lists::conjunct_lists))]
fn conjuncts(alloc: Global, c: &Expr) -> Result<Items<Expr>, Memory>
    ensures { IfOk result (λ cs. map expr_seen cs ≡ conjuncts_of (expr_seen c.now)) }
{
    match c {
        Expr::And(list) => copy_exprs(alloc, list.as_slice()),
        _ => single(alloc, c),
    }
}

fn single(alloc: Global, c: &Expr) -> Result<Items<Expr>, Memory>
    ensures { IfOk result (λ cs. cs ≡ c.now ∷ []) }
{
    let mut one = Items::new(alloc);
    one.push(c.copy(alloc)?)?;
    Ok(one)
}

/// All of some conditions: of one it is that one.
#[tactic(auto, using(crate::proofs::Lists::and_none, crate::proofs::Lists::and_one, crate::proofs::Lists::and_more))]
fn and_of(conditions: Items<Expr>) -> Expr
    ensures { expr_seen result ≡ all_of (map expr_seen conditions) }
{
    let mut conditions = conditions;
    if conditions.len() == 0 {
        return Expr::Const(Cell::Bool(true), SqlType::Bool);
    }
    if conditions.len() == 1 {
        return conditions.remove(0);
    }
    Expr::And(conditions)
}
