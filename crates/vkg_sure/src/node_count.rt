// How many nodes an expression has.
ghost use Rattle.std.specs.Prelude.{◌≡◌, ◌+◌, IfOk, length, map};
ghost use Rattle.vkg_expr.specs.Expr.{And, Or, exprs};
ghost use Rattle.vkg_expr.specs.Seen.{expr_seen};
ghost use Rattle.vkg_rules.specs.Measure.{size as size_of, sizes as sizes_of};

use std::alloc::Global;
use vkg_base::{Items, Memory};
use vkg_expr::Expr;

/// A mark for each node, as rules count them: an equality counts twice, and so does an And or an Or of none.
#[cycle(count)]
#[tactic(auto, using(vkg_conditions::proofs::ListLemmas::lists_seen))]
pub fn count_nodes(alloc: Global, e: &Expr) -> Result<Items<bool>, Memory>
    ensures { IfOk result (λ ms. length ms ≡ size_of (expr_seen e.now)) }
{
    match e {
        Expr::Col(_) => one(alloc),
        Expr::Const(_, _) => one(alloc),
        Expr::MakeIri(x) => one_more(count_nodes(alloc, x)?),
        Expr::IriOf(_, x) => one_more(count_nodes(alloc, x)?),
        Expr::MakeBlank(x) => one_more(count_nodes(alloc, x)?),
        Expr::MakeLit(x, _) => one_more(count_nodes(alloc, x)?),
        Expr::Lex(x) => one_more(count_nodes(alloc, x)?),
        Expr::IriSafe(x) => one_more(count_nodes(alloc, x)?),
        Expr::IsNull(x) => one_more(count_nodes(alloc, x)?),
        Expr::Not(x) => one_more(count_nodes(alloc, x)?),
        Expr::Ebv(x) => one_more(count_nodes(alloc, x)?),
        Expr::Concat(xs) => one_more(nodes_of_each(alloc, xs.as_slice())?),
        Expr::Coalesce(xs) => one_more(nodes_of_each(alloc, xs.as_slice())?),
        Expr::Sparql(_, xs) => one_more(nodes_of_each(alloc, xs.as_slice())?),
        Expr::And(xs) => of_members(xs.as_slice(), nodes_of_each(alloc, xs.as_slice())?),
        Expr::Or(xs) => of_members(xs.as_slice(), nodes_of_each(alloc, xs.as_slice())?),
        Expr::Same(a, b) => {
            let first = count_nodes(alloc, a)?;
            of_equality(first, count_nodes(alloc, b)?)
        }
    }
}

#[cycle(count)]
#[tactic(auto, using(crate::proofs::Marks::marks_beside))]
fn nodes_of_each(alloc: Global, list: &[Expr]) -> Result<Items<bool>, Memory>
    ensures { IfOk result (λ ms. length ms ≡ sizes_of (exprs (map expr_seen list.now))) }
{
    let mut marks = Items::new(alloc);
    for e in list {
        marks.append(count_nodes(alloc, e)?)?;
    }
    Ok(marks)
}

fn one(alloc: Global) -> Result<Items<bool>, Memory>
    ensures { IfOk result (λ ms. length ms ≡ 1) }
{
    one_more(Items::new(alloc))
}

#[tactic(auto, using(crate::proofs::Marks::marks_beside))]
fn one_more(marks: Items<bool>) -> Result<Items<bool>, Memory>
    ensures { IfOk result (λ ms. length ms ≡ 1 + length marks) }
{
    let mut all = marks;
    all.push(true)?;
    Ok(all)
}

/// Those of an equality of two expressions with these nodes.
#[tactic(auto, using(crate::proofs::Marks::marks_beside))]
fn of_equality(first: Items<bool>, second: Items<bool>) -> Result<Items<bool>, Memory>
    ensures { IfOk result (λ ms. length ms ≡ 2 + length first + length second) }
{
    let mut all = first;
    all.append(second)?;
    all.push(true)?;
    all.push(true)?;
    Ok(all)
}

/// Those of an And or an Or of members that have these nodes together.
#[tactic(auto, using(crate::proofs::Marks::and_nodes, crate::proofs::Marks::or_nodes))]
fn of_members(list: &[Expr], marks: Items<bool>) -> Result<Items<bool>, Memory>
    requires { length marks ≡ sizes_of (exprs (map expr_seen list.now)) }
    ensures all { IfOk result (λ ms. length ms ≡ size_of (And (exprs (map expr_seen list.now)))) }
    ensures any { IfOk result (λ ms. length ms ≡ size_of (Or (exprs (map expr_seen list.now)))) }
{
    match list {
        [] => Ok(one_more(one_more(marks)?)?),
        [_, ..] => Ok(one_more(marks)?),
    }
}
