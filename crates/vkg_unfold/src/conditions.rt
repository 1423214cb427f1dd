// A filter's expression as an expression over a row of terms.
ghost use Rattle.std.specs.Prelude.{◌≡◌, [], ◌∷◌, map, true, IfOk, IsOkAnd};
ghost use Rattle.vkg_sparql.specs.Seen.{condition_seen};
ghost use Rattle.vkg_expr.specs.Expr.{IsNull, Same, Sparql, exprs};
ghost use Rattle.vkg_expr.specs.Expr as expr;
ghost use Rattle.vkg_expr.specs.Seen.{expr_seen};
ghost use Rattle.vkg_unfolded.specs.Conditions.{expr_of, gives_truth, to_term, to_truth, truth_expr, value_expr};
ghost use Rattle.vkg_unfold.specs.Parts.{all_of, any_of, chain_all, chain_any, some_or};
ghost use Rattle.vkg_unfolded.specs.Unfolded.{merged, visible_column};

use crate::columns::merged;
use crate::exprs::{known, term_const};
use std::alloc::Global;
use vkg_algebra::Var;
use vkg_base::{Box, Items, Memory};
use vkg_cells::{SqlType, natural};
use vkg_expr::{Expr, Operator, Shared};
use vkg_sparql::Condition;
use vkg_unfolded::Mode;
use vkg_values::{Compare, Take, Test};

/// Whether an expression gives a truth; else it gives a term.
fn gives_truth(condition: &Condition) -> bool
    ensures { result ≡ gives_truth (condition_seen condition.now) }
{
    match condition {
        Condition::Variable(_) => false,
        Condition::Constant(_) => false,
        Condition::Bound(_) => true,
        Condition::Test(_, _) => true,
        Condition::Take(_, _) => false,
        Condition::Compare(_, _, _) => true,
        Condition::SameTerm(_, _) => true,
        Condition::Not(_) => true,
        Condition::And(first, more) => of_chain(more.as_slice(), gives_truth(first)),
        Condition::Or(first, more) => of_chain(more.as_slice(), gives_truth(first)),
    }
}

/// A chain of two or more gives a truth, and else its first member may.
fn of_chain(more: &[Condition], first: bool) -> bool
    ensures { result ≡ some_or more.now first }
{
    match more {
        [] => first,
        [_, ..] => true,
    }
}

/// A filter's condition over the columns of two algebras side by side.
pub(crate) fn truth_expr(
    alloc: Global,
    mode: &Mode,
    left: &[Var],
    right: &[Var],
    condition: &Condition,
) -> Result<Expr, Memory>
    ensures { IfOk result (λ e. expr_seen e ≡ truth_expr (merged mode.now left.now right.now) (condition_seen condition.now)) }
{
    Ok(truth(alloc, mode, left, right, condition)?.into_inner())
}

/// A filter's condition over the columns of one algebra.
#[tactic(auto, using(crate::proofs::Steps::of_one_algebra))]
pub(crate) fn filter_expr(
    alloc: Global,
    variables: &[Var],
    condition: &Condition,
) -> Result<Expr, Memory>
    ensures { IfOk result (λ e. expr_seen e ≡ truth_expr (visible_column variables.now) (condition_seen condition.now)) }
{
    let none = Items::new(alloc);
    truth_expr(alloc, &Mode::Default, variables, none.as_slice(), condition)
}

/// The value of an expression over the columns of one algebra, as a term.
#[tactic(auto, using(crate::proofs::Steps::value_of_one_algebra))]
pub(crate) fn value_expr(
    alloc: Global,
    variables: &[Var],
    condition: &Condition,
) -> Result<Expr, Memory>
    ensures { IfOk result (λ e. expr_seen e ≡ value_expr (visible_column variables.now) (condition_seen condition.now)) }
{
    let none = Items::new(alloc);
    let value = term(alloc, &Mode::Default, variables, none.as_slice(), condition)?;
    Ok(value.into_inner())
}

#[cycle(conditions)]
fn truth(
    alloc: Global,
    mode: &Mode,
    left: &[Var],
    right: &[Var],
    condition: &Condition,
) -> Result<Box<Expr>, Memory>
    ensures { IfOk result (λ e. expr_seen e ≡ to_truth (gives_truth (condition_seen condition.now)) (expr_of (merged mode.now left.now right.now) (condition_seen condition.now))) }
{
    let e = expression(alloc, mode, left, right, condition)?;
    as_truth(alloc, gives_truth(condition), e)
}

#[cycle(conditions)]
fn term(
    alloc: Global,
    mode: &Mode,
    left: &[Var],
    right: &[Var],
    condition: &Condition,
) -> Result<Box<Expr>, Memory>
    ensures { IfOk result (λ e. expr_seen e ≡ to_term (gives_truth (condition_seen condition.now)) (expr_of (merged mode.now left.now right.now) (condition_seen condition.now))) }
{
    let e = expression(alloc, mode, left, right, condition)?;
    as_term(alloc, gives_truth(condition), e)
}

#[tactic(auto, using(crate::proofs::Chains::all_chain, crate::proofs::Chains::any_chain))]
#[cycle(conditions)]
fn expression(
    alloc: Global,
    mode: &Mode,
    left: &[Var],
    right: &[Var],
    condition: &Condition,
) -> Result<Box<Expr>, Memory>
    ensures { IfOk result (λ e. expr_seen e ≡ expr_of (merged mode.now left.now right.now) (condition_seen condition.now)) }
{
    match condition {
        Condition::Variable(variable) => column(alloc, mode, left, right, *variable),
        Condition::Constant(term) => Box::new(alloc, term_const(term)?),
        Condition::Bound(variable) => bound(alloc, mode, left, right, *variable),
        Condition::Test(test, a) => tested(alloc, *test, term(alloc, mode, left, right, a)),
        Condition::Take(take, a) => taken(alloc, *take, term(alloc, mode, left, right, a)),
        Condition::Compare(compare, a, b) => {
            let first = term(alloc, mode, left, right, a);
            compared(alloc, *compare, first, term(alloc, mode, left, right, b))
        }
        Condition::SameTerm(a, b) => {
            let first = term(alloc, mode, left, right, a);
            same(alloc, first, term(alloc, mode, left, right, b))
        }
        Condition::Not(a) => negation(alloc, truth(alloc, mode, left, right, a)),
        Condition::And(first, more) => conjunction(
            alloc,
            gives_truth(first),
            expression(alloc, mode, left, right, first),
            truths(alloc, mode, left, right, more.as_slice()),
        ),
        Condition::Or(first, more) => disjunction(
            alloc,
            gives_truth(first),
            expression(alloc, mode, left, right, first),
            truths(alloc, mode, left, right, more.as_slice()),
        ),
    }
}

#[cycle(conditions)]
fn truths(
    alloc: Global,
    mode: &Mode,
    left: &[Var],
    right: &[Var],
    conditions: &[Condition],
) -> Result<Items<Expr>, Memory>
    ensures { IfOk result (λ es. map expr_seen es ≡ map (λ c. truth_expr (merged mode.now left.now right.now) (condition_seen c)) conditions.now) }
{
    let mut found = Items::new(alloc);
    for condition in conditions {
        found.push(truth(alloc, mode, left, right, condition)?.into_inner())?;
    }
    Ok(found)
}

/// The column of a variable.
fn column(
    alloc: Global,
    mode: &Mode,
    left: &[Var],
    right: &[Var],
    variable: Var,
) -> Result<Box<Expr>, Memory>
    ensures { IfOk result (λ e. expr_seen e ≡ merged mode.now left.now right.now variable) }
{
    Box::new(alloc, merged(alloc, mode, left, right, variable)?)
}

/// Whether a variable is bound.
fn bound(
    alloc: Global,
    mode: &Mode,
    left: &[Var],
    right: &[Var],
    variable: Var,
) -> Result<Box<Expr>, Memory>
    ensures { IfOk result (λ e. expr_seen e ≡ expr.Not (IsNull (merged mode.now left.now right.now variable))) }
{
    let e = merged(alloc, mode, left, right, variable)?;
    Box::new(alloc, known(alloc, e)?)
}

/// A chain of `&&`, joined from the left.
fn conjunction(
    alloc: Global,
    is_truth: bool,
    first: Result<Box<Expr>, Memory>,
    more: Result<Items<Expr>, Memory>,
) -> Result<Box<Expr>, Memory>
    ensures { IfOk result (λ e. IsOkAnd first (λ x. IsOkAnd more (λ fs. expr_seen e ≡ chain_all is_truth (expr_seen x) (map expr_seen fs)))) }
{
    let first = first?;
    let more = more?;
    match more.as_slice() {
        [] => Ok(first),
        [_, ..] => all_of(alloc, as_truth(alloc, is_truth, first)?, more.as_slice()),
    }
}

fn all_of(alloc: Global, first: Box<Expr>, more: &[Expr]) -> Result<Box<Expr>, Memory>
    ensures { IfOk result (λ e. expr_seen e ≡ all_of (expr_seen first) (map expr_seen more.now)) }
{
    let mut all = first;
    for next in more {
        let next = Box::new(alloc, next.copy(alloc)?)?;
        all = both(alloc, all, next)?;
    }
    Ok(all)
}

/// A chain of `||`, joined from the left.
fn disjunction(
    alloc: Global,
    is_truth: bool,
    first: Result<Box<Expr>, Memory>,
    more: Result<Items<Expr>, Memory>,
) -> Result<Box<Expr>, Memory>
    ensures { IfOk result (λ e. IsOkAnd first (λ x. IsOkAnd more (λ fs. expr_seen e ≡ chain_any is_truth (expr_seen x) (map expr_seen fs)))) }
{
    let first = first?;
    let more = more?;
    match more.as_slice() {
        [] => Ok(first),
        [_, ..] => any_of(alloc, as_truth(alloc, is_truth, first)?, more.as_slice()),
    }
}

fn any_of(alloc: Global, first: Box<Expr>, more: &[Expr]) -> Result<Box<Expr>, Memory>
    ensures { IfOk result (λ e. expr_seen e ≡ any_of (expr_seen first) (map expr_seen more.now)) }
{
    let mut any = first;
    for next in more {
        let next = Box::new(alloc, next.copy(alloc)?)?;
        any = either(alloc, any, next)?;
    }
    Ok(any)
}

fn both(alloc: Global, a: Box<Expr>, b: Box<Expr>) -> Result<Box<Expr>, Memory>
    ensures { IfOk result (λ e. expr_seen e ≡ expr.And (exprs (expr_seen a ∷ expr_seen b ∷ []))) }
{
    let members = two(alloc, a, b)?;
    Box::new(alloc, Expr::And(members))
}

fn either(alloc: Global, a: Box<Expr>, b: Box<Expr>) -> Result<Box<Expr>, Memory>
    ensures { IfOk result (λ e. expr_seen e ≡ expr.Or (exprs (expr_seen a ∷ expr_seen b ∷ []))) }
{
    let members = two(alloc, a, b)?;
    Box::new(alloc, Expr::Or(members))
}

fn two(alloc: Global, a: Box<Expr>, b: Box<Expr>) -> Result<Items<Expr>, Memory>
    ensures { IfOk result (λ es. map expr_seen es ≡ expr_seen a ∷ expr_seen b ∷ []) }
{
    let mut members = Items::new(alloc);
    members.push(a.into_inner())?;
    members.push(b.into_inner())?;
    Ok(members)
}

fn as_truth(alloc: Global, is_truth: bool, e: Box<Expr>) -> Result<Box<Expr>, Memory>
    ensures { IfOk result (λ t. expr_seen t ≡ to_truth is_truth (expr_seen e)) }
{
    if is_truth {
        Ok(e)
    } else {
        Box::new(alloc, Expr::Ebv(e))
    }
}

fn as_term(alloc: Global, is_truth: bool, e: Box<Expr>) -> Result<Box<Expr>, Memory>
    ensures { IfOk result (λ t. expr_seen t ≡ to_term is_truth (expr_seen e)) }
{
    if is_truth {
        truth_term(alloc, e)
    } else {
        Ok(e)
    }
}

/// The literal of a truth.
fn truth_term(alloc: Global, e: Box<Expr>) -> Result<Box<Expr>, Memory>
    ensures { IfOk result (λ t. expr_seen t ≡ to_term true (expr_seen e)) }
{
    let boolean = natural(alloc, SqlType::Bool)?;
    let form = Shared::new(alloc, Expr::Lex(e))?;
    Box::new(alloc, Expr::MakeLit(form, boolean))
}

fn tested(alloc: Global, test: Test, a: Result<Box<Expr>, Memory>) -> Result<Box<Expr>, Memory>
    ensures { IfOk result (λ e. IsOkAnd a (λ x. expr_seen e ≡ Sparql (Operator.Test test) (exprs (expr_seen x ∷ [])))) }
{
    of_one(alloc, Operator::Test(test), a)
}

fn taken(alloc: Global, take: Take, a: Result<Box<Expr>, Memory>) -> Result<Box<Expr>, Memory>
    ensures { IfOk result (λ e. IsOkAnd a (λ x. expr_seen e ≡ Sparql (Operator.Take take) (exprs (expr_seen x ∷ [])))) }
{
    of_one(alloc, Operator::Take(take), a)
}

fn compared(
    alloc: Global,
    compare: Compare,
    a: Result<Box<Expr>, Memory>,
    b: Result<Box<Expr>, Memory>,
) -> Result<Box<Expr>, Memory>
    ensures { IfOk result (λ e. IsOkAnd a (λ x. IsOkAnd b (λ y. expr_seen e ≡ Sparql (Operator.Compare compare) (exprs (expr_seen x ∷ expr_seen y ∷ []))))) }
{
    of_two(alloc, Operator::Compare(compare), a, b)
}

fn of_one(
    alloc: Global,
    operator: Operator,
    a: Result<Box<Expr>, Memory>,
) -> Result<Box<Expr>, Memory>
    ensures { IfOk result (λ e. IsOkAnd a (λ x. expr_seen e ≡ Sparql operator (exprs (expr_seen x ∷ [])))) }
{
    let mut operands = Items::new(alloc);
    operands.push(a?.into_inner())?;
    Box::new(alloc, Expr::Sparql(operator, operands))
}

fn of_two(
    alloc: Global,
    operator: Operator,
    a: Result<Box<Expr>, Memory>,
    b: Result<Box<Expr>, Memory>,
) -> Result<Box<Expr>, Memory>
    ensures { IfOk result (λ e. IsOkAnd a (λ x. IsOkAnd b (λ y. expr_seen e ≡ Sparql operator (exprs (expr_seen x ∷ expr_seen y ∷ []))))) }
{
    let operands = two(alloc, a?, b?)?;
    Box::new(alloc, Expr::Sparql(operator, operands))
}

fn same(
    alloc: Global,
    a: Result<Box<Expr>, Memory>,
    b: Result<Box<Expr>, Memory>,
) -> Result<Box<Expr>, Memory>
    ensures { IfOk result (λ e. IsOkAnd a (λ x. IsOkAnd b (λ y. expr_seen e ≡ Same (expr_seen x) (expr_seen y)))) }
{
    Box::new(alloc, Expr::Same(a?, b?))
}

fn negation(alloc: Global, a: Result<Box<Expr>, Memory>) -> Result<Box<Expr>, Memory>
    ensures { IfOk result (λ e. IsOkAnd a (λ x. expr_seen e ≡ expr.Not (expr_seen x))) }
{
    let a = Shared::from_box(alloc, a?)?;
    Box::new(alloc, Expr::Not(a))
}
