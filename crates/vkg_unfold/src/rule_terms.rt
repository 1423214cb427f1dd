// Rules over rows with the expressions of their terms.
ghost use Rattle.std.specs.Prelude.{◌≡◌, [], ◌++◌, ◌∷◌, IfOk, OnOk, map};
ghost use Rattle.vkg_expr.specs.Expr.{IsNull, Not};
ghost use Rattle.vkg_expr.specs.Seen.{expr_seen};
ghost use Rattle.vkg_expr.specs.TermExprs.{term_expr};
ghost use Rattle.vkg_unfolded.specs.Unfolded.{not_null};

use crate::exprs::{known, term_expr};
use std::alloc::Global;
use std::marker::Model;
use vkg_base::{Box, Items, Memory};
use vkg_expr::{Expr, TermExpr};
use vkg_row_rules::RowRule;

/// A rule with the expressions of its terms, which are made once and shared by the members of all patterns. It is seen as the rule.
#[derive(Drop)]
pub(crate) struct RuleTerms<'a> {
    rule: &'a RowRule,
    subject: Box<Expr>,
    predicate: Box<Expr>,
    object: Box<Expr>,
    /// That the terms are there.
    tests: Items<Expr>,
}

impl<'a> Model for RuleTerms<'a> {
    ghost use Rattle.std.specs.Prelude.{◌≡◌, map};
    ghost use Rattle.vkg_expr.specs.Seen.{expr_seen};
    ghost use Rattle.vkg_expr.specs.TermExprs.{term_expr};
    ghost use Rattle.vkg_row_rules.specs.declared.row_rule.RowRule.{RowRule};
    ghost use Rattle.vkg_unfolded.specs.Unfolded.{not_null};

    ghost Value = { RowRule };

    ghost view = { λ t. t.rule.now };

    ghost invariant = { λ t. (expr_seen t.subject ≡ term_expr t.rule.now.subject)
        × ((expr_seen t.predicate ≡ term_expr t.rule.now.predicate)
        × ((expr_seen t.object ≡ term_expr t.rule.now.object)
        × (map expr_seen t.tests ≡ not_null t.rule.now))) };
}

impl<'a> RuleTerms<'a> {
    /// The rule itself.
    pub(crate) fn rule(&self) -> &'a RowRule
        ensures { result.now ≡ self.now }
    {
        self.rule
    }

    pub(crate) fn subject(&self) -> &Expr
        ensures { expr_seen result.now ≡ term_expr self.now.subject }
    {
        &self.subject
    }

    pub(crate) fn predicate(&self) -> &Expr
        ensures { expr_seen result.now ≡ term_expr self.now.predicate }
    {
        &self.predicate
    }

    pub(crate) fn object(&self) -> &Expr
        ensures { expr_seen result.now ≡ term_expr self.now.object }
    {
        &self.object
    }

    /// That the terms of the rule's quad are there.
    pub(crate) fn not_null(&self) -> &[Expr]
        ensures { map expr_seen result.now ≡ not_null self.now }
    {
        self.tests.as_slice()
    }
}

/// The rules with the expressions of their terms.
pub(crate) fn rule_terms<'a>(
    alloc: Global,
    rules: &'a [RowRule],
) -> Result<Items<RuleTerms<'a>>, Memory>
    ensures { IfOk result (λ ts. ts ≡ rules.now) }
{
    let mut all = Items::new(alloc);
    for rule in rules {
        all.push(terms_of(alloc, rule)?)?;
    }
    Ok(all)
}

fn terms_of<'a>(alloc: Global, rule: &'a RowRule) -> Result<RuleTerms<'a>, Memory>
    ensures { IfOk result (λ t. t ≡ rule.now) }
{
    let subject = Box::new(alloc, term_expr(alloc, &rule.subject)?)?;
    let predicate = Box::new(alloc, term_expr(alloc, &rule.predicate)?)?;
    let object = Box::new(alloc, term_expr(alloc, &rule.object)?)?;
    let tests = terms_are_there(alloc, rule)?;
    Ok(RuleTerms {
        rule,
        subject,
        predicate,
        object,
        tests,
    })
}

/// The terms of a rule's quad are there.
fn terms_are_there(alloc: Global, rule: &RowRule) -> Result<Items<Expr>, Memory>
    ensures { IfOk result (λ es. map expr_seen es ≡ not_null rule.now) }
{
    let mut conditions = Items::new(alloc);
    push_known(alloc, &mut conditions, &rule.subject)?;
    push_known(alloc, &mut conditions, &rule.predicate)?;
    push_known(alloc, &mut conditions, &rule.object)?;
    match &rule.graph {
        None => {}
        Some(graph) => push_known(alloc, &mut conditions, graph)?,
    }
    Ok(conditions)
}

fn push_known(alloc: Global, conditions: &mut Items<Expr>, term: &TermExpr) -> Result<(), Memory>
    ensures { OnOk result (map expr_seen conditions.new ≡ map expr_seen conditions.old ++ Not (IsNull (term_expr term.now)) ∷ []) }
{
    let term = term_expr(alloc, term)?;
    conditions.push(known(alloc, term)?)
}
