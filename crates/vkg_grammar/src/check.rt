ghost use Rattle.std.specs.Prelude.{◌≡◌, ℕ, ◌+◌, ◌*◌, ◌^◌, ◌<◌, ◌↔◌, length, IsTrue, IfOk, Some, None};
ghost use Rattle.vkg_grammar.specs.Grammar.{shape_of, IsGrammar, IsLL1};
ghost use Rattle.vkg_grammar.specs.Rank.{rank_in, HasRows, AllHaveRows};
ghost use Rattle.vkg_grammar.specs.Tables.{HasColumns, StartsBy, WaysApart, ShapeApart};

use crate::follow::follow_table;
use crate::grammar::Grammar;
use crate::productive::is_productive;
use crate::rule::Rule;
use crate::table::{begin_table, begins, is_ranked};
use std::alloc::{AllocError, Global};
use vkg_base::Memory;

// Whether this kind begins this way of the symbol: it begins what the way is made of, or the way may be empty and it may follow.
pub(crate) fn starts(
    table: &[usize],
    follow: &[usize],
    width: usize,
    symbol: usize,
    kind: usize,
    way: &[usize],
) -> bool
    requires rows { AllHaveRows (length table.now) width way.now (Some kind) }
    requires row { HasRows (length follow.now) width symbol (Some kind) }
    ensures { IsTrue result ↔ StartsBy (rank_in table.now width) follow.now width symbol kind way.now }
{
    if begins(table, width, way, Some(kind)) {
        return true;
    }
    begins(table, width, way, None) && is_ranked(follow, width, symbol, Some(kind))
}

// Whether this kind begins both ways of the symbol.
pub(crate) fn both_start(
    table: &[usize],
    follow: &[usize],
    width: usize,
    symbol: usize,
    kind: usize,
    first: &[usize],
    second: &[usize],
) -> bool
    requires rows { AllHaveRows (length table.now) width first.now (Some kind) }
    requires second_rows { AllHaveRows (length table.now) width second.now (Some kind) }
    requires row { HasRows (length follow.now) width symbol (Some kind) }
    ensures { IsTrue result ↔ (StartsBy (rank_in table.now width) follow.now width symbol kind first.now
        × StartsBy (rank_in table.now width) follow.now width symbol kind second.now) }
{
    if !starts(table, follow, width, symbol, kind, first) {
        return false;
    }
    starts(table, follow, width, symbol, kind, second)
}

// Whether no kind begins both ways.
pub(crate) fn kinds_apart(
    table: &[usize],
    follow: &[usize],
    width: usize,
    symbol: usize,
    first: &[usize],
    second: &[usize],
) -> bool
    requires rows { (k : ℕ) → k + 1 < width → AllHaveRows (length table.now) width first.now (Some k) }
    requires second_rows { (k : ℕ) → k + 1 < width → AllHaveRows (length table.now) width second.now (Some k) }
    requires row { (k : ℕ) → k + 1 < width → HasRows (length follow.now) width symbol (Some k) }
    requires wide { 0 < width }
    ensures { IsTrue result ↔ ((k : ℕ) → k + 1 < width → StartsBy (rank_in table.now width) follow.now width symbol k first.now
        → StartsBy (rank_in table.now width) follow.now width symbol k second.now → ⊥) }
{
    for kind in 0..width - 1 {
        if both_start(table, follow, width, symbol, kind, first, second) {
            return false;
        }
    }
    true
}

// Whether at most one of two ways may be empty and no kind begins both.
pub(crate) fn are_apart(
    table: &[usize],
    follow: &[usize],
    width: usize,
    symbol: usize,
    first: &[usize],
    second: &[usize],
) -> bool
    requires rows { (k : ℕ) → k + 1 < width → AllHaveRows (length table.now) width first.now (Some k) }
    requires second_rows { (k : ℕ) → k + 1 < width → AllHaveRows (length table.now) width second.now (Some k) }
    requires none_rows { AllHaveRows (length table.now) width first.now None }
    requires second_none_rows { AllHaveRows (length table.now) width second.now None }
    requires row { (k : ℕ) → k + 1 < width → HasRows (length follow.now) width symbol (Some k) }
    requires wide { 0 < width }
    ensures { IsTrue result ↔ WaysApart (rank_in table.now width) follow.now width symbol first.now second.now }
{
    if !begins(table, width, first, None) {
        return kinds_apart(table, follow, width, symbol, first, second);
    }
    if begins(table, width, second, None) {
        return false;
    }
    kinds_apart(table, follow, width, symbol, first, second)
}

// Whether the ways of a symbol are apart.
pub(crate) fn is_apart(
    rules: &[Rule],
    table: &[usize],
    follow: &[usize],
    width: usize,
    symbol: usize,
) -> bool
    requires grammar { IsGrammar rules.now }
    requires sized { length table.now ≡ width * length rules.now }
    requires follow_sized { length follow.now ≡ width * length rules.now }
    requires inside { symbol < length rules.now }
    requires wide { 0 < width }
    ensures { IsTrue result ↔ ShapeApart (rank_in table.now width) follow.now width symbol (shape_of rules.now symbol) }
{
    match rules[symbol] {
        Rule::Token(_) => true,
        Rule::Empty => true,
        Rule::Then(_, _) => true,
        Rule::Either(first, second) => {
            are_apart(table, follow, width, symbol, &[first], &[second])
        }
        Rule::Optional(part) => are_apart(table, follow, width, symbol, &[part], &[]),
        Rule::Repeated(part) => are_apart(table, follow, width, symbol, &[part, symbol], &[]),
    }
}

// Whether the ways of each symbol are apart.
pub(crate) fn all_apart(rules: &[Rule], table: &[usize], follow: &[usize], width: usize) -> bool
    requires grammar { IsGrammar rules.now }
    requires sized { length table.now ≡ width * length rules.now }
    requires follow_sized { length follow.now ≡ width * length rules.now }
    requires wide { 0 < width }
    ensures { IsTrue result ↔ ((n : ℕ) → n < length rules.now → ShapeApart (rank_in table.now width) follow.now width n (shape_of rules.now n)) }
{
    for symbol in 0..rules.len() {
        if !is_apart(rules, table, follow, width, symbol) {
            return false;
        }
    }
    true
}

// Whether the grammar of these rules is LL(1), by its tables of this width.
pub(crate) fn are_ll1(alloc: Global, rules: &[Rule], width: usize) -> Result<bool, AllocError>
    requires grammar { IsGrammar rules.now }
    requires columns { HasColumns rules.now width }
    requires wide { 0 < width }
    requires small { width * length rules.now < 2 ^ 60 }
    ensures { IfOk result (λ b. IsTrue b ↔ IsLL1 rules.now) }
{
    if !is_productive(alloc, rules)? {
        return Ok(false);
    }
    let table = begin_table(alloc, rules, width)?;
    let follow = follow_table(alloc, rules, &table, width)?;
    Ok(all_apart(rules, &table, &follow, width))
}

/// Whether the grammar is LL(1): every symbol derives some list of tokens, and at each choice, option and repetition at most
/// one way may be empty and no kind of token begins two ways (where a way may be empty, what may follow there begins it too).
pub fn check_ll1(alloc: Global, grammar: &Grammar) -> Result<bool, Memory>
    ensures { IfOk result (λ b. IsTrue b ↔ IsLL1 grammar.now.rules) }
{
    Ok(are_ll1(alloc, grammar.rules(), grammar.width())?)
}
