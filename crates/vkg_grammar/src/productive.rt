ghost use Rattle.std.specs.Prelude.{◌≡◌, ℕ, ◌<◌, ◌↔◌, length, IsTrue, IfOk, slice_index};
ghost use Rattle.vkg_grammar.specs.Grammar.{IsGrammar, IsProductive};
ghost use Rattle.vkg_grammar.specs.Tables.{IsNextCell, IsRound, TextReason, HasText, AllFound};

use crate::rule::Rule;
use std::alloc::{AllocError, Global};

// Whether by what is found the symbol derives some list of tokens.
pub(crate) fn has_text(rules: &[Rule], table: &[usize], symbol: usize) -> bool
    requires grammar { IsGrammar rules.now }
    requires sized { length table.now ≡ length rules.now }
    requires inside { symbol < length rules.now }
    ensures { IsTrue result ↔ TextReason rules.now table.now symbol }
{
    match rules[symbol] {
        Rule::Token(_) => true,
        Rule::Empty => true,
        Rule::Then(first, second) => all_found(table, &[first, second]),
        Rule::Either(first, second) => { all_found(table, &[first]) || all_found(table, &[second]) }
        Rule::Optional(_) => true,
        Rule::Repeated(_) => true,
    }
}

// Whether each of these symbols was found to derive some list of tokens.
pub(crate) fn all_found(table: &[usize], symbols: &[usize]) -> bool
    requires { (i : ℕ) → i < length symbols.now → slice_index symbols.now i < length table.now }
    ensures { IsTrue result ↔ AllFound table.now symbols.now }
{
    for symbol in symbols {
        if table[*symbol] == 0 {
            return false;
        }
    }
    true
}

// One round over all symbols, and whether it changed any.
pub(crate) fn text_round(
    alloc: Global,
    rules: &[Rule],
    table: &[usize],
) -> Result<(Vec<usize>, bool), AllocError>
    requires grammar { IsGrammar rules.now }
    requires sized { length table.now ≡ length rules.now }
    ensures { IfOk result (λ r. IsRound (TextReason rules.now table.now) 1 table.now r.0.items (length table.now) r.1) }
{
    let mut next = Vec::new(alloc);
    let mut changed = false;
    for (symbol, old) in table.iter().enumerate() {
        let value = text_cell(rules, table, symbol, *old);
        if value != *old {
            changed = true;
        }
        next.push(value)?;
    }
    Ok((next, changed))
}

// What the next round finds for a symbol: what was found stays.
pub(crate) fn text_cell(rules: &[Rule], table: &[usize], symbol: usize, old: usize) -> usize
    requires grammar { IsGrammar rules.now }
    requires sized { length table.now ≡ length rules.now }
    requires inside { symbol < length rules.now }
    ensures { IsNextCell (TextReason rules.now table.now symbol) 1 old result }
{
    if old > 0 {
        return old;
    }
    if has_text(rules, table, symbol) { 1 } else { 0 }
}

// Which symbols derive some list of tokens.
pub(crate) fn text_table(alloc: Global, rules: &[Rule]) -> Result<Vec<usize>, AllocError>
    requires { IsGrammar rules.now }
    ensures size { IfOk result (λ table. length table.items ≡ length rules.now) }
    ensures texts { IfOk result (λ table. (n : ℕ) → n < length rules.now → (0 < slice_index table.items n ↔ HasText rules.now n)) }
{
    let mut table = vec![in alloc; 0usize; rules.len()]?;
    loop {
        let (next, changed) = text_round(alloc, rules, &table)?;
        if !changed {
            return Ok(table);
        }
        table = next;
    }
}

// Whether every symbol derives some list of tokens.
pub(crate) fn is_productive(alloc: Global, rules: &[Rule]) -> Result<bool, AllocError>
    requires { IsGrammar rules.now }
    ensures { IfOk result (λ b. IsTrue b ↔ IsProductive rules.now) }
{
    let table = text_table(alloc, rules)?;
    Ok(has_no_zero(&table))
}

// Whether each symbol was found.
pub(crate) fn has_no_zero(table: &[usize]) -> bool
    ensures { IsTrue result ↔ ((n : ℕ) → n < length table.now → 0 < slice_index table.now n) }
{
    for found in table {
        if *found == 0 {
            return false;
        }
    }
    true
}
