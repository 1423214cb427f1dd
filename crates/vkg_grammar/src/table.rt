ghost use Rattle.std.specs.Prelude.{◌≡◌, ◌*◌, ◌^◌, ◌<◌, ◌⊎◌, ◌↔◌, length, IsTrue, IfOk, Some};
ghost use Rattle.vkg_grammar.specs.Grammar.{shape_of, IsGrammar};
ghost use Rattle.vkg_grammar.specs.Rank.{column, rank_in, Begins, IsTable, HasRows, AllHaveRows, ShapeBegins};
ghost use Rattle.vkg_grammar.specs.Tables.{HasColumns, seen_at, IsNextCell, IsRound, BeginReason};

use crate::rule::Rule;
use std::alloc::{AllocError, Global};

// The column of what is seen: 0 for the end, one for each kind.
pub(crate) fn column_of(seen: Option<usize>) -> usize
    requires { column seen < 2 ^ 64 }
    ensures { result ≡ column seen }
{
    match seen {
        None => 0,
        Some(kind) => kind + 1,
    }
}

// When the table found that the symbol begins with what is seen, or for None may be empty.
pub(crate) fn rank(table: &[usize], width: usize, symbol: usize, seen: Option<usize>) -> usize
    requires { HasRows (length table.now) width symbol seen }
    ensures { result ≡ rank_in table.now width symbol seen }
{
    let column = column_of(seen);
    table[symbol * width + column]
}

// By the table, these symbols begin with what is seen, or for None may be empty.
pub(crate) fn begins(table: &[usize], width: usize, symbols: &[usize], seen: Option<usize>) -> bool
    requires { AllHaveRows (length table.now) width symbols.now seen }
    ensures { IsTrue result ↔ Begins (rank_in table.now width) seen symbols.now }
{
    for symbol in symbols {
        if seen.is_some() && rank(table, width, *symbol, seen) > 0 {
            return true;
        }
        if rank(table, width, *symbol, None) == 0 {
            return false;
        }
    }
    seen.is_none()
}

// Whether the table found that the symbol begins with what is seen, or for None may be empty.
pub(crate) fn is_ranked(table: &[usize], width: usize, symbol: usize, seen: Option<usize>) -> bool
    requires { HasRows (length table.now) width symbol seen }
    ensures { IsTrue result ↔ (0 < rank_in table.now width symbol seen) }
{
    rank(table, width, symbol, seen) > 0
}

// Whether by the table the symbol has a reason to begin with what is seen, or for None to be empty.
pub(crate) fn has_reason(
    rules: &[Rule],
    table: &[usize],
    width: usize,
    symbol: usize,
    seen: Option<usize>,
) -> bool
    requires grammar { IsGrammar rules.now }
    requires sized { length table.now ≡ width * length rules.now }
    requires in_column { column seen < width }
    requires inside { symbol < length rules.now }
    ensures { IsTrue result ↔ ShapeBegins (rank_in table.now width) seen (shape_of rules.now symbol) }
{
    match rules[symbol] {
        Rule::Token(kind) => is_kind(seen, kind),
        Rule::Empty => begins(table, width, &[], seen),
        Rule::Then(first, second) => begins(table, width, &[first, second], seen),
        Rule::Either(first, second) => { begins_either(table, width, &[first], &[second], seen) }
        Rule::Optional(part) => begins_either(table, width, &[part], &[], seen),
        Rule::Repeated(part) => begins_either(table, width, &[part, symbol], &[], seen),
    }
}

// Whether a token of this kind is seen.
pub(crate) fn is_kind(seen: Option<usize>, kind: usize) -> bool
    ensures { IsTrue result ↔ (seen ≡ Some kind) }
{
    match seen {
        None => false,
        Some(other) => other == kind,
    }
}

// By the table, one of two ways begins with what is seen, or for None may be empty.
pub(crate) fn begins_either(
    table: &[usize],
    width: usize,
    first: &[usize],
    second: &[usize],
    seen: Option<usize>,
) -> bool
    requires rows { AllHaveRows (length table.now) width first.now seen }
    requires second_rows { AllHaveRows (length table.now) width second.now seen }
    ensures { IsTrue result ↔ (Begins (rank_in table.now width) seen first.now ⊎ Begins (rank_in table.now width) seen second.now) }
{
    begins(table, width, first, seen) || begins(table, width, second, seen)
}

// What a column is for.
pub(crate) fn seen_of(column: usize) -> Option<usize>
    ensures { result ≡ seen_at column }
{
    if column == 0 {
        return None;
    }
    Some(column - 1)
}

// What the next round finds for a cell.
pub(crate) fn next_cell(
    rules: &[Rule],
    table: &[usize],
    width: usize,
    stamp: usize,
    index: usize,
    old: usize,
) -> usize
    requires grammar { IsGrammar rules.now }
    requires sized { length table.now ≡ width * length rules.now }
    requires inside { index < length table.now }
    requires wide { 0 < width }
    ensures { IsNextCell (BeginReason rules.now width table.now index) stamp old result }
{
    if old > 0 {
        return old;
    }
    let seen = seen_of(index % width);
    if has_reason(rules, table, width, index / width, seen) {
        stamp
    } else {
        0
    }
}

// One round over all cells, and whether it changed any.
pub(crate) fn round(
    alloc: Global,
    rules: &[Rule],
    table: &[usize],
    width: usize,
    stamp: usize,
) -> Result<(Vec<usize>, bool), AllocError>
    requires grammar { IsGrammar rules.now }
    requires sized { length table.now ≡ width * length rules.now }
    requires wide { 0 < width }
    ensures { IfOk result (λ r. IsRound (BeginReason rules.now width table.now) stamp table.now r.0.items (length table.now) r.1) }
{
    let mut next = Vec::new(alloc);
    let mut changed = false;
    for (index, old) in table.iter().enumerate() {
        let value = next_cell(rules, table, width, stamp, index, *old);
        if value != *old {
            changed = true;
        }
        next.push(value)?;
    }
    Ok((next, changed))
}

// The table of the grammar.
pub(crate) fn begin_table(
    alloc: Global,
    rules: &[Rule],
    width: usize,
) -> Result<Vec<usize>, AllocError>
    requires grammar { IsGrammar rules.now }
    requires columns { HasColumns rules.now width }
    requires wide { 0 < width }
    requires small { width * length rules.now < 2 ^ 60 }
    ensures size { IfOk result (λ table. length table.items ≡ width * length rules.now) }
    ensures table { IfOk result (λ table. IsTable rules.now (rank_in table.items width)) }
{
    let mut table = vec![in alloc; 0usize; width * rules.len()]?;
    let mut stamp = 1usize;
    loop {
        let (next, changed) = round(alloc, rules, &table, width, stamp)?;
        if !changed {
            return Ok(table);
        }
        table = next;
        stamp += 1;
    }
}
