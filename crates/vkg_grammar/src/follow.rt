ghost use Rattle.std.specs.Prelude.{◌≡◌, ℕ, ◌*◌, ◌^◌, ◌<◌, ◌⊎◌, ◌↔◌, length, IsTrue, IfOk, Some, None};
ghost use Rattle.vkg_grammar.specs.Grammar.{shape_of, IsGrammar, IsProductive};
ghost use Rattle.vkg_grammar.specs.Rank.{column, rank_in, Begins, IsTable, AllHaveRows};
ghost use Rattle.vkg_grammar.specs.Tables.{IsNextCell, IsRound, PlaceFollows, ShapeFollows, HasPlace, FollowReason, IsFollowTable};

use crate::rule::Rule;
use crate::table::{begins, is_ranked, seen_of};
use std::alloc::{AllocError, Global};

// Whether by its place in these symbols what is seen may come behind the symbol.
pub(crate) fn place_follows(
    table: &[usize],
    width: usize,
    way: &[usize],
    behind: bool,
    symbol: usize,
    seen: Option<usize>,
) -> bool
    requires { AllHaveRows (length table.now) width way.now seen }
    ensures { IsTrue result ↔ PlaceFollows (rank_in table.now width) (IsTrue behind) symbol seen way.now }
{
    for (index, part) in way.iter().enumerate() {
        if *part == symbol && follows_before(table, width, &way[index + 1..], behind, seen) {
            return true;
        }
    }
    false
}

// Whether what is seen begins the symbols after a place, or they may be empty and it may come behind them.
pub(crate) fn follows_before(
    table: &[usize],
    width: usize,
    after: &[usize],
    behind: bool,
    seen: Option<usize>,
) -> bool
    requires { AllHaveRows (length table.now) width after.now seen }
    ensures { IsTrue result ↔ (((k : ℕ) × (seen ≡ Some k) × Begins (rank_in table.now width) seen after.now)
        ⊎ (Begins (rank_in table.now width) None after.now × IsTrue behind)) }
{
    if seen.is_some() && begins(table, width, after, seen) {
        return true;
    }
    behind && begins(table, width, after, None)
}

// Whether by its place in the ways of the parent what is seen may come behind the symbol.
pub(crate) fn symbol_follows(
    rules: &[Rule],
    table: &[usize],
    width: usize,
    parent: usize,
    behind: bool,
    symbol: usize,
    seen: Option<usize>,
) -> bool
    requires grammar { IsGrammar rules.now }
    requires sized { length table.now ≡ width * length rules.now }
    requires in_column { column seen < width }
    requires inside { parent < length rules.now }
    ensures { IsTrue result ↔ ShapeFollows (rank_in table.now width) (IsTrue behind) symbol seen (shape_of rules.now parent) }
{
    match rules[parent] {
        Rule::Token(_) => false,
        Rule::Empty => false,
        Rule::Then(first, second) => {
            place_follows(table, width, &[first, second], behind, symbol, seen)
        }
        Rule::Either(first, second) => {
            place_follows(table, width, &[first], behind, symbol, seen)
                || place_follows(table, width, &[second], behind, symbol, seen)
        }
        Rule::Optional(part) => place_follows(table, width, &[part], behind, symbol, seen),
        Rule::Repeated(part) => place_follows(table, width, &[part, parent], behind, symbol, seen),
    }
}

// The same of the parent, by what was found to follow the parent itself.
pub(crate) fn parent_follows(
    rules: &[Rule],
    table: &[usize],
    follow: &[usize],
    width: usize,
    parent: usize,
    symbol: usize,
    seen: Option<usize>,
) -> bool
    requires grammar { IsGrammar rules.now }
    requires sized { length table.now ≡ width * length rules.now }
    requires follow_sized { length follow.now ≡ width * length rules.now }
    requires in_column { column seen < width }
    requires inside { parent < length rules.now }
    ensures { IsTrue result ↔ ShapeFollows (rank_in table.now width) (0 < rank_in follow.now width parent seen) symbol seen (shape_of rules.now parent) }
{
    let behind = is_ranked(follow, width, parent, seen);
    symbol_follows(rules, table, width, parent, behind, symbol, seen)
}

// Whether by some symbol's way what is seen may follow the symbol.
pub(crate) fn has_place(
    rules: &[Rule],
    table: &[usize],
    follow: &[usize],
    width: usize,
    symbol: usize,
    seen: Option<usize>,
) -> bool
    requires grammar { IsGrammar rules.now }
    requires sized { length table.now ≡ width * length rules.now }
    requires follow_sized { length follow.now ≡ width * length rules.now }
    requires in_column { column seen < width }
    ensures { IsTrue result ↔ HasPlace rules.now (rank_in table.now width) follow.now width symbol seen }
{
    for parent in 0..rules.len() {
        if parent_follows(rules, table, follow, width, parent, symbol, seen) {
            return true;
        }
    }
    false
}

// What the next round finds for a cell: what was found stays.
pub(crate) fn follow_cell(
    rules: &[Rule],
    table: &[usize],
    follow: &[usize],
    width: usize,
    index: usize,
    old: usize,
) -> usize
    requires grammar { IsGrammar rules.now }
    requires sized { length table.now ≡ width * length rules.now }
    requires follow_sized { length follow.now ≡ width * length rules.now }
    requires inside { index < length follow.now }
    requires wide { 0 < width }
    ensures { IsNextCell (FollowReason rules.now (rank_in table.now width) width follow.now index) 1 old result }
{
    if old > 0 {
        return old;
    }
    let seen = seen_of(index % width);
    if has_place(rules, table, follow, width, index / width, seen) {
        1
    } else {
        0
    }
}

// One round over all cells, and whether it changed any.
pub(crate) fn follow_round(
    alloc: Global,
    rules: &[Rule],
    table: &[usize],
    follow: &[usize],
    width: usize,
) -> Result<(Vec<usize>, bool), AllocError>
    requires grammar { IsGrammar rules.now }
    requires sized { length table.now ≡ width * length rules.now }
    requires follow_sized { length follow.now ≡ width * length rules.now }
    requires wide { 0 < width }
    ensures { IfOk result (λ r. IsRound (FollowReason rules.now (rank_in table.now width) width follow.now) 1 follow.now r.0.items (length follow.now) r.1) }
{
    let mut next = Vec::new(alloc);
    let mut changed = false;
    for (index, old) in follow.iter().enumerate() {
        let value = follow_cell(rules, table, follow, width, index, *old);
        if value != *old {
            changed = true;
        }
        next.push(value)?;
    }
    Ok((next, changed))
}

// What may follow each symbol.
pub(crate) fn follow_table(
    alloc: Global,
    rules: &[Rule],
    table: &[usize],
    width: usize,
) -> Result<Vec<usize>, AllocError>
    requires grammar { IsGrammar rules.now }
    requires productive { IsProductive rules.now }
    requires is_table { IsTable rules.now (rank_in table.now width) }
    requires sized { length table.now ≡ width * length rules.now }
    requires wide { 0 < width }
    requires small { width * length rules.now < 2 ^ 60 }
    ensures size { IfOk result (λ follow. length follow.items ≡ width * length rules.now) }
    ensures follows { IfOk result (λ follow. IsFollowTable rules.now width follow.items) }
{
    let mut follow = vec![in alloc; 0usize; width * rules.len()]?;
    loop {
        let (next, changed) = follow_round(alloc, rules, table, &follow, width)?;
        if !changed {
            return Ok(follow);
        }
        follow = next;
    }
}
