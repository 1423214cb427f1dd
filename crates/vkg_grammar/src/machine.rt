ghost use Rattle.std.specs.Prelude.{◌≡◌, ◌*◌, ◌<◌, ◌⊎◌, ◌++◌, ◌∷◌, [], length, reverse, IsTrue, IfOk, None, false};
ghost use Rattle.vkg_lists.specs.Lists.{AllBelow};
ghost use Rattle.vkg_grammar.specs.declared.machine.Step.TheVariants.{More};
ghost use Rattle.vkg_grammar.specs.Grammar.{noted as noted_lem, IsGrammar, IsLL1};
ghost use Rattle.vkg_grammar.specs.Rank.{column, rank_in, Begins, IsTable, HasRows, AllHaveRows};
ghost use Rattle.vkg_grammar.specs.Machine.{Fits, HasStepped, Advances};

use crate::note::{Act, Note};
use crate::rule::Rule;
use crate::table::{begins, rank};
use std::alloc::AllocError;

#[derive(Clone, Copy)]
pub(crate) enum Step {
    Taken,
    Stuck,
    More,
}

// Whether the first of two ways is taken where this is seen.
pub(crate) fn takes_first(
    table: &[usize],
    width: usize,
    first: &[usize],
    second: &[usize],
    seen: Option<usize>,
) -> bool
    requires rows { AllHaveRows (length table.now) width first.now seen }
    requires second_rows { AllHaveRows (length table.now) width second.now seen }
    ensures first { IsTrue result → Begins (rank_in table.now width) seen first.now
        ⊎ ((Begins (rank_in table.now width) seen second.now → ⊥) × Begins (rank_in table.now width) None first.now) }
    ensures second { result ≡ false → (Begins (rank_in table.now width) seen first.now → ⊥)
        × (Begins (rank_in table.now width) seen second.now ⊎ (Begins (rank_in table.now width) None first.now → ⊥)) }
{
    if begins(table, width, first, seen) {
        return true;
    }
    if begins(table, width, second, seen) {
        return false;
    }
    begins(table, width, first, None)
}

// Whether by the table the symbol neither begins with what is seen nor may be empty.
pub(crate) fn is_stuck(table: &[usize], width: usize, symbol: usize, seen: Option<usize>) -> bool
    requires { HasRows (length table.now) width symbol seen }
    ensures stuck { IsTrue result → (rank_in table.now width symbol seen ≡ 0) × (rank_in table.now width symbol None ≡ 0) }
    ensures live { result ≡ false → (0 < rank_in table.now width symbol seen) ⊎ (0 < rank_in table.now width symbol None) }
{
    if rank(table, width, symbol, seen) > 0 {
        return false;
    }
    rank(table, width, symbol, None) == 0
}

// Notes how the symbol was made, where its parts stand on the stack.
fn noted(notes: &mut Vec<Note>, symbol: usize, act: Act) -> Result<Step, AllocError>
    ensures { IfOk result (λ step. (step ≡ More) × (notes.new.items ≡ notes.old.items ++ noted_lem symbol act ∷ [])) }
{
    notes.push(Note { symbol, act })?;
    Ok(Step::More)
}

// Replaces the symbol, which was taken from the stack, by what it is made of.
pub(crate) fn expand(
    rules: &[Rule],
    table: &[usize],
    width: usize,
    stack: &mut Vec<usize>,
    notes: &mut Vec<Note>,
    symbol: usize,
    seen: Option<usize>,
) -> Result<Step, AllocError>
    requires grammar { IsGrammar rules.now }
    requires ll1 { IsLL1 rules.now }
    requires is_table { IsTable rules.now (rank_in table.now width) }
    requires sized { length table.now ≡ width * length rules.now }
    requires in_column { column seen < width }
    requires inside { symbol < length rules.now }
    ensures { IfOk result (HasStepped rules.now (rank_in table.now width) seen symbol
        (reverse stack.old.items) (reverse stack.new.items) notes.old.items notes.new.items) }
{
    if is_stuck(table, width, symbol, seen) {
        return Ok(Step::Stuck);
    }
    match rules[symbol] {
        Rule::Token(_) => {
            let _more = noted(notes, symbol, Act::Leaf)?;
            Ok(Step::Taken)
        }
        Rule::Empty => noted(notes, symbol, Act::Nothing),
        Rule::Then(first, second) => {
            stack.push(second)?;
            stack.push(first)?;
            noted(notes, symbol, Act::Pair)
        }
        Rule::Either(first, second) => {
            if takes_first(table, width, &[first], &[second], seen) {
                stack.push(first)?;
                return noted(notes, symbol, Act::First);
            }
            stack.push(second)?;
            noted(notes, symbol, Act::Second)
        }
        Rule::Optional(part) => {
            if !takes_first(table, width, &[part], &[], seen) {
                return noted(notes, symbol, Act::Nothing);
            }
            stack.push(part)?;
            noted(notes, symbol, Act::First)
        }
        Rule::Repeated(part) => {
            if !takes_first(table, width, &[part, symbol], &[], seen) {
                return noted(notes, symbol, Act::Nothing);
            }
            stack.push(symbol)?;
            stack.push(part)?;
            noted(notes, symbol, Act::Pair)
        }
    }
}

// Replaces symbols until the token that is seen is taken away (or the stack is empty at the end). False where no text
// that the stack derives begins so.
pub(crate) fn advance(
    rules: &[Rule],
    table: &[usize],
    width: usize,
    stack: &mut Vec<usize>,
    notes: &mut Vec<Note>,
    seen: Option<usize>,
) -> Result<bool, AllocError>
    requires grammar { IsGrammar rules.now }
    requires ll1 { IsLL1 rules.now }
    requires is_table { IsTable rules.now (rank_in table.now width) }
    requires sized { length table.now ≡ width * length rules.now }
    requires in_column { column seen < width }
    requires fits { Fits rules.now (reverse stack.old.items) }
    requires below { AllBelow (length rules.now) (reverse stack.old.items) }
    ensures { IfOk result (Advances rules.now (reverse stack.old.items) (reverse stack.new.items) notes.old.items notes.new.items seen) }
{
    while let Some(symbol) = stack.pop() {
        match expand(rules, table, width, stack, notes, symbol, seen)? {
            Step::Taken => return Ok(true),
            Step::Stuck => return Ok(false),
            Step::More => {}
        }
    }
    Ok(seen.is_none())
}
