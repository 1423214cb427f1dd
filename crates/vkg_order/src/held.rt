// The entries that a keeper holds.
ghost use Rattle.std.specs.Prelude.{◌≡◌, ◌&&◌, IfSome, ◌+◌, ◌<◌, ◌≤◌, ◌∷◌, ◌++◌, [], true, false, List, length, map, OnOk, OnErr, IsPermutation, IsSorted, take, drop, is_some};
ghost use Rattle.std.specs.List.{dedup, list_any, position};
ghost use Rattle.std.specs.List.Sorted.{IsPartitionPoint};
ghost use Rattle.std.specs.Ordering.{is_lt};
ghost use Rattle.std.specs.Str.{bytes_eq};
ghost use Rattle.vkg_order.specs.Entries.{Entry, entry_cmp};
ghost use Rattle.vkg_order.specs.Kept.{IsReady, Rises, StandFor, have_one_line, line_first_cmp, once_behind, repeat_place as repeat_place_of, within_slice, without_line};
ghost use Rattle.vkg_order.specs.Listed.{IsWithin};

use crate::modifiers::{Direction, Modifiers, Slice};
use crate::offer::Offer;
use std::mem;
use vkg_base::Memory;

/// Puts the entries in the asked order, and keeps of each line the least entry, if each line is asked once.
pub(crate) fn settle(modifiers: &Modifiers, held: &mut Vec<Offer>)
    ensures stands { StandFor modifiers.now held.new.items held.old.items }
    ensures ready { IsReady modifiers.now held.new.items }
    ensures fewer { length held.new.items ≤ length held.old.items }
{
    let directions = modifiers.directions.as_slice();
    if modifiers.distinct {
        sort_by_line(directions, held);
        drop_repeats(held);
        sort(directions, held);
    } else {
        sort(directions, held);
    }
}

fn sort(directions: &[Direction], held: &mut Vec<Offer>)
    ensures same { IsPermutation held.old.items held.new.items }
    ensures sorted { IsSorted (entry_cmp directions.now) held.new.items }
{
    held.sort_unstable_by(|a, b| a.order(b, directions));
}

fn sort_by_line(directions: &[Direction], held: &mut Vec<Offer>)
    ensures same { IsPermutation held.old.items held.new.items }
    ensures sorted { IsSorted (line_first_cmp directions.now) held.new.items }
{
    held.sort_unstable_by(|a, b| a.order_by_line(b, directions));
}

/// Keeps the first of entries of one line that stand together.
fn drop_repeats(held: &mut Vec<Offer>)
    ensures value { held.new.items ≡ dedup have_one_line held.old.items }
    ensures fewer { length held.new.items ≤ length held.old.items }
{
    held.dedup_by(|a, b| a.line() == b.line());
}

/// Puts an entry in its place among entries in order, and drops one that can't have a line any more.
pub(crate) fn enter(
    modifiers: &Modifiers,
    held: &mut Vec<Offer>,
    offer: Offer,
) -> Result<(), Memory>
    requires ready { IsReady modifiers.now held.old.items }
    requires within { IsWithin modifiers.now.slice (length held.old.items) }
    ensures ok { OnOk result (StandFor modifiers.now held.new.items (held.old.items ++ offer ∷ [])) }
    ensures err { OnErr result (held.new.items ≡ held.old.items) }
    ensures ready { IsReady modifiers.now held.new.items }
    ensures within { IsWithin modifiers.now.slice (length held.new.items) }
{
    let place = place_of(modifiers.directions.as_slice(), held, &offer);
    if !modifiers.slice.has_room(place) {
        mem::drop(offer);
        return Ok(());
    }
    if is_repeat(modifiers.distinct, &held[..place], &offer) {
        mem::drop(offer);
        return Ok(());
    }
    held.insert(place, offer)?;
    drop_excess(modifiers, held, place);
    Ok(())
}

/// Whether each line is asked once, and one of these entries has that of the offer.
fn is_repeat(distinct: bool, held: &[Offer], offer: &Offer) -> bool
    ensures { result ≡ (distinct && is_some (position (λ e. bytes_eq e.line offer.now.line) held.now)) }
{
    distinct && find_line(held, offer.line()).is_some()
}

/// Drops what one entry more, at this place, leaves without a line.
fn drop_excess(modifiers: &Modifiers, held: &mut Vec<Offer>, place: usize)
    requires { place < length held.old.items }
    ensures { (front : List Entry) (e : Entry) (rest : List Entry) → held.old.items ≡ front ++ e ∷ rest → length front ≡ place → held.new.items ≡ within_slice modifiers.now.slice (front ++ e ∷ once_behind modifiers.now.distinct e.line rest) }
{
    drop_repeat_if(modifiers.distinct, held, place);
    drop_last(modifiers.slice, held);
}

/// Drops the last entry, if the slice can't reach its line.
fn drop_last(slice: Slice, held: &mut Vec<Offer>)
    ensures { held.new.items ≡ within_slice slice held.old.items }
{
    if !slice.is_within(held.len()) {
        held.truncate(held.len() - 1);
    }
}

fn drop_repeat_if(distinct: bool, held: &mut Vec<Offer>, place: usize)
    requires { place < length held.old.items }
    ensures { (front : List Entry) (e : Entry) (rest : List Entry) → held.old.items ≡ front ++ e ∷ rest → length front ≡ place → held.new.items ≡ front ++ e ∷ once_behind distinct e.line rest }
{
    if distinct {
        drop_repeat(held, place);
    }
}

/// Drops the entry behind a place that has the line of the one at it.
fn drop_repeat(held: &mut Vec<Offer>, place: usize)
    requires { place < length held.old.items }
    ensures { (front : List Entry) (e : Entry) (rest : List Entry) → held.old.items ≡ front ++ e ∷ rest → length front ≡ place → held.new.items ≡ front ++ e ∷ without_line e.line rest }
{
    if let Some(behind) = repeat_place(&held[place..]) {
        mem::drop(held.remove(place + 1 + behind));
    }
}

/// The place, behind the first of these entries, of the next that has its line.
fn repeat_place(held: &[Offer]) -> Option<usize>
    ensures place { result ≡ repeat_place_of held.now }
    ensures within { IfSome result (λ k. k + 1 < length held.now) }
{
    match held.split_first() {
        None => None,
        Some((first, behind)) => find_line(behind, first.line()),
    }
}

/// The place of the first entry that has this line.
fn find_line(held: &[Offer], line: &str) -> Option<usize>
    ensures { result ≡ position (λ e. bytes_eq e.line line.now) held.now }
{
    held.iter().position(|offer| offer.line() == line)
}

/// How many entries are below the offer.
fn place_of(directions: &[Direction], held: &[Offer], offer: &Offer) -> usize
    requires { Rises (entry_cmp directions.now) held.now }
    ensures parts { IsPartitionPoint (λ e. is_lt (entry_cmp directions.now e offer.now) ≡ true) (λ e. is_lt (entry_cmp directions.now e offer.now) ≡ false) held.now result }
    ensures within { result ≤ length held.now }
{
    held.partition_point(|other| other.order(offer, directions).is_lt())
}
