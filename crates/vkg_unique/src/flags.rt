// Flags of columns.
ghost use Rattle.std.specs.Prelude.{◌≡◌, IfOk, drop};
ghost use Rattle.std.specs.List.{list_all};
ghost use Rattle.vkg_equalities.specs.TableColumns.{flag_at as flag_of};
ghost use Rattle.vkg_unique.specs.Sure.{unset as none_set, with_flag as one_set, with_flags as all_set};

use std::alloc::Global;
use vkg_base::{Items, Memory};
use vkg_cells::SqlType;
use vkg_equalities::flag_at;

/// A flag for each column, of which none is set.
pub fn unset(alloc: Global, kinds: &[SqlType]) -> Result<Items<bool>, Memory>
    ensures { IfOk result (λ fs. fs ≡ none_set kinds.now) }
{
    let mut flags = Items::new(alloc);
    for _ in kinds {
        flags.push(false)?;
    }
    Ok(flags)
}

/// The flags with those of some columns set.
pub fn with_flags(flags: Items<bool>, columns: &[usize]) -> Items<bool>
    ensures { result ≡ all_set flags columns.now }
{
    let mut flags = flags;
    for at in columns {
        flags = with_flag(flags, *at);
    }
    flags
}

#[tactic(auto, using(std::proofs::lemmas::List::set_past))]
fn with_flag(flags: Items<bool>, at: usize) -> Items<bool>
    ensures { result ≡ one_set flags at }
{
    if flags.len() <= at {
        return flags;
    }
    let mut flags = flags;
    flags.set(at, true);
    flags
}

/// Whether the flag of each of these columns is set.
pub fn all_flagged(flags: &[bool], columns: &[usize]) -> bool
    ensures { result ≡ list_all (flag_of flags.now) columns.now }
{
    for at in columns {
        if !flag_at(flags, *at) {
            return false;
        }
    }
    true
}

/// The flags behind the first n.
#[tactic(auto, using(std::proofs::lemmas::List::drop_all))]
pub fn behind(flags: &[bool], n: usize) -> &[bool]
    ensures { result.now ≡ drop n flags.now }
{
    if flags.len() <= n {
        return &[];
    }
    &flags[n..]
}
