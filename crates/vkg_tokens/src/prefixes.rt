ghost use Rattle.std.specs.Prelude.{◌≡◌, ◌&&◌, ◌||◌, not, if◌then◌else◌, nat_lt};
ghost use Rattle.vkg_tokens.specs.Ddl.{is_word_part};
ghost use Rattle.vkg_tokens.specs.Prefixes.{is_prefix};

use crate::ddl::is_part;
use crate::lang::State;
use crate::lexeme::Lexeme;
use crate::names::Name;
use crate::scan::Scan;

/// Whether what was read begins a prefixed name and is no word.
fn is_prefix(state: State) -> bool
    ensures { result ≡ is_prefix state }
{
    matches!(
        state,
        State::OfScan(Scan::Between(Lexeme::OfName(Name::Prefix)))
    )
}

/// Whether a letter, a digit or `_` came last and what was read is a prefix.
pub fn is_behind_part(state: State, last: u8) -> bool
    ensures { result ≡ (is_word_part last && is_prefix state) }
{
    is_part(last) && is_prefix(state)
}

/// Whether still each letter, digit or `_` led to a prefix.
pub fn is_still_sure(is_sure: bool, state: State, last: u8) -> bool
    ensures { result ≡ (is_sure && (is_prefix state || not (is_word_part last))) }
{
    is_sure && (is_prefix(state) || !is_part(last))
}

/// Up to where a text is barren after a search that read so far, and was sure of that or not.
pub fn barren_after(barren: usize, is_sure: bool, read: usize) -> usize
    ensures { result ≡ (if is_sure && nat_lt barren read then read else barren) }
{
    if is_sure && barren < read {
        read
    } else {
        barren
    }
}
