// The number of employees that a word asks for.
ghost use Rattle.std.specs.Prelude.{◌≡◌, ◌≤◌, ℕ, Some, decimal, MatchOption};
ghost use Rattle.std.specs.Str.{bytes_eq};
ghost use Rattle.vkg_company.specs.Count.{IsCount, count_in, if_count as if_count_of, is_count};

use itoa::Buffer;

/// The number that a word writes in decimal digits, without a sign or a leading zero, where it is one of 1 to 100000.
pub fn count_of(word: &str) -> Option<usize>
    ensures value { result ≡ count_in word.now }
    ensures count { MatchOption result ((n : ℕ) → IsCount word.now n → ⊥) (IsCount word.now) }
{
    match number_in(word) {
        None => None,
        Some(n) => if_count(word, n),
    }
}

/// The number that a word is read as, which may have a sign or leading zeros.
fn number_in(word: &str) -> Option<usize>
    ensures { (n : ℕ) → n ≤ 100000 → word.now ≡ decimal n → result ≡ Some n }
{
    match word.parse::<usize>() {
        Ok(n) => Some(n),
        Err(_) => None,
    }
}

fn if_count(word: &str, n: usize) -> Option<usize>
    ensures { result ≡ if_count_of word.now n }
{
    if is_count(word, n) { Some(n) } else { None }
}

fn is_count(word: &str, n: usize) -> bool
    ensures { result ≡ is_count word.now n }
{
    0 < n && (n <= 100_000 && writes(word, n))
}

/// Whether a number is written so.
fn writes(word: &str, n: usize) -> bool
    ensures { result ≡ bytes_eq (decimal n) word.now }
{
    let mut buffer = Buffer::new();
    buffer.format(n) == word
}
