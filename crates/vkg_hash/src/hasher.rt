ghost use Rattle.std.specs.Prelude.{◌≡◌, ◌+◌, ◌≤◌, length};
ghost use Rattle.std.specs.Hash.FoldHasher.{folded_multiply, read_short, read_u32, read_u64};
ghost use Rattle.vkg_hash.specs.Hashing.{last_word, mixed};

use std::hash::Hasher;

/// A hasher by folded multiplication, as std's `FoldHasher` is, whose first state and whose factor are secret: each 8 bytes and the
/// state, joined by xor, are multiplied with the factor, and the halves of the product are joined by xor.
#[derive(Clone, Copy)]
pub struct SeededHasher {
    pub state: u64,
    pub factor: u64,
}

fn folded_multiply(a: u64, b: u64) -> u64
    ensures { result ≡ folded_multiply a b }
{
    let product = a as u128 * b as u128;
    (product & 0xFFFF_FFFF_FFFF_FFFF) as u64 ^ (product >> 64) as u64
}

fn mixed(factor: u64, state: u64, word: u64) -> u64
    ensures { result ≡ mixed factor state word }
{
    folded_multiply(state ^ word, factor)
}

fn read_u32(bytes: &[u8], at: usize) -> u64
    requires { at + 4 ≤ length bytes.now }
    ensures { result ≡ read_u32 bytes.now at }
{
    u32::from_le_bytes([bytes[at], bytes[at + 1], bytes[at + 2], bytes[at + 3]]) as u64
}

fn read_u64(bytes: &[u8], at: usize) -> u64
    requires { at + 8 ≤ length bytes.now }
    ensures { result ≡ read_u64 bytes.now at }
{
    read_u32(bytes, at) | read_u32(bytes, at + 4) << 32
}

// Up to 8 bytes as one number, by reads that may overlap.
fn read_short(bytes: &[u8]) -> u64
    ensures { result ≡ read_short bytes.now }
{
    let len = bytes.len();
    if len >= 4 {
        read_u32(bytes, 0) | read_u32(bytes, len - 4) << 32
    } else if len > 0 {
        bytes[0] as u64 | (bytes[len / 2] as u64) << 8 | (bytes[len - 1] as u64) << 16
    } else {
        0
    }
}

// The last 8 bytes, or all.
fn last_word(bytes: &[u8]) -> u64
    ensures { result ≡ last_word bytes.now }
{
    let len = bytes.len();
    if len <= 8 {
        read_short(bytes)
    } else {
        read_u64(bytes, len - 8)
    }
}

impl Hasher for SeededHasher {
    ghost use Rattle.vkg_hash.specs.Hashing.{written};

    ghost write = { written };

    ghost finish = { λ h. h.state };

    fn finish(&self) -> u64 {
        self.state
    }

    fn write(&mut self, bytes: &[u8]) {
        let len = bytes.len();
        let mut state = self.state;
        let mut at = 0;
        while len - at > 8 {
            state = mixed(self.factor, state, read_u64(bytes, at));
            at += 8;
        }
        self.state = mixed(self.factor ^ len as u64, state, last_word(bytes));
    }
}
