use crate::hasher::SeededHasher;
use std::hash::{BuildHasher, DefaultHasher, Hash, Hasher};

/// What makes the hashers of a map: their two secret numbers.
#[derive(Clone, Copy)]
pub struct Seed {
    state: u64,
    factor: u64,
}

impl Seed {
    /// The seed of a number: two numbers that SipHash-1-3 makes of it.
    pub fn new(number: u64) -> Seed {
        Seed {
            state: sip_hash(number, 0),
            factor: sip_hash(number, 1),
        }
    }

    /// The seed of a text, by all its bytes.
    pub fn of_bytes(bytes: &[u8]) -> Seed {
        let mut hasher = DefaultHasher::new();
        hasher.write(bytes);
        Seed::new(hasher.finish())
    }

    /// The seed of all keys at once.
    pub fn of_keys<T: Hash>(keys: &[T]) -> Seed {
        let mut hasher = DefaultHasher::new();
        Hash::hash_slice(keys, &mut hasher);
        Seed::new(hasher.finish())
    }
}

fn sip_hash(number: u64, which: u8) -> u64 {
    let mut hasher = DefaultHasher::new();
    hasher.write_u64(number);
    hasher.write_u8(which);
    hasher.finish()
}

impl BuildHasher for Seed {
    type Hasher = SeededHasher;

    ghost build_hasher = { λ s. record { state = s.state; factor = s.factor } };

    fn build_hasher(&self) -> SeededHasher {
        SeededHasher {
            state: self.state,
            factor: self.factor,
        }
    }
}
