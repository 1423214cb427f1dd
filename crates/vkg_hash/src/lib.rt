//! Hashing that who chose the keys cannot foresee, so that no keys can be made for it: a hasher of two secret numbers, which a
//! seed makes; and numbers grouped by texts under such a hash.
//!
//! A hash table is as fast as its keys are spread, and keys that all have one hash make it quadratic (hash flooding; CWE-407). The
//! seed is a number that the authors of the files cannot know, or SipHash-1-3 of all keys at once, which no key can be chosen
//! after. It follows no standard. No clause speaks of a seed: a map means the same under each.
//!
//! Stands on vkg_base for want of memory, and on std for SipHash and for the words of its own fast hasher.
#![tactic(auto)]

mod groups;
mod hasher;
mod seed;

pub use groups::{Groups, numbers_of, put};
pub use hasher::SeededHasher;
pub use seed::Seed;
