//! What an end begins with: what a stranger must not guess, and how many messages are remembered.
ghost use Rattle.std.specs.Prelude.{◌≡◌, ◌<◌, ◌≤◌, IfSome, IfNone};
ghost use Rattle.knifesilver_exchange.specs.Fresh.{chosen};
ghost use Rattle.knifesilver_exchange.specs.Seeds.{first_state};

use coap_types::{DEFAULT_REMEMBERED, MAX_REMEMBERED, Remembered};
use core::hash::keyed_hasher;
use std::hash::{BuildHasher, DefaultHasher};

/// C's `ks_seed`: what an end begins with that a stranger must not guess, 24 random bytes.
#[repr(C)]
#[derive(Clone, Copy)]
pub struct KsSeed {
    /// The word, which picks the first Message ID and the first token.
    pub word: u64,
    /// The first key of the hash by which messages are remembered.
    pub key0: u64,
    /// Its second key.
    pub key1: u64,
}

/// The hash with the keys of a seed.
#[derive(Clone, Copy)]
pub struct SeededHash {
    /// The first key.
    pub key0: u64,
    /// The second key.
    pub key1: u64,
}

impl BuildHasher for SeededHash {
    type Hasher = DefaultHasher;

    ghost build_hasher = { first_state };

    fn build_hasher(&self) -> DefaultHasher {
        keyed_hasher(self.key0, self.key1)
    }
}

/// The hash of a seed.
pub(crate) fn hash_of(seed: &KsSeed) -> SeededHash
    ensures { result ≡ record { key0 = seed.now.key0; key1 = seed.now.key1 } }
{
    SeededHash {
        key0: seed.key0,
        key1: seed.key1,
    }
}

/// So many messages that are remembered, or the usual number for 0.
pub(crate) fn remembered_of(remembered: u32) -> Option<Remembered>
    ensures some { IfSome result (λ r. (remembered ≤ MAX_REMEMBERED) × (r ≡ chosen DEFAULT_REMEMBERED remembered)) }
    ensures none { IfNone result (MAX_REMEMBERED < remembered) }
{
    if remembered == 0 {
        Some(Remembered::default())
    } else {
        Remembered::new(remembered)
    }
}
