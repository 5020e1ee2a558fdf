//! The version after which the versions of a store begin.
ghost use Rattle.std.specs.Prelude.{◌≡◌, ◌<◌, ◌%◌};
ghost use Rattle.std.specs.Option.{SomeIff};
ghost use Rattle.coap_resource.specs.Base.{IsBase, base_of_word};

use std::marker::Model;

/// Each base is a multiple of this (profile): a sequence number is a version modulo 2^24, so after each base the
/// sequence numbers begin with 1 (RFC 7641, section 3.4).
pub const BASE_STEP: u64 = 1 << 24;
/// Each base is less than this (profile): half of all versions are left to every store.
pub const BASE_BOUND: u64 = 1 << 63;

const _: () = prove!(BASE_STEP == 16_777_216 && BASE_BOUND == 9_223_372_036_854_775_808);

// How many bases there are.
const BASES: u64 = BASE_BOUND / BASE_STEP;

/// The version after which the versions of a store begin: a multiple of 2^24 below 2^63.
///
/// A server that forgets what it held begins anew after another one. So no entity-tag of its former life
/// names a body of this one (RFC 7252, section 5.10.6), but with a chance of some 2^-38.
#[derive(Clone, Copy, Debug, PartialEq, Eq, PartialOrd, Ord, Hash)]
pub struct VersionBase {
    base: u64,
}

impl Model for VersionBase {
    ghost use Rattle.std.specs.Prelude.{ℕ};
    ghost use Rattle.coap_resource.specs.Base.{IsBase};

    ghost Value = { ℕ };

    ghost view = { λ b. b.base };

    ghost invariant = { λ b. IsBase b.base };

    ghost inverse = { λ n. record { base = n } };
}

impl VersionBase {
    /// This version as a base, where it is a multiple of 2^24 below 2^63.
    pub fn new(base: u64) -> Option<VersionBase>
        // A base is made exactly of a multiple of 2^24 below 2^63.
        ensures { SomeIff result (IsBase base) base }
    {
        if base % BASE_STEP == 0 && base < BASE_BOUND {
            Some(VersionBase { base })
        } else {
            None
        }
    }

    /// The base that 39 bits of a random word choose.
    pub fn drawn(word: u64) -> VersionBase
        // The last 39 bits of a word choose one of all bases.
        ensures { result ≡ base_of_word word }
    {
        VersionBase {
            base: word % BASES * BASE_STEP,
        }
    }

    /// The base as a version.
    pub fn get(self) -> u64
        // The base is the version that was chosen.
        ensures base { result ≡ self }
        // A base that is got is a multiple of 2^24 below 2^63.
        ensures within { IsBase result }
    {
        self.base
    }
}

impl Default for VersionBase {
    /// 0: the first version is 1.
    fn default() -> VersionBase
        ensures { result ≡ 0 }
    {
        VersionBase { base: 0 }
    }
}
