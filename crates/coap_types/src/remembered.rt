//! How many messages an end remembers.
ghost use Rattle.std.specs.Prelude.{◌≡◌, ◌≤◌};
ghost use Rattle.std.specs.Option.{SomeIff};

use std::marker::Model;

/// How many messages an end remembers for which no other number is chosen (profile).
pub const DEFAULT_REMEMBERED: u32 = 4_096;
/// The greatest number that can be chosen (profile).
pub const MAX_REMEMBERED: u32 = 1_048_576;

const _: () = prove!(DEFAULT_REMEMBERED == 4_096 && MAX_REMEMBERED == 1_048_576);

/// How many messages an end remembers at most, to tell duplicates (RFC 7252, section 4.5): 1 to
/// 1,048,576. Where all these are live it takes no new message, and forgets none.
#[derive(Clone, Copy, Debug, PartialEq, Eq, PartialOrd, Ord, Hash)]
pub struct Remembered {
    most: u32,
}

impl Model for Remembered {
    ghost use Rattle.std.specs.Prelude.{ℕ, ◌≤◌};
    ghost use Rattle.coap_types.specs.declared.remembered.TheConstants.{MAX_REMEMBERED};

    ghost Value = { ℕ };

    ghost view = { λ r. r.most };

    ghost invariant = { λ r. (1 ≤ r.most) × (r.most ≤ MAX_REMEMBERED) };

    ghost inverse = { λ n. record { most = n } };
}

impl Remembered {
    /// So many messages, where that is from 1 to `MAX_REMEMBERED`.
    pub fn new(most: u32) -> Option<Remembered>
        // A number of messages is made exactly of 1 to the greatest one.
        ensures { SomeIff result ((1 ≤ most) × (most ≤ MAX_REMEMBERED)) most }
    {
        if 1 <= most && most <= MAX_REMEMBERED {
            Some(Remembered { most })
        } else {
            None
        }
    }

    /// The number.
    pub fn get(self) -> usize
        // The number of remembered messages is the one that was chosen.
        ensures number { result ≡ self }
        // At least one message can be remembered.
        ensures some { 1 ≤ result }
        // The number of remembered messages is at most the greatest one.
        ensures within { result ≤ MAX_REMEMBERED }
    {
        self.most as usize
    }
}

impl Default for Remembered {
    /// `DEFAULT_REMEMBERED`.
    fn default() -> Remembered
        ensures { result ≡ DEFAULT_REMEMBERED }
    {
        Remembered {
            most: DEFAULT_REMEMBERED,
        }
    }
}
