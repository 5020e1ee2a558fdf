//! How many keys have a name at once.
ghost use Rattle.std.specs.Prelude.{◌≡◌, ◌≤◌};
ghost use Rattle.std.specs.Option.{SomeIff};

use std::marker::Model;

/// The greatest number of keys that have a name at once (profile).
pub const MAX_PLACES: u32 = 1_048_576;

const _: () = prove!(MAX_PLACES == 1_048_576);

/// How many keys have a name at most at once: 1 to 1,048,576.
#[derive(Clone, Copy, Debug, PartialEq, Eq, PartialOrd, Ord, Hash)]
pub struct Places {
    most: u32,
}

impl Model for Places {
    ghost use Rattle.std.specs.Prelude.{ℕ, ◌≤◌};
    ghost use Rattle.coap_names.specs.declared.places.TheConstants.{MAX_PLACES};

    ghost Value = { ℕ };

    ghost view = { λ p. p.most };

    ghost invariant = { λ p. (1 ≤ p.most) × (p.most ≤ MAX_PLACES) };

    ghost inverse = { λ n. record { most = n } };
}

impl Places {
    /// So many, where that is from 1 to `MAX_PLACES`.
    pub fn new(most: u32) -> Option<Places>
        // A number of places is made exactly of 1 to the greatest one.
        ensures { SomeIff result ((1 ≤ most) × (most ≤ MAX_PLACES)) most }
    {
        if 1 <= most && most <= MAX_PLACES {
            Some(Places { most })
        } else {
            None
        }
    }

    /// The number.
    pub fn get(self) -> usize
        // The number of places is the one that was chosen.
        ensures number { result ≡ self }
        // There is at least one place.
        ensures some { 1 ≤ result }
        // The number of places is at most the greatest one.
        ensures within { result ≤ MAX_PLACES }
    {
        self.most as usize
    }
}
