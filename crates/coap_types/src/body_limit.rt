//! The greatest length of a body at an end.
ghost use Rattle.std.specs.Prelude.{◌≡◌, ◌≤◌};
ghost use Rattle.std.specs.Option.{SomeIff};

use crate::block::MAX_NUM;
use crate::szx::MIN_BLOCK_SIZE;
use std::marker::Model;

/// The limit of an end for which no other is chosen, in bytes (profile: RFC 7959 sets no bound but that
/// of NUM; section 7 asks for one).
pub const DEFAULT_BODY_LIMIT: usize = 65_536;
/// The greatest limit that can be chosen, in bytes (profile).
pub const MAX_BODY_LIMIT: usize = 1_048_576;

const _: () = prove!(DEFAULT_BODY_LIMIT == 65_536 && MAX_BODY_LIMIT == 1_048_576);

// The number of each block of such a body is a NUM (RFC 7959, section 2.2).
const _: () = prove!(MAX_BODY_LIMIT / MIN_BLOCK_SIZE <= MAX_NUM as usize);

/// The longest body that an end joins from blocks, sends or holds: 1 to 1,048,576 bytes.
#[derive(Clone, Copy, Debug, PartialEq, Eq, PartialOrd, Ord, Hash)]
pub struct BodyLimit {
    most: usize,
}

impl Model for BodyLimit {
    ghost use Rattle.std.specs.Prelude.{ℕ, ◌≤◌};
    ghost use Rattle.coap_types.specs.declared.body_limit.TheConstants.{MAX_BODY_LIMIT};

    ghost Value = { ℕ };

    ghost view = { λ l. l.most };

    ghost invariant = { λ l. (1 ≤ l.most) × (l.most ≤ MAX_BODY_LIMIT) };

    ghost inverse = { λ n. record { most = n } };
}

impl BodyLimit {
    /// The limit of so many bytes, where that is from 1 to `MAX_BODY_LIMIT`.
    pub fn new(most: usize) -> Option<BodyLimit>
        // A limit is made exactly of 1 to 1,048,576 bytes.
        ensures { SomeIff result ((1 ≤ most) × (most ≤ MAX_BODY_LIMIT)) most }
    {
        if 1 <= most && most <= MAX_BODY_LIMIT {
            Some(BodyLimit { most })
        } else {
            None
        }
    }

    /// The limit in bytes.
    pub fn get(self) -> usize
        // The limit is the number that was chosen.
        ensures bytes { result ≡ self }
        // A limit is at least one byte.
        ensures some { 1 ≤ result }
        // A limit is at most 1,048,576 bytes.
        ensures within { result ≤ MAX_BODY_LIMIT }
    {
        self.most
    }
}

impl Default for BodyLimit {
    /// `DEFAULT_BODY_LIMIT`.
    fn default() -> BodyLimit
        ensures { result ≡ DEFAULT_BODY_LIMIT }
    {
        BodyLimit {
            most: DEFAULT_BODY_LIMIT,
        }
    }
}
