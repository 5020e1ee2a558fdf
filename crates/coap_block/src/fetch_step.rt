//! The answers of a fetch.
ghost use Rattle.std.specs.Prelude.{◌≡◌};
ghost use Rattle.coap_block.specs.RefusalNumbers.{fetch_refusal_number};

use bytes::Bytes;
use coap_types::Block;
use std::alloc::{Allocator, Global};

/// Why a fetch refuses a part. Each is tested for in the order BadBlock, TooLarge, NoTag, Changed.
#[derive(Clone, Copy, Debug, PartialEq, Eq)]
pub enum FetchRefusal {
    /// Not the block that was asked for, not of its size, or no Block2 behind other parts
    /// (RFC 7959, section 2.4).
    BadBlock,
    /// One of several parts has no ETag (RFC 7959, section 2.4).
    NoTag,
    /// The body is longer than the fetch's limit.
    TooLarge,
    /// The body changed, and `MAX_RESTARTS` restarts were made.
    Changed,
}

impl FetchRefusal {
    /// The number of the refusal, 1 to 4, in the order of the variants.
    pub fn number(self) -> u8
        // The number of a part's refusal is its place among the four.
        ensures { result ≡ fetch_refusal_number self }
    {
        match self {
            FetchRefusal::BadBlock => 1,
            FetchRefusal::NoTag => 2,
            FetchRefusal::TooLarge => 3,
            FetchRefusal::Changed => 4,
        }
    }
}

/// What a part led to.
#[derive(Drop)]
#[derive_where(Debug)]
pub enum Step<A: Allocator = Global> {
    /// More is to come: the block to ask for, with M 0 (RFC 7959, section 2.4).
    Next(Block),
    /// The body is whole.
    Whole(Bytes<A>),
    /// The body changed: ask as at the start, without Block2.
    Restart,
    /// The part is not taken.
    Refused(FetchRefusal),
}
