//! The answers of an assembly.
ghost use Rattle.std.specs.Prelude.{◌≡◌};
ghost use Rattle.coap_block.specs.AssemblyAnswer.{refusal_code};

use bytes::Bytes;
use coap_types::{Block, Code};
use std::alloc::{Allocator, Global};

/// Why an assembly refuses a block. Each is tested for in this order.
#[derive(Clone, Copy, Debug, PartialEq, Eq)]
pub enum AssemblyRefusal {
    /// 4.00 Bad Request: the payload isn't of the block's size where M is 1, or is longer where M is
    /// 0 (RFC 7959, section 2.2).
    BadRequest,
    /// 4.08 Request Entity Incomplete: NUM is over 0 and the partial body doesn't end where the
    /// block begins, or there is none (RFC 7959, section 2.9.2).
    EntityIncomplete,
    /// 4.13 Request Entity Too Large: the body would be longer than the assembly's limit; its partial
    /// body is dropped (RFC 7959, section 2.9.3).
    EntityTooLarge,
    /// 5.03 Service Unavailable: `MAX_PARTIALS` other uploads have a partial body (RFC 7252, section
    /// 5.9.3.4).
    Unavailable,
}

impl AssemblyRefusal {
    /// The code of the response (RFC 7252, section 12.1.2; RFC 7959, section 2.9).
    pub fn code(self) -> Code
        // The code is that of the response to such a block (RFC 7252, section 12.1.2; RFC 7959, section 2.9).
        ensures { result ≡ refusal_code self }
    {
        match self {
            AssemblyRefusal::BadRequest => Code::BAD_REQUEST,
            AssemblyRefusal::EntityIncomplete => Code::REQUEST_ENTITY_INCOMPLETE,
            AssemblyRefusal::EntityTooLarge => Code::REQUEST_ENTITY_TOO_LARGE,
            AssemblyRefusal::Unavailable => Code::SERVICE_UNAVAILABLE,
        }
    }
}

/// What a block led to.
#[derive(Drop)]
#[derive_where(Debug)]
pub enum Took<A: Allocator = Global> {
    /// More is to come: the Block1 of the 2.31 Continue (RFC 7959, section 2.5), with the number of
    /// the block, M 1, and its size, or at block 0 the server's where that is smaller.
    More(Block),
    /// The body is whole.
    Whole(Bytes<A>),
    /// The block is not taken.
    Refused(AssemblyRefusal),
}
