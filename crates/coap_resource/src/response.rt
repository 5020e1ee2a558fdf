//! A store's response, but for its Observe option.
ghost use Rattle.std.specs.Prelude.{◌≡◌};
ghost use Rattle.coap_resource.specs.Serves.{bare, reply_of};

use bytes::Bytes;
use coap_types::{Block, Code, Tag};
use std::alloc::{Allocator, Global};
use std::marker::Model;

/// The payload of a response: it shares its memory with the store, or the store lends it.
#[derive(Drop)]
pub struct Part<'a, A: Allocator = Global> {
    lent: &'a [u8],
    // In place of `lent`.
    shared: Option<Bytes<A>>,
}

impl<'a, A: Allocator> Model for Part<'a, A> {
    ghost use Rattle.std.specs.Prelude.{ℕ, List};
    ghost use Rattle.coap_resource.specs.Parts.{part_bytes};

    ghost Value = { List ℕ };

    ghost view = { λ p. part_bytes p.lent.now p.shared };
}

impl<'a, A: Allocator> Part<'a, A> {
    /// What shares its memory with the store.
    pub fn shared(bytes: Bytes<A>) -> Part<'a, A>
        // The payload has the bytes that are shared.
        ensures { result ≡ bytes }
    {
        Part {
            lent: &[],
            shared: Some(bytes),
        }
    }

    /// What the store lends.
    pub fn lent(bytes: &'a [u8]) -> Part<'a, A>
        // The payload has the bytes that are lent.
        ensures { result ≡ bytes.now }
    {
        Part {
            lent: bytes,
            shared: None,
        }
    }

    /// Its bytes.
    pub fn as_slice(&self) -> &[u8]
        // The slice has the bytes of the payload.
        ensures { result.now ≡ self.now }
    {
        match &self.shared {
            Some(bytes) => bytes.as_slice(),
            None => self.lent,
        }
    }
}

/// A response, but for its Observe option.
#[derive(Drop)]
pub struct Response<'a, A: Allocator = Global> {
    /// Its code, of class 2, 4 or 5.
    pub code: Code,
    /// The entity-tag of the representation, in a 2.03 and a 2.05 (RFC 7252, section 5.10.6.1).
    pub tag: Option<Tag>,
    /// The format of the representation, in a 2.05, where it has one (RFC 7252, section 5.10.3).
    pub format: Option<u16>,
    /// The block that its payload is, in a 2.05 that has Block2 (RFC 7959, section 2.2).
    pub block2: Option<Block>,
    /// The payload: of a 2.05 a block of the body, which is the store's; else empty.
    pub part: Part<'a, A>,
    /// Where in the body the block begins that a GET asked for, in bytes, whatever its answer; 0 for
    /// the other methods.
    pub offset: u32,
}

/// A code with no option and no payload.
pub(crate) fn bare<'a, A: Allocator>(code: Code, offset: u32) -> Response<'a, A>
    ensures { reply_of result ≡ bare code.0 offset }
{
    Response {
        code,
        tag: None,
        format: None,
        block2: None,
        part: Part::lent(&[]),
        offset,
    }
}
