//! Datagrams that a link in memory holds.
ghost use Rattle.std.specs.Prelude.{ℕ, List, [], ◌∷◌, ◌++◌, ◌+◌, ◌≡◌, ◌≤◌, ◌<◌, OnOk, OnErr, length};
ghost use Rattle.std.specs.VecDeque.{deque_capacity, deque_len};

use crate::link::MAX_DATAGRAM_LEN;
use coap_types::Endpoint;
use std::alloc::{AllocError, Allocator, Global};
use std::collections::VecDeque;
use std::marker::Model;

/// A datagram and its peer: where it goes to, or where it came from.
#[derive(Drop)]
pub struct Carried<A: Allocator + Copy = Global> {
    peer: Endpoint,
    bytes: Vec<u8, A>,
}

impl<A: Allocator + Copy> Model for Carried<A> {
    ghost use Rattle.coap_links.specs.Carried.{Packet};

    ghost Value = { Packet };

    ghost view = { λ c. (c.peer, c.bytes.items) };
}

impl<A: Allocator + Copy> Carried<A> {
    /// Where it goes to, or where it came from.
    pub fn peer(&self) -> Endpoint
        // The endpoint is the one that the datagram goes to, or comes from.
        ensures { result ≡ self.now.0 }
    {
        self.peer
    }

    /// Its bytes.
    pub fn bytes(&self) -> &[u8]
        // The bytes are those of the datagram.
        ensures { result.now ≡ self.now.1 }
    {
        &self.bytes
    }
}

/// A buffer for the longest datagram.
#[derive(Drop)]
pub(crate) struct Buffer<A: Allocator + Copy> {
    bytes: Vec<u8, A>,
}

impl<A: Allocator + Copy> Model for Buffer<A> {
    ghost use Rattle.std.specs.Prelude.{◌≤◌};
    ghost use Rattle.std.specs.Vec.{vec_capacity};
    ghost use Rattle.coap_links.specs.declared.link.TheConstants.{MAX_DATAGRAM_LEN};

    ghost Value = { Unit {0} };

    ghost view = { λ _. tt };

    ghost invariant = { λ b. MAX_DATAGRAM_LEN ≤ vec_capacity b.bytes };
}

impl<A: Allocator + Copy> Buffer<A> {
    /// A buffer.
    pub(crate) fn new(alloc: A) -> Result<Buffer<A>, AllocError> {
        let bytes = Vec::with_capacity(alloc, MAX_DATAGRAM_LEN)?;
        Ok(Buffer { bytes })
    }

    // These bytes in it.
    fn filled(self, bytes: &[u8]) -> Vec<u8, A>
        requires fits { length bytes.now ≤ MAX_DATAGRAM_LEN }
        ensures { result.items ≡ bytes.now }
    {
        let mut filled = self.bytes;
        filled.clear();
        let _ = filled.extend_from_slice(bytes);
        filled
    }
}

/// Keeps a copy of a datagram behind the others, and leaves places for so many more.
pub(crate) fn keep<A: Allocator + Copy>(
    kept: &mut VecDeque<Carried<A>, A>,
    peer: Endpoint,
    bytes: &[u8],
    places: usize,
) -> Result<(), AllocError>
    ensures ok { OnOk result (kept.new.items ≡ kept.old.items ++ (peer, bytes.now) ∷ []) }
    ensures places { OnOk result (deque_len kept.new + places ≤ deque_capacity kept.new) }
    ensures err { OnErr result (kept.new.items ≡ kept.old.items) }
    ensures len { OnErr result (deque_len kept.new ≡ deque_len kept.old) }
    ensures capacity { deque_capacity kept.old ≤ deque_capacity kept.new }
{
    let copy = bytes.to_vec(*kept.allocator())?;
    kept.reserve(places.checked_add(1).ok_or(AllocError)?)?;
    kept.push_back_reserved(Carried { peer, bytes: copy });
    Ok(())
}

/// Keeps a copy of a datagram behind the others, in a buffer, where there is a place.
pub(crate) fn keep_in<A: Allocator + Copy>(
    kept: &mut VecDeque<Carried<A>, A>,
    buffer: Buffer<A>,
    peer: Endpoint,
    bytes: &[u8],
)
    requires place { deque_len kept.old < deque_capacity kept.old }
    requires fits { length bytes.now ≤ MAX_DATAGRAM_LEN }
    ensures kept { kept.new.items ≡ kept.old.items ++ (peer, bytes.now) ∷ [] }
    ensures len { deque_len kept.new ≡ deque_len kept.old + 1 }
    ensures capacity { deque_capacity kept.new ≡ deque_capacity kept.old }
{
    let copy = buffer.filled(bytes);
    kept.push_back_reserved(Carried { peer, bytes: copy });
}
