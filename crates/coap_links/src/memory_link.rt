//! A link in memory.
ghost use Rattle.std.specs.Prelude.{ℕ, List, [], ◌∷◌, ◌++◌, Option, None, ◌≡◌, ◌≤◌, map, OnOk, OnErr, IfSome, IfNone};
ghost use Rattle.std.specs.Prelude.{length, ◌+◌, ◌-◌, ◌==◌, ◌⊎◌, true, false};
ghost use Rattle.std.specs.Vec.{vec_len};
ghost use Rattle.std.specs.VecDeque.{deque_capacity, deque_len};
ghost use Rattle.coap_types.specs.declared.endpoint.Endpoint.{Endpoint as EndpointSpec};
ghost use Rattle.coap_links.specs.Carried.{Packet, received};
ghost use Rattle.coap_links.specs.Faults.{raised};
ghost use Rattle.coap_links.specs.MemoryCarries.{Memory, ReceivesFromMemory, SendsToMemory, behind, failed};
ghost use Rattle.coap_links.specs.MemoryCarries.{falls_due, found_in, is_long, left};

use crate::carried::{Buffer, Carried, keep, keep_in};
use crate::link::{Link, MAX_DATAGRAM_LEN, raise};
use coap_types::Endpoint;
use std::alloc::{AllocError, Allocator, Global};
use std::collections::VecDeque;
use std::io;
use std::marker::Model;

/// A link that keeps what it was handed, and gives what it was told to give. One send and one
/// receive can be told to fail; another send fails only for want of memory.
#[derive(Drop)]
pub struct MemoryLink<A: Allocator + Copy = Global> {
    address: Endpoint,
    handed: VecDeque<Carried<A>, A>,
    coming: VecDeque<Carried<A>, A>,
    // For what it will be handed; there is a place for each.
    spare: Vec<Buffer<A>, A>,
    // Which call from now is to fail, from 1; 0 for none.
    failing_send: u64,
    failing_receive: u64,
    faults: u64,
}

impl<A: Allocator + Copy> Model for MemoryLink<A> {
    ghost use Rattle.std.specs.Prelude.{◌+◌, ◌≤◌};
    ghost use Rattle.std.specs.Vec.{vec_len};
    ghost use Rattle.std.specs.VecDeque.{deque_capacity, deque_len};
    ghost use Rattle.coap_links.specs.MemoryCarries.{Memory};

    ghost Value = { Memory };

    ghost view = { λ m. record {
      address = m.address;
      handed = m.handed.items;
      coming = m.coming.items;
      failing_send = m.failing_send;
      failing_receive = m.failing_receive;
      faults = m.faults;
      reserved = vec_len m.spare;
    } };

    ghost invariant = { λ m. deque_len m.handed + vec_len m.spare ≤ deque_capacity m.handed };
}

// Whether this call is the one that is to fail, and which one it is after this one.
fn count_down(failing: u64) -> (bool, u64)
    ensures due { result.0 ≡ falls_due failing }
    ensures left { result.1 ≡ failing - 1 }
{
    (failing == 1, failing.saturating_sub(1))
}

// Keeps a copy of a datagram behind the others, in a buffer where one is left that holds it.
fn hold<A: Allocator + Copy>(
    handed: &mut VecDeque<Carried<A>, A>,
    spare: &mut Vec<Buffer<A>, A>,
    to: Endpoint,
    bytes: &[u8],
) -> Result<(), AllocError>
    requires { deque_len handed.old + vec_len spare.old ≤ deque_capacity handed.old }
    ensures ok { OnOk result (handed.new.items ≡ handed.old.items ++ (to, bytes.now) ∷ []) }
    ensures left { OnOk result (vec_len spare.new ≡ left bytes.now (vec_len spare.old)) }
    ensures places { deque_len handed.new + vec_len spare.new ≤ deque_capacity handed.new }
    ensures err { OnErr result (handed.new.items ≡ handed.old.items) }
    ensures stays { OnErr result (vec_len spare.new ≡ vec_len spare.old) }
    ensures when { OnErr result ((vec_len spare.old ≡ 0) ⊎ (is_long bytes.now ≡ true)) }
{
    if bytes.len() > MAX_DATAGRAM_LEN {
        return keep(handed, to, bytes, spare.len());
    }
    match spare.pop() {
        Some(buffer) => {
            keep_in(handed, buffer, to, bytes);
            Ok(())
        }
        None => keep(handed, to, bytes, 0),
    }
}

// Takes the first datagram out, and copies it to the front of a buffer.
fn take_first<A: Allocator + Copy>(
    coming: &mut VecDeque<Carried<A>, A>,
    buf: &mut [u8],
) -> Option<(Endpoint, usize)>
    requires room { MAX_DATAGRAM_LEN ≤ length buf.old }
    ensures found { received result buf.new ≡ found_in coming.old.items }
    ensures behind { coming.new.items ≡ behind coming.old.items }
    ensures fits { IfSome result (λ came. came.1 ≤ MAX_DATAGRAM_LEN) }
    ensures room { length buf.new ≡ length buf.old }
{
    let first = coming.pop_front()?;
    let len = first.bytes().len();
    if len > MAX_DATAGRAM_LEN {
        return None;
    }
    buf[..len].copy_from_slice(first.bytes());
    Some((first.peer(), len))
}

impl<A: Allocator + Copy> MemoryLink<A> {
    /// A link that receives at this address. It takes no memory.
    pub fn new(alloc: A, address: Endpoint) -> MemoryLink<A>
        // A `new` link in memory is at its address, holds nothing, and loses nothing.
        ensures { result ≡ record {
          address = address;
          handed = [];
          coming = [];
          failing_send = 0;
          failing_receive = 0;
          faults = 0;
          reserved = 0;
        } }
    {
        MemoryLink {
            address,
            handed: VecDeque::new(alloc),
            coming: VecDeque::new(alloc),
            spare: Vec::new(alloc),
            failing_send: 0,
            failing_receive: 0,
            faults: 0,
        }
    }

    // Makes one more buffer, and a place for what it will hold.
    fn add_buffer(&mut self) -> Result<(), AllocError>
        ensures ok { OnOk result (self.new ≡ record self.old { reserved = self.old.reserved + 1 }) }
        ensures err { OnErr result (self.new ≡ self.old) }
    {
        let alloc = *self.handed.allocator();
        let places = self.spare.len().checked_add(1).ok_or(AllocError)?;
        self.handed.reserve(places)?;
        self.spare.push(Buffer::new(alloc)?)?;
        Ok(())
    }

    /// Makes so many more buffers of `MAX_DATAGRAM_LEN` bytes, of which each send takes one. While one is
    /// left, a send of at most so many bytes takes no memory. After an `Err` the link is as before.
    pub fn reserve(&mut self, n: usize) -> Result<(), AllocError>
        // So many more buffers are left as were asked for, and all else is as it was.
        ensures ok { OnOk result (self.new ≡ record self.old { reserved = self.old.reserved + n }) }
        // A link that is refused buffers is as it was.
        ensures err { OnErr result (self.new ≡ self.old) }
    {
        let before = self.spare.len();
        for _ in 0..n {
            if self.add_buffer().is_err() {
                self.spare.truncate(before);
                return Err(AllocError);
            }
        }
        Ok(())
    }

    /// Makes the n-th send from now fail, from 1, once; 0 makes none fail.
    pub fn fail_send(&mut self, n: u64)
        // The send of that number is to fail, and all else is as it was.
        ensures { self.new ≡ record self.old { failing_send = n } }
    {
        self.failing_send = n;
    }

    /// Makes the n-th receive from now fail, from 1, once; 0 makes none fail.
    pub fn fail_receive(&mut self, n: u64)
        // The receive of that number is to fail, and all else is as it was.
        ensures { self.new ≡ record self.old { failing_receive = n } }
    {
        self.failing_receive = n;
    }

    /// Adds a datagram to those that are to come.
    pub fn give(&mut self, from: Endpoint, bytes: &[u8]) -> Result<(), AllocError>
        // What the link is given is to come behind what was given before.
        ensures ok { OnOk result (self.new ≡ record self.old { coming = self.old.coming ++ (from, bytes.now) ∷ [] }) }
        // A link that is refused memory for what it is given is as it was.
        ensures err { OnErr result (self.new ≡ self.old) }
    {
        keep(&mut self.coming, from, bytes, 0)
    }

    /// Takes out the first datagram that it was handed.
    pub fn next_handed(&mut self) -> Option<Carried<A>>
        // What is taken is the first datagram that was sent.
        ensures some { IfSome result (λ first. self.old ≡ record self.new { handed = first ∷ self.new.handed }) }
        // Nothing is taken only where nothing was sent, and nothing changes.
        ensures none { IfNone result ((self.new ≡ self.old) × (self.old.handed ≡ [])) }
    {
        self.handed.pop_front()
    }
}

impl<A: Allocator + Copy> Link for MemoryLink<A> {
    ghost sends = { SendsToMemory };

    ghost receives = { ReceivesFromMemory };

    ghost fault_count = { λ link. link.faults };

    ghost broken_count = { λ _. 0 };

    ghost told_loss = { λ _. None };

    ghost own_address = { λ link. link.address };

    ghost hears_refusal = { λ _. false };

    fn send(&mut self, to: Endpoint, bytes: &[u8]) {
        let (fails, left) = count_down(self.failing_send);
        self.failing_send = left;
        if fails || hold(&mut self.handed, &mut self.spare, to, bytes).is_err() {
            self.faults = raise(self.faults);
        }
    }

    fn receive(&mut self, buf: &mut [u8]) -> Option<(Endpoint, usize)> {
        let (fails, left) = count_down(self.failing_receive);
        self.failing_receive = left;
        if fails {
            self.faults = raise(self.faults);
            return None;
        }
        take_first(&mut self.coming, buf)
    }

    fn faults(&self) -> u64 {
        self.faults
    }

    fn broken_receives(&self) -> u64 {
        0
    }

    fn loss(&self) -> Option<io::Error> {
        None
    }

    fn address(&self) -> Endpoint {
        self.address
    }

    fn is_refused(&self) -> bool {
        false
    }
}
