//! Room for one message, made before it is needed.
ghost use Rattle.std.specs.Prelude.{◌≡◌, ◌≤◌, ◌<◌, ◌+◌, length, true, false, OnOk, OnErr};
ghost use Rattle.std.specs.Prelude.{IsOk};
ghost use Rattle.std.specs.Vec.{vec_capacity};
ghost use Rattle.std.specs.VecDeque.{deque_len, deque_capacity};
ghost use Rattle.coap_layer.specs.Machine.Sound.{HasRoom, HasBuffers};

use crate::lists::Lists;
use coap_types::limits::MAX_MESSAGE_LEN;
use std::alloc::{AllocError, Allocator};
use std::hash::BuildHasher;
use std::mem;

/// Room for a message of the greatest length: a buffer for what is sent, and one for what is kept. They stay
/// from one message to the next, and are used where an allocation of the message's own length is refused.
#[derive(Drop)]
pub(crate) struct Room<A: Allocator + Copy> {
    pub(crate) sent: Vec<u8, A>,
    pub(crate) kept: Vec<u8, A>,
    /// Both buffers are there, and a place for the message in each list.
    pub(crate) is_made: bool,
}

/// What an input brings: a message that is remembered, one that is handed up and may be replied
/// to, a datagram that is sent.
#[derive(Clone, Copy)]
pub(crate) struct Brings {
    pub(crate) keeps: bool,
    pub(crate) hands: bool,
    pub(crate) sends: bool,
}

impl<A: Allocator + Copy> Room<A> {
    /// No room yet.
    pub(crate) fn new(alloc: A) -> Room<A>
        ensures { result.is_made ≡ false }
    {
        Room {
            sent: Vec::new(alloc),
            kept: Vec::new(alloc),
            is_made: false,
        }
    }

    // Makes both buffers as long as a message may be.
    fn reserve(&mut self) -> Result<(), AllocError>
        ensures made { self.new.is_made ≡ self.old.is_made }
        ensures buffers { OnOk result (HasBuffers self.new) }
    {
        self.sent.reserve(MAX_MESSAGE_LEN)?;
        self.kept.reserve(MAX_MESSAGE_LEN)?;
        Ok(())
    }
}

/// Makes room for a message that is sent and kept, if there is none.
pub(crate) fn make_room<A: Allocator + Copy, S: BuildHasher>(
    room: &mut Room<A>,
    lists: &mut Lists<A, S>,
) -> Result<(), AllocError>
    requires { HasRoom room.old lists.old }
    ensures entries { lists.new.entries ≡ lists.old.entries }
    ensures sendings { lists.new.sendings.items ≡ lists.old.sendings.items }
    ensures waiting { lists.new.waiting.items ≡ lists.old.waiting.items }
    ensures len { deque_len lists.new.waiting ≡ deque_len lists.old.waiting }
    ensures capacity { deque_capacity lists.old.waiting ≤ deque_capacity lists.new.waiting }
    ensures there { OnOk result (room.new.is_made ≡ true) }
    ensures room { HasRoom room.new lists.new }
    ensures kept { room.old.is_made ≡ true → room.new.is_made ≡ true }
    ensures had { room.old.is_made ≡ true → IsOk result }
    ensures err { OnErr result (room.new.is_made ≡ room.old.is_made) }
{
    if !room.is_made {
        lists.sendings.reserve(1)?;
        lists.waiting.reserve(1)?;
        room.reserve()?;
        room.is_made = true;
    }
    Ok(())
}

/// Makes room for what an input brings.
pub(crate) fn grow<A: Allocator + Copy, S: BuildHasher>(
    brings: Brings,
    room: &mut Room<A>,
    lists: &mut Lists<A, S>,
) -> Result<(), AllocError>
    requires { HasRoom room.old lists.old }
    ensures settled { lists.new.entries.settled ≡ lists.old.entries.settled }
    ensures newest { lists.new.entries.newest ≡ lists.old.entries.newest }
    ensures sendings { lists.new.sendings.items ≡ lists.old.sendings.items }
    ensures waiting { lists.new.waiting.items ≡ lists.old.waiting.items }
    ensures entry { OnOk result (brings.keeps ≡ true → 2 ≤ lists.new.entries.spare) }
    ensures place { OnOk result (brings.sends ≡ true
        → deque_len lists.new.waiting + 1 < deque_capacity lists.new.waiting) }
    ensures there { OnOk result (brings.hands ≡ true → room.new.is_made ≡ true) }
    ensures kept { room.old.is_made ≡ true → room.new.is_made ≡ true }
    ensures room { HasRoom room.new lists.new }
    ensures err { OnErr result (room.new.is_made ≡ room.old.is_made) }
    ensures idle { brings.keeps ≡ false → brings.hands ≡ false → brings.sends ≡ false → IsOk result }
    ensures had { room.old.is_made ≡ true → brings.keeps ≡ false → brings.sends ≡ false → IsOk result }
{
    if brings.sends {
        lists.waiting.reserve(2)?;
    }
    if brings.keeps {
        lists.entries.reserve()?;
    }
    if brings.hands {
        make_room(room, lists)?;
    }
    Ok(())
}

// The buffer with these bytes, which it has room for.
fn filled<A: Allocator + Copy>(mut buffer: Vec<u8, A>, bytes: &[u8]) -> Vec<u8, A>
    requires { length bytes.now ≤ vec_capacity buffer }
    ensures { result.items ≡ bytes.now }
{
    buffer.clear();
    let _ = buffer.extend_from_slice(bytes);
    buffer
}

// The same, for what is kept for long: where less than half of the room is needed, the rest is given
// back, unless the allocator refuses to.
fn fitted<A: Allocator + Copy>(buffer: Vec<u8, A>, bytes: &[u8]) -> Vec<u8, A>
    requires { length bytes.now ≤ vec_capacity buffer }
    ensures { result.items ≡ bytes.now }
{
    let mut kept = filled(buffer, bytes);
    if kept.len() < kept.capacity() / 2 {
        kept.shrink_to_fit();
    }
    kept
}

/// These bytes, in an allocation of their own length; where that is refused, in the buffer that was reserved.
pub(crate) fn copied<A: Allocator + Copy>(bytes: &[u8], reserved: &mut Vec<u8, A>) -> Vec<u8, A>
    requires { length bytes.now ≤ vec_capacity reserved.old }
    ensures { result.items ≡ bytes.now }
{
    let alloc = *reserved.allocator();
    match Vec::from_slice(alloc, bytes) {
        Ok(own) => own,
        Err(_) => fitted(mem::replace(reserved, Vec::new(alloc)), bytes),
    }
}
