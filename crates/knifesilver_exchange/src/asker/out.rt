//! The datagrams that a client hands out, and when it does something.
ghost use Rattle.std.specs.Prelude.{◌≡◌, ◌≢◌, ◌<◌, ◌⊎◌, length, Some};
ghost use Rattle.knifesilver_exchange.specs.Answers.{IsAnswered, IsRefused};
ghost use Rattle.knifesilver_exchange.specs.AskerHeld.{AskerMade, HoldsAsker, HoldsAskerIn, IsAskerIn, brought};
ghost use Rattle.knifesilver_exchange.specs.Asking.{IsAskerDue, IsAskerOut};

use crate::answers::{DONE, NOT_LIVE, NOTHING, SMALL_ROOM};
use crate::crossing::KsAddress;
use crate::handle::KsHandle;
use crate::held::Held;
use crate::outgoing::give;
use coap_types::Moment;
use coap_types::limits::MAX_MESSAGE_LEN;
use std::alloc::Global;

// Says when the next tick is due.
fn due(held: &Held, now: u64, at: &mut u64) -> i32
    ensures due { IsAnswered result → IsAskerIn (IsAskerDue now result at.new) held.now }
    ensures live { HoldsAsker (Some held.now) → result ≢ NOT_LIVE }
    ensures why { IsRefused result → result ≡ NOT_LIVE }
{
    match held {
        Held::Asker(client) => match client.asker.due(Moment(now)) {
            Some(moment) => {
                *at = moment.0;
                DONE
            }
            None => NOTHING,
        },
        _ => NOT_LIVE,
    }
}

/// When a tick has something to do, from this moment on: 1, or 0 where it never has, unless something is handed in
/// before.
#[unsafe(no_mangle)]
pub extern "C" fn ks_asker_due(alloc: Global, handle: &mut KsHandle, now: u64, at: &mut u64) -> i32
    // The moment that is told is the first at which a tick of the asker does something; where none is told, none ever
    // does.
    ensures due { IsAnswered result → HoldsAskerIn (IsAskerDue now result at.new) handle.old.held }
    // To ask when a tick is due leaves the very asker in the handle.
    ensures kept { handle.new.held ≡ handle.old.held }
    // To ask when a tick of an asker is due is refused for want of one in the handle, and for nothing else.
    ensures why { IsRefused result → result ≡ NOT_LIVE }
    // `due` never says of a handle with an asker that it holds none.
    ensures live { HoldsAsker handle.old.held → result ≢ NOT_LIVE }
{
    let Some(held) = handle.take(alloc) else {
        return NOT_LIVE;
    };
    let answer = due(held.as_ref(), now, at);
    handle.put(held);
    answer
}

// Takes the datagram that is to be sent next.
fn next_out(held: &mut Held, to: &mut KsAddress, room: &mut [u8], len: &mut usize) -> i32
    ensures led { IsAnswered result
        → AskerMade (IsAskerOut result to.new room.new len.new) (Some held.old) (Some held.new) }
    ensures kept { IsRefused result → held.new ≡ held.old }
    ensures beside { brought (Some held.new) ≡ brought (Some held.old) }
    ensures small { result ≡ SMALL_ROOM → length room.old < MAX_MESSAGE_LEN }
    ensures live { HoldsAsker (Some held.old) → result ≢ NOT_LIVE }
    ensures why { IsRefused result → (result ≡ SMALL_ROOM) ⊎ (result ≡ NOT_LIVE) }
{
    match held {
        Held::Asker(client) => {
            if room.len() < MAX_MESSAGE_LEN {
                SMALL_ROOM
            } else {
                give(client.asker.next_out(), to, room, len)
            }
        }
        _ => NOT_LIVE,
    }
}

/// Takes the datagram that is to be sent next: 1, or 0 where none is.
#[unsafe(no_mangle)]
pub extern "C" fn ks_asker_next_out(
    alloc: Global,
    handle: &mut KsHandle,
    to: &mut KsAddress,
    room: &mut [u8],
    len: &mut usize,
) -> i32
    // A datagram that an asker gives out is the one by which its exchanges answer just that call, byte for byte.
    ensures led { IsAnswered result
        → AskerMade (IsAskerOut result to.new room.new len.new) handle.old.held handle.new.held }
    // Where the room is too small for a datagram, the handle holds the very asker that it held.
    ensures kept { IsRefused result → handle.new.held ≡ handle.old.held }
    // To take a datagram leaves what the last feed or tick brought.
    ensures beside { brought handle.new.held ≡ brought handle.old.held }
    // To take a datagram of an asker is refused for a room that is too small or for want of one in the handle, and for
    // nothing else.
    ensures why { IsRefused result → (result ≡ SMALL_ROOM) ⊎ (result ≡ NOT_LIVE) }
    // A room for a datagram of an asker is too small only where it has under 1,152 bytes.
    ensures small { result ≡ SMALL_ROOM → length room.old < MAX_MESSAGE_LEN }
    // `next_out` never says of a handle with an asker that it holds none.
    ensures live { HoldsAsker handle.old.held → result ≢ NOT_LIVE }
{
    let Some(mut held) = handle.take(alloc) else {
        return NOT_LIVE;
    };
    let answer = next_out(held.as_mut(), to, room, len);
    handle.put(held);
    answer
}
