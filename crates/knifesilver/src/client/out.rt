//! The datagrams that a client hands out.
ghost use Rattle.std.specs.Prelude.{◌≡◌, ◌≢◌, ◌<◌, ◌⊎◌, length, Some};
ghost use Rattle.knifesilver.specs.Answers.{IsAnswered, IsRefused};
ghost use Rattle.knifesilver.specs.ClientCalls.{IsNextOut};
ghost use Rattle.knifesilver.specs.ClientHeld.{HoldsClient, IsClient, Made};
ghost use Rattle.knifesilver.specs.Reports.{beside};

use crate::answers::{NOT_LIVE, SMALL_ROOM};
use crate::crossing::KsAddress;
use crate::handle::KsHandle;
use crate::held::Held;
use crate::outgoing::give;
use coap_types::limits::MAX_MESSAGE_LEN;
use std::alloc::Global;

// Takes the datagram that is to be sent next.
fn next_out(held: &mut Held, to: &mut KsAddress, room: &mut [u8], len: &mut usize) -> i32
    ensures led { IsAnswered result
        → Made (IsNextOut result to.new room.new len.new) (Some held.old) (Some held.new) }
    ensures kept { IsRefused result → held.new ≡ held.old }
    ensures beside { beside (Some held.new) ≡ beside (Some held.old) }
    ensures live { IsClient held.old → result ≢ NOT_LIVE }
    ensures small { result ≡ SMALL_ROOM → length room.old < MAX_MESSAGE_LEN }
    ensures why { IsRefused result → (result ≡ SMALL_ROOM) ⊎ (result ≡ NOT_LIVE) }
{
    match held {
        Held::Client(client) => {
            if room.len() < MAX_MESSAGE_LEN {
                SMALL_ROOM
            } else {
                give(client.client.next_out(), to, room, len)
            }
        }
        Held::Server(_) | Held::Names(_) => NOT_LIVE,
    }
}

/// Takes the datagram that is to be sent next: 1, or 0 where none is.
#[unsafe(no_mangle)]
pub extern "C" fn ks_client_next_out(
    alloc: Global,
    handle: &mut KsHandle,
    to: &mut KsAddress,
    room: &mut [u8],
    len: &mut usize,
) -> i32
    // A datagram that is given out is the one by which the client in the handle answers just that call, byte for byte.
    ensures led { IsAnswered result
        → Made (IsNextOut result to.new room.new len.new) handle.old.held handle.new.held }
    // Where a client gives out nothing, or the room is too small, the handle holds the very client that it held.
    ensures kept { IsRefused result → handle.new.held ≡ handle.old.held }
    // To take a datagram leaves the report that waits beside the client.
    ensures beside { beside handle.new.held ≡ beside handle.old.held }
    // `next_out` never says of a handle with a client that it holds none.
    ensures live { HoldsClient handle.old.held → result ≢ NOT_LIVE }
    // To take a datagram of a client is refused for a room that is too small or for want of a client in the handle,
    // and for nothing else.
    ensures why { IsRefused result → (result ≡ SMALL_ROOM) ⊎ (result ≡ NOT_LIVE) }
    // A room for a datagram of a client is too small only where it has under 1,152 bytes.
    ensures small { result ≡ SMALL_ROOM → length room.old < MAX_MESSAGE_LEN }
{
    let Some(mut held) = handle.take(alloc) else {
        return NOT_LIVE;
    };
    let answer = next_out(held.as_mut(), to, room, len);
    handle.put(held);
    answer
}
