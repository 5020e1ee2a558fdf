//! What a datagram would be for a client.
ghost use Rattle.std.specs.Prelude.{◌≡◌, ◌≢◌};
ghost use Rattle.knifesilver.specs.Answers.{IsAnswered, IsRefused};
ghost use Rattle.knifesilver.specs.ClientHeld.{HoldsClient, HoldsClientIn, IsClient, IsClientIn};
ghost use Rattle.knifesilver.specs.Woulds.{WouldAtClient};

use crate::answers::NOT_LIVE;
use crate::crossing::{KsAddress, endpoint};
use crate::handle::KsHandle;
use crate::held::Held;
use crate::numbers::would_number;
use coap_types::{Endpoint, Moment};
use std::alloc::Global;

// What the datagram would be.
fn foretell(held: &Held, now: u64, from: Endpoint, datagram: &[u8]) -> i32
    ensures would { IsAnswered result → IsClientIn (WouldAtClient now from datagram.now result) held.now }
    ensures live { IsClient held.now → result ≢ NOT_LIVE }
    ensures why { IsRefused result → result ≡ NOT_LIVE }
{
    match held {
        Held::Client(ours) => would_number(ours.client.would(Moment(now), from, datagram)),
        Held::Server(_) | Held::Names(_) => NOT_LIVE,
    }
}

/// What a feed would make of the datagram now.
#[unsafe(no_mangle)]
pub extern "C" fn ks_client_would(
    alloc: Global,
    handle: &mut KsHandle,
    now: u64,
    from: &KsAddress,
    datagram: &[u8],
) -> i32
    // What a datagram would be at a client is the row that the client's next feed of it would take at that moment.
    ensures would { IsAnswered result
        → HoldsClientIn (WouldAtClient now (record { ip = from.now.ip; port = from.now.port }) datagram.now result)
        handle.old.held }
    // To ask what a datagram would be leaves the very client in the handle.
    ensures kept { handle.new.held ≡ handle.old.held }
    // `would` never says of a handle with a client that it holds none.
    ensures live { HoldsClient handle.old.held → result ≢ NOT_LIVE }
    // To ask a client what a datagram would be is refused for want of a client in the handle, and for nothing else.
    ensures why { IsRefused result → result ≡ NOT_LIVE }
{
    let Some(held) = handle.take(alloc) else {
        return NOT_LIVE;
    };
    let answer = foretell(held.as_ref(), now, endpoint(from), datagram);
    handle.put(held);
    answer
}
