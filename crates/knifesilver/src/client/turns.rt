//! What a client is handed: datagrams and moments.
ghost use Rattle.std.specs.Prelude.{◌≡◌, ◌≢◌, Some};
ghost use Rattle.coap_client.specs.Turns.Quiet.{IsIdle, TellsNothing};
ghost use Rattle.knifesilver.specs.Answers.{IsAnswered, IsRefused, IsUsual};
ghost use Rattle.knifesilver.specs.ClientCalls.{IsDue, IsFeed, IsTick};
ghost use Rattle.knifesilver.specs.ClientHeld.{HoldsClient, HoldsClientIn, IsClient, IsClientIn, Made};
ghost use Rattle.knifesilver.specs.Reports.{beside};

use crate::answers::{DONE, NO_MEMORY, NOT_LIVE, NOTHING};
use crate::crossing::{KsAddress, endpoint};
use crate::handle::KsHandle;
use crate::held::Held;
use coap_types::{Endpoint, Moment};
use std::alloc::Global;

// Takes a datagram that arrived.
fn feed(held: &mut Held, now: u64, from: Endpoint, datagram: &[u8], word: u64) -> i32
    ensures led { IsAnswered result → Made (IsFeed now from datagram.now word) (Some held.old) (Some held.new) }
    ensures kept { IsRefused result → held.new ≡ held.old }
    ensures beside { beside (Some held.new) ≡ beside (Some held.old) }
    ensures live { IsClient held.old → result ≢ NOT_LIVE }
    ensures why { IsRefused result → IsUsual result }
    ensures quiet { IsClientIn (λ s. TellsNothing s now from datagram.now) held.old → IsAnswered result }
{
    match held {
        Held::Client(client) => match client.client.feed(Moment(now), from, datagram, word) {
            Ok(()) => NOTHING,
            Err(_lost) => NO_MEMORY,
        },
        Held::Server(_) | Held::Names(_) => NOT_LIVE,
    }
}

/// Takes a datagram that arrived.
#[unsafe(no_mangle)]
pub extern "C" fn ks_client_feed(
    alloc: Global,
    handle: &mut KsHandle,
    now: u64,
    from: &KsAddress,
    datagram: &[u8],
    word: u64,
) -> i32
    // A feed that is answered makes just that call of the client in the handle.
    ensures led { IsAnswered result
        → Made (IsFeed now (record { ip = from.now.ip; port = from.now.port }) datagram.now word) handle.old.held
        handle.new.held }
    // A feed that is refused leaves the very client in the handle.
    ensures kept { IsRefused result → handle.new.held ≡ handle.old.held }
    // A datagram that is fed leaves the report that waits beside the client.
    ensures beside { beside handle.new.held ≡ beside handle.old.held }
    // `feed` never says of a handle with a client that it holds none.
    ensures live { HoldsClient handle.old.held → result ≢ NOT_LIVE }
    // A feed of a client is refused for want of memory or of a client in the handle, and for nothing else.
    ensures why { IsRefused result → IsUsual result }
    // A datagram for which a client sends nothing, and of which it keeps and tells nothing, is not refused.
    ensures quiet { HoldsClientIn
        (λ s. TellsNothing s now (record { ip = from.now.ip; port = from.now.port }) datagram.now) handle.old.held
        → IsAnswered result }
{
    let Some(mut held) = handle.take(alloc) else {
        return NOT_LIVE;
    };
    let answer = feed(held.as_mut(), now, endpoint(from), datagram, word);
    handle.put(held);
    answer
}

// Does one step that is due.
fn tick(held: &mut Held, now: u64, word: u64) -> i32
    ensures led { IsAnswered result → Made (IsTick now word result) (Some held.old) (Some held.new) }
    ensures kept { IsRefused result → held.new ≡ held.old }
    ensures beside { beside (Some held.new) ≡ beside (Some held.old) }
    ensures live { IsClient held.old → result ≢ NOT_LIVE }
    ensures why { IsRefused result → IsUsual result }
    ensures quiet { IsClientIn (λ s. IsIdle s now) held.old → IsAnswered result }
{
    match held {
        Held::Client(client) => match client.client.tick(Moment(now), word) {
            Ok(true) => DONE,
            Ok(false) => NOTHING,
            Err(_) => NO_MEMORY,
        },
        Held::Server(_) | Held::Names(_) => NOT_LIVE,
    }
}

/// Does one step that is due: 1, or 0 where none is.
#[unsafe(no_mangle)]
pub extern "C" fn ks_client_tick(alloc: Global, handle: &mut KsHandle, now: u64, word: u64) -> i32
    // A tick that is answered makes just that call of the client in the handle, and says whether it did something.
    ensures led { IsAnswered result → Made (IsTick now word result) handle.old.held handle.new.held }
    // A tick that is refused leaves the very client in the handle.
    ensures kept { IsRefused result → handle.new.held ≡ handle.old.held }
    // A tick leaves the report that waits beside the client.
    ensures beside { beside handle.new.held ≡ beside handle.old.held }
    // `tick` never says of a handle with a client that it holds none.
    ensures live { HoldsClient handle.old.held → result ≢ NOT_LIVE }
    // A tick of a client is refused for want of memory or of a client in the handle, and for nothing else.
    ensures why { IsRefused result → IsUsual result }
    // A tick of a client at which nothing is due is not refused.
    ensures quiet { HoldsClientIn (λ s. IsIdle s now) handle.old.held → IsAnswered result }
{
    let Some(mut held) = handle.take(alloc) else {
        return NOT_LIVE;
    };
    let answer = tick(held.as_mut(), now, word);
    handle.put(held);
    answer
}

// Says when the next tick is due.
fn due(held: &Held, at: &mut u64) -> i32
    ensures due { IsAnswered result → IsClientIn (IsDue result at.new) held.now }
    ensures live { IsClient held.now → result ≢ NOT_LIVE }
    ensures why { IsRefused result → result ≡ NOT_LIVE }
{
    match held {
        Held::Client(client) => match client.client.due() {
            Some(moment) => {
                *at = moment.0;
                DONE
            }
            None => NOTHING,
        },
        Held::Server(_) | Held::Names(_) => NOT_LIVE,
    }
}

/// When the next tick has something to do: 1, or 0 where it never has, unless something is handed in before.
#[unsafe(no_mangle)]
pub extern "C" fn ks_client_due(alloc: Global, handle: &mut KsHandle, at: &mut u64) -> i32
    // The moment that is told is the first at which a tick of the client does something; where none is told, none
    // ever does.
    ensures due { IsAnswered result → HoldsClientIn (IsDue result at.new) handle.old.held }
    // To ask when a tick is due leaves the very client in the handle.
    ensures kept { handle.new.held ≡ handle.old.held }
    // `due` never says of a handle with a client that it holds none.
    ensures live { HoldsClient handle.old.held → result ≢ NOT_LIVE }
    // To ask when a tick of a client is due is refused for want of a client in the handle, and for nothing else.
    ensures why { IsRefused result → result ≡ NOT_LIVE }
{
    let Some(held) = handle.take(alloc) else {
        return NOT_LIVE;
    };
    let answer = due(held.as_ref(), at);
    handle.put(held);
    answer
}
