//! What a server is handed: datagrams and moments.
ghost use Rattle.std.specs.Prelude.{◌≡◌, ◌≢◌, None, Some};
ghost use Rattle.coap_journal.specs.Input.{Feed};
ghost use Rattle.knifesilver.specs.Answers.{IsAnswered, IsRefused, IsUsual};
ghost use Rattle.knifesilver.specs.Quiet.{PassesOver, SendsNothing};
ghost use Rattle.knifesilver.specs.ServerCalls.{IsDue, IsFeed, Ticked};
ghost use Rattle.knifesilver.specs.ServerHeld.{HoldsServer, HoldsServerIn, IsNoted, IsServer, IsServerIn, Made, notes_in};

use crate::answers::{DONE, NO_MEMORY, NOT_LIVE, NOTHING};
use crate::crossing::{KsAddress, endpoint};
use crate::handle::KsHandle;
use crate::held::Held;
use coap_types::{Endpoint, Moment};
use std::alloc::Global;

// Takes a datagram that arrived.
fn feed(held: &mut Held, now: u64, from: Endpoint, datagram: &[u8], word: u64) -> i32
    ensures led { IsAnswered result → Made (IsFeed now from datagram.now word) (Some held.old) (Some held.new) }
    ensures noted { IsAnswered result → IsNoted (Feed now from datagram.now word) now (Some held.old) (Some held.new) }
    ensures kept { IsRefused result → held.new ≡ held.old }
    ensures live { IsServer held.old → result ≢ NOT_LIVE }
    ensures why { IsRefused result → IsUsual result }
    ensures quiet { IsServerIn (PassesOver now from datagram.now) held.old → notes_in (Some held.old) ≡ None
        → IsAnswered result }
{
    match held {
        Held::Server(server) => match server.feed(Moment(now), from, datagram, word) {
            Ok(()) => NOTHING,
            Err(_lost) => NO_MEMORY,
        },
        Held::Client(_) | Held::Names(_) => NOT_LIVE,
    }
}

/// Takes a datagram that arrived.
#[unsafe(no_mangle)]
pub extern "C" fn ks_server_feed(
    alloc: Global,
    handle: &mut KsHandle,
    now: u64,
    from: &KsAddress,
    datagram: &[u8],
    word: u64,
) -> i32
    // A feed that is answered makes just that call of the server in the handle.
    ensures led { IsAnswered result
        → Made (IsFeed now (record { ip = from.now.ip; port = from.now.port }) datagram.now word) handle.old.held
        handle.new.held }
    // A feed that is answered is noted, where notes are kept, with its moment, its sender and its word.
    ensures noted { IsAnswered result
        → IsNoted (Feed now (record { ip = from.now.ip; port = from.now.port }) datagram.now word) now handle.old.held
        handle.new.held }
    // A feed that is refused leaves the very server in the handle.
    ensures kept { IsRefused result → handle.new.held ≡ handle.old.held }
    // `feed` never says of a handle with a server that it holds none.
    ensures live { HoldsServer handle.old.held → result ≢ NOT_LIVE }
    // A feed of a server is refused for want of memory or of a server in the handle, and for nothing else.
    ensures why { IsRefused result → IsUsual result }
    // A datagram for which the server's message layer sends nothing and hands nothing up is not refused, where no notes are
    // kept.
    ensures quiet { HoldsServerIn (PassesOver now (record { ip = from.now.ip; port = from.now.port }) datagram.now)
        handle.old.held → notes_in handle.old.held ≡ None → IsAnswered result }
{
    let Some(mut held) = handle.take(alloc) else {
        return NOT_LIVE;
    };
    let answer = feed(held.as_mut(), now, endpoint(from), datagram, word);
    handle.put(held);
    answer
}

// Does one step that is due.
fn tick(held: &mut Held, now: u64, word: u64) -> i32
    ensures led { IsAnswered result → Ticked now word result (Some held.old) (Some held.new) }
    ensures kept { IsRefused result → held.new ≡ held.old }
    ensures live { IsServer held.old → result ≢ NOT_LIVE }
    ensures why { IsRefused result → IsUsual result }
    ensures quiet { IsServerIn (SendsNothing now) held.old → notes_in (Some held.old) ≡ None → IsAnswered result }
{
    match held {
        Held::Server(server) => match server.tick(Moment(now), word) {
            Ok(true) => DONE,
            Ok(false) => NOTHING,
            Err(_) => NO_MEMORY,
        },
        Held::Client(_) | Held::Names(_) => NOT_LIVE,
    }
}

/// Does one step that is due: 1, or 0 where none is.
#[unsafe(no_mangle)]
pub extern "C" fn ks_server_tick(alloc: Global, handle: &mut KsHandle, now: u64, word: u64) -> i32
    // A tick that is answered makes just that call of the server in the handle, says whether it did something, and is
    // noted, where notes are kept; where they are and none is due, it does nothing instead.
    ensures led { IsAnswered result → Ticked now word result handle.old.held handle.new.held }
    // A tick that is refused leaves the very server in the handle.
    ensures kept { IsRefused result → handle.new.held ≡ handle.old.held }
    // `tick` never says of a handle with a server that it holds none.
    ensures live { HoldsServer handle.old.held → result ≢ NOT_LIVE }
    // A tick of a server is refused for want of memory or of a server in the handle, and for nothing else.
    ensures why { IsRefused result → IsUsual result }
    // A tick with which a server sends nothing is not refused, where no notes are kept.
    ensures quiet { HoldsServerIn (SendsNothing now) handle.old.held → notes_in handle.old.held ≡ None
        → IsAnswered result }
{
    let Some(mut held) = handle.take(alloc) else {
        return NOT_LIVE;
    };
    let answer = tick(held.as_mut(), now, word);
    handle.put(held);
    answer
}

// Says when the next tick is due.
fn due(held: &Held, at: &mut u64) -> i32
    ensures due { IsAnswered result → IsServerIn (IsDue result at.new) held.now }
    ensures live { IsServer held.now → result ≢ NOT_LIVE }
    ensures why { IsRefused result → result ≡ NOT_LIVE }
{
    match held {
        Held::Server(server) => match server.server.due() {
            Some(moment) => {
                *at = moment.0;
                DONE
            }
            None => NOTHING,
        },
        Held::Client(_) | Held::Names(_) => NOT_LIVE,
    }
}

/// When the next tick has something to do: 1, or 0 where it never has, unless something is handed in before.
#[unsafe(no_mangle)]
pub extern "C" fn ks_server_due(alloc: Global, handle: &mut KsHandle, at: &mut u64) -> i32
    // The moment that is told is the first at which a tick of the server does something; where none is told, none
    // ever does.
    ensures due { IsAnswered result → HoldsServerIn (IsDue result at.new) handle.old.held }
    // To ask when a tick is due leaves the very server in the handle.
    ensures kept { handle.new.held ≡ handle.old.held }
    // `due` never says of a handle with a server that it holds none.
    ensures live { HoldsServer handle.old.held → result ≢ NOT_LIVE }
    // To ask when a tick of a server is due is refused for want of a server in the handle, and for nothing else.
    ensures why { IsRefused result → result ≡ NOT_LIVE }
{
    let Some(held) = handle.take(alloc) else {
        return NOT_LIVE;
    };
    let answer = due(held.as_ref(), at);
    handle.put(held);
    answer
}
