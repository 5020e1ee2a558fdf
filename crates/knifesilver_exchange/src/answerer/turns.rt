//! What a server is handed, and hands out: datagrams and moments.
ghost use Rattle.std.specs.Prelude.{◌≡◌, ◌≢◌, ◌<◌, ◌⊎◌, length, max, false, Some, []};
ghost use Rattle.coap_layer.specs.Machine.State.{copies, made};
ghost use Rattle.coap_layer.specs.Machine.Ups.{IsQuiet};
ghost use Rattle.coap_layer.specs.Trace.{Receive as Arrives};
ghost use Rattle.coap_exchange.specs.Machine.WhatIsDue.{takes_response};
ghost use Rattle.knifesilver_exchange.specs.Answers.{IsAnswered, IsRefused, IsUsual};
ghost use Rattle.knifesilver_exchange.specs.Calls.{IsDue, IsFeed, IsNextOut, IsTick};
ghost use Rattle.knifesilver_exchange.specs.Held.{Holds, HoldsIn, IsIn, Made};

use crate::answers::{DONE, NO_MEMORY, NOT_LIVE, NOTHING, SMALL_ROOM};
use crate::crossing::{KsAddress, KsAsked, KsRequest, endpoint, told_asked, told_request};
use crate::handle::KsHandle;
use crate::held::Held;
use crate::outgoing::give;
use coap_exchange::Due;
use coap_types::limits::MAX_MESSAGE_LEN;
use coap_types::{Endpoint, Moment};
use std::alloc::Global;

/// A deferred request is ready, and is told.
const READY: i32 = 2;

// Takes a datagram that arrived.
fn feed(held: &mut Held, now: u64, from: Endpoint, datagram: &[u8], request: &mut KsRequest) -> i32
    ensures led { IsAnswered result
        → Made (IsFeed now from datagram.now result request.new) (Some held.old) (Some held.new) }
    ensures kept { IsRefused result → held.new ≡ held.old }
    ensures live { Holds (Some held.old) → result ≢ NOT_LIVE }
    ensures why { IsRefused result → IsUsual result }
    ensures quiet { IsIn (λ s. IsQuiet (made s.state.layer now (Arrives from datagram.now))) held.old
        → IsAnswered result }
{
    match held {
        Held::Answerer(server) => match server.feed(Moment(now), from, datagram) {
            Ok(Some((asked, view))) => {
                *request = told_request(&asked, &view);
                DONE
            }
            Ok(None) => NOTHING,
            Err(_lost) => NO_MEMORY,
        },
        _ => NOT_LIVE,
    }
}

/// Takes a datagram that arrived: 1 and the request, where it hands up one.
#[unsafe(no_mangle)]
pub extern "C" fn ks_answerer_feed(
    alloc: Global,
    handle: &mut KsHandle,
    now: u64,
    from: &KsAddress,
    datagram: &[u8],
    request: &mut KsRequest,
) -> i32
    // A feed that is answered makes just that call of the exchanges, and tells the request that it hands up, if any.
    ensures led { IsAnswered result
        → Made (IsFeed now (record { ip = from.now.ip; port = from.now.port }) datagram.now result request.new)
        handle.old.held handle.new.held }
    // A feed that is refused leaves the very answerer in the handle.
    ensures kept { IsRefused result → handle.new.held ≡ handle.old.held }
    // A feed is refused for want of memory or of a server in the handle, and for nothing else.
    ensures why { IsRefused result → IsUsual result }
    // `feed` never says of a handle with an answerer that it holds none.
    ensures live { Holds handle.old.held → result ≢ NOT_LIVE }
    // A datagram for which the message layer sends nothing and hands nothing up is not refused by an answerer.
    ensures quiet { HoldsIn (λ s. IsQuiet (made s.state.layer now
        (Arrives (record { ip = from.now.ip; port = from.now.port }) datagram.now))) handle.old.held
        → IsAnswered result }
{
    let Some(mut held) = handle.take(alloc) else {
        return NOT_LIVE;
    };
    let answer = feed(held.as_mut(), now, endpoint(from), datagram, request);
    handle.put(held);
    answer
}

// Does the first that is due.
fn tick(held: &mut Held, now: u64, asked: &mut KsAsked) -> i32
    ensures led { IsAnswered result
        → Made (IsTick now result asked.new) (Some held.old) (Some held.new) }
    ensures kept { IsRefused result → held.new ≡ held.old }
    ensures live { Holds (Some held.old) → result ≢ NOT_LIVE }
    ensures why { IsRefused result → IsUsual result }
    ensures quiet { IsIn (λ s. (copies (max s.state.own.clock now) s.state.layer.open_cons ≡ [])
        × (takes_response s.state now ≡ false)) held.old → IsAnswered result }
{
    match held {
        Held::Answerer(server) => match server.tick(Moment(now)) {
            Ok(Due::Idle) => NOTHING,
            Ok(Due::Copied | Due::Expired) => DONE,
            Ok(Due::Ready(ready)) => {
                *asked = told_asked(&ready);
                READY
            }
            Err(_) => NO_MEMORY,
        },
        _ => NOT_LIVE,
    }
}

/// Does the first that is due: 0 where nothing was, 1 where something was, 2 and the request where a deferred one is
/// ready.
#[unsafe(no_mangle)]
pub extern "C" fn ks_answerer_tick(
    alloc: Global,
    handle: &mut KsHandle,
    now: u64,
    asked: &mut KsAsked,
) -> i32
    // A tick that is answered makes just that call of the exchanges, and says what it did.
    ensures led { IsAnswered result → Made (IsTick now result asked.new) handle.old.held handle.new.held }
    // A tick that is refused leaves the very answerer in the handle.
    ensures kept { IsRefused result → handle.new.held ≡ handle.old.held }
    // A tick is refused for want of memory or of a server in the handle, and for nothing else.
    ensures why { IsRefused result → IsUsual result }
    // `tick` never says of a handle with an answerer that it holds none.
    ensures live { Holds handle.old.held → result ≢ NOT_LIVE }
    // A tick of an answerer at which no copy is due, and no deferred request can be answered, is not refused.
    ensures quiet { HoldsIn (λ s. (copies (max s.state.own.clock now) s.state.layer.open_cons ≡ [])
        × (takes_response s.state now ≡ false)) handle.old.held → IsAnswered result }
{
    let Some(mut held) = handle.take(alloc) else {
        return NOT_LIVE;
    };
    let answer = tick(held.as_mut(), now, asked);
    handle.put(held);
    answer
}

// Says when the next tick is due.
fn due(held: &Held, now: u64, at: &mut u64) -> i32
    ensures due { IsAnswered result → IsIn (IsDue now result at.new) held.now }
    ensures live { Holds (Some held.now) → result ≢ NOT_LIVE }
    ensures why { IsRefused result → result ≡ NOT_LIVE }
{
    match held {
        Held::Answerer(server) => match server.due(Moment(now)) {
            Some(moment) => {
                *at = moment.0;
                DONE
            }
            None => NOTHING,
        },
        _ => NOT_LIVE,
    }
}

/// When a tick has something to do, from this moment on: 1, or 0 where it never has, unless something is handed in
/// before.
#[unsafe(no_mangle)]
pub extern "C" fn ks_answerer_due(
    alloc: Global,
    handle: &mut KsHandle,
    now: u64,
    at: &mut u64,
) -> i32
    // The moment that is told is the first at which a tick does something; where none is told, none ever does.
    ensures due { IsAnswered result → HoldsIn (IsDue now result at.new) handle.old.held }
    // To ask when a tick is due leaves the very answerer in the handle.
    ensures kept { handle.new.held ≡ handle.old.held }
    // To ask when a tick is due is refused for want of a server in the handle, and for nothing else.
    ensures why { IsRefused result → result ≡ NOT_LIVE }
    // `due` never says of a handle with an answerer that it holds none.
    ensures live { Holds handle.old.held → result ≢ NOT_LIVE }
{
    let Some(held) = handle.take(alloc) else {
        return NOT_LIVE;
    };
    let answer = due(held.as_ref(), now, at);
    handle.put(held);
    answer
}

// Takes the datagram that is to be sent next.
fn next_out(held: &mut Held, to: &mut KsAddress, room: &mut [u8], len: &mut usize) -> i32
    ensures led { IsAnswered result
        → Made (IsNextOut result to.new room.new len.new) (Some held.old) (Some held.new) }
    ensures kept { IsRefused result → held.new ≡ held.old }
    ensures small { result ≡ SMALL_ROOM → length room.old < MAX_MESSAGE_LEN }
    ensures live { Holds (Some held.old) → result ≢ NOT_LIVE }
    ensures why { IsRefused result → (result ≡ SMALL_ROOM) ⊎ (result ≡ NOT_LIVE) }
{
    match held {
        Held::Answerer(server) => {
            if room.len() < MAX_MESSAGE_LEN {
                SMALL_ROOM
            } else {
                give(server.next_out(), to, room, len)
            }
        }
        _ => NOT_LIVE,
    }
}

/// Takes the datagram that is to be sent next: 1, or 0 where none is.
#[unsafe(no_mangle)]
pub extern "C" fn ks_answerer_next_out(
    alloc: Global,
    handle: &mut KsHandle,
    to: &mut KsAddress,
    room: &mut [u8],
    len: &mut usize,
) -> i32
    // A datagram that is given out is the one by which the exchanges answer just that call, byte for byte.
    ensures led { IsAnswered result
        → Made (IsNextOut result to.new room.new len.new) handle.old.held handle.new.held }
    // Where the room is too small, the handle holds the very server that it held.
    ensures kept { IsRefused result → handle.new.held ≡ handle.old.held }
    // To take a datagram is refused for a room that is too small or for want of a server in the handle, and for nothing
    // else.
    ensures why { IsRefused result → (result ≡ SMALL_ROOM) ⊎ (result ≡ NOT_LIVE) }
    // A room for a datagram is too small only where it has under 1,152 bytes.
    ensures small { result ≡ SMALL_ROOM → length room.old < MAX_MESSAGE_LEN }
    // `next_out` never says of a handle with an answerer that it holds none.
    ensures live { Holds handle.old.held → result ≢ NOT_LIVE }
{
    let Some(mut held) = handle.take(alloc) else {
        return NOT_LIVE;
    };
    let answer = next_out(held.as_mut(), to, room, len);
    handle.put(held);
    answer
}
