//! What a client is handed: datagrams and moments; and what they brought.
ghost use Rattle.std.specs.Prelude.{◌≡◌, ◌≢◌, pos, max, [], None, Some, IfSome};
ghost use Rattle.coap_layer.specs.Machine.State.{copies, made};
ghost use Rattle.coap_layer.specs.Machine.Ups.{IsQuiet};
ghost use Rattle.coap_layer.specs.Trace.{Receive as Arrives};
ghost use Rattle.knifesilver_exchange.specs.Answers.{IsAnswered, IsRefused, IsUsual};
ghost use Rattle.knifesilver_exchange.specs.AskerHeld.{AskerGoes, HoldsAsker, HoldsAskerIn, IsAskerIn, brought};
ghost use Rattle.knifesilver_exchange.specs.Asking.{FeedBrings, IsFed, IsTaken, IsTicked, TickBrings};

use crate::answers::{DONE, NO_MEMORY, NOT_LIVE, NOTHING};
use crate::asker::answers::told;
use crate::crossing::{KsAddress, KsAnswer, endpoint};
use crate::handle::KsHandle;
use crate::held::Held;
use coap_exchange::{Event, Turn};
use coap_types::{Endpoint, Moment};
use std::alloc::Global;

// What a datagram brought, as C is told.
fn brought_by(came: &Option<Event<'_>>) -> (i32, Option<KsAnswer>)
    ensures { FeedBrings result.0 came.now result.1 }
{
    match came {
        Some(event) => (DONE, Some(told(event))),
        None => (NOTHING, None),
    }
}

// Takes a datagram that arrived.
fn feed(held: &mut Held, now: u64, from: Endpoint, datagram: &[u8]) -> i32
    ensures led { IsAnswered result
        → AskerGoes (IsFed now from datagram.now result) (Some held.old) (Some held.new) }
    ensures kept { IsRefused result → held.new ≡ held.old }
    ensures live { HoldsAsker (Some held.old) → result ≢ NOT_LIVE }
    ensures why { IsRefused result → IsUsual result }
    ensures quiet { IsAskerIn (λ a. IsQuiet (made a.asker.state.layer now (Arrives from datagram.now))) held.old
        → IsAnswered result }
{
    match held {
        Held::Asker(client) => match client.asker.receive(Moment(now), from, datagram) {
            Ok(came) => {
                let (answer, brought) = brought_by(&came);
                client.brought = brought;
                answer
            }
            Err(_lost) => NO_MEMORY,
        },
        _ => NOT_LIVE,
    }
}

/// Takes a datagram that arrived: 1 where it brought something to be told, and else 0.
#[unsafe(no_mangle)]
pub extern "C" fn ks_asker_feed(
    alloc: Global,
    handle: &mut KsHandle,
    now: u64,
    from: &KsAddress,
    datagram: &[u8],
) -> i32
    // A feed that is answered makes just that call of the asker's exchanges, and what it brought waits to be told.
    ensures led { IsAnswered result
        → AskerGoes (IsFed now (record { ip = from.now.ip; port = from.now.port }) datagram.now result) handle.old.held
        handle.new.held }
    // A feed that is refused leaves the very asker in the handle.
    ensures kept { IsRefused result → handle.new.held ≡ handle.old.held }
    // A feed of an asker is refused for want of memory or of one in the handle, and for nothing else.
    ensures why { IsRefused result → IsUsual result }
    // `feed` never says of a handle with an asker that it holds none.
    ensures live { HoldsAsker handle.old.held → result ≢ NOT_LIVE }
    // A datagram for which the message layer sends nothing and hands nothing up is not refused by an asker.
    ensures quiet { HoldsAskerIn (λ a. IsQuiet (made a.asker.state.layer now
        (Arrives (record { ip = from.now.ip; port = from.now.port }) datagram.now))) handle.old.held
        → IsAnswered result }
{
    let Some(mut held) = handle.take(alloc) else {
        return NOT_LIVE;
    };
    let answer = feed(held.as_mut(), now, endpoint(from), datagram);
    handle.put(held);
    answer
}

// What a tick brought, as C is told.
fn brought_then(turn: &Turn) -> (i32, Option<KsAnswer>)
    ensures { TickBrings result.0 turn.now result.1 }
{
    match turn {
        Turn::Idle => (NOTHING, None),
        Turn::Copied => (DONE, None),
        Turn::End(event) => (DONE, Some(told(event))),
    }
}

// Does the first that is due.
fn tick(held: &mut Held, now: u64) -> i32
    ensures led { IsAnswered result → AskerGoes (IsTicked now result) (Some held.old) (Some held.new) }
    ensures kept { IsRefused result → held.new ≡ held.old }
    ensures live { HoldsAsker (Some held.old) → result ≢ NOT_LIVE }
    ensures why { IsRefused result → IsUsual result }
    ensures quiet { IsAskerIn (λ a. copies (max a.asker.state.own.clock now) a.asker.state.layer.open_cons ≡ [])
        held.old → IsAnswered result }
{
    match held {
        Held::Asker(client) => match client.asker.tick(Moment(now)) {
            Ok(turn) => {
                let (answer, brought) = brought_then(&turn);
                client.brought = brought;
                answer
            }
            Err(_) => NO_MEMORY,
        },
        _ => NOT_LIVE,
    }
}

/// Does the first that is due: 0 where nothing was, 1 where the request was sent again, or its exchange ended.
#[unsafe(no_mangle)]
pub extern "C" fn ks_asker_tick(alloc: Global, handle: &mut KsHandle, now: u64) -> i32
    // A tick that is answered makes just that call of the asker's exchanges, and what it brought waits to be told.
    ensures led { IsAnswered result → AskerGoes (IsTicked now result) handle.old.held handle.new.held }
    // A tick that is refused leaves the very asker in the handle.
    ensures kept { IsRefused result → handle.new.held ≡ handle.old.held }
    // A tick of an asker is refused for want of memory or of one in the handle, and for nothing else.
    ensures why { IsRefused result → IsUsual result }
    // `tick` never says of a handle with an asker that it holds none.
    ensures live { HoldsAsker handle.old.held → result ≢ NOT_LIVE }
    // A tick of an asker at which no copy is due is not refused.
    ensures quiet { HoldsAskerIn (λ a. copies (max a.asker.state.own.clock now) a.asker.state.layer.open_cons ≡ [])
        handle.old.held → IsAnswered result }
{
    let Some(mut held) = handle.take(alloc) else {
        return NOT_LIVE;
    };
    let answer = tick(held.as_mut(), now);
    handle.put(held);
    answer
}

// Tells what was brought.
fn next_answer(held: &mut Held, answer: &mut KsAnswer) -> i32
    ensures told { result ≡ pos 1 → brought (Some held.old) ≡ Some answer.new }
    ensures none { result ≡ pos 0 → brought (Some held.old) ≡ None }
    ensures taken { IsAnswered result → AskerGoes IsTaken (Some held.old) (Some held.new) }
    ensures kept { IsRefused result → held.new ≡ held.old }
    ensures live { HoldsAsker (Some held.old) → result ≢ NOT_LIVE }
    ensures why { IsRefused result → result ≡ NOT_LIVE }
{
    match held {
        Held::Asker(client) => match client.brought.take() {
            Some(told) => {
                *answer = told;
                DONE
            }
            None => NOTHING,
        },
        _ => NOT_LIVE,
    }
}

/// Tells what the last feed or tick brought, once: 1, or 0 where there is nothing.
#[unsafe(no_mangle)]
pub extern "C" fn ks_asker_next_answer(
    alloc: Global,
    handle: &mut KsHandle,
    answer: &mut KsAnswer,
) -> i32
    // What is told is what the last feed or tick brought.
    ensures told { result ≡ pos 1 → brought handle.old.held ≡ Some answer.new }
    // Nothing is told only where that brought nothing, or it was told already.
    ensures none { result ≡ pos 0 → brought handle.old.held ≡ None }
    // What is told is not told again, and the exchanges are as they were.
    ensures taken { IsAnswered result → AskerGoes IsTaken handle.old.held handle.new.held }
    // To ask for an answer, where that is refused, leaves the very client in the handle.
    ensures kept { IsRefused result → handle.new.held ≡ handle.old.held }
    // To ask for an answer is refused for want of a client in the handle, and for nothing else.
    ensures why { IsRefused result → result ≡ NOT_LIVE }
    // `next_answer` never says of a handle with an asker that it holds none.
    ensures live { HoldsAsker handle.old.held → result ≢ NOT_LIVE }
{
    let Some(mut held) = handle.take(alloc) else {
        return NOT_LIVE;
    };
    let told = next_answer(held.as_mut(), answer);
    handle.put(held);
    told
}
