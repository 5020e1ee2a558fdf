//! What a datagram makes of a client (RFC 7252, sections 4.2, 5.2 and 5.3.2).
ghost use Rattle.std.specs.Prelude.{◌≡◌, ◌<◌, ℕ, true, None, Some, IfOk, IsOk, IsSome, OnOk, OnErr};
ghost use Rattle.std.specs.VecDeque.{deque_len, deque_capacity};
ghost use Rattle.coap_exchange.specs.AskerFollows.{message_told};
ghost use Rattle.coap_client.specs.Calls.{answer};
ghost use Rattle.coap_client.specs.Effects.{runs};
ghost use Rattle.coap_client.specs.Events.{answered, called, failed, happened};
ghost use Rattle.coap_client.specs.Own.{Calling, Transfer, clocked};
ghost use Rattle.coap_client.specs.Object.Happens.{Apart, Comes, Happens, Watched, running};
ghost use Rattle.coap_client.specs.Object.Held.{own_of, seen};
ghost use Rattle.coap_client.specs.Object.Shown.{shown_asked, shown_report};

use crate::client::end::{end_call, end_observation, fail};
use crate::client::heard::Heard;
use crate::client::last_request::SentRequest;
use crate::client::notification::{hear_notification, hear_registration};
use crate::client::observation_fetch::hear_rest;
use crate::client::operation::Waiting;
use crate::client::parts::{Now, Parts};
use crate::client::report::Report;
use crate::client::request::note_sending;
use crate::client::taken_call::TakenCall;
use coap_codec::View;
use coap_exchange::Event;
use coap_operations::Running;
use std::alloc::{AllocError, Allocator};
use std::hash::BuildHasher;
use std::mem;

/// What a datagram makes of a client. After an `Err` what is held is as before, and what the exchanges
/// did since their last input can be taken back.
pub fn happen<A: Allocator + Copy, H: BuildHasher>(
    parts: &mut Parts<A, H>,
    now: Now,
    event: Option<Event<'_>>,
) -> Result<(), AllocError>
    requires apart { Apart (own_of parts.old.held) }
    requires watched { Watched now.at.0 (own_of parts.old.held) }
    ensures happens { OnOk result (Comes parts.old.asker.state
        (happened (clocked now.at.0 (own_of parts.old.held)) now.at.0 event.entry) now.at.0 now.word
        (seen parts.new)) }
    ensures held { OnErr result (own_of parts.new.held ≡ own_of parts.old.held) }
    ensures before { parts.new.asker.before ≡ parts.old.asker.before }
    // A datagram that tells nothing takes no memory.
    ensures quiet { event.entry ≡ None → IsOk result }
    // With a place for its report a failure of the request takes none.
    ensures fails { message_told event.entry ≡ None
        → deque_len parts.old.held.reports < deque_capacity parts.old.held.reports → IsOk result }
{
    let Some(event) = event else {
        parts.held.clock = now.at;
        parts.held.asked = None;
        return Ok(());
    };
    parts.held.reports.reserve(1)?;
    let was = mem::replace(&mut parts.held.clock, now.at);
    match happen_now(parts, now, event) {
        Ok(asked) => {
            parts.held.asked = asked;
            Ok(())
        }
        Err(refused) => {
            parts.held.clock = was;
            Err(refused)
        }
    }
}

// An event, at this moment: the request that was sent.
fn happen_now<A: Allocator + Copy, H: BuildHasher>(
    parts: &mut Parts<A, H>,
    now: Now,
    event: Event<'_>,
) -> Result<Option<SentRequest>, AllocError>
    requires room { deque_len parts.old.held.reports < deque_capacity parts.old.held.reports }
    requires apart { Apart (own_of parts.old.held) }
    requires watched { Watched now.at.0 (own_of parts.old.held) }
    ensures happens { IfOk result (λ asked. Happens parts.old.asker.state
        (happened (own_of parts.old.held) now.at.0 (Some event.entry)) now.at.0 now.word (shown_asked asked)
        (seen parts.new)) }
    ensures held { OnErr result (own_of parts.new.held ≡ own_of parts.old.held) }
    ensures before { parts.new.asker.before ≡ parts.old.asker.before }
    ensures fails { message_told (Some event.entry) ≡ None → IsOk result }
{
    match event {
        Event::Answer(m) => hear_answer(parts, now, &m),
        Event::Notice(m) => {
            hear_notification(parts, now.at, &m)?;
            Ok(None)
        }
        Event::Timeout => Ok(hear_failure(parts, Report::Timeout)),
        Event::Reset => Ok(hear_failure(parts, Report::Reset)),
        Event::NoResponse => Ok(hear_failure(parts, Report::NoResponse)),
    }
}

// The request of the operation that runs has failed: that ends it with this report.
fn hear_failure<A: Allocator + Copy, H: BuildHasher>(
    parts: &mut Parts<A, H>,
    report: Report<A>,
) -> Option<SentRequest>
    requires room { deque_len parts.old.held.reports < deque_capacity parts.old.held.reports }
    requires apart { Apart (own_of parts.old.held) }
    ensures happens { (at word : ℕ) → Happens parts.old.asker.state
        (failed (λ t. true) (shown_report report) (own_of parts.old.held) (own_of parts.old.held).running) at word
        (shown_asked result) (seen parts.new) }
    ensures before { parts.new.asker.before ≡ parts.old.asker.before }
{
    fail(parts, false, report);
    None
}

// The answer to the request of the operation that runs.
fn hear_answer<A: Allocator + Copy, H: BuildHasher>(
    parts: &mut Parts<A, H>,
    now: Now,
    m: &View<'_>,
) -> Result<Option<SentRequest>, AllocError>
    requires room { deque_len parts.old.held.reports < deque_capacity parts.old.held.reports }
    requires apart { Apart (own_of parts.old.held) }
    ensures happens { IfOk result (λ asked. Happens parts.old.asker.state
        (answered (own_of parts.old.held) now.at.0 m.now (own_of parts.old.held).running) now.at.0 now.word
        (shown_asked asked) (seen parts.new)) }
    ensures held { OnErr result (own_of parts.new.held ≡ own_of parts.old.held) }
    ensures before { parts.new.asker.before ≡ parts.old.asker.before }
{
    match parts.held.operations.take_running() {
        None => Ok(None),
        Some(Running::Dropped) => Ok(None),
        Some(Running::Started(Waiting::Calling(number, call))) => {
            hear_for_call(parts, now, Ongoing { number, call }, m)
        }
        Some(Running::Started(Waiting::Registering(number, path))) => {
            hear_registration(parts, now.at, number, path, m)?;
            Ok(None)
        }
        Some(Running::Fetching(number)) => hear_rest(parts, now, number, m),
        Some(Running::Cancelling(number)) => {
            end_observation(parts, number, Report::Cancelled);
            Ok(None)
        }
    }
}

// A call whose request was sent, and its number.
#[derive(Drop)]
struct Ongoing<A: Allocator> {
    number: u64,
    call: TakenCall<A>,
}

// The answer to the request of a call.
fn hear_for_call<A: Allocator + Copy, H: BuildHasher>(
    parts: &mut Parts<A, H>,
    now: Now,
    ongoing: Ongoing<A>,
    m: &View<'_>,
) -> Result<Option<SentRequest>, AllocError>
    requires room { deque_len parts.old.held.reports < deque_capacity parts.old.held.reports }
    requires apart { Apart (running (Calling ongoing.number ongoing.call.request ongoing.call.transfer)
        (own_of parts.old.held)) }
    requires idle { parts.old.held.operations.running ≡ None }
    requires spare { 0 < parts.old.held.operations.spare }
    ensures happens { IfOk result (λ asked. Happens parts.old.asker.state
        (called ongoing.number ongoing.call.request ongoing.call.transfer (own_of parts.old.held)
        (answer ongoing.call.request ongoing.call.transfer m.now)) now.at.0 now.word
        (shown_asked asked) (seen parts.new)) }
    ensures held { OnErr result (own_of parts.new.held
        ≡ running (Calling ongoing.number ongoing.call.request ongoing.call.transfer) (own_of parts.old.held)) }
    ensures before { parts.new.asker.before ≡ parts.old.asker.before }
{
    let Ongoing { number, mut call } = ongoing;
    match call.hear(m) {
        Ok(Heard::Over { is_final, report }) => {
            end_call(&mut parts.held, number, &call, !is_final, report);
            Ok(None)
        }
        Ok(Heard::Asks) => ask_next(parts, now, number, call),
        Err(refused) => {
            parts.held.operations.run(Waiting::Calling(number, call));
            Err(refused)
        }
    }
}

// A call sends its next request. After an `Err` the answer to the last one is taken back.
fn ask_next<A: Allocator + Copy, H: BuildHasher>(
    parts: &mut Parts<A, H>,
    now: Now,
    number: u64,
    mut call: TakenCall<A>,
) -> Result<Option<SentRequest>, AllocError>
    requires room { deque_len parts.old.held.reports < deque_capacity parts.old.held.reports }
    requires apart { Apart (running (Calling number call.request call.transfer) (own_of parts.old.held)) }
    requires idle { parts.old.held.operations.running ≡ None }
    requires spare { 0 < parts.old.held.operations.spare }
    requires before { IsSome call.before }
    ensures happens { IfOk result (λ asked. Happens parts.old.asker.state
        (runs (Calling number call.request call.transfer) (own_of parts.old.held)) now.at.0 now.word
        (shown_asked asked) (seen parts.new)) }
    ensures held { OnErr result ((before : Transfer) → call.before ≡ Some before
        → own_of parts.new.held ≡ running (Calling number call.request before) (own_of parts.old.held)) }
    ensures before { parts.new.asker.before ≡ parts.old.asker.before }
{
    match call.send(&mut parts.asker, now) {
        Ok(given) => {
            parts.held.operations.run(Waiting::Calling(number, call));
            Ok(note_sending(parts, now.at, given))
        }
        Err(refused) => {
            call.undo();
            parts.held.operations.run(Waiting::Calling(number, call));
            Err(refused)
        }
    }
}
