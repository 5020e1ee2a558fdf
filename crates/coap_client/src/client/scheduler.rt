//! What time makes of a client (RFC 7252, sections 4.2, 4.7 and 5.2.2): from a tick down to the request that it
//! starts. Where nothing is due and nothing runs, a fetch for an observation starts, or the first of what waits.
ghost use Rattle.std.specs.Prelude.{◌≡◌, ℕ, Bool, List, Result, IfOk, IsOk, OnErr, ◌||◌, ◌&&◌, ◌<◌, not, false, true};
ghost use Rattle.std.specs.Prelude.{◌≢◌};
ghost use Rattle.std.specs.Prelude.{map, slice_get, None, Some, OnOk, drop};
ghost use Rattle.coap_layer.specs.Trace as L;
ghost use Rattle.coap_exchange.specs.declared.asker.AskRefusal.{AskRefusal};
ghost use Rattle.coap_exchange.specs.declared.asker.Turn.{Turn as Due};
ghost use Rattle.coap_client.specs.Led.{Step};
ghost use Rattle.coap_client.specs.Trace.{Ticks};
ghost use Rattle.coap_client.specs.Object.Happens.{Apart, Comes};
ghost use Rattle.coap_client.specs.Object.Held.{own_of, shown_hold, seen};
ghost use Rattle.coap_client.specs.Turns.Quiet.{IsIdle};
ghost use Rattle.std.specs.VecDeque.{deque_len, deque_capacity};
ghost use Rattle.coap_exchange.specs.AskerLaw as exchange;
ghost use Rattle.coap_exchange.specs.declared.asker.Turn.TheVariants as turns;
ghost use Rattle.coap_client.specs.Effects.{runs};
ghost use Rattle.coap_client.specs.Events.{failed, is_held, is_upload_op, passes};
ghost use Rattle.coap_client.specs.Own.{Fetching, Operation as Op, Own, clocked, Observation as Observed};
ghost use Rattle.coap_client.specs.Reports.{lapse};
ghost use Rattle.coap_client.specs.Steps.{asking, asks, is_idle};
ghost use Rattle.coap_client.specs.Requests.{message_of};
ghost use Rattle.coap_client.specs.Object.Sends.{Sends};
ghost use Rattle.coap_client.specs.Object.Shown.{shown_observation, shown_queued, shown_report, shown_waiting};
ghost use Rattle.coap_client.specs.Object.Starts.{idle_now, may_start, starts_now};
ghost use Rattle.coap_client.specs.Observations.{to_fetch};

use crate::client::end::fail;
use crate::client::held::Held;
use crate::client::operation::{ClientOperations, Waiting};
use crate::client::parts::{Now, Parts};
use crate::client::report::Report;
use crate::client::request::{ask_rest, cancel, note_sending, register};
use coap_exchange::{Asker, Event, Turn};
use coap_operations::Queued;
use coap_types::transmission::MAX_LATENCY_MS;
use coap_types::{Moment, Token};
use std::alloc::{AllocError, Allocator};
use std::hash::BuildHasher;

/// Does the first that is due: a retransmission, the end of an exchange, or the start of what waits;
/// whether something was (RFC 7252, sections 4.2, 4.7 and 5.2.2). After an `Err` all is as before.
pub fn tick<A: Allocator + Copy, H: BuildHasher>(
    parts: &mut Parts<A, H>,
    now: Moment,
    word: u64,
) -> Result<bool, AllocError>
    requires apart { Apart (own_of parts.old.held) }
    ensures step { IfOk result (λ did. (below : L.Answer) × (due : Due) × (sent : L.Answer)
        × (token : Result (List ℕ) AskRefusal) × (kept : Bool)
        × Step (seen parts.old) (Ticks now.0 word below due sent token kept did) (seen parts.new)) }
    ensures own { OnErr result (own_of parts.new.held ≡ own_of parts.old.held) }
    ensures layer { OnErr result (parts.new.asker.state ≡ parts.old.asker.state) }
    ensures quiet { IsIdle (seen parts.old) now.0 → IsOk result }
{
    let at = parts.held.clock.later(now);
    let turn = parts.asker.tick(at)?;
    let done = pass_time(parts, Now { at, word }, turn);
    if done.is_err() {
        parts.asker.undo();
    }
    done
}

// What time makes of a client: whether something was done. After an `Err` what is held is as before,
// and what the exchanges did since their last input can be taken back.
fn pass_time<A: Allocator + Copy, H: BuildHasher>(
    parts: &mut Parts<A, H>,
    now: Now,
    turn: Turn,
) -> Result<bool, AllocError>
    requires apart { Apart (own_of parts.old.held) }
    ensures happens { OnOk result (Comes parts.old.asker.state
        (passes (clocked now.at.0 (own_of parts.old.held)) now.at.0 turn) now.at.0 now.word (seen parts.new)) }
    ensures did { IfOk result (λ did. did ≡ (not (is_idle turn) || asks
        (passes (clocked now.at.0 (own_of parts.old.held)) now.at.0 turn).deed)) }
    ensures held { OnErr result (own_of parts.new.held ≡ own_of parts.old.held) }
    ensures before { parts.new.asker.before ≡ parts.old.asker.before }
    // Where nothing was due and nothing begins, it takes no memory, and with a place for a report an end takes none.
    ensures quiet { turn ≡ turns.Idle → asks (idle_now now.at.0 (own_of parts.old.held)).deed ≡ false → IsOk result }
    ensures had { deque_len parts.old.held.reports < deque_capacity parts.old.held.reports
        → parts.old.asker.has_room ≡ true → IsOk result }
    ensures ends { deque_len parts.old.held.reports < deque_capacity parts.old.held.reports
        → turn ≢ turns.Idle → IsOk result }
{
    match turn {
        Turn::Idle => pass_idly(parts, now),
        Turn::Copied => {
            parts.held.sent = now.at;
            rest(&mut parts.held, now.at);
            Ok(true)
        }
        Turn::End(event) => {
            parts.held.reports.reserve(1)?;
            lapse(parts, now.at, report_of(event));
            Ok(true)
        }
    }
}

// The exchange of the operation that runs is over.
fn lapse<A: Allocator + Copy, H: BuildHasher>(
    parts: &mut Parts<A, H>,
    at: Moment,
    report: Report<A>,
)
    requires room { deque_len parts.old.held.reports < deque_capacity parts.old.held.reports }
    requires apart { Apart (own_of parts.old.held) }
    ensures comes { (word : ℕ) → Comes parts.old.asker.state
        (failed (λ t. true) (shown_report report) (clocked at.0 (own_of parts.old.held))
        (own_of parts.old.held).running) at.0 word (seen parts.new) }
    ensures before { parts.new.asker.before ≡ parts.old.asker.before }
{
    parts.held.clock = at;
    fail(parts, false, report);
    parts.held.asked = None;
}

// What is reported of a lapse of the exchange.
fn report_of<A: Allocator + Copy>(event: Event<'static>) -> Report<A>
    ensures { shown_report result ≡ lapse event.entry }
{
    match event {
        Event::Timeout => Report::Timeout,
        Event::Reset => Report::Reset,
        Event::Answer(_) | Event::Notice(_) | Event::NoResponse => Report::NoResponse,
    }
}

// Nothing is sent at this moment.
fn rest<A: Allocator + Copy>(held: &mut Held<A>, at: Moment)
    ensures { own_of held.new ≡ asking None (clocked at.0 (own_of held.old)) }
{
    held.clock = at;
    held.asked = None;
}

// Nothing was due: an operation starts where none runs.
fn pass_idly<A: Allocator + Copy, H: BuildHasher>(
    parts: &mut Parts<A, H>,
    now: Now,
) -> Result<bool, AllocError>
    requires apart { Apart (own_of parts.old.held) }
    ensures happens { OnOk result (Comes parts.old.asker.state (idle_now now.at.0 (own_of parts.old.held)) now.at.0
        now.word (seen parts.new)) }
    ensures did { IfOk result (λ did. did ≡ asks (idle_now now.at.0 (own_of parts.old.held)).deed) }
    ensures held { OnErr result (own_of parts.new.held ≡ own_of parts.old.held) }
    ensures before { parts.new.asker.before ≡ parts.old.asker.before }
    ensures quiet { asks (idle_now now.at.0 (own_of parts.old.held)).deed ≡ false → IsOk result }
    ensures had { deque_len parts.old.held.reports < deque_capacity parts.old.held.reports
        → parts.old.asker.has_room ≡ true → IsOk result }
{
    if parts.held.operations.running().is_some() {
        rest(&mut parts.held, now.at);
        return Ok(false);
    }
    start_next(parts, now)
}

// Where none runs, the fetch for an observation starts, or the first of what waits.
fn start_next<A: Allocator + Copy, H: BuildHasher>(
    parts: &mut Parts<A, H>,
    now: Now,
) -> Result<bool, AllocError>
    requires apart { Apart (own_of parts.old.held) }
    requires none { parts.old.held.operations.running ≡ None }
    ensures happens { OnOk result (Comes parts.old.asker.state (idle_now now.at.0 (own_of parts.old.held)) now.at.0
        now.word (seen parts.new)) }
    ensures did { IfOk result (λ did. did ≡ asks (idle_now now.at.0 (own_of parts.old.held)).deed) }
    ensures held { OnErr result (own_of parts.new.held ≡ own_of parts.old.held) }
    ensures before { parts.new.asker.before ≡ parts.old.asker.before }
    ensures quiet { asks (idle_now now.at.0 (own_of parts.old.held)).deed ≡ false → IsOk result }
    ensures had { deque_len parts.old.held.reports < deque_capacity parts.old.held.reports
        → parts.old.asker.has_room ≡ true → IsOk result }
{
    match to_fetch(&parts.held.operations) {
        Some(number) => start_fetch(parts, now, number),
        None => start_first(parts, now),
    }
}

/// The first observation for which something is to be fetched: that of the lowest number.
pub(crate) fn to_fetch<A: Allocator + Copy>(operations: &ClientOperations<A>) -> Option<u64>
    ensures { result ≡ to_fetch (map shown_observation operations.now.live) }
{
    to_fetch_from(operations, 0)
}

// .. of those from that place on.
fn to_fetch_from<A: Allocator + Copy>(operations: &ClientOperations<A>, from: usize) -> Option<u64>
    ensures { result ≡ to_fetch (map shown_observation (drop from operations.now.live)) }
{
    if from >= operations.live_len() {
        return None;
    }
    let first = operations.live(from)?;
    if first.rest.is_some() {
        Some(first.number)
    } else {
        to_fetch_from(operations, from + 1)
    }
}

// The fetch for an observation starts.
fn start_fetch<A: Allocator + Copy, H: BuildHasher>(
    parts: &mut Parts<A, H>,
    now: Now,
    number: u64,
) -> Result<bool, AllocError>
    requires apart { Apart (own_of parts.old.held) }
    requires none { parts.old.held.operations.running ≡ None }
    ensures happens { OnOk result (Comes parts.old.asker.state
        (runs (Fetching number) (clocked now.at.0 (own_of parts.old.held))) now.at.0 now.word (seen parts.new)) }
    ensures did { IfOk result (λ did. did ≡ true) }
    ensures held { OnErr result (own_of parts.new.held ≡ own_of parts.old.held) }
    ensures before { parts.new.asker.before ≡ parts.old.asker.before }
    ensures had { deque_len parts.old.held.reports < deque_capacity parts.old.held.reports
        → parts.old.asker.has_room ≡ true → IsOk result }
{
    parts.held.reports.reserve(1)?;
    let given = ask_rest(&mut parts.asker, &parts.held.operations, number, now)?;
    parts.held.operations.fetch(number);
    begin(parts, now.at, given);
    Ok(true)
}

// The first of what waits starts, unless it is an upload that is held back.
fn start_first<A: Allocator + Copy, H: BuildHasher>(
    parts: &mut Parts<A, H>,
    now: Now,
) -> Result<bool, AllocError>
    requires apart { Apart (own_of parts.old.held) }
    requires none { parts.old.held.operations.running ≡ None }
    ensures happens { OnOk result (Comes parts.old.asker.state (starts_now now.at.0 (own_of parts.old.held)) now.at.0
        now.word (seen parts.new)) }
    ensures did { IfOk result (λ did. did ≡ asks (starts_now now.at.0 (own_of parts.old.held)).deed) }
    ensures held { OnErr result (own_of parts.new.held ≡ own_of parts.old.held) }
    ensures before { parts.new.asker.before ≡ parts.old.asker.before }
    ensures quiet { asks (starts_now now.at.0 (own_of parts.old.held)).deed ≡ false → IsOk result }
    ensures had { deque_len parts.old.held.reports < deque_capacity parts.old.held.reports
        → parts.old.asker.has_room ≡ true → IsOk result }
{
    if may_start(&parts.held, now.at) {
        parts.held.reports.reserve(1)?;
        let given = send_first(&mut parts.asker, &parts.held, now)?;
        take_and_begin(parts, now.at, given);
        Ok(true)
    } else {
        rest(&mut parts.held, now.at);
        Ok(false)
    }
}

/// Whether something waits whose first is not an upload that is held back.
pub(crate) fn may_start<A: Allocator + Copy>(held: &Held<A>, at: Moment) -> bool
    ensures { result ≡ may_start at.0 (own_of held.now) (own_of held.now).queue }
{
    match held.operations.waiting(0) {
        Some(Queued::Starts(waiting)) => !is_held_back(waiting, held.hold, at),
        Some(Queued::Cancels(_)) => true,
        None => false,
    }
}

// Whether it is an upload that is held back.
fn is_held_back<A: Allocator + Copy>(waiting: &Waiting<A>, hold: Option<Moment>, at: Moment) -> bool
    ensures { (s : Own) → s.hold ≡ shown_hold hold
        → result ≡ (is_upload_op (shown_waiting waiting.now) && is_held s at.0) }
{
    is_upload(waiting) && is_held(hold, at)
}

// Whether it is a call that uploads its body block by block (RFC 7959, section 2.5).
fn is_upload<A: Allocator + Copy>(waiting: &Waiting<A>) -> bool
    ensures { result ≡ is_upload_op (shown_waiting waiting.now) }
{
    match waiting {
        Waiting::Calling(_, call) => call.is_upload(),
        Waiting::Registering(_, _) => false,
    }
}

// Whether an upload that ended without a final response holds back the later ones (profile).
fn is_held(hold: Option<Moment>, at: Moment) -> bool
    ensures { (s : Own) → s.hold ≡ shown_hold hold → result ≡ is_held s at.0 }
{
    match hold {
        None => false,
        Some(last) => at.since(last) <= MAX_LATENCY_MS,
    }
}

// The first request of the first of what waits is sent.
fn send_first<A: Allocator + Copy, H: BuildHasher>(
    asker: &mut Asker<A, H>,
    held: &Held<A>,
    now: Now,
) -> Result<Option<Token>, AllocError>
    ensures sends { IfOk result (λ token. (op : Op) → slice_get (map shown_queued held.now.operations.queue) 0 ≡ Some op
        → Sends asker.old.state now.at.0 (message_of (map shown_observation held.now.operations.live) op) now.word token
        asker.new.state) }
    ensures before { asker.new.before ≡ asker.old.before }
    ensures err { OnErr result (asker.new ≡ asker.old) }
    ensures had { asker.old.has_room ≡ true → IsOk result }
{
    match held.operations.waiting(0) {
        Some(Queued::Starts(waiting)) => send_waiting(asker, waiting, now),
        Some(Queued::Cancels(number)) => cancel(asker, &held.operations, number, now),
        None => Ok(None),
    }
}

// Sends the first request of what waits.
fn send_waiting<A: Allocator + Copy, H: BuildHasher>(
    asker: &mut Asker<A, H>,
    waiting: &Waiting<A>,
    now: Now,
) -> Result<Option<Token>, AllocError>
    ensures sends { IfOk result (λ token. (os : List Observed)
        → Sends asker.old.state now.at.0 (message_of os (shown_waiting waiting.now)) now.word token asker.new.state) }
    ensures before { asker.new.before ≡ asker.old.before }
    ensures err { OnErr result (asker.new ≡ asker.old) }
    ensures had { asker.old.has_room ≡ true → IsOk result }
{
    match waiting {
        Waiting::Calling(_, call) => call.send(asker, now),
        Waiting::Registering(_, path) => register(asker, path, now),
    }
}

// The first of what waits runs, whose first request was given a token or could not be sent.
fn take_and_begin<A: Allocator + Copy, H: BuildHasher>(
    parts: &mut Parts<A, H>,
    at: Moment,
    given: Option<Token>,
)
    requires room { deque_len parts.old.held.reports < deque_capacity parts.old.held.reports }
    requires apart { Apart (own_of parts.old.held) }
    requires none { parts.old.held.operations.running ≡ None }
    requires may { may_start at.0 (own_of parts.old.held) (own_of parts.old.held).queue ≡ true }
    ensures begun { (behind : exchange.State) (word : ℕ)
        → ((op : Op) → slice_get (map shown_queued parts.old.held.operations.queue) 0 ≡ Some op
        → Sends behind at.0 (message_of (map shown_observation parts.old.held.operations.live) op) word given
        parts.old.asker.state)
        → Comes behind (starts_now at.0 (own_of parts.old.held)) at.0 word (seen parts.new) }
    ensures before { parts.new.asker.before ≡ parts.old.asker.before }
{
    parts.held.operations.start_first();
    begin(parts, at, given);
}

// What becomes of a client by the sending of the first request of the operation that runs, which was
// given a token or could not be sent.
fn begin<A: Allocator + Copy, H: BuildHasher>(
    parts: &mut Parts<A, H>,
    at: Moment,
    given: Option<Token>,
)
    requires room { deque_len parts.old.held.reports < deque_capacity parts.old.held.reports }
    requires apart { Apart (own_of parts.old.held) }
    ensures begun { (op : Op) (behind : exchange.State) (word : ℕ) → (own_of parts.old.held).running ≡ Some op
        → Sends behind at.0 (message_of (map shown_observation parts.old.held.operations.live) op) word given
        parts.old.asker.state
        → Comes behind (runs op (clocked at.0 (own_of parts.old.held))) at.0 word (seen parts.new) }
    ensures before { parts.new.asker.before ≡ parts.old.asker.before }
{
    parts.held.clock = at;
    parts.held.asked = note_sending(parts, at, given);
}
