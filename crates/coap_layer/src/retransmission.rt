//! Retransmission with exponential back-off (RFC 7252, section 4.2).
ghost use Rattle.std.specs.Prelude.{◌≡◌, ◌≢◌, true, false, List, nat_le, nat_lt, ◌≤◌, ◌*◌, ◌-◌, ◌^◌, ◌==◌, ◌&&◌};
ghost use Rattle.std.specs.Prelude.{is_some, None, Some, if◌then◌else◌, map};
ghost use Rattle.std.specs.List.{list_any, filter_map};
ghost use Rattle.std.specs.Vec.{vec_len, vec_capacity};
ghost use Rattle.coap_types.specs.SameEndpoint.{same_endpoint};
ghost use Rattle.coap_types.specs.declared.transmission.TheConstants.{MAX_RETRANSMIT as max_retransmit};
ghost use Rattle.coap_types.specs.declared.transmission.TheConstants.{FAILURE_TIMEOUTS as failure_timeouts};
ghost use Rattle.coap_layer.specs.BackOff.{factors};
ghost use Rattle.coap_layer.specs.Trace.{Idle, Packet, Ticks};
ghost use Rattle.coap_layer.specs.Words.{left_by};
ghost use Rattle.coap_layer.specs.Machine.State.{is_copy_due, tick_of};
ghost use Rattle.coap_layer.specs.Machine.Parts.{open_before};
ghost use Rattle.coap_layer.specs.Machine.Sendings.{answer_for, ended, marked, open_now};
ghost use Rattle.coap_layer.specs.Machine.Ups.{IsTick};

use crate::Tick;
use coap_types::transmission::{FAILURE_TIMEOUTS, LAST_RETRANSMISSION_MS, MAX_RETRANSMIT};
use coap_types::{Endpoint, Id, Moment};
use std::alloc::Allocator;

/// A Confirmable message that was sent (RFC 7252, section 4.2).
#[derive(Drop)]
pub(crate) struct Sending<A: Allocator + Copy> {
    pub(crate) to: Endpoint,
    pub(crate) id: Id,
    pub(crate) bytes: Vec<u8, A>,
    /// The initial timeout, in milliseconds.
    pub(crate) timeout: u16,
    /// The moment of the first sending.
    pub(crate) first: Moment,
    /// The moment of the last sending; `None` once retransmission has ended.
    pub(crate) last: Option<Moment>,
    /// The same as the last input found it.
    pub(crate) before: Option<Moment>,
}

/// The step that is due.
#[derive(Clone, Copy)]
pub(crate) enum Due {
    /// None is.
    Nothing,
    /// A retransmission to this endpoint, with this Message ID.
    Copy(Endpoint, Id),
    /// The failure of the transmission to this endpoint, with this Message ID.
    Failure(Endpoint, Id),
}

// Whether it went to this endpoint, with this Message ID.
fn goes_to<A: Allocator + Copy>(c: &Sending<A>, to: Endpoint, id: Id) -> bool
    ensures { result ≡ (same_endpoint c.now.to to && (c.now.id.0 == id.0)) }
{
    c.to == to && c.id.0 == id.0
}

/// Whether a Confirmable message to this endpoint with this Message ID is outstanding.
pub(crate) fn is_outstanding<A: Allocator + Copy>(
    sendings: &[Sending<A>],
    to: Endpoint,
    id: Id,
) -> bool
    ensures { result ≡ list_any (λ c. is_some c.last && (same_endpoint c.to to && (c.id.0 == id.0))) sendings.now }
{
    sendings
        .iter()
        .any(|c| c.last.is_some() && goes_to(c, to, id))
}

/// Whether a Confirmable message to this endpoint is outstanding: at most one is, as NSTART is 1
/// (RFC 7252, section 4.7).
pub(crate) fn is_busy<A: Allocator + Copy>(sendings: &[Sending<A>], to: Endpoint) -> bool
    ensures { result ≡ list_any (λ c. is_some c.last && same_endpoint c.to to) sendings.now }
{
    sendings.iter().any(|c| c.last.is_some() && c.to == to)
}

// The moment of the last sending, or none where it is over.
fn unless(over: bool, last: Option<Moment>) -> Option<Moment>
    ensures { result ≡ (if over then None else last) }
{
    if over { None } else { last }
}

// The moment of the last sending, which is now where it is sent again.
fn moved(again: bool, last: Option<Moment>, at: Moment) -> Option<Moment>
    ensures { result ≡ (if is_some last && again then Some at else last) }
{
    if last.is_some() && again {
        Some(at)
    } else {
        last
    }
}

/// Ends the retransmission of what went there with this Message ID.
pub(crate) fn end<A: Allocator + Copy>(sendings: &mut [Sending<A>], to: Endpoint, id: Id)
    ensures { sendings.new ≡ map (ended to id.0) sendings.old }
{
    for c in sendings.iter_mut() {
        c.last = unless(goes_to(c, to, id), c.last);
    }
}

// Notes that what is outstanding there with this Message ID is sent again.
fn mark<A: Allocator + Copy>(sendings: &mut [Sending<A>], to: Endpoint, id: Id, at: Moment)
    ensures { sendings.new ≡ map (marked to id.0 at) sendings.old }
{
    for c in sendings.iter_mut() {
        c.last = moved(goes_to(c, to, id), c.last, at);
    }
}

/// Whether the transmission has failed (RFC 7252, section 4.2).
pub(crate) fn has_failed<A: Allocator + Copy>(c: &Sending<A>, now: Moment) -> bool
    ensures { result ≡ nat_le (c.now.timeout * failure_timeouts) (now.0 - c.now.first.0) }
{
    u64::from(c.timeout) * FAILURE_TIMEOUTS <= now.since(c.first)
}

// Whether the retransmission that is due so many timeouts after the first sending is due and was
// not at the last sending.
fn falls_due(timeouts: u64, timeout: u16, sent: u64, elapsed: u64) -> bool
    requires { timeouts ≤ failure_timeouts }
    ensures { result ≡ (nat_lt sent (timeout * timeouts) && nat_le (timeout * timeouts) elapsed) }
{
    let due = u64::from(timeout) * timeouts;
    sent < due && due <= elapsed
}

/// After so many initial timeouts the retransmission of this number is due: 1, 3, 7, 15.
pub(crate) fn factor(retransmission: u32) -> u64
    requires { retransmission ≤ max_retransmit }
    ensures is { result ≡ 2 ^ retransmission - 1 }
    ensures short { result ≤ failure_timeouts }
{
    (1 << retransmission) - 1
}

// Whether one of the first so many retransmissions is due and was not at the last sending.
fn any_falls_due(retransmissions: u32, timeout: u16, sent: u64, elapsed: u64) -> bool
    requires { retransmissions ≤ max_retransmit }
    ensures { result ≡ list_any (λ k.
        nat_lt sent (timeout * k) && nat_le (timeout * k) elapsed) (factors retransmissions) }
{
    if retransmissions == 0 {
        return false;
    }
    any_falls_due(retransmissions - 1, timeout, sent, elapsed)
        || falls_due(factor(retransmissions), timeout, sent, elapsed)
}

/// Whether a retransmission is due: of those that are, one is sent and the others count as sent
/// (RFC 7252, section 4.2), and none later than `LAST_RETRANSMISSION_MS` after the first sending (profile).
pub(crate) fn is_copy_due<A: Allocator + Copy>(c: &Sending<A>, last: Moment, now: Moment) -> bool
    ensures { result ≡ is_copy_due now.0 (record {
      to = c.now.to;
      id = c.now.id.0;
      bytes = c.now.bytes.items;
      timeout = c.now.timeout;
      first = c.now.first.0;
      last = last.0;
    }) }
{
    let sent = last.since(c.first);
    let elapsed = now.since(c.first);
    elapsed <= LAST_RETRANSMISSION_MS && any_falls_due(MAX_RETRANSMIT, c.timeout, sent, elapsed)
}

/// The step of the message that was sent first of those that have one.
pub(crate) fn find_step<A: Allocator + Copy>(sendings: &Vec<Sending<A>, A>, at: Moment) -> Due
    ensures { answer_for result ≡ tick_of at.0 (open_now sendings.now.items) }
{
    for c in sendings {
        if let Some(last) = c.last {
            if has_failed(c, at) {
                return Due::Failure(c.to, c.id);
            }
            if is_copy_due(c, last, at) {
                return Due::Copy(c.to, c.id);
            }
        }
    }
    Due::Nothing
}

/// Whether it is a step.
pub(crate) fn is_step(due: Due) -> bool
    ensures idle { result ≡ false → answer_for due ≡ Idle }
    ensures due { result ≡ true → answer_for due ≢ Idle }
{
    !matches!(due, Due::Nothing)
}

/// What the layer above is told of the step.
pub(crate) fn ticked(step: Due) -> Tick
    ensures { IsTick result (answer_for step) }
{
    match step {
        Due::Nothing => Tick::Idle,
        Due::Copy(_, id) => Tick::Copied(id),
        Due::Failure(to, id) => Tick::Expired(to, id),
    }
}

/// Ends the retransmission of what went there with this Message ID.
pub(crate) fn end_all<A: Allocator + Copy>(sendings: &mut Vec<Sending<A>, A>, to: Endpoint, id: Id)
    ensures items { sendings.new.items ≡ map (ended to id.0) sendings.old.items }
    ensures len { vec_len sendings.new ≡ vec_len sendings.old }
    ensures capacity { vec_capacity sendings.new ≡ vec_capacity sendings.old }
{
    end(sendings, to, id);
}

// Notes that what is outstanding there with this Message ID is sent again.
fn mark_all<A: Allocator + Copy>(
    sendings: &mut Vec<Sending<A>, A>,
    to: Endpoint,
    id: Id,
    at: Moment,
)
    ensures items { sendings.new.items ≡ map (marked to id.0 at) sendings.old.items }
    ensures len { vec_len sendings.new ≡ vec_len sendings.old }
    ensures capacity { vec_capacity sendings.new ≡ vec_capacity sendings.old }
{
    mark(sendings, to, id, at);
}

/// Does the step.
pub(crate) fn take_step<A: Allocator + Copy>(
    sendings: &mut Vec<Sending<A>, A>,
    step: Due,
    at: Moment,
)
    ensures open { (out : List Packet)
        → open_now sendings.new.items ≡ filter_map
        (left_by (record { at = at.0; call = Ticks; answer = answer_for step; out = out }))
        (open_now sendings.old.items) }
    ensures before { open_before sendings.new.items ≡ open_before sendings.old.items }
    ensures len { vec_len sendings.new ≡ vec_len sendings.old }
    ensures capacity { vec_capacity sendings.new ≡ vec_capacity sendings.old }
{
    match step {
        Due::Nothing => {}
        Due::Copy(to, id) => mark_all(sendings, to, id, at),
        Due::Failure(to, id) => end_all(sendings, to, id),
    }
}
