//! When something of an outstanding message is due next (RFC 7252, section 4.2).
ghost use Rattle.std.specs.Prelude.{◌≡◌, ◌≤◌, ◌<◌, ◌^◌, ◌*◌, ◌-◌, ◌||◌, ◌&&◌, ℕ, Bool, nat_le, nat_lt};
ghost use Rattle.std.specs.List.{list_any};
ghost use Rattle.coap_types.specs.declared.transmission.TheConstants.{MAX_RETRANSMIT as max_retransmit};
ghost use Rattle.coap_types.specs.declared.transmission.TheConstants.{FAILURE_TIMEOUTS as failure_timeouts};
ghost use Rattle.coap_layer.specs.BackOff.{factors};
ghost use Rattle.coap_types.specs.FirstMoment.{IsFirstMoment};
ghost use Rattle.coap_layer.specs.Machine.Waits.{comes, has_step, any_has_step};
ghost use Rattle.coap_layer.specs.Machine.Sendings.{open_now};
ghost use Rattle.coap_layer.specs.Machine.State.{is_copy_due as is_copy_due_lem};

use crate::retransmission::{Sending, factor, is_copy_due};
use coap_types::transmission::{FAILURE_TIMEOUTS, LAST_RETRANSMISSION_MS, MAX_RETRANSMIT};
use coap_types::{Moment, after, earlier};
use std::alloc::Allocator;

// The shorter of two waits, where there are two.
fn shorter(a: Option<u64>, b: Option<u64>) -> Option<u64>
    ensures { (elapsed : ℕ) → (comes a elapsed || comes b elapsed) ≡ comes result elapsed }
{
    match (a, b) {
        (Some(x), Some(y)) => Some(x.min(y)),
        (Some(x), None) => Some(x),
        (None, y) => y,
    }
}

// So many timeouts, where the last sending came sooner.
fn if_unsent(timeouts: u64, timeout: u16, sent: u64) -> Option<u64>
    requires { timeouts ≤ failure_timeouts }
    ensures { (elapsed : ℕ)
        → (nat_lt sent (timeout * timeouts) && nat_le (timeout * timeouts) elapsed) ≡ comes result elapsed }
{
    let wait = u64::from(timeout) * timeouts;
    if sent < wait { Some(wait) } else { None }
}

// How long after the first sending the first of so many retransmissions is due that was not due at the last sending.
fn next_copy(retransmissions: u32, timeout: u16, sent: u64) -> Option<u64>
    requires { retransmissions ≤ max_retransmit }
    ensures { (elapsed : ℕ) → list_any (λ k. nat_lt sent (timeout * k) && nat_le (timeout * k) elapsed)
        (factors retransmissions) ≡ comes result elapsed }
{
    if retransmissions == 0 {
        return None;
    }
    shorter(
        next_copy(retransmissions - 1, timeout, sent),
        if_unsent(factor(retransmissions), timeout, sent),
    )
}

// The moment at which the transmission fails (RFC 7252, section 4.2).
fn failure<A: Allocator + Copy>(c: &Sending<A>, from: Moment) -> Option<Moment>
    ensures { IsFirstMoment (λ now. nat_le (c.now.timeout * failure_timeouts) (now - c.now.first.0)) from.0 result }
{
    after(c.first, u64::from(c.timeout) * FAILURE_TIMEOUTS, from)
}

// The first moment, from this one on, at which a retransmission is due: it was not due at the last sending, and
// `LAST_RETRANSMISSION_MS` have not passed (RFC 7252, section 4.2).
fn copy<A: Allocator + Copy>(c: &Sending<A>, last: Moment, from: Moment) -> Option<Moment>
    ensures { IsFirstMoment (λ now. is_copy_due_lem now (record {
      to = c.now.to;
      id = c.now.id.0;
      bytes = c.now.bytes.items;
      timeout = c.now.timeout;
      first = c.now.first.0;
      last = last.0;
    })) from.0 result }
{
    if is_copy_due(c, last, from) {
        return Some(from);
    }
    let sent = last.since(c.first);
    let elapsed = from.since(c.first);
    match next_copy(MAX_RETRANSMIT, c.timeout, sent) {
        Some(wait) if elapsed < wait && wait <= LAST_RETRANSMISSION_MS => after(
            c.first, wait, from,
        ),
        _ => None,
    }
}

// The first moment, from this one on, at which the message has a step.
fn step<A: Allocator + Copy>(c: &Sending<A>, last: Moment, from: Moment) -> Option<Moment>
    ensures { IsFirstMoment (λ now. has_step now (record {
      to = c.now.to;
      id = c.now.id.0;
      bytes = c.now.bytes.items;
      timeout = c.now.timeout;
      first = c.now.first.0;
      last = last.0;
    })) from.0 result }
{
    earlier(failure(c, from), copy(c, last, from))
}

/// The first moment, from this one on, at which one of the messages has a step.
pub(crate) fn next_step<A: Allocator + Copy>(
    sendings: &Vec<Sending<A>, A>,
    from: Moment,
) -> Option<Moment>
    ensures first { IsFirstMoment (λ now. any_has_step now (open_now sendings.now.items)) from.0 result }
    ensures range { from.0 < 2 ^ 64 }
{
    let mut first = None;
    for c in sendings {
        if let Some(last) = c.last {
            first = earlier(first, step(c, last, from));
        }
    }
    first
}
