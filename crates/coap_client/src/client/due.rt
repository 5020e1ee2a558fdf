//! When a client may begin something (RFC 7252, section 4.7).
ghost use Rattle.std.specs.Prelude.{◌≡◌, ◌<◌, ◌^◌, not};
ghost use Rattle.coap_types.specs.FirstMoment.{IsFirstMoment};
ghost use Rattle.coap_client.specs.Events.{is_held};
ghost use Rattle.coap_client.specs.Own.{Own};
ghost use Rattle.coap_client.specs.Object.Held.{own_of, shown_hold};
ghost use Rattle.coap_client.specs.Object.Starts.{may_start as may_start_lem};
ghost use Rattle.coap_client.specs.Turns.Due.{begins};

use crate::client::held::Held;
use crate::client::scheduler::{may_start, to_fetch};
use coap_types::transmission::MAX_LATENCY_MS;
use coap_types::{Moment, after};
use std::alloc::Allocator;

// The first moment, from this one on, at which no upload is held back.
fn free_from(hold: Option<Moment>, from: Moment) -> Option<Moment>
    ensures { (s : Own) → s.hold ≡ shown_hold hold → IsFirstMoment (λ now. not (is_held s now)) from.0 result }
{
    match hold {
        None => Some(from),
        Some(last) => after(last, MAX_LATENCY_MS + 1, from),
    }
}

// The first moment, from this one on, at which the first of what waits may start.
fn first_may_start<A: Allocator + Copy>(held: &Held<A>, from: Moment) -> Option<Moment>
    ensures { IsFirstMoment (λ now. may_start_lem now (own_of held.now) (own_of held.now).queue) from.0 result }
{
    if may_start(held, from) {
        Some(from)
    } else if held.operations.waiting_len() == 0 {
        None
    } else {
        free_from(held.hold, from)
    }
}

/// The first moment, from this one on, at which a tick begins something where nothing is due: at once
/// where nothing runs and something is to be fetched or waits, but for an upload that is held back.
pub(crate) fn begins_from<A: Allocator + Copy>(held: &Held<A>, from: Moment) -> Option<Moment>
    ensures first { IsFirstMoment (begins (own_of held.now)) from.0 result }
    ensures range { from.0 < 2 ^ 64 }
{
    if held.operations.running().is_some() {
        return None;
    }
    match to_fetch(&held.operations) {
        Some(_number) => Some(from),
        None => first_may_start(held, from),
    }
}
