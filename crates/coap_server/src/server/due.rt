//! When a server has something to do (RFC 7252, sections 4.2 and 5.2.2; RFC 7641, section 4.5).
ghost use Rattle.std.specs.Prelude.{◌≡◌, ◌≤◌, ◌<◌, ◌^◌};
ghost use Rattle.coap_types.specs.FirstMoment.{IsFirstMoment};
ghost use Rattle.coap_server.specs.Object.Shown.{seen};
ghost use Rattle.coap_server.specs.Turns.WhenDue.{has_work, latest};
ghost use Rattle.coap_server.specs.Turns.Idle.{takes_notice};

use crate::server::parts::Parts;
use coap_exchange::Answerer;
use coap_observe::Observers;
use coap_resource::Store;
use coap_types::{Moment, earlier};
use std::alloc::Allocator;
use std::hash::BuildHasher;

// Whether one of the observers to which a notification is due can be notified at this moment.
fn can_notify<A: Allocator + Copy, H: BuildHasher>(
    exchanges: &Answerer<A, H>,
    observers: &Observers<A>,
    at: Moment,
) -> bool
    ensures { result ≡ takes_notice exchanges.now.state at.0 observers.now.list }
{
    let mut passed = 0;
    'observers: while let Some(notice) = observers.due_after(passed) {
        if exchanges.would_notify(at, notice.to) {
            return true;
        }
        passed += 1;
    }
    false
}

// The first moment, from this one on, at which one of them can be notified: no Confirmable message to
// its endpoint is outstanding, and a Message ID is free.
fn notices_from<A: Allocator + Copy, H: BuildHasher>(
    exchanges: &Answerer<A, H>,
    observers: &Observers<A>,
    from: Moment,
) -> Option<Moment>
    ensures { exchanges.now.state.own.clock ≤ from.0
        → IsFirstMoment (λ now. takes_notice exchanges.now.state now observers.now.list) from.0 result }
{
    match exchanges.free_from(from) {
        Some(at) => {
            if can_notify(exchanges, observers, at) {
                Some(at)
            } else {
                None
            }
        }
        None => None,
    }
}

/// The first moment, no earlier than the last that was handed in, at which a tick would do something.
pub(crate) fn due_parts<S: Store<A>, A: Allocator + Copy, H: BuildHasher>(
    parts: &Parts<S, A, H>,
) -> Option<Moment>
    ensures first { IsFirstMoment (has_work (seen S.content parts.now)) (latest (seen S.content parts.now)) result }
    ensures clocks { (seen S.content parts.now).layer.clock ≡ (seen S.content parts.now).own.exchanges.clock }
    ensures range { latest (seen S.content parts.now) < 2 ^ 64 }
{
    let from = parts.exchanges.clock().later(parts.clock);
    earlier(
        parts.exchanges.due(from),
        notices_from(&parts.exchanges, &parts.observers, from),
    )
}
