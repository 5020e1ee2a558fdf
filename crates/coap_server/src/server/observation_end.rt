//! What the failure or the Reset of a notification ends (RFC 7641, sections 3.6 and 4.5).
ghost use Rattle.std.specs.Prelude.{◌≡◌, ◌≤◌};
ghost use Rattle.coap_exchange.specs.Machine.AnswererShown.{sending_as};
ghost use Rattle.coap_server.specs.Observers.{unless_ended, unless_rejected};

use coap_exchange::Ended;
use coap_observe::Observers;
use coap_types::{Endpoint, Id, Moment};
use std::alloc::Allocator;

/// What ended carried Observe: its observer is removed (RFC 7641, sections 3.6 and 4.5).
pub(crate) fn forget<A: Allocator + Copy>(observers: &mut Observers<A>, ended: Option<Ended>)
    ensures { observers.new
        ≡ record { clock = observers.old.clock; list = unless_ended ended observers.old.list } }
{
    if let Some(ended) = ended {
        if ended.observe {
            let _was_there = observers.remove(ended.to, &ended.token);
        }
    }
}

/// A Reset of what isn't outstanding arrived at this moment: the observer whose last NON it rejects is
/// removed (RFC 7641, section 3.6).
pub(crate) fn reject<A: Allocator + Copy>(
    observers: &mut Observers<A>,
    at: Moment,
    rejected: Option<(Endpoint, Id)>,
)
    requires timed { observers.old.clock ≤ at.0 }
    ensures left { observers.new.list ≡ unless_rejected at.0 (sending_as rejected) observers.old.list }
    ensures timed { observers.new.clock ≤ at.0 }
{
    if let Some((from, id)) = rejected {
        let _token = observers.reset(at, from, id);
    }
}
