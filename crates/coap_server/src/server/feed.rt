//! What is done with a datagram that arrived.
ghost use Rattle.std.specs.Prelude.{◌≡◌, ◌≤◌, ℕ, max, Option, IsOk, OnErr, OnOk};
ghost use Rattle.coap_codec.specs.Message.{Message};
ghost use Rattle.coap_layer.specs.Machine.State.{made};
ghost use Rattle.coap_layer.specs.Machine.Ups.{IsQuiet};
ghost use Rattle.coap_layer.specs.Trace as below;
ghost use Rattle.coap_exchange.specs.declared.answerer.Asked.{Asked as AskedSpec};
ghost use Rattle.coap_server.specs.Led.{Step};
ghost use Rattle.coap_server.specs.Trace.{Feeds, Handling};
ghost use Rattle.coap_server.specs.Object.Shown.{kept_of, seen};

use crate::server::observation_end::{forget, reject};
use crate::server::parts::Parts;
use crate::server::request::handle;
use coap_resource::Store;
use coap_types::{Endpoint, Moment};
use std::alloc::{AllocError, Allocator};
use std::hash::BuildHasher;

/// Takes a datagram that arrived at this moment: a request that is handed up is answered, deferred or
/// passed over; else what a Reset ends is no longer observed. After an `Err` all is as before.
pub(crate) fn feed_parts<S: Store<A>, A: Allocator + Copy, H: BuildHasher>(
    parts: &mut Parts<S, A, H>,
    now: Moment,
    from: Endpoint,
    bytes: &[u8],
) -> Result<(), AllocError>
    requires timed { parts.old.observers.clock ≤ parts.old.clock.0 }
    ensures step { OnOk result ((word : ℕ) → (up : below.Answer) × (came : Option (AskedSpec × Message))
        × (h : Handling) × (sent : below.Answer)
        × Step (seen S.content parts.old) (Feeds now.0 from bytes.now word up came h sent) (seen S.content parts.new)) }
    ensures timed { OnOk result (parts.new.observers.clock ≤ parts.new.clock.0) }
    ensures err { OnErr result (kept_of parts.new ≡ kept_of parts.old) }
    ensures quiet { IsQuiet (made parts.old.exchanges.state.layer (max parts.old.clock.0 now.0)
        (below.Receive from bytes.now)) → IsOk result }
{
    let was = parts.clock;
    let at = was.later(now);
    let came = parts.exchanges.incoming(at, from, bytes)?;
    parts.clock = at;
    match came {
        None => {
            forget(&mut parts.observers, parts.exchanges.ended());
            reject(&mut parts.observers, at, parts.exchanges.unmatched());
            parts.applied = None;
            Ok(())
        }
        Some((asked, request)) => {
            let done = handle(parts, &asked, &request);
            if done.is_err() {
                parts.exchanges.undo();
                parts.clock = was;
            }
            done
        }
    }
}
