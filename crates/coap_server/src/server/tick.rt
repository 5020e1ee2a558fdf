//! Time passes at a server (RFC 7252, sections 4.2 and 5.2.2; RFC 7641, section 4.5).
ghost use Rattle.std.specs.Prelude.{◌≡◌, ◌≢◌, ◌≤◌, ℕ, max, Bool, true, false, [], IfOk, IsOk, OnErr, OnOk, length};
ghost use Rattle.coap_types.specs.declared.token.TheConstants.{MAX_TOKEN_LEN as max_token_len};
ghost use Rattle.coap_layer.specs.Machine.State.{answer_of, copies};
ghost use Rattle.coap_layer.specs.Trace as below;
ghost use Rattle.coap_exchange.specs.declared.answerer.Asked.{Asked as AskedSpec};
ghost use Rattle.coap_exchange.specs.declared.answerer.Due.{Due as DueSpec};
ghost use Rattle.coap_exchange.specs.declared.answerer.Due.TheVariants as dues;
ghost use Rattle.coap_exchange.specs.Machine.AnswererShown.{MayRespond};
ghost use Rattle.coap_exchange.specs.Machine.WhatIsDue.{takes_response};
ghost use Rattle.coap_server.specs.Led.{Step};
ghost use Rattle.coap_server.specs.Trace.{Handling, Ticks};
ghost use Rattle.coap_server.specs.Object.Shown.{kept_of, seen};
ghost use Rattle.coap_server.specs.Turns.Idle.{IsIdle, moment, takes_notice};
ghost use Rattle.coap_server.specs.Turns.Turned.{IsTurned};

use crate::server::notification::notify_next;
use crate::server::observation_end::forget;
use crate::server::parts::Parts;
use crate::server::separate_response::respond_ready;
use coap_exchange::Due;
use coap_resource::Store;
use coap_types::Moment;
use std::alloc::{AllocError, Allocator};
use std::hash::BuildHasher;

// Does what the exchanges leave to be done of what is due: the response to a request that is ready,
// and where nothing is due a notification. After an `Err` only the exchanges are not as before; they
// can be taken back.
fn turn<S: Store<A>, A: Allocator + Copy, H: BuildHasher>(
    parts: &mut Parts<S, A, H>,
    due: Due,
    word: u64,
) -> Result<bool, AllocError>
    requires ready { (a : AskedSpec) → due ≡ dues.Ready a → MayRespond parts.old.exchanges parts.old.clock.0 a }
    requires short { (a : AskedSpec) → due ≡ dues.Ready a → length a.token ≤ max_token_len }
    requires timed { parts.old.observers.clock ≤ parts.old.clock.0 }
    ensures turned { IfOk result (λ did. IsTurned (seen S.content parts.old) due word did (seen S.content parts.new)) }
    ensures copied { due ≡ dues.Copied → IsOk result }
    ensures expired { due ≡ dues.Expired → IsOk result }
    ensures idle { due ≡ dues.Idle → takes_notice parts.old.exchanges.state parts.old.clock.0 parts.old.observers.list
        ≡ false
        → IsOk result }
    ensures had { due ≡ dues.Idle → parts.old.exchanges.room ≡ true → IsOk result }
    ensures timed { OnOk result (parts.new.observers.clock ≤ parts.new.clock.0) }
    ensures before { parts.new.exchanges.before ≡ parts.old.exchanges.before }
    ensures err { OnErr result
        (record (kept_of parts.new) { exchanges = parts.old.exchanges.state } ≡ kept_of parts.old) }
{
    match due {
        Due::Copied => {
            parts.applied = None;
            Ok(true)
        }
        Due::Expired => {
            parts.applied = None;
            Ok(true)
        }
        Due::Ready(asked) => {
            respond_ready(parts, &asked, word)?;
            Ok(true)
        }
        Due::Idle => notify_next(parts, word),
    }
}

/// Does the first that is due: the failure of a response, which ends an observation, a
/// retransmission, the response to a deferred request, a notification; whether something was. After
/// an `Err` all is as before.
pub(crate) fn tick_parts<S: Store<A>, A: Allocator + Copy, H: BuildHasher>(
    parts: &mut Parts<S, A, H>,
    now: Moment,
    word: u64,
) -> Result<bool, AllocError>
    requires timed { parts.old.observers.clock ≤ parts.old.clock.0 }
    ensures step { IfOk result (λ did. (done : below.Answer) × (room : Bool) × (due : DueSpec) × (passed : ℕ)
        × (h : Handling) × (id : ℕ)
        × Step (seen S.content parts.old) (Ticks now.0 word done room due passed h id did) (seen S.content parts.new)) }
    ensures timed { OnOk result (parts.new.observers.clock ≤ parts.new.clock.0) }
    ensures err { OnErr result (kept_of parts.new ≡ kept_of parts.old) }
    ensures quiet { IsIdle (seen S.content parts.old) now.0 → IsOk result }
    ensures fails { copies (moment (seen S.content parts.old) now.0) parts.old.exchanges.state.layer.open_cons ≡ []
        → answer_of parts.old.exchanges.state.layer (moment (seen S.content parts.old) now.0) below.Ticks ≢ below.Idle
        → IsOk result }
    ensures had { copies (moment (seen S.content parts.old) now.0) parts.old.exchanges.state.layer.open_cons ≡ []
        → takes_response parts.old.exchanges.state (max parts.old.clock.0 now.0) ≡ false
        → parts.old.exchanges.room ≡ true → IsOk result }
{
    let was = parts.clock;
    let at = was.later(now);
    let due = parts.exchanges.tick(at)?;
    parts.clock = at;
    forget(&mut parts.observers, parts.exchanges.ended());
    let done = turn(parts, due, word);
    if done.is_err() {
        parts.exchanges.undo();
        parts.clock = was;
    }
    done
}
