//! What is done with a whole request: it is served now, or it waits (RFC 7252, section 5.2).
ghost use Rattle.std.specs.Prelude.{◌≡◌, ◌≤◌, OnErr, OnOk, length};
ghost use Rattle.coap_types.specs.declared.token.TheConstants.{MAX_TOKEN_LEN as max_token_len};
ghost use Rattle.coap_resource.specs.Serves.{question_of};
ghost use Rattle.coap_exchange.specs.Machine.AnswererShown.{MayAnswer};
ghost use Rattle.coap_server.specs.Object.Handled.{IsWhole, ServesNow};
ghost use Rattle.coap_server.specs.Object.Shown.{kept_of, seen};

use crate::server::answering::answer;
use crate::server::deferral::{defer, delay_for};
use crate::server::parts::Parts;
use crate::server::served::serve_request;
use coap_exchange::Asked;
use coap_resource::{Asking, Store};
use std::alloc::{AllocError, Allocator};
use std::hash::BuildHasher;

/// What is done with a request whose body is whole: it waits where its path has a delay and there
/// is a place, and else it is served. After an `Err` only the exchanges are not as before; they can
/// be taken back.
#[inline(always)]
pub(crate) fn handle_whole<S: Store<A>, A: Allocator + Copy, H: BuildHasher>(
    parts: &mut Parts<S, A, H>,
    asked: &Asked,
    asking: &Asking<'_, A>,
) -> Result<(), AllocError>
    requires may { MayAnswer parts.old.exchanges asked.now }
    requires short { length asked.now.token ≤ max_token_len }
    requires szx { asking.now.szx ≡ parts.old.szx }
    requires timed { parts.old.observers.clock ≤ parts.old.clock.0 }
    ensures handled { OnOk result
        (IsWhole (seen S.content parts.old) asked.now (question_of asking.now) (seen S.content parts.new)) }
    ensures uploads { parts.new.uploads ≡ parts.old.uploads }
    ensures timed { OnOk result (parts.new.observers.clock ≤ parts.new.clock.0) }
    ensures before { parts.new.exchanges.before ≡ parts.old.exchanges.before }
    ensures err { OnErr result
        (record (kept_of parts.new) { exchanges = parts.old.exchanges.state } ≡ kept_of parts.old) }
{
    let Some(delay) = delay_for(&parts.delays, asked.kind, asking.path) else {
        return serve_now(parts, asked, asking);
    };
    if defer(parts, asked, asking, delay)? {
        return Ok(());
    }
    serve_now(parts, asked, asking)
}

// Serves a request, and answers it.
#[inline(always)]
fn serve_now<S: Store<A>, A: Allocator + Copy, H: BuildHasher>(
    parts: &mut Parts<S, A, H>,
    asked: &Asked,
    asking: &Asking<'_, A>,
) -> Result<(), AllocError>
    requires may { MayAnswer parts.old.exchanges asked.now }
    requires short { length asked.now.token ≤ max_token_len }
    requires timed { parts.old.observers.clock ≤ parts.old.clock.0 }
    ensures served { OnOk result (ServesNow (seen S.content parts.old).own parts.old.exchanges.state asked.now
        (question_of asking.now) (seen S.content parts.new)) }
    ensures uploads { parts.new.uploads ≡ parts.old.uploads }
    ensures timed { OnOk result (parts.new.observers.clock ≤ parts.new.clock.0) }
    ensures before { parts.new.exchanges.before ≡ parts.old.exchanges.before }
    ensures err { OnErr result (kept_of parts.new ≡ kept_of parts.old) }
{
    let served = serve_request(
        &mut parts.store,
        &mut parts.observers,
        parts.clock,
        asked,
        asking,
    )?;
    answer(&mut parts.exchanges, asked, &served.response);
    parts.applied = served.applied;
    Ok(())
}
