//! The response to a deferred request that is ready (RFC 7252, section 5.2.2).
ghost use Rattle.std.specs.Prelude.{◌≡◌, ◌<◌, ◌≤◌, ℕ, true, Some, None, IfOk, IfSome, IfNone, OnErr, OnOk, length};
ghost use Rattle.std.specs.Prelude.{map, remove, get_or};
ghost use Rattle.coap_types.specs.declared.token.TheConstants.{MAX_TOKEN_LEN as max_token_len};
ghost use Rattle.coap_types.specs.CoapOption.{options_of};
ghost use Rattle.coap_exchange.specs.declared.answerer.Due.TheVariants as dues;
ghost use Rattle.coap_exchange.specs.AnswererLaw.{Step};
ghost use Rattle.coap_exchange.specs.AnswererTrace.{Responds};
ghost use Rattle.coap_exchange.specs.Machine.AnswererShown.{MayRespond};
ghost use Rattle.coap_server.specs.Deferring.{is_of, question_of, without_waiting};
ghost use Rattle.coap_server.specs.Object.Handled.{ServesRequest};
ghost use Rattle.coap_server.specs.Object.Shown.{applied_list, kept_of, option_as, seen, waiting_as};
ghost use Rattle.coap_server.specs.Turns.Turned.{IsTurned};

use crate::server::full_response::FullResponse;
use crate::server::parts::{KeptOption, Parts, Waiting};
use crate::server::served::{Served, serve_request};
use coap_exchange::{Answerer, Asked};
use coap_observe::Observers;
use coap_resource::{Asking, Store};
use coap_types::{Id, Moment, Opt, Szx};
use std::alloc::{AllocError, Allocator};
use std::hash::BuildHasher;

// Whether it waits for this request, and its delay has passed.
fn is_ready<A: Allocator>(waiting: &Waiting<A>, at: Moment, asked: &Asked) -> bool
    ensures { (szx : ℕ) → result ≡ is_of at.0 asked.now (waiting_as szx waiting.now) }
{
    *asked == waiting.asked && at.since(waiting.at) >= waiting.delay
}

// Where the request that is ready waits.
fn ready_place<A: Allocator>(waiting: &[Waiting<A>], at: Moment, asked: &Asked) -> Option<usize>
    ensures within { IfSome result (λ i. i < length waiting.now) }
    ensures question { IfSome result (λ i. (szx : ℕ) (w : Waiting A)
        → question_of at.0 asked.now (map (waiting_as szx) waiting.now)
        ≡ Some (waiting_as szx (get_or waiting.now i w)).question) }
    ensures left { IfSome result (λ i. (szx : ℕ)
        → map (waiting_as szx) (remove waiting.now i)
        ≡ without_waiting at.0 asked.now (map (waiting_as szx) waiting.now)) }
    ensures none { IfNone result ((szx : ℕ)
        → question_of at.0 asked.now (map (waiting_as szx) waiting.now) ≡ None) }
{
    let mut i = 0;
    'requests: while i < waiting.len() {
        if is_ready(&waiting[i], at, asked) {
            return Some(i);
        }
        i += 1;
    }
    None
}

// The options again, to be lent.
fn lend_options<'a, A: Allocator + Copy>(
    alloc: A,
    kept: &'a [KeptOption<A>],
) -> Result<Vec<Opt<'a>, A>, AllocError>
    ensures { IfOk result (λ list. options_of list.items ≡ map option_as kept.now) }
{
    let mut list = Vec::new(alloc);
    'options: for option in kept {
        list.push(Opt {
            number: option.number,
            value: option.value.as_slice(),
        })?;
    }
    Ok(list)
}

// Serves a request that waited. After an `Err` all is as before.
fn serve_waiting<S: Store<A>, A: Allocator + Copy>(
    store: &mut S,
    observers: &mut Observers<A>,
    at: Moment,
    szx: Szx,
    asked: &Asked,
    waiting: &Waiting<A>,
) -> Result<Served<A>, AllocError>
    requires timed { observers.old.clock ≤ at.0 }
    ensures served { IfOk result (λ served. ServesRequest (S.content store.old) observers.old.list at.0 asked.now
        (waiting_as szx waiting.now).question served.response (applied_list served.applied)
        (S.content store.new) observers.new.list) }
    ensures timed { observers.new.clock ≤ at.0 }
    ensures store { OnErr result (store.new ≡ store.old) }
    ensures observers { OnErr result (observers.new ≡ observers.old) }
{
    let options = lend_options(*waiting.options.allocator(), &waiting.options)?;
    let asking = Asking {
        method: waiting.method,
        path: &waiting.path,
        options: &options,
        body: &waiting.body,
        szx,
    };
    serve_request(store, observers, at, asked, &asking)
}

// Sends the response to a deferred request, in a Confirmable message. It is not refused memory.
fn respond<A: Allocator + Copy, H: BuildHasher>(
    exchanges: &mut Answerer<A, H>,
    at: Moment,
    asked: &Asked,
    response: &FullResponse<'_, A>,
    word: u64,
) -> Id
    requires may { MayRespond exchanges.old at.0 asked.now }
    requires short { length asked.now.token ≤ max_token_len }
    ensures step { Step exchanges.old.state (Responds at.0 asked.now response.now word result.0) exchanges.new.state }
    ensures before { exchanges.new.before ≡ exchanges.old.before }
{
    let options = response.options();
    exchanges.respond(at, asked, &response.with(&options), word)
}

/// Serves the deferred request that is ready, and sends its response. After an `Err` only the
/// exchanges are not as before; they can be taken back.
pub(crate) fn respond_ready<S: Store<A>, A: Allocator + Copy, H: BuildHasher>(
    parts: &mut Parts<S, A, H>,
    asked: &Asked,
    word: u64,
) -> Result<(), AllocError>
    requires may { MayRespond parts.old.exchanges parts.old.clock.0 asked.now }
    requires short { length asked.now.token ≤ max_token_len }
    requires timed { parts.old.observers.clock ≤ parts.old.clock.0 }
    ensures turned { OnOk result (IsTurned (seen S.content parts.old) (dues.Ready asked.now) word true
        (seen S.content parts.new)) }
    ensures timed { OnOk result (parts.new.observers.clock ≤ parts.new.clock.0) }
    ensures before { parts.new.exchanges.before ≡ parts.old.exchanges.before }
    ensures err { OnErr result
        (record (kept_of parts.new) { exchanges = parts.old.exchanges.state } ≡ kept_of parts.old) }
{
    let at = parts.clock;
    let Some(place) = ready_place(&parts.waiting, at, asked) else {
        parts.applied = None;
        return Ok(());
    };
    let served = serve_waiting(
        &mut parts.store,
        &mut parts.observers,
        at,
        parts.szx,
        asked,
        &parts.waiting[place],
    )?;
    // Nothing fails from here on.
    let _id = respond(&mut parts.exchanges, at, asked, &served.response, word);
    let _done = parts.waiting.remove(place);
    parts.applied = served.applied;
    Ok(())
}
