//! A request that the store serves, and the observers that its change marks.
ghost use Rattle.std.specs.Prelude.{◌≡◌, ◌≤◌, ◌==◌, ◌∷◌, [], false, IfOk, IfSome, OnErr, if◌then◌else◌};
ghost use Rattle.std.specs.Option.{option_map};
ghost use Rattle.coap_types.specs.BlockValue.{block_value};
ghost use Rattle.coap_types.specs.CoapOption.{options_of};
ghost use Rattle.coap_observe.specs.Observers.{changed_at};
ghost use Rattle.coap_resource.specs.Serves.{question_of};
ghost use Rattle.coap_server.specs.Observers.{is_get};
ghost use Rattle.coap_server.specs.Serving.{is_applied};
ghost use Rattle.coap_server.specs.Uploads.{last_block};
ghost use Rattle.coap_server.specs.Object.Handled.{ServesRequest};
ghost use Rattle.coap_server.specs.Object.Shown.{applied_list};

use crate::server::full_response::FullResponse;
use crate::server::observation::{number_at, observe};
use crate::server::parts::Applied;
use coap_exchange::Asked;
use coap_observe::Observers;
use coap_resource::{Asking, Store, serve};
use coap_types::option_number::BLOCK1;
use coap_types::{Block, Code, MAX_NUM, Method, Moment, Path};
use std::alloc::{AllocError, Allocator};

/// A request that the store served.
#[derive(Drop)]
pub(crate) struct Served<A: Allocator> {
    /// Its response.
    pub(crate) response: FullResponse<'static, A>,
    /// What was applied.
    pub(crate) applied: Option<Applied<A>>,
}

// The Block1 of the response to a request whose last block was taken (RFC 7959, section 2.3).
fn last_block<A: Allocator>(asking: &Asking<'_, A>) -> Option<Block>
    ensures block { option_map block_value result ≡ last_block (question_of asking.now) }
    ensures num { IfSome result (λ b. b.num ≤ MAX_NUM) }
{
    let block = Block::of(number_at(asking.options, BLOCK1)?)?;
    Some(Block {
        more: false,
        ..block
    })
}

/// Serves a request at this moment, and says what is to be sent and what was applied (RFC 7252,
/// section 5.8; RFC 7641, section 4.1). After an `Err` all is as before: what can be refused memory
/// comes before the store changes.
pub(crate) fn serve_request<S: Store<A>, A: Allocator + Copy>(
    store: &mut S,
    observers: &mut Observers<A>,
    now: Moment,
    asked: &Asked,
    asking: &Asking<'_, A>,
) -> Result<Served<A>, AllocError>
    requires timed { observers.old.clock ≤ now.0 }
    ensures served { IfOk result (λ served. ServesRequest (S.content store.old) observers.old.list now.0 asked.now
        (question_of asking.now) served.response (applied_list served.applied) (S.content store.new)
        observers.new.list) }
    ensures timed { observers.new.clock ≤ now.0 }
    ensures store { OnErr result (store.new ≡ store.old) }
    ensures observers { OnErr result (observers.new ≡ observers.old) }
{
    match asking.method {
        Method::Get => serve_get(store, observers, now, asked, asking),
        Method::Post | Method::Put | Method::Delete => {
            serve_change(store, observers, now, asked, asking)
        }
    }
}

// A GET: it changes nothing but who observes.
fn serve_get<S: Store<A>, A: Allocator + Copy>(
    store: &mut S,
    observers: &mut Observers<A>,
    now: Moment,
    asked: &Asked,
    asking: &Asking<'_, A>,
) -> Result<Served<A>, AllocError>
    requires get { asking.now.method ≡ Method.Get }
    requires timed { observers.old.clock ≤ now.0 }
    ensures served { IfOk result (λ served. ServesRequest (S.content store.old) observers.old.list now.0 asked.now
        (question_of asking.now) served.response (applied_list served.applied) (S.content store.new)
        observers.new.list) }
    ensures timed { observers.new.clock ≤ now.0 }
    ensures store { OnErr result (store.new ≡ store.old) }
    ensures observers { OnErr result (observers.new ≡ observers.old) }
{
    let response = serve(store, now, asking)?;
    let number = observe(store, observers, now, asked, asking, &response)?;
    Ok(Served {
        response: FullResponse::of(response, number, last_block(asking)),
        applied: None,
    })
}

// A PUT, POST or DELETE: where it made a version, its observers are to be notified.
fn serve_change<S: Store<A>, A: Allocator + Copy>(
    store: &mut S,
    observers: &mut Observers<A>,
    now: Moment,
    asked: &Asked,
    asking: &Asking<'_, A>,
) -> Result<Served<A>, AllocError>
    requires change { is_get asking.now.method ≡ false }
    requires timed { observers.old.clock ≤ now.0 }
    ensures served { IfOk result (λ served. ServesRequest (S.content store.old) observers.old.list now.0 asked.now
        (question_of asking.now) served.response (applied_list served.applied) (S.content store.new)
        observers.new.list) }
    ensures timed { observers.new.clock ≤ now.0 }
    ensures store { OnErr result (store.new ≡ store.old) }
    ensures observers { OnErr result (observers.new ≡ observers.old) }
{
    let path = asking.path.clone()?;
    let before = store.version();
    let response = serve(store, now, asking)?;
    let version = store.version();
    mark(observers, now, asking.path, before, version);
    let applied = applied_by(response.code, asked, path, asking.method, before, version);
    Ok(Served {
        response: FullResponse::of(response, None, last_block(asking)),
        applied,
    })
}

/// Where the version rose, the path changed at this moment: its observers are to be notified (RFC 7641,
/// section 4.2).
pub(crate) fn mark<A: Allocator + Copy>(
    observers: &mut Observers<A>,
    at: Moment,
    path: &Path<A>,
    before: u64,
    version: u64,
)
    requires timed { observers.old.clock ≤ at.0 }
    ensures marked { observers.new.list
        ≡ (if version == before then observers.old.list else changed_at at.0 path.now observers.old.list) }
    ensures timed { observers.new.clock ≤ at.0 }
{
    if version != before {
        observers.changed(at, path);
    }
}

// What was applied by a request whose response has this code, and that left this version.
fn applied_by<A: Allocator>(
    code: Code,
    asked: &Asked,
    path: Path<A>,
    method: Method,
    before: u64,
    version: u64,
) -> Option<Applied<A>>
    ensures { applied_list result ≡ (if is_applied code.0
        then record {
          from = asked.now.from;
          token = asked.now.token;
          path = path;
          method = method;
          version = if version == before then 0 else version;
        } ∷ []
        else []) }
{
    if !is_applied(code) {
        return None;
    }
    Some(Applied {
        from: asked.from,
        token: asked.token.copy(),
        path,
        method,
        version: if version == before { 0 } else { version },
    })
}

// Whether a response of this code says that its request was applied: 2.01, 2.02 or 2.04.
fn is_applied(code: Code) -> bool
    ensures { result ≡ is_applied code.0 }
{
    code == Code::CREATED || code == Code::DELETED || code == Code::CHANGED
}
