//! What a client is asked for.
ghost use Rattle.std.specs.Prelude.{◌≡◌, ◌≢◌, ◌↔◌, ◌⊎◌, ◌+◌, pos, map, Option, Some, IfOk, IfErr, IfSome};
ghost use Rattle.std.specs.Prelude.{IfNone, OnOk, Ok, Err};
ghost use Rattle.coap_client.specs.Object.CallShown.{shown_request};
ghost use Rattle.coap_client.specs.Object.Shown.{number_of};
ghost use Rattle.coap_client.specs.RefusalNumbers.{call_refusal_number};
ghost use Rattle.coap_client.specs.declared.refusals.CallRefusal.TheVariants as refusals;
ghost use Rattle.coap_paths.specs.PathTexts.{spelled};
ghost use Rattle.knifesilver.specs.Answers.{IsAnswered, IsRefused, IsUsual};
ghost use Rattle.knifesilver.specs.CallArguments.{AreTags, MakeRequest, RefusesArguments};
ghost use Rattle.knifesilver.specs.ClientCalls.{CallsThat, IsCall, IsCancel, IsForget, IsObserve, TakenAnswers, asked};
ghost use Rattle.knifesilver.specs.ClientCalls.{tag_bytes};
ghost use Rattle.knifesilver.specs.ClientHeld.{HoldsClient, IsClient, Made};
ghost use Rattle.knifesilver.specs.PathRefusals.{RefusesPath};
ghost use Rattle.knifesilver.specs.Reports.{beside};

use crate::answers::{BAD_ARGUMENT, BAD_PATH, DONE, NO_MEMORY, NOT_LIVE, NOTHING};
use crate::crossing::format_of;
use crate::handle::KsHandle;
use crate::held::Held;
use crate::numbers::{call_number, cancel_number};
use crate::path_text::path_of;
use bytes::Bytes;
use coap_ends::{CallId, CallRefusal};
use coap_types::{Code, Method, Moment, Path, Request, Tag, Tags};
use std::alloc::Global;

/// C's `ks_request`: what a request says beside its path and its body.
#[repr(C)]
#[derive(Clone, Copy)]
pub struct KsRequest {
    /// The format of the body, or -1.
    pub format: i32,
    /// The format that is wanted, or -1.
    pub accept: i32,
    /// The code of the method: 1 GET, 2 POST, 3 PUT, 4 DELETE.
    pub method: u8,
    /// Whether nothing may be there yet.
    pub if_none_match: bool,
}

/// C's `ks_tag`: an entity-tag, so many of the 8 bytes.
#[repr(C)]
#[derive(Clone, Copy)]
pub struct KsTag {
    /// How many bytes it has, 1 to 8.
    pub len: u8,
    /// Its bytes.
    pub bytes: [u8; 8],
}

// The entity-tags; None where one is none, or there are too many.
fn tags_of(given: &[KsTag]) -> Option<Tags>
    ensures tags { IfSome result (λ tags. tags ≡ map tag_bytes given.now) }
    ensures some { IfSome result (λ tags. AreTags given.now) }
    ensures none { IfNone result (AreTags given.now → ⊥) }
{
    let mut tags = Tags::new();
    for tag in given {
        let bytes = tag.bytes.get(..usize::from(tag.len))?;
        tags.push(Tag::new(bytes)?).ok()?;
    }
    Some(tags)
}

// The request of these parts, or what is wrong with them.
fn request_of(
    alloc: Global,
    what: &KsRequest,
    path: Path,
    body: &[u8],
    etags: &[KsTag],
    if_match: &[KsTag],
) -> Result<Request, i32>
    ensures says { IfOk result (λ request. asked what.now path body.now etags.now if_match.now
        ≡ Some (shown_request request)) }
    ensures fits { OnOk result (MakeRequest what.now etags.now if_match.now) }
    ensures argument { IfErr result (λ answer. (answer ≡ BAD_ARGUMENT)
        ↔ (MakeRequest what.now etags.now if_match.now → ⊥)) }
    ensures path { IfErr result (λ answer. answer ≢ BAD_PATH) }
    ensures why { IfErr result (λ answer. (answer ≡ BAD_ARGUMENT) ⊎ (answer ≡ NO_MEMORY)) }
    ensures refused { IfErr result IsRefused }
    ensures live { IfErr result (λ answer. answer ≢ NOT_LIVE) }
{
    let Some(method) = Method::of(Code(what.method)) else {
        return Err(BAD_ARGUMENT);
    };
    let (Some(etags), Some(if_match)) = (tags_of(etags), tags_of(if_match)) else {
        return Err(BAD_ARGUMENT);
    };
    let Ok(body) = Bytes::copy_from_slice(alloc, body) else {
        return Err(NO_MEMORY);
    };
    Ok(Request {
        method,
        path,
        format: format_of(what.format),
        body,
        etags,
        if_match,
        if_none_match: what.if_none_match,
        accept: format_of(what.accept),
    })
}

// What a refusal of the client answers.
fn refused(why: CallRefusal) -> i32
    ensures answered { IsAnswered result → (why ≢ refusals.Memory) × (result ≡ pos (32 + call_refusal_number why)) }
    ensures memory { IsRefused result → why ≡ refusals.Memory }
    ensures live { result ≢ NOT_LIVE }
    ensures path { result ≢ BAD_PATH }
    ensures argument { result ≢ BAD_ARGUMENT }
    ensures why { IsRefused result → result ≡ NO_MEMORY }
{
    match why {
        CallRefusal::Memory => NO_MEMORY,
        _ => call_number(why),
    }
}

// What became of a call or of an observation.
fn taken(number: Result<CallId, CallRefusal>, id: &mut u64) -> i32
    ensures answered { IsAnswered result
        → (number ≢ Err refusals.Memory) × TakenAnswers result id.new (number_of number) }
    ensures memory { IsRefused result → number ≡ Err refusals.Memory }
    ensures live { result ≢ NOT_LIVE }
    ensures path { result ≢ BAD_PATH }
    ensures argument { result ≢ BAD_ARGUMENT }
    ensures why { IsRefused result → result ≡ NO_MEMORY }
{
    match number {
        Ok(number) => {
            *id = number.0;
            NOTHING
        }
        Err(why) => refused(why),
    }
}

// Takes a request.
fn call(held: &mut Held, now: u64, request: Request, id: &mut u64) -> i32
    ensures led { IsAnswered result
        → Made (IsCall now (shown_request request) result id.new) (Some held.old) (Some held.new) }
    ensures kept { IsRefused result → held.new ≡ held.old }
    ensures beside { beside (Some held.new) ≡ beside (Some held.old) }
    ensures live { IsClient held.old → result ≢ NOT_LIVE }
    ensures path { result ≢ BAD_PATH }
    ensures argument { result ≢ BAD_ARGUMENT }
    ensures why { IsRefused result → IsUsual result }
{
    match held {
        Held::Client(client) => taken(client.client.call(Moment(now), request), id),
        Held::Server(_) | Held::Names(_) => NOT_LIVE,
    }
}

/// Takes a request, which starts at a later tick.
#[unsafe(no_mangle)]
pub extern "C" fn ks_client_call(
    alloc: Global,
    handle: &mut KsHandle,
    now: u64,
    what: &KsRequest,
    path: &[u8],
    body: &[u8],
    etags: &[KsTag],
    if_match: &[KsTag],
    id: &mut u64,
) -> i32
    // A call that is answered makes just that call of the client in the handle, with the request that is spelled, and hands on
    // its number.
    ensures led { IsAnswered result
        → CallsThat now (asked what.now (spelled path.now) body.now etags.now if_match.now) result id.new
        handle.old.held handle.new.held }
    // A call that is refused leaves the very client in the handle.
    ensures kept { IsRefused result → handle.new.held ≡ handle.old.held }
    // A call leaves the report that waits beside the client.
    ensures beside { beside handle.new.held ≡ beside handle.old.held }
    // A call is refused for its path exactly where the text spells none.
    ensures refused { RefusesPath path.now result }
    // A call of a path is refused for its arguments exactly where its method is none, an entity-tag has no byte or over 8, or
    // there are over four, unless memory is refused first.
    ensures argument { RefusesArguments path.now what.now etags.now if_match.now result }
    // A call is refused for its path or its arguments, for want of memory or of a client in the handle, and for
    // nothing else.
    ensures why { IsRefused result → (result ≡ BAD_PATH) ⊎ (result ≡ BAD_ARGUMENT) ⊎ IsUsual result }
    // `call` never says of a handle with a client that it holds none.
    ensures live { HoldsClient handle.old.held → result ≢ NOT_LIVE }
{
    let path = match path_of(alloc, path) {
        Ok(path) => path,
        Err(answer) => return answer,
    };
    let request = match request_of(alloc, what, path, body, etags, if_match) {
        Ok(request) => request,
        Err(answer) => return answer,
    };
    let Some(mut held) = handle.take(alloc) else {
        return NOT_LIVE;
    };
    let answer = call(held.as_mut(), now, request, id);
    handle.put(held);
    answer
}

// Takes an observation.
fn observe(held: &mut Held, now: u64, path: Path, id: &mut u64) -> i32
    ensures led { IsAnswered result → Made (IsObserve now path result id.new) (Some held.old) (Some held.new) }
    ensures kept { IsRefused result → held.new ≡ held.old }
    ensures beside { beside (Some held.new) ≡ beside (Some held.old) }
    ensures live { IsClient held.old → result ≢ NOT_LIVE }
    ensures path { result ≢ BAD_PATH }
    ensures why { IsRefused result → IsUsual result }
{
    match held {
        Held::Client(client) => taken(client.client.observe(Moment(now), path), id),
        Held::Server(_) | Held::Names(_) => NOT_LIVE,
    }
}

/// Takes an observation, whose registration starts at a later tick.
#[unsafe(no_mangle)]
pub extern "C" fn ks_client_observe(
    alloc: Global,
    handle: &mut KsHandle,
    now: u64,
    path: &[u8],
    id: &mut u64,
) -> i32
    // An observation that is answered is just that call of the client in the handle, and its number is handed on.
    ensures led { IsAnswered result
        → Made (IsObserve now (spelled path.now) result id.new) handle.old.held handle.new.held }
    // An observation that is refused leaves the very client in the handle.
    ensures kept { IsRefused result → handle.new.held ≡ handle.old.held }
    // An observation leaves the report that waits beside the client.
    ensures beside { beside handle.new.held ≡ beside handle.old.held }
    // An observation is refused for its path exactly where the text spells none.
    ensures refused { RefusesPath path.now result }
    // An observation is refused for its path, for want of memory or of a client in the handle, and for nothing else.
    ensures why { IsRefused result → (result ≡ BAD_PATH) ⊎ IsUsual result }
    // `observe` never says of a handle with a client that it holds none.
    ensures live { HoldsClient handle.old.held → result ≢ NOT_LIVE }
{
    let path = match path_of(alloc, path) {
        Ok(path) => path,
        Err(answer) => return answer,
    };
    let Some(mut held) = handle.take(alloc) else {
        return NOT_LIVE;
    };
    let answer = observe(held.as_mut(), now, path, id);
    handle.put(held);
    answer
}

// Takes the cancel of an observation.
fn cancel(held: &mut Held, now: u64, id: u64) -> i32
    ensures led { IsAnswered result → Made (IsCancel now id result) (Some held.old) (Some held.new) }
    ensures kept { IsRefused result → held.new ≡ held.old }
    ensures beside { beside (Some held.new) ≡ beside (Some held.old) }
    ensures live { IsClient held.old → result ≢ NOT_LIVE }
    ensures why { IsRefused result → result ≡ NOT_LIVE }
{
    match held {
        Held::Client(client) => match client.client.cancel(Moment(now), CallId(id)) {
            Ok(()) => NOTHING,
            Err(why) => cancel_number(why),
        },
        Held::Server(_) | Held::Names(_) => NOT_LIVE,
    }
}

/// Takes the cancel of an observation.
#[unsafe(no_mangle)]
pub extern "C" fn ks_client_cancel(alloc: Global, handle: &mut KsHandle, now: u64, id: u64) -> i32
    // A cancel that is answered makes just that call of the client in the handle.
    ensures led { IsAnswered result → Made (IsCancel now id result) handle.old.held handle.new.held }
    // A cancel that is refused leaves the very client in the handle.
    ensures kept { IsRefused result → handle.new.held ≡ handle.old.held }
    // A cancel leaves the report that waits beside the client.
    ensures beside { beside handle.new.held ≡ beside handle.old.held }
    // `cancel` never says of a handle with a client that it holds none.
    ensures live { HoldsClient handle.old.held → result ≢ NOT_LIVE }
    // A cancel is refused for want of a client in the handle, and for nothing else.
    ensures why { IsRefused result → result ≡ NOT_LIVE }
{
    let Some(mut held) = handle.take(alloc) else {
        return NOT_LIVE;
    };
    let answer = cancel(held.as_mut(), now, id);
    handle.put(held);
    answer
}

// Forgets an observation.
fn forget(held: &mut Held, id: u64) -> i32
    ensures led { IsAnswered result → Made (IsForget id result) (Some held.old) (Some held.new) }
    ensures kept { IsRefused result → held.new ≡ held.old }
    ensures beside { beside (Some held.new) ≡ beside (Some held.old) }
    ensures live { IsClient held.old → result ≢ NOT_LIVE }
    ensures why { IsRefused result → result ≡ NOT_LIVE }
{
    match held {
        Held::Client(client) => {
            if client.client.forget(CallId(id)) {
                DONE
            } else {
                NOTHING
            }
        }
        Held::Server(_) | Held::Names(_) => NOT_LIVE,
    }
}

/// Forgets an observation, without a message: 1, or 0 where it is not live or is being cancelled.
#[unsafe(no_mangle)]
pub extern "C" fn ks_client_forget(alloc: Global, handle: &mut KsHandle, id: u64) -> i32
    // An end of an observation that is answered makes just that call of the client in the handle, and says whether it was live.
    ensures led { IsAnswered result → Made (IsForget id result) handle.old.held handle.new.held }
    // An end of an observation that is refused leaves the very client in the handle.
    ensures kept { IsRefused result → handle.new.held ≡ handle.old.held }
    // To forget an observation leaves the report that waits beside the client.
    ensures beside { beside handle.new.held ≡ beside handle.old.held }
    // `forget` never says of a handle with a client that it holds none.
    ensures live { HoldsClient handle.old.held → result ≢ NOT_LIVE }
    // To forget an observation is refused for want of a client in the handle, and for nothing else.
    ensures why { IsRefused result → result ≡ NOT_LIVE }
{
    let Some(mut held) = handle.take(alloc) else {
        return NOT_LIVE;
    };
    let answer = forget(held.as_mut(), id);
    handle.put(held);
    answer
}
