//! The event that a line says.
ghost use Rattle.std.specs.Prelude.{◌≡◌, ℕ, List, IfErr, IfOk};
ghost use Rattle.coap_types.specs.declared.endpoint.Endpoint.{Endpoint as EndpointSpec};
ghost use Rattle.coap_client.specs.Trace.{Request as RequestSpec};
ghost use Rattle.coap_record.specs.Events.{Event as EventSpec, What as WhatSpec};
ghost use Rattle.coap_client.specs.Object.CallShown.{shown_request};
ghost use Rattle.coap_run.specs.Run.Happening.{event_of, what_of};
ghost use Rattle.coap_scripts.specs.Script.{SaysEvent, SaysParts, SaysPath, SaysPathAndBody, SaysRequest};
ghost use Rattle.coap_scripts.specs.Script.{SaysStranger, SaysWhat};
ghost use Rattle.coap_run.specs.declared.running.event.Side.{Side as SideSpec};

use crate::requests::plain;
use crate::script::fields::{cut, last_word, number, path, side};
use crate::script::refusal::LineRefusal;
use crate::script::words::{Kind, kind_named, method_named};
use bytes::Bytes;
use coap_common::TEXT_PLAIN;
use coap_ends::CallId;
use coap_run::{Event, Side, What};
use coap_types::{Endpoint, Method, Moment, Path, Request};
use std::alloc::Allocator;

// The word that each event has.
const WORD: u64 = 0;
// Where strangers are.
const STRANGER_IP: [u8; 4] = [127, 0, 0, 1];

/// The event that a line says: its moment, a word and the words after that.
pub(super) fn event_of_line<A: Allocator + Copy>(
    alloc: A,
    line: &[u8],
) -> Result<Event<A>, LineRefusal>
    ensures said { IfOk result (λ event. SaysEvent (event_of event) line.now) }
    ensures none { IfErr result (λ e. e ≡ LineRefusal.Unreadable
        → (event : EventSpec) → SaysEvent event line.now → ⊥) }
{
    let (moment, rest) = cut(line)?;
    let at = Moment(number(moment)?);
    let what = what(alloc, rest)?;
    Ok(Event {
        at,
        word: WORD,
        what,
    })
}

// What happens.
fn what<A: Allocator + Copy>(alloc: A, line: &[u8]) -> Result<What<A>, LineRefusal>
    ensures said { IfOk result (λ what. SaysWhat (what_of what) line.now) }
    ensures none { IfErr result (λ e. e ≡ LineRefusal.Unreadable → (what : WhatSpec) → SaysWhat what line.now → ⊥) }
{
    let (word, rest) = cut(line)?;
    match kind_named(word)? {
        Kind::Call => Ok(What::Call(request(alloc, rest)?)),
        Kind::Observe => Ok(What::Observe(last_path(alloc, rest)?)),
        Kind::Cancel => Ok(What::Cancel(CallId(number(rest)?))),
        Kind::Forget => Ok(What::Forget(CallId(number(rest)?))),
        Kind::Set => {
            let (path, body) = path_and_body(alloc, rest)?;
            Ok(What::Set(path, Some(TEXT_PLAIN), body))
        }
        Kind::Remove => Ok(What::Remove(last_path(alloc, rest)?)),
        Kind::Tick => Ok(What::Tick(side(rest)?)),
        Kind::Deliver => Ok(What::Deliver(number(rest)? as usize)),
        Kind::Stranger => {
            let (side, from, bytes) = stranger(alloc, rest)?;
            Ok(What::Stranger(side, from, bytes))
        }
    }
}

// A request of a call: a method, a path, and a body where the method has one.
fn request<A: Allocator + Copy>(alloc: A, line: &[u8]) -> Result<Request<A>, LineRefusal>
    ensures said { IfOk result (λ request. SaysRequest (shown_request request) line.now) }
    ensures none { IfErr result (λ e. e ≡ LineRefusal.Unreadable
        → (request : RequestSpec) → SaysRequest request line.now → ⊥) }
{
    let (word, rest) = cut(line)?;
    let method = method_named(word)?;
    let (path, body) = request_parts(alloc, method, rest)?;
    Ok(plain(method, path, body))
}

// The path and the body of a request, which is empty where the method has none.
fn request_parts<A: Allocator + Copy>(
    alloc: A,
    method: Method,
    line: &[u8],
) -> Result<(Path<A>, Bytes<A>), LineRefusal>
    ensures said { IfOk result (λ parts. SaysParts method parts.0 parts.1 line.now) }
    ensures none { IfErr result (λ e. e ≡ LineRefusal.Unreadable
        → (path : List (List ℕ)) (body : List ℕ) → SaysParts method path body line.now → ⊥) }
{
    match method {
        Method::Get => Ok((last_path(alloc, line)?, Bytes::new())),
        Method::Post => path_and_body(alloc, line),
        Method::Put => path_and_body(alloc, line),
        Method::Delete => Ok((last_path(alloc, line)?, Bytes::new())),
    }
}

// A path that ends a line.
fn last_path<A: Allocator + Copy>(alloc: A, line: &[u8]) -> Result<Path<A>, LineRefusal>
    ensures said { IfOk result (λ path. SaysPath line.now path) }
    ensures none { IfErr result (λ e. e ≡ LineRefusal.Unreadable
        → (path : List (List ℕ)) → SaysPath line.now path → ⊥) }
{
    path(alloc, last_word(line)?)
}

// A path, and the bytes after the space after it.
fn path_and_body<A: Allocator + Copy>(
    alloc: A,
    line: &[u8],
) -> Result<(Path<A>, Bytes<A>), LineRefusal>
    ensures said { IfOk result (λ parts. SaysPathAndBody line.now parts.0 parts.1) }
    ensures none { IfErr result (λ e. e ≡ LineRefusal.Unreadable
        → (path : List (List ℕ)) (body : List ℕ) → SaysPathAndBody line.now path body → ⊥) }
{
    let (word, body) = cut(line)?;
    if word.is_empty() {
        return Err(LineRefusal::Unreadable);
    }
    let path = path(alloc, word)?;
    Ok((path, Bytes::copy_from_slice(alloc, body)?))
}

// A datagram of a stranger: to which end, from which port, and its bytes in hex.
fn stranger<A: Allocator + Copy>(
    alloc: A,
    line: &[u8],
) -> Result<(Side, Endpoint, Bytes<A>), LineRefusal>
    ensures said { IfOk result (λ it. SaysStranger it.0 it.1 it.2 line.now) }
    ensures none { IfErr result (λ e. e ≡ LineRefusal.Unreadable
        → (side : SideSpec) (from : EndpointSpec) (bytes : List ℕ) → SaysStranger side from bytes line.now → ⊥) }
{
    let (end, rest) = cut(line)?;
    let side = side(end)?;
    let (port, bytes) = cut(rest)?;
    let Ok(port) = u16::try_from(number(port)?) else {
        return Err(LineRefusal::Unreadable);
    };
    let bytes = hex::decode(alloc, bytes)?;
    let from = Endpoint {
        ip: STRANGER_IP,
        port,
    };
    Ok((side, from, Bytes::from_vec(bytes)?))
}
