//! A request of a client: how it is made, and what becomes of it.
ghost use Rattle.std.specs.Prelude.{◌≡◌, ℕ, List, [], ◌∷◌, IfOk, string_bytes};
ghost use Rattle.coap_types.specs.declared.endpoint.Endpoint.{Endpoint};
ghost use Rattle.coap_types.specs.declared.request.Method.TheVariants.{Get, Put};
ghost use Rattle.coap_block.specs.Sizes.{Sizes};
ghost use Rattle.coap_layer.specs.declared.setup.Setup.{Setup as SetupSpec};
ghost use Rattle.coap_client.specs.Led.{Led, Step};
ghost use Rattle.coap_client.specs.Object.CallShown.{shown_request};
ghost use Rattle.coap_client.specs.Object.Shown.{number_of};
ghost use Rattle.coap_client.specs.Trace.{Call, Calls};
ghost use Rattle.coap_waits.specs.Printed.{outcome_text};
ghost use Rattle.coap_scripts.specs.Script.{plain_request};

use bytes::Bytes;
use coap_ends::{CallId, CallRefusal, Client, Report};
use coap_scripts::{plain, report_text};
use coap_status::Stop;
use coap_types::{Method, Moment, Path, Request};
use std::alloc::{AllocError, Allocator, Global};
use std::hash::BuildHasher;

/// What became of a request.
#[derive(Drop)]
pub enum Outcome {
    /// The client did not take it.
    Refused(CallRefusal),
    /// The client reported this.
    Reported(Report),
    /// The client gave up after so many seconds.
    GaveUp(u64),
}

/// A PUT of a body at a path (RFC 7252, section 5.8.3).
pub fn put_request(alloc: Global, path: &Path, body: &[u8]) -> Result<Request, AllocError>
    // The request that `put` makes is a PUT of that body at that path, and has no option more.
    ensures { IfOk result (λ made. shown_request made ≡ plain_request Put path.now body.now) }
{
    let body = Bytes::copy_from_slice(alloc, body)?;
    Ok(plain(Method::Put, path.clone()?, body))
}

/// A GET of what is at a path (RFC 7252, section 5.8.1).
pub fn get_request(path: &Path) -> Result<Request, AllocError>
    // The request that `get` makes is a GET of that path, and has no option more.
    ensures { IfOk result (λ made. shown_request made ≡ plain_request Get path.now []) }
{
    Ok(plain(Method::Get, path.clone()?, Bytes::new()))
}

/// Hands a request to a client: its number, or the refusal where the client does not take it.
pub fn call<H: BuildHasher>(
    client: &mut Client<Global, H>,
    now: Moment,
    request: Request,
) -> Result<Result<CallId, CallRefusal>, Stop>
    // A request that is handed over is one call of the client, with this answer.
    ensures step { IfOk result (λ answer. Step client.old (Calls now.0 (shown_request request) (number_of answer))
        client.new) }
    // What leads to the client before the call leads, with the call and its answer, to the client after it.
    ensures led { IfOk result (λ answer. (server : Endpoint) (sizes : Sizes) (w : SetupSpec) (t : List Call)
        → Led server sizes w t client.old
        → Led server sizes w (Calls now.0 (shown_request request) (number_of answer) ∷ t) client.new) }
{
    match client.call(now, request) {
        Ok(id) => Ok(Ok(id)),
        Err(CallRefusal::Memory) => Err(Stop::Memory),
        Err(refusal) => Ok(Err(refusal)),
    }
}

/// What became of a request, in print.
pub fn outcome_text(alloc: Global, outcome: &Outcome) -> Result<String, AllocError>
    // The text of what became of a request is the number of a refusal, the report, or after how long it was given up.
    ensures { IfOk result (λ text. string_bytes text ≡ outcome_text outcome.now) }
{
    match outcome {
        Outcome::Refused(refusal) => {
            let number = refusal.number();
            format!(in alloc; "refused {number}")
        }
        Outcome::Reported(report) => report_text(alloc, report),
        Outcome::GaveUp(seconds) => {
            format!(in alloc; "gave up after {seconds} s; the request may still be applied")
        }
    }
}
