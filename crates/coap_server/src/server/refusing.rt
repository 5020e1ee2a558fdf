//! What is done with a request that is refused, whatever it asks.
ghost use Rattle.std.specs.Prelude.{◌≡◌, ◌≤◌, ℕ, max, Option, [], IfOk, IfSome, IsOk, OnErr, OnOk, is_some, length};
ghost use Rattle.std.specs.Prelude.{true};
ghost use Rattle.std.specs.Prelude.{◌||◌};
ghost use Rattle.std.specs.Option.{option_map};
ghost use Rattle.coap_types.specs.declared.direction.Direction.TheVariants as direction;
ghost use Rattle.coap_types.specs.declared.token.TheConstants.{MAX_TOKEN_LEN as max_token_len};
ghost use Rattle.coap_types.specs.Recognised.{lacks_critical};
ghost use Rattle.coap_types.specs.Roles.{role_of};
ghost use Rattle.coap_types.specs.declared.message.Code.{Code as CodeSpec};
ghost use Rattle.coap_types.specs.declared.role.Role.TheVariants as role;
ghost use Rattle.coap_types.specs.OptionValues.{has};
ghost use Rattle.coap_codec.specs.Message.{Message};
ghost use Rattle.coap_layer.specs.Machine.State.{made};
ghost use Rattle.coap_layer.specs.Machine.Ups.{IsQuiet};
ghost use Rattle.coap_layer.specs.Trace as below;
ghost use Rattle.coap_exchange.specs.declared.answerer.Asked.{Asked as AskedSpec};
ghost use Rattle.coap_exchange.specs.AnswererLaw.{Exchanged};
ghost use Rattle.coap_exchange.specs.Machine.AnswererShown.{MayAnswer};
ghost use Rattle.coap_server.specs.Checks.{asks};
ghost use Rattle.coap_server.specs.Led.{Step};
ghost use Rattle.coap_server.specs.Refusing.{bad_response, is_error, refusal, refused_or_fed, refusing};
ghost use Rattle.coap_server.specs.Object.Shown.{kept_of, seen, state_of};

use crate::error_code::ErrorCode;
use crate::server::Server;
use crate::server::answering::answer_code;
use crate::server::observation_end::{forget, reject};
use crate::server::parts::Parts;
use coap_codec::View;
use coap_exchange::Asked;
use coap_resource::Store;
use coap_types::option_number::{PROXY_SCHEME, PROXY_URI};
use coap_types::{Code, Direction, Endpoint, Kind, Moment, carries, lacks_critical};
use std::alloc::{AllocError, Allocator};
use std::hash::BuildHasher;

// Whether a request has an option that is critical and not recognised.
fn is_bad(request: &View<'_>) -> bool
    ensures { result ≡ lacks_critical direction.Request request.now.options }
{
    lacks_critical(Direction::Request, request.options())
}

// Whether a request carries this option.
fn carries_option(request: &View<'_>, number: u16) -> bool
    ensures { result ≡ has number (asks request.now) }
{
    carries(Direction::Request, number, request.options())
}

// Whether a proxy is asked for.
fn asks_proxy(request: &View<'_>) -> bool
    ensures { result ≡ (has PROXY_URI (asks request.now) || has PROXY_SCHEME (asks request.now)) }
{
    let uri = carries_option(request, PROXY_URI);
    let scheme = carries_option(request, PROXY_SCHEME);
    uri || scheme
}

// The response to a request with an option that is critical and not recognised: a Non-confirmable one
// has none (RFC 7252, section 5.4.1).
fn bad_response(kind: Kind) -> Option<Code>
    ensures code { option_map (λ (c : CodeSpec). c.0) result ≡ bad_response kind }
    ensures sayable { IfSome result (λ c. role_of c.0 ≡ role.Response) }
{
    match kind {
        Kind::Con => Some(Code::BAD_OPTION),
        Kind::Non | Kind::Ack | Kind::Rst => None,
    }
}

// The code of the response to a request that is refused with this one.
fn refusal(request: &View<'_>, code: ErrorCode) -> Option<Code>
    ensures code { option_map (λ (c : CodeSpec). c.0) result ≡ refusal code request.now }
    ensures sayable { IfSome result (λ c. role_of c.0 ≡ role.Response) }
    ensures error { is_error code ≡ true }
{
    let said = code.code();
    if is_bad(request) {
        return bad_response(request.kind());
    }
    if asks_proxy(request) {
        return Some(Code::PROXYING_NOT_SUPPORTED);
    }
    Some(said)
}

// Answers a request that is refused.
fn refuse_request<S: Store<A>, A: Allocator + Copy, H: BuildHasher>(
    parts: &mut Parts<S, A, H>,
    asked: &Asked,
    response: Option<Code>,
)
    requires may { MayAnswer parts.old.exchanges asked.now }
    requires short { length asked.now.token ≤ max_token_len }
    requires sayable { IfSome response (λ c. role_of c.0 ≡ role.Response) }
    ensures asks { (sent : below.Answer) × Exchanged parts.old.exchanges.state
        (refusing asked.now (option_map (λ (c : CodeSpec). c.0) response) sent) parts.new.exchanges.state }
    ensures kept { kept_of parts.new
        ≡ record (kept_of parts.old) { exchanges = parts.new.exchanges.state; applied = [] } }
{
    match response {
        None => parts.applied = None,
        Some(code) => answer_code(parts, asked, code, None),
    }
}

// Takes a datagram that arrived at this moment: a request that is handed up is refused; whether one was.
// After an `Err` all is as before.
fn refuse_parts<S: Store<A>, A: Allocator + Copy, H: BuildHasher>(
    parts: &mut Parts<S, A, H>,
    now: Moment,
    from: Endpoint,
    bytes: &[u8],
    code: ErrorCode,
) -> Result<bool, AllocError>
    requires timed { parts.old.observers.clock ≤ parts.old.clock.0 }
    ensures step { IfOk result (λ refused. (word : ℕ) → (up : below.Answer) × (came : Option (AskedSpec × Message))
        × (response : Option ℕ) × (sent : below.Answer) × (refused ≡ is_some came) × Step (seen S.content parts.old)
        (refused_or_fed now.0 from bytes.now word code up came response sent) (seen S.content parts.new)) }
    ensures timed { OnOk result (parts.new.observers.clock ≤ parts.new.clock.0) }
    ensures never { OnOk result (((seen S.content parts.new).own.store ≡ (seen S.content parts.old).own.store)
        × ((seen S.content parts.new).own.applied ≡ [])) }
    ensures err { OnErr result (kept_of parts.new ≡ kept_of parts.old) }
    ensures quiet { IsQuiet (made parts.old.exchanges.state.layer (max parts.old.clock.0 now.0)
        (below.Receive from bytes.now)) → IsOk result }
{
    let at = parts.clock.later(now);
    let came = parts.exchanges.incoming(at, from, bytes)?;
    parts.clock = at;
    match came {
        None => {
            forget(&mut parts.observers, parts.exchanges.ended());
            reject(&mut parts.observers, at, parts.exchanges.unmatched());
            parts.applied = None;
            Ok(false)
        }
        Some((asked, request)) => {
            let response = refusal(&request, code);
            refuse_request(parts, &asked, response);
            Ok(true)
        }
    }
}

impl<S: Store<A>, A: Allocator + Copy, H: BuildHasher> Server<S, A, H> {
    /// As `feed`, but a request that is new is answered with this error, and nothing that it asks is done (RFC 7252,
    /// sections 5.9.2 and 5.9.3); whether there was one. It is remembered, so that its copies get that answer. A copy
    /// of a request that was served gets the answer that was stored. What has to be said whatever is asked comes
    /// first: an option that is critical and not recognised is answered 4.02 (or not at all, where the request is
    /// Non-confirmable), and a proxy's request 5.05. After an `Err` the server is as before, and the datagram counts
    /// as lost.
    pub fn refuse(
        &mut self,
        now: Moment,
        from: Endpoint,
        bytes: &[u8],
        word: u64,
        code: ErrorCode,
    ) -> Result<bool, AllocError>
        // What a datagram whose request is refused makes of the server is a step of its machine: the refusal of a
        // request that is handed up, and where there is none what a feed makes of it.
        ensures step { IfOk result (λ refused. (up : below.Answer) × (came : Option (AskedSpec × Message))
            × (response : Option ℕ) × (sent : below.Answer) × (refused ≡ is_some came)
            × Step (state_of S.content self.old) (refused_or_fed now.0 from bytes.now word code up came response sent)
            (state_of S.content self.new)) }
        // Whatever a datagram asks that is refused, the store is as it was, and nothing is applied.
        ensures never { OnOk result (((state_of S.content self.new).own.store ≡ (state_of S.content self.old).own.store)
            × ((state_of S.content self.new).own.applied ≡ [])) }
        // A datagram to be refused for which there is no memory leaves the server as it was.
        ensures err { OnErr result (self.new ≡ self.old) }
        // Where the message layer sends nothing and hands nothing up, nothing is refused, and it takes no memory.
        ensures quiet { IsQuiet (made self.old.exchanges.layer (max self.old.clock now.0)
            (below.Receive from bytes.now)) → IsOk result }
    {
        refuse_parts(&mut self.parts, now, from, bytes, code)
    }
}
