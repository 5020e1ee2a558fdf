//! What is done with a request that was handed up.
ghost use Rattle.std.specs.Prelude.{◌≡◌, ◌≤◌, ℕ, IfOk, OnErr, OnOk, length};
ghost use Rattle.coap_types.specs.declared.token.TheConstants.{MAX_TOKEN_LEN as max_token_len};
ghost use Rattle.coap_types.specs.CoapOption.{options_of};
ghost use Rattle.coap_types.specs.Recognised.{Recognised};
ghost use Rattle.coap_types.specs.declared.direction.Direction.TheVariants as direction;
ghost use Rattle.coap_codec.specs.Message.{Message};
ghost use Rattle.coap_exchange.specs.Machine.AnswererShown.{MayAnswer};
ghost use Rattle.coap_server.specs.Checks.{asks, verdict_on};
ghost use Rattle.coap_server.specs.Object.Checked.{CanBeAnswered, verdict_as};
ghost use Rattle.coap_server.specs.Object.Handled.{IsHandled};
ghost use Rattle.coap_server.specs.Object.Shown.{kept_of, seen};

use crate::server::answering::answer_code;
use crate::server::handling::handle_whole;
use crate::server::parts::Parts;
use crate::server::request_checks::{Checked, check};
use crate::server::upload::{Upload, handle_block};
use coap_codec::View;
use coap_exchange::Asked;
use coap_resource::{Asking, Store};
use coap_types::{Direction, Opt, recognised};
use std::alloc::{AllocError, Allocator};
use std::hash::BuildHasher;

// The options of a request that are recognised, and whether a critical one is not.
#[inline(always)]
fn recognise<'a, A: Allocator + Copy>(
    alloc: A,
    request: &View<'a>,
) -> Result<(Vec<Opt<'a>, A>, bool), AllocError>
    ensures { IfOk result (λ found.
        Recognised direction.Request request.now.options (options_of found.0.items) found.1) }
{
    recognised(alloc, Direction::Request, request.options())
}

// The recognised options of a request, and what the checks say of it.
#[inline(always)]
fn judge<'a, A: Allocator + Copy>(
    alloc: A,
    request: &View<'a>,
) -> Result<(Vec<Opt<'a>, A>, Checked<A>), AllocError>
    ensures options { IfOk result (λ judged. options_of judged.0.items ≡ asks request.now) }
    ensures verdict { IfOk result (λ judged. (szx : ℕ) → verdict_as szx request.now judged.1
        ≡ verdict_on szx request.now) }
    ensures sayable { IfOk result (λ judged. CanBeAnswered judged.1) }
{
    let (options, bad) = recognise(alloc, request)?;
    let checked = check(alloc, request.kind(), request.code(), &options, bad)?;
    Ok((options, checked))
}

// Does what the checks said, with the recognised options of the request.
#[inline(always)]
fn carry_out<S: Store<A>, A: Allocator + Copy, H: BuildHasher>(
    parts: &mut Parts<S, A, H>,
    asked: &Asked,
    payload: &[u8],
    options: &[Opt<'_>],
    checked: Checked<A>,
) -> Result<(), AllocError>
    requires may { MayAnswer parts.old.exchanges asked.now }
    requires short { length asked.now.token ≤ max_token_len }
    requires timed { parts.old.observers.clock ≤ parts.old.clock.0 }
    requires sayable { CanBeAnswered checked }
    ensures handled { OnOk result ((m : Message) → options_of options.now ≡ asks m → payload.now ≡ m.payload
        → verdict_as parts.old.szx m checked ≡ verdict_on parts.old.szx m
        → IsHandled (seen S.content parts.old) asked.now m (seen S.content parts.new)) }
    ensures timed { OnOk result (parts.new.observers.clock ≤ parts.new.clock.0) }
    ensures before { parts.new.exchanges.before ≡ parts.old.exchanges.before }
    ensures err { OnErr result
        (record (kept_of parts.new) { exchanges = parts.old.exchanges.state } ≡ kept_of parts.old) }
{
    match checked {
        Checked::Ignored => {
            parts.applied = None;
            Ok(())
        }
        Checked::Refused(code) => {
            answer_code(parts, asked, code, None);
            Ok(())
        }
        Checked::Asks(method, path) => {
            let asking = Asking {
                method,
                path: &path,
                options,
                body: payload,
                szx: parts.szx,
            };
            handle_whole(parts, asked, &asking)
        }
        Checked::Uploads(method, path, block) => {
            let upload = Upload {
                method,
                path,
                options,
                block,
                payload,
            };
            handle_block(parts, asked, upload)
        }
    }
}

/// Does what the checks, the block and the method of a request say, and answers or defers it. After
/// an `Err` only the exchanges are not as before; they can be taken back.
pub(crate) fn handle<S: Store<A>, A: Allocator + Copy, H: BuildHasher>(
    parts: &mut Parts<S, A, H>,
    asked: &Asked,
    request: &View<'_>,
) -> Result<(), AllocError>
    requires may { MayAnswer parts.old.exchanges asked.now }
    requires short { length asked.now.token ≤ max_token_len }
    requires timed { parts.old.observers.clock ≤ parts.old.clock.0 }
    ensures handled { OnOk result (IsHandled (seen S.content parts.old) asked.now request.now
        (seen S.content parts.new)) }
    ensures timed { OnOk result (parts.new.observers.clock ≤ parts.new.clock.0) }
    ensures before { parts.new.exchanges.before ≡ parts.old.exchanges.before }
    ensures err { OnErr result
        (record (kept_of parts.new) { exchanges = parts.old.exchanges.state } ≡ kept_of parts.old) }
{
    let (options, checked) = judge(parts.alloc, request)?;
    carry_out(parts, asked, request.payload(), &options, checked)
}
