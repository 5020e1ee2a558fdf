//! The requests of a client, and what becomes of the operation that runs by the sending of one.
ghost use Rattle.std.specs.Prelude.{◌≡◌, ◌++◌, ℕ, List, map, option_copied, true, IfOk, IsOk, OnErr, ◌<◌, Some};
ghost use Rattle.std.specs.Option.{option_map};
ghost use Rattle.coap_types.specs.OptionValues.{option_with};
ghost use Rattle.coap_types.specs.Path.{segments_of};
ghost use Rattle.coap_client.specs.Own.{Observation as Observed, Registering, Fetching, Cancelling, Operation as Op};
ghost use Rattle.coap_client.specs.Own.{operation_number};
ghost use Rattle.coap_client.specs.Object.CallShown.{IsFew, IsShortPath};
ghost use Rattle.coap_exchange.specs.Machine.AskerShown.{IsAskable};
ghost use Rattle.coap_client.specs.Requests.{get, message_of, path_options};
ghost use Rattle.coap_client.specs.Object.Sends.{Sends};
ghost use Rattle.coap_client.specs.Object.Shown.{shown_observation, shown_asked, shown_operation};
ghost use Rattle.std.specs.VecDeque.{deque_len, deque_capacity};
ghost use Rattle.coap_client.specs.Object.Happens.{Apart, Closes};
ghost use Rattle.coap_client.specs.Object.Held.{own_of, seen};

use crate::client::end::fail;
use crate::client::last_request::SentRequest;
use crate::client::observations::{block_asked, segments_of, token_of};
use crate::client::operation::{ClientOperations, Waiting};
use crate::client::parts::{Now, Parts};
use crate::client::report::{CallId, Report};
use crate::client::request_options::{bytes_in, get_options};
use crate::client::short_path::ShortPath;
use coap_exchange::{Ask, AskRefusal, Asker};
use coap_operations::Running;
use coap_types::option_number::{BLOCK2, OBSERVE};
use coap_types::{Method, Moment, Token, uint_bytes};
use std::alloc::{AllocError, Allocator};
use std::hash::BuildHasher;

// The values of Observe in a request (RFC 7641, section 2).
const REGISTER: u32 = 0;

const DEREGISTER: u32 = 1;

/// Sends a request, and answers its token; None where no Message ID or no token is free for it
/// (RFC 7252, section 4.4).
pub fn ask<A: Allocator + Copy, H: BuildHasher>(
    asker: &mut Asker<A, H>,
    ask: &Ask<'_>,
    now: Now,
) -> Result<Option<Token>, AllocError>
    requires { IsAskable ask.now }
    ensures sends { IfOk result (λ token. Sends asker.old.state now.at.0 ask.now now.word token asker.new.state) }
    ensures before { asker.new.before ≡ asker.old.before }
    ensures err { OnErr result (asker.new ≡ asker.old) }
    ensures had { asker.old.has_room ≡ true → IsOk result }
{
    match asker.ask(now.at, ask, now.word) {
        Ok(token) => Ok(Some(token)),
        Err(AskRefusal::Memory) => Err(AllocError),
        Err(AskRefusal::Running) => Ok(None),
        Err(AskRefusal::NoIds) => Ok(None),
        Err(AskRefusal::TokensSpent) => Ok(None),
    }
}

/// The registration of an observation (RFC 7641, section 3.1).
pub fn register<A: Allocator + Copy, H: BuildHasher>(
    asker: &mut Asker<A, H>,
    path: &ShortPath<A>,
    now: Now,
) -> Result<Option<Token>, AllocError>
    ensures sends { (os : List Observed) (number : ℕ)
        → IfOk result (λ token. Sends asker.old.state now.at.0
        (message_of os (Registering number path.now)) now.word token asker.new.state) }
    ensures before { asker.new.before ≡ asker.old.before }
    ensures err { OnErr result (asker.new ≡ asker.old) }
    ensures had { asker.old.has_room ≡ true → IsOk result }
{
    let observe = uint_bytes(REGISTER);
    get(
        asker,
        None,
        Some(observe.as_slice()),
        path.segments(),
        None,
        now,
    )
}

/// Asks for the rest of a representation (RFC 7959, section 2.6).
pub fn ask_rest<A: Allocator + Copy, H: BuildHasher>(
    asker: &mut Asker<A, H>,
    operations: &ClientOperations<A>,
    number: u64,
    now: Now,
) -> Result<Option<Token>, AllocError>
    ensures sends { IfOk result (λ token. Sends asker.old.state now.at.0
        (message_of (map shown_observation operations.now.live) (Fetching number)) now.word token asker.new.state) }
    ensures before { asker.new.before ≡ asker.old.before }
    ensures err { OnErr result (asker.new ≡ asker.old) }
    ensures had { asker.old.has_room ≡ true → IsOk result }
{
    let block = block_asked(operations, number);
    let path = segments_of(operations, number);
    let block = bytes_in(&block);
    get(asker, None, None, path, block, now)
}

/// The cancel of an observation, with its token (RFC 7641, section 3.6).
pub fn cancel<A: Allocator + Copy, H: BuildHasher>(
    asker: &mut Asker<A, H>,
    operations: &ClientOperations<A>,
    number: u64,
    now: Now,
) -> Result<Option<Token>, AllocError>
    ensures sends { IfOk result (λ token. Sends asker.old.state now.at.0
        (message_of (map shown_observation operations.now.live) (Cancelling number)) now.word token asker.new.state) }
    ensures before { asker.new.before ≡ asker.old.before }
    ensures err { OnErr result (asker.new ≡ asker.old) }
    ensures had { asker.old.has_room ≡ true → IsOk result }
{
    let token = token_of(operations, number);
    let observe = uint_bytes(DEREGISTER);
    let path = segments_of(operations, number);
    get(
        asker,
        token.as_ref(),
        Some(observe.as_slice()),
        path,
        None,
        now,
    )
}

/// A GET: its token, if it is not a fresh one, its Observe, its path and its Block2.
pub fn get<A: Allocator + Copy, H: BuildHasher>(
    asker: &mut Asker<A, H>,
    token: Option<&Token>,
    observe: Option<&[u8]>,
    path: &[Vec<u8, A>],
    block: Option<&[u8]>,
    now: Now,
) -> Result<Option<Token>, AllocError>
    requires observe { IsFew (option_copied observe) }
    requires path { IsShortPath (segments_of path.now) }
    requires block { IsFew (option_copied block) }
    ensures sends { IfOk result (λ given. Sends asker.old.state now.at.0 (get (option_map (λ t. t.now) token.entry)
        (option_with OBSERVE (option_copied observe.entry)
        ++ (path_options (segments_of path.now) ++ option_with BLOCK2 (option_copied block.entry)))) now.word given
        asker.new.state) }
    ensures before { asker.new.before ≡ asker.old.before }
    ensures err { OnErr result (asker.new ≡ asker.old) }
    ensures had { asker.old.has_room ≡ true → IsOk result }
{
    let options = get_options(observe, path, block);
    let request = Ask {
        method: Method::Get,
        token,
        options: options.as_slice(),
        payload: &[],
    };
    ask(asker, &request, now)
}

/// Notes that the request of the operation that runs was sent, and answers it. A request that was given no
/// token could not be sent: that ends the operation.
pub fn note_sending<A: Allocator + Copy, H: BuildHasher>(
    parts: &mut Parts<A, H>,
    at: Moment,
    given: Option<Token>,
) -> Option<SentRequest>
    requires room { deque_len parts.old.held.reports < deque_capacity parts.old.held.reports }
    requires apart { Apart (own_of parts.old.held) }
    ensures closes { Closes (own_of parts.old.held) at.0 given parts.old.asker.state (shown_asked result)
        (seen parts.new) }
    ensures before { parts.new.asker.before ≡ parts.old.asker.before }
{
    match given {
        Some(token) => {
            parts.held.sent = at;
            let call = CallId(number_of(&parts.held.operations)?);
            Some(SentRequest { call, token })
        }
        None => {
            fail(parts, true, Report::NoIds);
            None
        }
    }
}

// The number of an operation.
fn number_of<A: Allocator + Copy>(operations: &ClientOperations<A>) -> Option<u64>
    ensures { (op : Op) → option_map shown_operation operations.now.running ≡ Some op → result ≡ operation_number op }
{
    match operations.running()? {
        Running::Started(Waiting::Calling(number, _) | Waiting::Registering(number, _)) => {
            Some(*number)
        }
        Running::Fetching(number) | Running::Cancelling(number) => Some(number),
        Running::Dropped => None,
    }
}
