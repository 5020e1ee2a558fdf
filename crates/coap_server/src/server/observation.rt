//! What a GET says of an observation (RFC 7641, section 2).
ghost use Rattle.std.specs.Prelude.{◌≡◌, ◌≤◌, Ok, true, false, IfOk, OnErr, OnOk};
ghost use Rattle.coap_types.specs.CoapOption.{options_of};
ghost use Rattle.coap_types.specs.OptionValues.{uint_at};
ghost use Rattle.coap_resource.specs.RequestOptions.{block_of, szx_by};
ghost use Rattle.coap_resource.specs.Serves.{question_of, reply_of};
ghost use Rattle.coap_server.specs.Observers.{observers_with, observes, registers, sequence};
ghost use Rattle.coap_server.specs.Observers.{sequence_if};
ghost use Rattle.coap_server.specs.Object.Registering.{has_place, may_register, registered_by};

use coap_exchange::Asked;
use coap_observe::{Observers, sequence_number};
use coap_resource::{Asking, Response, Store, value_of};
use coap_types::option_number::{BLOCK2, OBSERVE};
use coap_types::{Block, Code, Method, Moment, Opt, Path, Szx, uint_of};
use std::alloc::{AllocError, Allocator};

// What Observe says in a GET that registers (RFC 7641, section 2).
const REGISTER: u32 = 0;
// What Observe says in a GET that deregisters (RFC 7641, section 2).
const DEREGISTER: u32 = 1;

const _: () = prove!(REGISTER == 0 && DEREGISTER == 1);

/// The number that the first option of this number spells (RFC 7252, section 3.2).
pub(crate) fn number_at(options: &[Opt<'_>], number: u16) -> Option<u32>
    ensures { result ≡ uint_at number (options_of options.now) }
{
    uint_of(value_of(options, number)?)
}

// The size of the blocks of a registration: the smaller of the request's and the server's (RFC 7959,
// section 2.6).
fn registered_szx(options: &[Opt<'_>], szx: Szx) -> Szx
    ensures { result ≡ szx_by (block_of (options_of options.now)) szx }
{
    let Some(value) = number_at(options, BLOCK2) else {
        return szx;
    };
    match Block::of(value) {
        Some(block) if block.szx.get() < szx.get() => block.szx,
        _ => szx,
    }
}

/// The number that Observe says of what a path holds (RFC 7641, section 4.4).
pub(crate) fn sequence_of<S: Store<A>, A: Allocator + Copy>(
    store: &S,
    path: &Path<A>,
) -> Option<u32>
    ensures { result ≡ sequence ((S.content store.now).holds path.now) }
{
    let held = store.get(path)?;
    Some(sequence_number(held.version))
}

// Whether it is a GET with this value of Observe.
fn observes<A: Allocator>(asking: &Asking<'_, A>, value: u32) -> bool
    ensures { result ≡ observes value (question_of asking.now) }
{
    match (asking.method, number_at(asking.options, OBSERVE)) {
        (Method::Get, Some(said)) => said == value,
        _ => false,
    }
}

// Whether it is a GET that asks to register, and was answered with the start of a representation
// (RFC 7641, section 4.1).
fn may_register<A: Allocator>(asking: &Asking<'_, A>, response: &Response<'_, A>) -> bool
    ensures { result ≡ may_register (question_of asking.now) (reply_of response.now) }
{
    observes(asking, REGISTER) && response.code == Code::CONTENT && response.offset == 0
}

/// Registers and removes an observer as a request asks that was answered so at this moment, and the
/// number that Observe says in the response (RFC 7641, section 4.1). After an `Err` all is as before.
pub(crate) fn observe<S: Store<A>, A: Allocator + Copy>(
    store: &S,
    observers: &mut Observers<A>,
    at: Moment,
    asked: &Asked,
    asking: &Asking<'_, A>,
    response: &Response<'_, A>,
) -> Result<Option<u32>, AllocError>
    requires timed { observers.old.clock ≤ at.0 }
    ensures observers { OnOk result (observers.new.list
        ≡ observers_with at.0 asked.now (question_of asking.now) (reply_of response.now) observers.old.list) }
    ensures number { IfOk result (λ number. number
        ≡ sequence_if (registers asked.now (question_of asking.now) (reply_of response.now) observers.old.list)
        ((S.content store.now).holds asking.now.path.now)) }
    ensures timed { observers.new.clock ≤ at.0 }
    ensures err { OnErr result (observers.new ≡ observers.old) }
{
    if may_register(asking, response) {
        let registered = register(observers, at, asked, asking)?;
        return Ok(if registered {
            sequence_of(store, asking.path)
        } else {
            None
        });
    }
    if observes(asking, DEREGISTER) {
        let _was_there = observers.remove(asked.from, &asked.token);
    }
    Ok(None)
}

// Registers who asked, where a place is free.
fn register<A: Allocator + Copy>(
    observers: &mut Observers<A>,
    at: Moment,
    asked: &Asked,
    asking: &Asking<'_, A>,
) -> Result<bool, AllocError>
    requires timed { observers.old.clock ≤ at.0 }
    ensures free { IfOk result (λ done. done ≡ has_place asked.now observers.old.list) }
    ensures registered { result ≡ Ok true → observers.new.list
        ≡ registered_by at.0 asked.now (question_of asking.now) observers.old.list }
    ensures full { result ≡ Ok false → observers.new.list ≡ observers.old.list }
    ensures timed { observers.new.clock ≤ at.0 }
    ensures err { OnErr result (observers.new ≡ observers.old) }
{
    let path = asking.path.clone()?;
    let szx = registered_szx(asking.options, asking.szx);
    observers.register(at, asked.from, asked.token.copy(), path, szx)
}
