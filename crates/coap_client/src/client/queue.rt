//! How a client takes a call, an observation or a cancel, which starts at a later tick.
ghost use Rattle.std.specs.Prelude.{◌≡◌, ◌≢◌, ◌<◌, ◌^◌, ◌-◌, false, is_ok, Err, Ok, IfOk, OnErr, OnOk, length};
ghost use Rattle.coap_exchange.specs.AskerLaw as X;
ghost use Rattle.coap_client.specs.declared.refusals.CallRefusal.TheVariants as refusals;
ghost use Rattle.coap_client.specs.Deeds.{at};
ghost use Rattle.coap_client.specs.Queue.{call_answer, numbered, observe_answer, taken_by};
ghost use Rattle.coap_client.specs.Led.{Step};
ghost use Rattle.coap_client.specs.Trace.{Calls, Observes, Cancels};
ghost use Rattle.coap_client.specs.Object.CallShown.{is_long, is_long_path, shown_request};
ghost use Rattle.coap_client.specs.Object.Happens.{left};
ghost use Rattle.coap_client.specs.Object.Held.{own_of};
ghost use Rattle.coap_client.specs.Object.Shown.{number_of, shown_waiting};
ghost use Rattle.coap_client.specs.Object.CallAnswers.{refusal_in};

use crate::client::held::Held;
use crate::client::observations::{are_watches_full, is_cancelled, is_live};
use crate::client::operation::Waiting;
use crate::client::report::CallId;
use crate::client::short_path::ShortPath;
use crate::client::taken_call::TakenCall;
use crate::{CallRefusal, CancelRefusal, MAX_WAITING_CALLS};
use coap_types::{Moment, Path, Request};
use std::alloc::{AllocError, Allocator};

/// Takes a request, which starts at a later tick: its number, or why it is not taken. The lowest
/// number of a refusal is answered, and `Memory` only where none other holds.
pub fn call<A: Allocator + Copy>(
    held: &mut Held<A>,
    now: Moment,
    request: Request<A>,
    long: bool,
) -> Result<CallId, CallRefusal>
    requires { long ≡ is_long (shown_request request) }
    ensures step { result ≢ Err refusals.Memory → (x : X.State)
        → Step (left (own_of held.old) x) (Calls now.0 (shown_request request) (number_of result))
        (left (own_of held.new) x) }
    ensures memory { result ≡ Err refusals.Memory → own_of held.new ≡ own_of held.old }
    ensures refused { is_ok (call_answer (own_of held.old) (shown_request request)) ≡ false
        → result ≢ Err refusals.Memory }
{
    match judge_call(held, &request, long) {
        Err(why) => {
            pass(held, now);
            Err(why)
        }
        Ok(number) => {
            let alloc = held.operations.allocator();
            let call = TakenCall::new(alloc, held.szx, held.limit, request);
            match take(held, now, Waiting::Calling(number, call)) {
                Ok(()) => Ok(CallId(number)),
                Err(AllocError) => Err(CallRefusal::Memory),
            }
        }
    }
}

/// Takes an observation, whose registration starts at a later tick (RFC 7641, section 3.1): its
/// number, or why it is not taken. The lowest number of a refusal is answered, and `Memory` only
/// where none other holds.
pub fn observe<A: Allocator + Copy>(
    held: &mut Held<A>,
    now: Moment,
    path: Path<A>,
    long: bool,
) -> Result<CallId, CallRefusal>
    requires { long ≡ is_long_path path }
    ensures step { result ≢ Err refusals.Memory → (x : X.State)
        → Step (left (own_of held.old) x) (Observes now.0 path (number_of result)) (left (own_of held.new) x) }
    ensures memory { result ≡ Err refusals.Memory → own_of held.new ≡ own_of held.old }
    ensures refused { is_ok (observe_answer (own_of held.old) path) ≡ false → result ≢ Err refusals.Memory }
{
    match judge_observation(held, &path, long) {
        Err(why) => {
            pass(held, now);
            Err(why)
        }
        Ok(number) => {
            let path = ShortPath::new(path);
            match take(held, now, Waiting::Registering(number, path)) {
                Ok(()) => Ok(CallId(number)),
                Err(AllocError) => Err(CallRefusal::Memory),
            }
        }
    }
}

// Whether a call is taken, and under which number. Its options are too long, or not.
fn judge_call<A: Allocator + Copy>(
    held: &Held<A>,
    request: &Request<A>,
    long: bool,
) -> Result<u64, CallRefusal>
    requires { long ≡ is_long (shown_request request.now) }
    ensures answer { result ≡ call_answer (own_of held.now) (shown_request request.now) }
    ensures number { IfOk result (λ number. number ≡ held.now.taken) }
    ensures more { OnOk result (held.now.taken < 2 ^ 64 - 1) }
    ensures room { OnOk result (length held.now.operations.queue < MAX_WAITING_CALLS) }
    ensures short { OnOk result (is_long (shown_request request.now) ≡ false) }
    ensures memory { result ≢ Err refusals.Memory }
{
    if held.operations.waiting_len() >= MAX_WAITING_CALLS {
        return Err(CallRefusal::QueueFull);
    }
    if request.body.len() > held.limit.get() {
        return Err(CallRefusal::BodyTooLarge);
    }
    if long {
        return Err(CallRefusal::BadPath);
    }
    next_number(held)
}

// Whether an observation is taken, and under which number. The options of its path are too long, or
// not.
fn judge_observation<A: Allocator + Copy>(
    held: &Held<A>,
    path: &Path<A>,
    long: bool,
) -> Result<u64, CallRefusal>
    requires { long ≡ is_long_path path.now }
    ensures answer { result ≡ observe_answer (own_of held.now) path.now }
    ensures number { IfOk result (λ number. number ≡ held.now.taken) }
    ensures more { OnOk result (held.now.taken < 2 ^ 64 - 1) }
    ensures room { OnOk result (length held.now.operations.queue < MAX_WAITING_CALLS) }
    ensures short { OnOk result (is_long_path path.now ≡ false) }
    ensures memory { result ≢ Err refusals.Memory }
{
    if held.operations.waiting_len() >= MAX_WAITING_CALLS {
        return Err(CallRefusal::QueueFull);
    }
    if long {
        return Err(CallRefusal::BadPath);
    }
    if are_watches_full(held) {
        return Err(CallRefusal::WatchesFull);
    }
    next_number(held)
}

// The number that is given next, if one is left.
fn next_number<A: Allocator + Copy>(held: &Held<A>) -> Result<u64, CallRefusal>
    ensures answer { result ≡ taken_by (own_of held.now) }
    ensures number { IfOk result (λ number. number ≡ held.now.taken) }
    ensures more { OnOk result (held.now.taken < 2 ^ 64 - 1) }
    ensures memory { result ≢ Err refusals.Memory }
{
    if held.taken == u64::MAX {
        return Err(CallRefusal::CallsSpent);
    }
    Ok(held.taken)
}

// Puts an operation behind those that wait; its number is given. After an `Err` nothing is changed.
fn take<A: Allocator + Copy>(
    held: &mut Held<A>,
    now: Moment,
    waiting: Waiting<A>,
) -> Result<(), AllocError>
    requires room { length held.old.operations.queue < MAX_WAITING_CALLS }
    requires more { held.old.taken < 2 ^ 64 - 1 }
    ensures taken { OnOk result (own_of held.new
        ≡ numbered (λ n. shown_waiting waiting) (Ok held.old.taken) (at now.0 (own_of held.old))) }
    ensures err { OnErr result (own_of held.new ≡ own_of held.old) }
{
    held.operations.push(waiting)?;
    held.taken += 1;
    pass(held, now);
    Ok(())
}

/// Takes the cancel of an observation (RFC 7641, section 3.6), which starts at a later tick. It takes
/// no memory.
pub fn cancel<A: Allocator + Copy>(
    held: &mut Held<A>,
    now: Moment,
    id: CallId,
) -> Result<(), CancelRefusal>
    ensures step { (x : X.State)
        → Step (left (own_of held.old) x) (Cancels now.0 id.0 (refusal_in result)) (left (own_of held.new) x) }
{
    pass(held, now);
    if !is_live(held, id.0) || is_cancelled(held, id.0) {
        return Err(CancelRefusal::Unknown);
    }
    if held.operations.waiting_len() >= MAX_WAITING_CALLS {
        return Err(CancelRefusal::QueueFull);
    }
    held.operations.push_cancel(id.0);
    Ok(())
}

// A moment counts.
fn pass<A: Allocator + Copy>(held: &mut Held<A>, now: Moment)
    ensures own { own_of held.new ≡ at now.0 (own_of held.old) }
{
    held.clock = held.clock.later(now);
}
