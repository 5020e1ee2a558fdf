//! The call that an event is.
ghost use Rattle.std.specs.Prelude.{◌≡◌, ◌≢◌, ℕ, List, Option, Some, true, false, Err, IfOk, OnOk, OnErr};
ghost use Rattle.std.specs.Prelude.{is_err, is_ok, length, max};
ghost use Rattle.coap_types.specs.declared.endpoint.Endpoint.{Endpoint};
ghost use Rattle.coap_layer.specs.Machine.State.{made};
ghost use Rattle.coap_layer.specs.Machine.Ups.{IsQuiet};
ghost use Rattle.coap_layer.specs.Trace as below;
ghost use Rattle.coap_resource.specs.Content.{put_refusal};
ghost use Rattle.coap_resource.specs.declared.refusal.StoreRefusal.{StoreRefusal as StoreRefusalSpec};
ghost use Rattle.coap_client.specs.Object.CallShown.{shown_request};
ghost use Rattle.coap_client.specs.Queue.{call_answer, observe_answer};
ghost use Rattle.coap_client.specs.Turns.Quiet.{TellsNothing};
ghost use Rattle.coap_server.specs.Object.Shown.{state_of};
ghost use Rattle.coap_record.specs.Record.{FeedsClient, FeedsServer, OfClient, OfServer};
ghost use Rattle.coap_run.specs.Run.Acts.{Fed, Taken};
ghost use Rattle.coap_run.specs.Run.Ends.{ClientLed, ServerLed};
ghost use Rattle.coap_run.specs.Run.Inputs.{IsCall, IsObservation, IsCancel, IsForgetting, IsSet, IsRemoval};
ghost use Rattle.coap_run.specs.Run.Log.{server_lines};
ghost use Rattle.coap_run.specs.Run.Senders.{sender_in};
ghost use Rattle.coap_run.specs.Run.Telling.{IsFed};
ghost use Rattle.coap_run.specs.Run.Turning.{of_client};
ghost use Rattle.coap_record.specs.declared.addresses.Addresses as places;
ghost use Rattle.coap_run.specs.declared.running.ends.ServerEnd.{ServerEnd};

use crate::running::ends;
use crate::running::ends::ClientEnd;
use crate::running::met::Met;
use crate::running::record::{Kind, Record};
use crate::running::senders::Senders;
use coap_ends::{CallId, CallRefusal};
use coap_record::Addresses;
use coap_resource::{Store, StoreRefusal};
use coap_types::{Endpoint, Moment, Path, Request};
use std::alloc::{AllocError, Allocator};

/// A datagram comes to the client; what it met.
pub(crate) fn feed_client<A: Allocator + Copy>(
    end: &mut ClientEnd<A>,
    at: Moment,
    word: u64,
    from: Endpoint,
    bytes: &[u8],
) -> Result<Met, AllocError>
    ensures fed { IfOk result (λ met.
        Fed ClientLed (FeedsClient at.0 word from bytes.now) (is_err met) end.old end.new) }
    ensures quiet { IfOk result (λ met. TellsNothing end.old.client at.0 from bytes.now → is_err met ≡ false) }
{
    match end.client.feed(at, from, bytes, word) {
        Ok(()) => {}
        Err(why) => return Ok(Err(why)),
    }
    end.note_asked()?;
    Ok(Ok(()))
}

/// A datagram comes to the server; what it met.
pub(crate) fn feed_server<S: Store<A>, A: Allocator + Copy>(
    end: &mut ends::ServerEnd<S, A>,
    at: Moment,
    word: u64,
    from: Endpoint,
    bytes: &[u8],
) -> Met
    ensures fed { IsFed S.content (FeedsServer at.0 word from bytes.now) (is_err result) end.old end.new }
    ensures quiet { IsQuiet (made end.old.server.exchanges.layer (max end.old.server.clock at.0)
        (below.Receive from bytes.now)) → is_err result ≡ false }
{
    end.server.feed(at, from, bytes, word)
}

/// Tells the request that this datagram applied, if it applied one.
pub(crate) fn tell_fed<S: Store<A>, A: Allocator + Copy>(
    addresses: Addresses,
    end: &mut ends::ServerEnd<S, A>,
    senders: &Senders<A>,
    met: Met,
    log: &mut Record<A>,
) -> Result<(), AllocError>
    ensures { OnOk result ((before : ServerEnd S A) (at word : ℕ) (from : Endpoint) (bytes : List ℕ)
        → IsFed S.content (FeedsServer at word from bytes) (is_err met) before end.old
        → Taken addresses (ServerLed S.content) OfServer (server_lines addresses (sender_in senders.now)) at
        (FeedsServer at word from bytes) (is_err met) before log.old end.new log.new) }
{
    if met.is_err() {
        return Ok(());
    }
    end.tell(addresses, senders, log)?;
    Ok(())
}

// What a call that was answered so met.
fn met_by_call(answer: Result<CallId, CallRefusal>) -> Met
    ensures ok { OnOk result (answer ≢ Err CallRefusal.Memory) }
    ensures err { OnErr result (answer ≡ Err CallRefusal.Memory) }
{
    match answer {
        Err(CallRefusal::Memory) => Err(AllocError),
        _ => Ok(()),
    }
}

// What a local change that was answered so met.
fn met_by_change(answer: Result<u64, StoreRefusal>) -> Met
    ensures ok { OnOk result (answer ≢ Err StoreRefusal.Memory) }
    ensures err { OnErr result (answer ≡ Err StoreRefusal.Memory) }
{
    match answer {
        Err(StoreRefusal::Memory) => Err(AllocError),
        _ => Ok(()),
    }
}

/// A call; what it met.
pub(crate) fn call_client<A: Allocator + Copy>(
    end: &mut ClientEnd<A>,
    log: &mut Record<A>,
    at: Moment,
    request: Request<A>,
) -> Result<Met, AllocError>
    ensures taken { IfOk result (λ met. (addresses : places.Addresses)
        → Taken addresses ClientLed OfClient of_client at.0
        (IsCall at.0 (shown_request request)) (is_err met) end.old log.old end.new log.new) }
    ensures refused { IfOk result (λ met. is_ok (call_answer end.old.client.own (shown_request request)) ≡ false
        → is_err met ≡ false) }
{
    let answer = end.client.call(at, request);
    match met_by_call(answer) {
        Ok(()) => {}
        Err(why) => return Ok(Err(why)),
    }
    log.note(Kind::Takes(answer))?;
    Ok(Ok(()))
}

/// An observation; what it met.
pub(crate) fn observe_client<A: Allocator + Copy>(
    end: &mut ClientEnd<A>,
    log: &mut Record<A>,
    at: Moment,
    path: Path<A>,
) -> Result<Met, AllocError>
    ensures taken { IfOk result (λ met. (addresses : places.Addresses)
        → Taken addresses ClientLed OfClient of_client at.0
        (IsObservation at.0 path) (is_err met) end.old log.old end.new log.new) }
    ensures refused { IfOk result (λ met. is_ok (observe_answer end.old.client.own path) ≡ false
        → is_err met ≡ false) }
{
    let answer = end.client.observe(at, path);
    match met_by_call(answer) {
        Ok(()) => {}
        Err(why) => return Ok(Err(why)),
    }
    log.note(Kind::Takes(answer))?;
    Ok(Ok(()))
}

/// A cancel, which takes no memory.
pub(crate) fn cancel_client<A: Allocator + Copy>(
    end: &mut ClientEnd<A>,
    log: &mut Record<A>,
    at: Moment,
    id: CallId,
) -> Result<(), AllocError>
    ensures { OnOk result ((addresses : places.Addresses) → Taken addresses ClientLed OfClient of_client at.0
        (IsCancel at.0 id.0) false end.old log.old end.new log.new) }
{
    let answer = end.client.cancel(at, id);
    log.note(Kind::Cancels(answer))?;
    Ok(())
}

/// A forgetting, which takes no memory.
pub(crate) fn forget_client<A: Allocator + Copy>(
    end: &mut ClientEnd<A>,
    log: &mut Record<A>,
    at: Moment,
    id: CallId,
) -> Result<(), AllocError>
    ensures { OnOk result ((addresses : places.Addresses) → Taken addresses ClientLed OfClient of_client at.0
        (IsForgetting id.0) false end.old log.old end.new log.new) }
{
    let answer = end.client.forget(id);
    log.note(Kind::Forgets(answer))?;
    Ok(())
}

/// A local change; what it met.
pub(crate) fn set_server<S: Store<A>, A: Allocator + Copy>(
    end: &mut ends::ServerEnd<S, A>,
    log: &mut Record<A>,
    at: Moment,
    path: &Path<A>,
    format: Option<u16>,
    body: &[u8],
) -> Result<Met, AllocError>
    ensures taken { IfOk result (λ met. (addresses : places.Addresses) (sender : List ℕ → Option ℕ)
        → Taken addresses (ServerLed S.content) OfServer (server_lines addresses sender) at.0
        (IsSet at.0 path.now format body.now) (is_err met) end.old log.old end.new log.new) }
    ensures refused { IfOk result (λ met. (why : StoreRefusalSpec) → why ≢ StoreRefusal.Memory
        → put_refusal (state_of S.content end.old.server).own.store
        (max (state_of S.content end.old.server).own.clock at.0) path.now (length body.now) ≡ Some why
        → is_err met ≡ false) }
{
    let answer = end.server.set(at, path, format, body);
    match met_by_change(answer) {
        Ok(()) => {}
        Err(why) => return Ok(Err(why)),
    }
    log.note(Kind::Puts(answer))?;
    let version = match answer {
        Ok(version) => version,
        Err(_) => return Ok(Ok(())),
    };
    end.version = version;
    log.change(path, version, end.server.get(path))?;
    Ok(Ok(()))
}

/// A removal, which takes no memory.
pub(crate) fn remove_server<S: Store<A>, A: Allocator + Copy>(
    end: &mut ends::ServerEnd<S, A>,
    log: &mut Record<A>,
    at: Moment,
    path: &Path<A>,
) -> Result<(), AllocError>
    ensures { OnOk result ((addresses : places.Addresses) (sender : List ℕ → Option ℕ)
        → Taken addresses (ServerLed S.content) OfServer (server_lines addresses sender) at.0
        (IsRemoval at.0 path.now) false end.old log.old end.new log.new) }
{
    let answer = end.server.remove(at, path);
    log.note(Kind::Removes(answer))?;
    match answer {
        Ok(true) => {}
        Ok(false) => return Ok(()),
        Err(_) => return Ok(()),
    }
    let version = end.version.saturating_add(1);
    end.version = version;
    log.change(path, version, end.server.get(path))?;
    Ok(())
}
