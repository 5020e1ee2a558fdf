//! A request that a server is to refuse.
ghost use Rattle.std.specs.Prelude.{◌≡◌, ◌≢◌, ◌↔◌, ◌⊎◌, ℕ, pos, Bool, true, false, None, Some};
ghost use Rattle.coap_journal.specs.Input.{Feed, Refuse};
ghost use Rattle.coap_replay.specs.Replaying.{refused_as};
ghost use Rattle.coap_server.specs.Refusing.{is_error};
ghost use Rattle.knifesilver.specs.Answers.{IsAnswered, IsRefused, IsUsual, told};
ghost use Rattle.knifesilver.specs.Quiet.{PassesOver};
ghost use Rattle.knifesilver.specs.ServerCalls.{IsRefuse};
ghost use Rattle.knifesilver.specs.ServerHeld.{HoldsServer, HoldsServerIn, IsNoted, IsServer, IsServerIn};
ghost use Rattle.knifesilver.specs.ServerHeld.{Made, notes_in};

use crate::answers::{BAD_ARGUMENT, DONE, NO_MEMORY, NOT_LIVE, NOTHING};
use crate::crossing::{KsAddress, endpoint};
use crate::handle::KsHandle;
use crate::held::Held;
use coap_ends::ErrorCode;
use coap_types::{Code, Endpoint, Moment};
use std::alloc::Global;

// 4.05 (RFC 7252, section 5.9.2.6).
const METHOD_NOT_ALLOWED: u8 = 133;

const _: () = prove!(METHOD_NOT_ALLOWED == 133);

// Takes a datagram that arrived; a new request is refused with this error.
fn refuse(
    held: &mut Held,
    now: u64,
    from: Endpoint,
    datagram: &[u8],
    word: u64,
    error: ErrorCode,
) -> i32
    ensures led { IsAnswered result
        → Made (IsRefuse now from datagram.now word error result) (Some held.old) (Some held.new) }
    ensures noted { result ≡ pos 1
        → IsNoted (Refuse now from datagram.now word error) now (Some held.old) (Some held.new) }
    ensures fed { result ≡ pos 0 → IsNoted (Feed now from datagram.now word) now (Some held.old) (Some held.new) }
    ensures kept { IsRefused result → held.new ≡ held.old }
    ensures tells { IsAnswered result → (result ≡ pos 0) ⊎ (result ≡ pos 1) }
    ensures live { IsServer held.old → result ≢ NOT_LIVE }
    ensures why { IsRefused result → IsUsual result }
    ensures quiet { IsServerIn (PassesOver now from datagram.now) held.old → notes_in (Some held.old) ≡ None
        → IsAnswered result }
{
    match held {
        Held::Server(server) => match server.refuse(Moment(now), from, datagram, word, error) {
            Ok(true) => DONE,
            Ok(false) => NOTHING,
            Err(_lost) => NO_MEMORY,
        },
        Held::Client(_) | Held::Names(_) => NOT_LIVE,
    }
}

// .. of what a handle holds.
fn refuse_of(
    alloc: Global,
    handle: &mut KsHandle,
    now: u64,
    from: Endpoint,
    datagram: &[u8],
    word: u64,
    error: ErrorCode,
) -> i32
    ensures led { IsAnswered result
        → Made (IsRefuse now from datagram.now word error result) handle.old.held handle.new.held }
    ensures noted { result ≡ pos 1
        → IsNoted (Refuse now from datagram.now word error) now handle.old.held handle.new.held }
    ensures fed { result ≡ pos 0 → IsNoted (Feed now from datagram.now word) now handle.old.held handle.new.held }
    ensures kept { IsRefused result → handle.new.held ≡ handle.old.held }
    ensures tells { IsAnswered result → (result ≡ pos 0) ⊎ (result ≡ pos 1) }
    ensures live { HoldsServer handle.old.held → result ≢ NOT_LIVE }
    ensures why { IsRefused result → IsUsual result }
    ensures quiet { HoldsServerIn (PassesOver now from datagram.now) handle.old.held
        → notes_in handle.old.held ≡ None → IsAnswered result }
{
    let Some(mut held) = handle.take(alloc) else {
        return NOT_LIVE;
    };
    let answer = refuse(held.as_mut(), now, from, datagram, word, error);
    handle.put(held);
    answer
}

/// Takes a datagram that arrived, as `ks_server_feed`; but a request that is new is answered with this code, and
/// nothing that it asks is done: 1, or 0 where there was none.
#[unsafe(no_mangle)]
pub extern "C" fn ks_server_refuse_by(
    alloc: Global,
    handle: &mut KsHandle,
    now: u64,
    from: &KsAddress,
    datagram: &[u8],
    word: u64,
    code: u8,
) -> i32
    // A refusal by a code that is answered makes just that call of the server in the handle, and says whether there
    // was a request.
    ensures led { IsAnswered result
        → Made (IsRefuse now (record { ip = from.now.ip; port = from.now.port }) datagram.now word code result)
        handle.old.held handle.new.held }
    // A request that is refused by a code is noted as such, where notes are kept.
    ensures noted { result ≡ pos 1
        → IsNoted (Refuse now (record { ip = from.now.ip; port = from.now.port }) datagram.now word code) now
        handle.old.held handle.new.held }
    // What brings no request that could be refused by a code is noted as the feed that it is, where notes are kept.
    ensures fed { result ≡ pos 0
        → IsNoted (Feed now (record { ip = from.now.ip; port = from.now.port }) datagram.now word) now
        handle.old.held handle.new.held }
    // A refusal by a code that is answered is answered with 0 or 1.
    ensures tells { IsAnswered result → (result ≡ pos 0) ⊎ (result ≡ pos 1) }
    // A refusal by a code that was not made leaves the very server in the handle.
    ensures kept { IsRefused result → handle.new.held ≡ handle.old.held }
    // The code of a refusal is a bad argument exactly where it is not of class 4 or 5.
    ensures argument { (result ≡ BAD_ARGUMENT) ↔ (is_error code ≡ false) }
    // `refuse_by` never says of a handle with a server that it holds none.
    ensures live { HoldsServer handle.old.held → result ≢ NOT_LIVE }
    // A refusal by a code is not made for its code, for want of memory or of a server in the handle, and for nothing
    // else.
    ensures why { IsRefused result → (result ≡ BAD_ARGUMENT) ⊎ IsUsual result }
    // A datagram to be refused by a code, for which the server's message layer sends nothing and hands nothing up,
    // takes no memory, where no notes are kept.
    ensures quiet { HoldsServerIn (PassesOver now (record { ip = from.now.ip; port = from.now.port }) datagram.now)
        handle.old.held → notes_in handle.old.held ≡ None → is_error code ≡ true → IsAnswered result }
{
    match ErrorCode::of(Code(code)) {
        Some(error) => refuse_of(alloc, handle, now, endpoint(from), datagram, word, error),
        None => BAD_ARGUMENT,
    }
}

/// As `ks_server_refuse_by` with 4.05, the code of a method that may not be used; 0 whether there was a request or
/// not.
#[unsafe(no_mangle)]
pub extern "C" fn ks_server_refuse(
    alloc: Global,
    handle: &mut KsHandle,
    now: u64,
    from: &KsAddress,
    datagram: &[u8],
    word: u64,
) -> i32
    // A refusal that is answered makes just one call of the server in the handle: a new request of the datagram is
    // refused with 4.05. Where notes are kept, it is noted as such, and where there was none as the feed that it is.
    ensures led { IsAnswered result → (result ≡ pos 0) × (refused : Bool)
        × Made (IsRefuse now (record { ip = from.now.ip; port = from.now.port }) datagram.now word 133 (told refused))
        handle.old.held handle.new.held
        × IsNoted (refused_as refused now (record { ip = from.now.ip; port = from.now.port }) datagram.now word 133) now
        handle.old.held handle.new.held }
    // A refusal that was not made leaves the very server in the handle.
    ensures kept { IsRefused result → handle.new.held ≡ handle.old.held }
    // `refuse` never says of a handle with a server that it holds none.
    ensures live { HoldsServer handle.old.held → result ≢ NOT_LIVE }
    // A refusal is not made for want of memory or of a server in the handle, and for nothing else.
    ensures why { IsRefused result → IsUsual result }
    // A datagram to be refused, for which the server's message layer sends nothing and hands nothing up, takes no
    // memory, where no notes are kept.
    ensures quiet { HoldsServerIn (PassesOver now (record { ip = from.now.ip; port = from.now.port }) datagram.now)
        handle.old.held → notes_in handle.old.held ≡ None → IsAnswered result }
{
    let code = METHOD_NOT_ALLOWED;
    let answer = ks_server_refuse_by(alloc, handle, now, from, datagram, word, code);
    if answer == DONE { NOTHING } else { answer }
}
