//! Whether a server has something of a peer; and a peer that never comes again.
ghost use Rattle.std.specs.Prelude.{◌≡◌, ◌≢◌, None, Some};
ghost use Rattle.knifesilver.specs.Answers.{IsAnswered, IsRefused, IsUsual};
ghost use Rattle.knifesilver.specs.Forgetting.{BothMade, BothNoted, IsLetGo, KnowsNothingOf, SendsNothingTo};
ghost use Rattle.knifesilver.specs.Known.{TellsKnown};
ghost use Rattle.knifesilver.specs.ServerHeld.{HoldsServer, HoldsServerIn, IsServer, IsServerIn, notes_in};

use crate::answers::{DONE, NO_MEMORY, NOT_LIVE, NOTHING};
use crate::crossing::{KsAddress, endpoint};
use crate::handle::KsHandle;
use crate::held::Held;
use coap_types::{Endpoint, Moment};
use std::alloc::Global;

// Whether it has something of the peer.
fn know(held: &Held, now: u64, peer: Endpoint) -> i32
    ensures knows { IsAnswered result → IsServerIn (TellsKnown result now peer) held.now }
    ensures live { IsServer held.now → result ≢ NOT_LIVE }
    ensures why { IsRefused result → result ≡ NOT_LIVE }
{
    match held {
        Held::Server(server) => {
            if server.server.knows(Moment(now), peer) {
                DONE
            } else {
                NOTHING
            }
        }
        Held::Client(_) | Held::Names(_) => NOT_LIVE,
    }
}

/// Whether the server has something of this peer that it may send, or may still need: 1, or 0 where it has nothing.
#[unsafe(no_mangle)]
pub extern "C" fn ks_server_knows(
    alloc: Global,
    handle: &mut KsHandle,
    now: u64,
    peer: &KsAddress,
) -> i32
    // Whether a peer is known is told of the server in the handle at that moment.
    ensures knows { IsAnswered result
        → HoldsServerIn (TellsKnown result now (record { ip = peer.now.ip; port = peer.now.port })) handle.old.held }
    // To ask whether a peer is known leaves the very server in the handle.
    ensures kept { handle.new.held ≡ handle.old.held }
    // `ks_server_knows` never says of a handle with a server that it holds none.
    ensures live { HoldsServer handle.old.held → result ≢ NOT_LIVE }
    // To ask whether a peer is known is refused for want of a server in the handle, and for nothing else.
    ensures why { IsRefused result → result ≡ NOT_LIVE }
{
    let Some(held) = handle.take(alloc) else {
        return NOT_LIVE;
    };
    let answer = know(held.as_ref(), now, endpoint(peer));
    handle.put(held);
    answer
}

// Forgets the peer, and whether there was anything of it.
fn forget(held: &mut Held, peer: Endpoint) -> i32
    ensures step { IsAnswered result → IsLetGo peer (Some held.old) (Some held.new) }
    ensures noted { IsAnswered result → BothNoted peer (Some held.old) (Some held.new) }
    ensures known { IsAnswered result → IsServerIn (TellsKnown result 0 peer) held.old }
    ensures unknown { IsAnswered result → IsServerIn (SendsNothingTo peer) held.old
        → IsServerIn (KnowsNothingOf peer) held.new }
    ensures kept { IsRefused result → held.new ≡ held.old }
    ensures live { IsServer held.old → result ≢ NOT_LIVE }
    ensures why { IsRefused result → IsUsual result }
    ensures quiet { IsServer held.old → notes_in (Some held.old) ≡ None → IsAnswered result }
{
    match held {
        Held::Server(server) => match server.forget(peer) {
            Ok(true) => DONE,
            Ok(false) => NOTHING,
            Err(_lost) => NO_MEMORY,
        },
        Held::Client(_) | Held::Names(_) => NOT_LIVE,
    }
}

/// Forgets a peer that never comes again, but for what tells repeats and what waits to be taken: 1, or 0 where there
/// was nothing of it.
#[unsafe(no_mangle)]
pub extern "C" fn ks_server_forget(alloc: Global, handle: &mut KsHandle, peer: &KsAddress) -> i32
    // To forget a peer makes two calls of the server in the handle: its Reset of what is outstanding to it is fed, at
    // the last moment that counted, and then what else is of it is let go.
    ensures led { IsAnswered result
        → BothMade (record { ip = peer.now.ip; port = peer.now.port }) handle.old.held handle.new.held }
    // To forget a peer leaves the server in the handle as these two calls leave it.
    ensures step { IsAnswered result
        → IsLetGo (record { ip = peer.now.ip; port = peer.now.port }) handle.old.held handle.new.held }
    // A peer that is forgotten is noted, where notes are kept: its Reset as it was fed, and then that it is let go.
    ensures noted { IsAnswered result
        → BothNoted (record { ip = peer.now.ip; port = peer.now.port }) handle.old.held handle.new.held }
    // Whether there was anything of a peer that is forgotten is what `ks_server_knows` would have told.
    ensures known { IsAnswered result
        → HoldsServerIn (TellsKnown result 0 (record { ip = peer.now.ip; port = peer.now.port })) handle.old.held }
    // A peer that is forgotten is not known any more, where nothing that goes to it waited to be taken.
    ensures unknown { IsAnswered result
        → HoldsServerIn (SendsNothingTo (record { ip = peer.now.ip; port = peer.now.port })) handle.old.held
        → HoldsServerIn (KnowsNothingOf (record { ip = peer.now.ip; port = peer.now.port })) handle.new.held }
    // A peer that is not forgotten leaves the very server in the handle.
    ensures kept { IsRefused result → handle.new.held ≡ handle.old.held }
    // `ks_server_forget` never says of a handle with a server that it holds none.
    ensures live { HoldsServer handle.old.held → result ≢ NOT_LIVE }
    // To forget a peer is refused for want of memory or of a server in the handle, and for nothing else.
    ensures why { IsRefused result → IsUsual result }
    // To forget a peer takes no memory, where no notes are kept.
    ensures quiet { HoldsServer handle.old.held → notes_in handle.old.held ≡ None → IsAnswered result }
{
    let Some(mut held) = handle.take(alloc) else {
        return NOT_LIVE;
    };
    let answer = forget(held.as_mut(), endpoint(peer));
    handle.put(held);
    answer
}
