//! Datagrams that come from peers, and that go to them.
ghost use Rattle.std.specs.Prelude.{◌≡◌, ◌≢◌, ◌<◌, ◌≤◌, ◌⊎◌, ◌↔◌, IsSome, Some, length, pos};
ghost use Rattle.coap_names.specs.Tables.{named};
ghost use Rattle.knifesilver.specs.Answers.{IsAnswered, IsRefused, IsUsual};
ghost use Rattle.knifesilver.specs.NamesCalls.{IsNamed, IsSent};
ghost use Rattle.knifesilver.specs.NamesHeld.{Goes, HoldsNames, HoldsNamesIn, IsNames, IsNamesIn};
ghost use Rattle.knifesilver.specs.PeerKeys.{IsKey, peer_key, same_key};

use crate::answers::{BAD_ARGUMENT, NO_MEMORY, NOT_LIVE, NOTHING, SMALL_ROOM};
use crate::crossing::{KsAddress, address, endpoint};
use crate::handle::KsHandle;
use crate::held::Held;
use crate::names::peer_key::{KEY_ROOM, PeerKey, give, key_of};
use crate::numbers::{NAMES_FULL, NAMES_SPENT};
use coap_names::NamesRefusal;
use coap_types::{Endpoint, Moment};
use std::alloc::Global;

// Names the peer from which a datagram came.
fn fed(held: &mut Held, now: u64, key: &PeerKey, name: &mut KsAddress) -> i32
    ensures led { IsAnswered result
        → Goes (IsNamed now key.now result name.new) (Some held.old) (Some held.new) }
    ensures left { result ≢ pos 0 → name.new ≡ name.old }
    ensures kept { IsRefused result → held.new ≡ held.old }
    ensures live { IsNames held.old → result ≢ NOT_LIVE }
    ensures why { IsRefused result → IsUsual result }
    ensures quiet { IsNamesIn (λ s. IsSome (named same_key s key.now)) held.old → IsAnswered result }
{
    match held {
        Held::Names(names) => match names.name_of(Moment(now), key) {
            Ok(endpoint) => {
                *name = address(endpoint);
                NOTHING
            }
            Err(NamesRefusal::Full) => NAMES_FULL,
            Err(NamesRefusal::Spent) => NAMES_SPENT,
            Err(NamesRefusal::Memory) => NO_MEMORY,
        },
        Held::Server(_) | Held::Client(_) => NOT_LIVE,
    }
}

/// Names the peer with this key, from which a datagram came: the name that it has, or a new one.
#[unsafe(no_mangle)]
pub extern "C" fn ks_names_fed(
    alloc: Global,
    handle: &mut KsHandle,
    now: u64,
    key: &[u8],
    name: &mut KsAddress,
) -> i32
    // A datagram that is answered makes just that call of the table in the handle, and tells the name of its peer,
    // that each place is taken, or that all names are used up.
    ensures led { IsAnswered result → Goes (IsNamed now (peer_key key.now) result name.new)
        handle.old.held handle.new.held }
    // Where no name is told, none is written.
    ensures left { result ≢ pos 0 → name.new ≡ name.old }
    // A datagram that is refused leaves the very table in the handle.
    ensures kept { IsRefused result → handle.new.held ≡ handle.old.held }
    // A key is refused exactly where it has no bytes, or more than 60.
    ensures argument { (result ≡ BAD_ARGUMENT) ↔ (IsKey key.now → ⊥) }
    // `ks_names_fed` never says of a handle with a table that it holds none.
    ensures live { HoldsNames handle.old.held → result ≢ NOT_LIVE }
    // To name a peer is refused for its key, for want of memory or of a table in the handle, and for nothing else.
    ensures why { IsRefused result → (result ≡ BAD_ARGUMENT) ⊎ IsUsual result }
    // A peer that has a name is not refused memory.
    ensures quiet { HoldsNamesIn (λ s. IsSome (named same_key s (peer_key key.now))) handle.old.held
        → IsKey key.now → IsAnswered result }
{
    let Some(key) = key_of(key) else {
        return BAD_ARGUMENT;
    };
    let Some(mut held) = handle.take(alloc) else {
        return NOT_LIVE;
    };
    let answer = fed(held.as_mut(), now, &key, name);
    handle.put(held);
    answer
}

// Tells the key of the peer to which a datagram goes.
fn sent(held: &mut Held, now: u64, name: &Endpoint, room: &mut [u8], len: &mut usize) -> i32
    requires room { KEY_ROOM ≤ length room.old }
    ensures led { IsAnswered result
        → Goes (IsSent now name.now result room.new len.new) (Some held.old) (Some held.new) }
    ensures kept { IsRefused result → held.new ≡ held.old }
    ensures live { IsNames held.old → result ≢ NOT_LIVE }
    ensures why { IsRefused result → result ≡ NOT_LIVE }
{
    match held {
        Held::Names(names) => give(names.sent(Moment(now), name), room, len),
        Held::Server(_) | Held::Client(_) => NOT_LIVE,
    }
}

/// Tells the key of the peer with this name, to which a datagram goes: 1, or 0 where the name is nobody's.
#[unsafe(no_mangle)]
pub extern "C" fn ks_names_sent(
    alloc: Global,
    handle: &mut KsHandle,
    now: u64,
    name: &KsAddress,
    room: &mut [u8],
    len: &mut usize,
) -> i32
    // A datagram to a name makes just that call of the table in the handle, and tells the key that has the name, byte
    // for byte, or that none has it.
    ensures led { IsAnswered result
        → Goes (IsSent now (record { ip = name.now.ip; port = name.now.port }) result room.new len.new)
        handle.old.held handle.new.held }
    // A datagram to a name that is refused leaves the very table in the handle.
    ensures kept { IsRefused result → handle.new.held ≡ handle.old.held }
    // A room for the key of a datagram is too small exactly where it has under 60 bytes.
    ensures small { (result ≡ SMALL_ROOM) ↔ (length room.old < KEY_ROOM) }
    // `ks_names_sent` never says of a handle with a table that it holds none.
    ensures live { HoldsNames handle.old.held → result ≢ NOT_LIVE }
    // A datagram to a name is refused for a room that is too small or for want of a table in the handle, and for
    // nothing else.
    ensures why { IsRefused result → (result ≡ SMALL_ROOM) ⊎ (result ≡ NOT_LIVE) }
{
    if room.len() < KEY_ROOM {
        return SMALL_ROOM;
    }
    let Some(mut held) = handle.take(alloc) else {
        return NOT_LIVE;
    };
    let answer = sent(held.as_mut(), now, &endpoint(name), room, len);
    handle.put(held);
    answer
}
