//! Whose a name is, and which name a peer has.
ghost use Rattle.std.specs.Prelude.{◌≡◌, ◌≢◌, ◌<◌, ◌≤◌, ◌⊎◌, ◌↔◌, length, pos};
ghost use Rattle.knifesilver.specs.Answers.{IsAnswered, IsRefused};
ghost use Rattle.knifesilver.specs.NamesCalls.{TellsKey, TellsName};
ghost use Rattle.knifesilver.specs.NamesHeld.{HoldsNames, HoldsNamesIn, IsNames, IsNamesIn};
ghost use Rattle.knifesilver.specs.PeerKeys.{IsKey, peer_key};

use crate::answers::{BAD_ARGUMENT, DONE, NOT_LIVE, NOTHING, SMALL_ROOM};
use crate::crossing::{KsAddress, address, endpoint};
use crate::handle::KsHandle;
use crate::held::Held;
use crate::names::peer_key::{KEY_ROOM, PeerKey, give, key_of};
use coap_types::Endpoint;
use std::alloc::Global;

// Tells the key of a name.
fn key(held: &Held, name: &Endpoint, room: &mut [u8], len: &mut usize) -> i32
    requires room { KEY_ROOM ≤ length room.old }
    ensures told { IsAnswered result → IsNamesIn (TellsKey name.now result room.new len.new) held.now }
    ensures live { IsNames held.now → result ≢ NOT_LIVE }
    ensures why { IsRefused result → result ≡ NOT_LIVE }
{
    match held {
        Held::Names(names) => give(names.key_of(name).copied(), room, len),
        Held::Server(_) | Held::Client(_) => NOT_LIVE,
    }
}

/// Tells the key of the peer with this name: 1, or 0 where the name is nobody's.
#[unsafe(no_mangle)]
pub extern "C" fn ks_names_key(
    alloc: Global,
    handle: &mut KsHandle,
    name: &KsAddress,
    room: &mut [u8],
    len: &mut usize,
) -> i32
    // The key that is told is the one that has this name in the table in the handle, byte for byte; or none has it.
    ensures told { IsAnswered result
        → HoldsNamesIn (TellsKey (record { ip = name.now.ip; port = name.now.port }) result room.new len.new)
        handle.old.held }
    // To ask for the key of a name leaves the very table in the handle.
    ensures kept { handle.new.held ≡ handle.old.held }
    // A room for a key is too small exactly where it has under 60 bytes.
    ensures small { (result ≡ SMALL_ROOM) ↔ (length room.old < KEY_ROOM) }
    // `ks_names_key` never says of a handle with a table that it holds none.
    ensures live { HoldsNames handle.old.held → result ≢ NOT_LIVE }
    // To ask for the key of a name is refused for a room that is too small or for want of a table in the handle, and
    // for nothing else.
    ensures why { IsRefused result → (result ≡ SMALL_ROOM) ⊎ (result ≡ NOT_LIVE) }
{
    if room.len() < KEY_ROOM {
        return SMALL_ROOM;
    }
    let Some(held) = handle.take(alloc) else {
        return NOT_LIVE;
    };
    let answer = key(held.as_ref(), &endpoint(name), room, len);
    handle.put(held);
    answer
}

// Tells the name of a peer.
fn find(held: &Held, key: &PeerKey, name: &mut KsAddress) -> i32
    ensures told { IsAnswered result → IsNamesIn (TellsName key.now result name.new) held.now }
    ensures left { result ≢ pos 1 → name.new ≡ name.old }
    ensures live { IsNames held.now → result ≢ NOT_LIVE }
    ensures why { IsRefused result → result ≡ NOT_LIVE }
{
    match held {
        Held::Names(names) => match names.find(key) {
            Some(endpoint) => {
                *name = address(endpoint);
                DONE
            }
            None => NOTHING,
        },
        Held::Server(_) | Held::Client(_) => NOT_LIVE,
    }
}

/// Tells the name of the peer with this key: 1, or 0 where it has none.
#[unsafe(no_mangle)]
pub extern "C" fn ks_names_of(
    alloc: Global,
    handle: &mut KsHandle,
    key: &[u8],
    name: &mut KsAddress,
) -> i32
    // The name that is told is the one that the key has in the table in the handle; or it has none.
    ensures told { IsAnswered result → HoldsNamesIn (TellsName (peer_key key.now) result name.new) handle.old.held }
    // Where no name of a key is told, none is written.
    ensures left { result ≢ pos 1 → name.new ≡ name.old }
    // To ask for the name of a key leaves the very table in the handle.
    ensures kept { handle.new.held ≡ handle.old.held }
    // A key whose name is asked for is refused exactly where it has no bytes, or more than 60.
    ensures argument { (result ≡ BAD_ARGUMENT) ↔ (IsKey key.now → ⊥) }
    // `ks_names_of` never says of a handle with a table that it holds none.
    ensures live { HoldsNames handle.old.held → result ≢ NOT_LIVE }
    // To ask for the name of a key is refused for the key or for want of a table in the handle, and for nothing else.
    ensures why { IsRefused result → (result ≡ BAD_ARGUMENT) ⊎ (result ≡ NOT_LIVE) }
{
    let Some(key) = key_of(key) else {
        return BAD_ARGUMENT;
    };
    let Some(held) = handle.take(alloc) else {
        return NOT_LIVE;
    };
    let answer = find(held.as_ref(), &key, name);
    handle.put(held);
    answer
}
