//! What a server hands out: datagrams, and what a client had it do.
ghost use Rattle.std.specs.Prelude.{◌≡◌, ◌≢◌, ◌<◌, ◌⊎◌, ◌∷◌, [], length, Some};
ghost use Rattle.coap_server.specs.Object.Shown.{applied_as};
ghost use Rattle.knifesilver.specs.Answers.{IsAnswered, IsRefused};
ghost use Rattle.knifesilver.specs.Applied.{AppliedAnswers, IsLongPath};
ghost use Rattle.knifesilver.specs.declared.held.Held.TheVariants.{Server as ServerHeld};
ghost use Rattle.coap_noted.specs.Notes.{IsUntold, given_with};
ghost use Rattle.knifesilver.specs.ServerCalls.{IsApplied, IsAppliedLong, IsNextOut, is_given};
ghost use Rattle.knifesilver.specs.ServerHeld.{HoldsServer, IsServer, Made, notes_in};

use crate::answers::{DONE, NOT_LIVE, NOTHING, SMALL_ROOM, UNTOLD};
use crate::crossing::{KsAddress, address, token_of};
use crate::handle::KsHandle;
use crate::held::{Held, OurServer};
use crate::outgoing::give;
use coap_ends::Applied;
use coap_paths::put_path;
use coap_types::limits::MAX_MESSAGE_LEN;
use std::alloc::Global;

// Takes the datagram that is to be sent next.
fn next_of(server: &mut OurServer, to: &mut KsAddress, room: &mut [u8], len: &mut usize) -> i32
    ensures led { IsAnswered result → Made (IsNextOut result to.new room.new len.new)
        (Some (ServerHeld server.old)) (Some (ServerHeld server.new)) }
    ensures kept { IsRefused result → server.new ≡ server.old }
    ensures live { result ≢ NOT_LIVE }
    ensures small { result ≡ SMALL_ROOM → length room.old < MAX_MESSAGE_LEN }
    ensures counted { IsAnswered result → server.new.notes ≡ given_with (is_given result) server.old.notes }
    ensures waits { IsUntold server.old.notes → IsRefused result }
    ensures untold { result ≡ UNTOLD → IsUntold server.old.notes }
    ensures why { IsRefused result → (result ≡ SMALL_ROOM) ⊎ (result ≡ UNTOLD) }
{
    if room.len() < MAX_MESSAGE_LEN {
        return SMALL_ROOM;
    }
    match server.next_out() {
        Ok(next) => give(next, to, room, len),
        Err(_untold) => UNTOLD,
    }
}

// .. of what is held.
fn next_out(held: &mut Held, to: &mut KsAddress, room: &mut [u8], len: &mut usize) -> i32
    ensures led { IsAnswered result
        → Made (IsNextOut result to.new room.new len.new) (Some held.old) (Some held.new) }
    ensures kept { IsRefused result → held.new ≡ held.old }
    ensures live { IsServer held.old → result ≢ NOT_LIVE }
    ensures small { result ≡ SMALL_ROOM → length room.old < MAX_MESSAGE_LEN }
    ensures counted { IsAnswered result
        → notes_in (Some held.new) ≡ given_with (is_given result) (notes_in (Some held.old)) }
    ensures waits { IsUntold (notes_in (Some held.old)) → IsRefused result }
    ensures untold { result ≡ UNTOLD → IsUntold (notes_in (Some held.old)) }
    ensures why { IsRefused result → (result ≡ SMALL_ROOM) ⊎ (result ≡ NOT_LIVE) ⊎ (result ≡ UNTOLD) }
{
    match held {
        Held::Server(server) => next_of(server, to, room, len),
        Held::Client(_) | Held::Names(_) => NOT_LIVE,
    }
}

/// Takes the datagram that is to be sent next: 1, or 0 where none is.
#[unsafe(no_mangle)]
pub extern "C" fn ks_server_next_out(
    alloc: Global,
    handle: &mut KsHandle,
    to: &mut KsAddress,
    room: &mut [u8],
    len: &mut usize,
) -> i32
    // A datagram that is given out is the one by which the server in the handle answers just that call, byte for byte.
    ensures led { IsAnswered result
        → Made (IsNextOut result to.new room.new len.new) handle.old.held handle.new.held }
    // Where a server gives out nothing, or the room is too small, the handle holds the very server that it held.
    ensures kept { IsRefused result → handle.new.held ≡ handle.old.held }
    // `next_out` never says of a handle with a server that it holds none.
    ensures live { HoldsServer handle.old.held → result ≢ NOT_LIVE }
    // To take a datagram of a server is refused for a room that is too small, for want of a server in the handle, or
    // for what was taken and isn't handed out yet, and for nothing else.
    ensures why { IsRefused result → (result ≡ SMALL_ROOM) ⊎ (result ≡ NOT_LIVE) ⊎ (result ≡ UNTOLD) }
    // A datagram that is given out is counted, where notes are kept.
    ensures counted { IsAnswered result
        → notes_in handle.new.held ≡ given_with (is_given result) (notes_in handle.old.held) }
    // No datagram is given out before what was taken is handed out, where notes are kept.
    ensures waits { IsUntold (notes_in handle.old.held) → IsRefused result }
    // .. for which it is refused there alone.
    ensures untold { result ≡ UNTOLD → IsUntold (notes_in handle.old.held) }
    // A room for a datagram of a server is too small only where it has under 1,152 bytes.
    ensures small { result ≡ SMALL_ROOM → length room.old < MAX_MESSAGE_LEN }
{
    let Some(mut held) = handle.take(alloc) else {
        return NOT_LIVE;
    };
    let answer = next_out(held.as_mut(), to, room, len);
    handle.put(held);
    answer
}

/// C's `ks_applied`: what the last feed or tick applied.
#[repr(C)]
#[derive(Clone, Copy)]
pub struct KsApplied {
    /// The version that it made, 0 where it changed nothing.
    pub version: u64,
    /// How many bytes its path has as text.
    pub path_len: usize,
    /// Where the request came from.
    pub from: KsAddress,
    /// The code of its method: 2 POST, 3 PUT, 4 DELETE.
    pub method: u8,
    /// How many bytes of the token count.
    pub token_len: u8,
    /// Its token.
    pub token: [u8; 8],
}

// Tells what was applied.
fn tell(applied: &Applied<Global>, told: &mut KsApplied, room: &mut [u8]) -> i32
    ensures told { IsAnswered result → AppliedAnswers result told.new room.new (applied_as applied.now ∷ []) }
    ensures long { result ≡ SMALL_ROOM → IsLongPath (length room.old) (applied_as applied.now ∷ []) }
    ensures live { result ≢ NOT_LIVE }
    ensures why { IsRefused result → result ≡ SMALL_ROOM }
{
    let (token, token_len) = token_of(&applied.token);
    let Some(path_len) = put_path(&applied.path, room) else {
        return SMALL_ROOM;
    };
    let from = address(applied.from);
    *told = KsApplied {
        version: applied.version,
        path_len,
        from,
        method: applied.method.code().0,
        token_len,
        token,
    };
    DONE
}

// What the last feed or tick applied.
fn applied(held: &Held, told: &mut KsApplied, room: &mut [u8]) -> i32
    ensures led { IsAnswered result
        → Made (IsApplied result told.new room.new) (Some held.now) (Some held.now) }
    ensures long { result ≡ SMALL_ROOM
        → Made (IsAppliedLong (length room.old)) (Some held.now) (Some held.now) }
    ensures live { IsServer held.now → result ≢ NOT_LIVE }
    ensures why { IsRefused result → (result ≡ SMALL_ROOM) ⊎ (result ≡ NOT_LIVE) }
{
    match held {
        Held::Server(server) => match server.server.applied() {
            Some(applied) => tell(applied, told, room),
            None => NOTHING,
        },
        Held::Client(_) | Held::Names(_) => NOT_LIVE,
    }
}

/// What the last feed or tick applied, with its path as text: 1, or 0 where it applied nothing.
#[unsafe(no_mangle)]
pub extern "C" fn ks_server_applied(
    alloc: Global,
    handle: &mut KsHandle,
    done: &mut KsApplied,
    room: &mut [u8],
) -> i32
    // What is told to be applied last is what the server in the handle answers to just that call.
    ensures led { IsAnswered result
        → Made (IsApplied result done.new room.new) handle.old.held handle.new.held }
    // Where the room is too small, the path of what the server answers to that call is longer.
    ensures long { result ≡ SMALL_ROOM
        → Made (IsAppliedLong (length room.old)) handle.old.held handle.new.held }
    // To ask what was applied leaves the very server in the handle.
    ensures kept { handle.new.held ≡ handle.old.held }
    // `applied` never says of a handle with a server that it holds none.
    ensures live { HoldsServer handle.old.held → result ≢ NOT_LIVE }
    // To ask what was applied is refused for a room that is too small or for want of a server in the handle, and for
    // nothing else.
    ensures why { IsRefused result → (result ≡ SMALL_ROOM) ⊎ (result ≡ NOT_LIVE) }
{
    let Some(held) = handle.take(alloc) else {
        return NOT_LIVE;
    };
    let answer = applied(held.as_ref(), done, room);
    handle.put(held);
    answer
}
