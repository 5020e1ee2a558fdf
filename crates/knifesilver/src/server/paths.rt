//! Which paths hold something.
ghost use Rattle.std.specs.Prelude.{◌≡◌, ◌≢◌, ◌⊎◌, length, slice_get};
ghost use Rattle.coap_resource.specs.Content.{Lists};
ghost use Rattle.coap_resource.specs.Entries.{content_of, paths_of};
ghost use Rattle.coap_server.specs.Object.Shown.{state_of};
ghost use Rattle.knifesilver.specs.Answers.{IsAnswered, IsRefused};
ghost use Rattle.knifesilver.specs.Listing.{IsLongAt, PathAnswers, paths_held, paths_in};
ghost use Rattle.knifesilver.specs.ServerHeld.{HoldsServer, HoldsServerIn, IsServer, IsServerIn};

use crate::answers::{DONE, NOT_LIVE, NOTHING, SMALL_ROOM};
use crate::crossing::format_number;
use crate::handle::KsHandle;
use crate::held::{Held, OurServer};
use crate::server::getting::KsRepresentation;
use coap_paths::put_path;
use std::alloc::Global;

// The path at this place of those that hold something, and what it holds.
fn path_at(
    server: &OurServer,
    place: usize,
    shown: &mut KsRepresentation,
    room: &mut [u8],
    path_len: &mut usize,
) -> i32
    ensures told { IsAnswered result → PathAnswers result shown.new room.new path_len.new
        (slice_get (paths_of server.now.server.store.entries) place) (state_of content_of server.now.server) }
    ensures all { Lists (state_of content_of server.now.server).own.store (paths_of server.now.server.store.entries) }
    ensures long { result ≡ SMALL_ROOM → IsLongAt place (length room.old) (paths_of server.now.server.store.entries) }
    ensures live { result ≢ NOT_LIVE }
    ensures why { IsRefused result → result ≡ SMALL_ROOM }
{
    let Some(path) = server.server.path_at(place) else {
        return NOTHING;
    };
    let Some(representation) = server.server.get(path) else {
        return NOTHING;
    };
    let Some(len) = put_path(path, room) else {
        return SMALL_ROOM;
    };
    *shown = KsRepresentation {
        version: representation.version,
        body_len: representation.body.len(),
        format: format_number(representation.format),
    };
    *path_len = len;
    DONE
}

// The same of what is held.
fn path_of_held(
    held: &Held,
    place: usize,
    shown: &mut KsRepresentation,
    room: &mut [u8],
    path_len: &mut usize,
) -> i32
    ensures told { IsAnswered result → IsServerIn
        (PathAnswers result shown.new room.new path_len.new (slice_get (paths_held held.now) place)) held.now }
    ensures all { IsServer held.now → IsServerIn (λ s. Lists s.own.store (paths_held held.now)) held.now }
    ensures long { result ≡ SMALL_ROOM → IsLongAt place (length room.old) (paths_held held.now) }
    ensures live { IsServer held.now → result ≢ NOT_LIVE }
    ensures why { IsRefused result → (result ≡ SMALL_ROOM) ⊎ (result ≡ NOT_LIVE) }
{
    match held {
        Held::Server(server) => path_at(server, place, shown, room, path_len),
        Held::Client(_) | Held::Names(_) => NOT_LIVE,
    }
}

/// The path at this place of those that hold something, as text, and what it holds: 1, or 0 where fewer do.
#[unsafe(no_mangle)]
pub extern "C" fn ks_server_paths(
    alloc: Global,
    handle: &mut KsHandle,
    place: usize,
    shown: &mut KsRepresentation,
    room: &mut [u8],
    path_len: &mut usize,
) -> i32
    // The path that is told is the one at that place of the list of the server in the handle, with what it holds; the
    // answer is 0 where that list ends before.
    ensures told { IsAnswered result → HoldsServerIn
        (PathAnswers result shown.new room.new path_len.new (slice_get (paths_in handle.old.held) place))
        handle.old.held }
    // The list of the server in the handle has each path that holds something, once, and no other.
    ensures all { HoldsServer handle.old.held
        → HoldsServerIn (λ s. Lists s.own.store (paths_in handle.old.held)) handle.old.held }
    // Where the room is too small, the text of that path is longer.
    ensures long { result ≡ SMALL_ROOM → IsLongAt place (length room.old) (paths_in handle.old.held) }
    // To ask for a path leaves the very server in the handle.
    ensures kept { handle.new.held ≡ handle.old.held }
    // `ks_server_paths` never says of a handle with a server that it holds none.
    ensures live { HoldsServer handle.old.held → result ≢ NOT_LIVE }
    // To ask for a path is refused for a room that is too small or for want of a server in the handle, and for nothing
    // else.
    ensures why { IsRefused result → (result ≡ SMALL_ROOM) ⊎ (result ≡ NOT_LIVE) }
{
    let Some(held) = handle.take(alloc) else {
        return NOT_LIVE;
    };
    let answer = path_of_held(held.as_ref(), place, shown, room, path_len);
    handle.put(held);
    answer
}
