//! What the server's own side sees of its resources.
ghost use Rattle.std.specs.Prelude.{◌≡◌, ◌≢◌, ◌⊎◌, length};
ghost use Rattle.coap_resource.specs.Entries.{content_of};
ghost use Rattle.coap_server.specs.Object.Shown.{state_of};
ghost use Rattle.coap_paths.specs.PathTexts.{spelled};
ghost use Rattle.knifesilver.specs.Answers.{IsAnswered, IsRefused, IsUsual};
ghost use Rattle.knifesilver.specs.PathRefusals.{RefusesPath};
ghost use Rattle.knifesilver.specs.ServerCalls.{IsGot, IsTooLong};
ghost use Rattle.knifesilver.specs.ServerHeld.{HoldsServer, HoldsServerIn, IsServer, IsServerIn};

use crate::answers::{BAD_PATH, DONE, NOT_LIVE, NOTHING, SMALL_ROOM};
use crate::crossing::{copy_out, format_number};
use crate::handle::KsHandle;
use crate::held::{Held, OurServer};
use crate::path_text::path_of;
use coap_types::Path;
use std::alloc::Global;

/// C's `ks_representation`: what a path holds, beside its body.
#[repr(C)]
#[derive(Clone, Copy)]
pub struct KsRepresentation {
    /// The number of the change that made it.
    pub version: u64,
    /// How many bytes the body has.
    pub body_len: usize,
    /// The format, or -1.
    pub format: i32,
}

// What the path holds.
fn get_from(server: &OurServer, path: &Path, shown: &mut KsRepresentation, room: &mut [u8]) -> i32
    ensures got { IsAnswered result → IsGot path.now result shown.new room.new (state_of content_of server.now.server) }
    ensures long { result ≡ SMALL_ROOM
        → IsTooLong path.now shown.new (length room.old) (state_of content_of server.now.server) }
    ensures live { result ≢ NOT_LIVE }
    ensures path { result ≢ BAD_PATH }
    ensures why { IsRefused result → result ≡ SMALL_ROOM }
{
    let Some(representation) = server.server.get(path) else {
        return NOTHING;
    };
    *shown = KsRepresentation {
        version: representation.version,
        body_len: representation.body.len(),
        format: format_number(representation.format),
    };
    if copy_out(room, representation.body.as_slice()) {
        DONE
    } else {
        SMALL_ROOM
    }
}

// What the path holds.
fn get(held: &Held, path: &Path, shown: &mut KsRepresentation, room: &mut [u8]) -> i32
    ensures got { IsAnswered result → IsServerIn (IsGot path.now result shown.new room.new) held.now }
    ensures long { result ≡ SMALL_ROOM → IsServerIn (IsTooLong path.now shown.new (length room.old)) held.now }
    ensures live { IsServer held.now → result ≢ NOT_LIVE }
    ensures path { result ≢ BAD_PATH }
    ensures why { IsRefused result → (result ≡ SMALL_ROOM) ⊎ IsUsual result }
{
    match held {
        Held::Server(server) => get_from(server, path, shown, room),
        Held::Client(_) | Held::Names(_) => NOT_LIVE,
    }
}

/// What the path holds: 1, or 0 where it holds nothing.
#[unsafe(no_mangle)]
pub extern "C" fn ks_server_get(
    alloc: Global,
    handle: &mut KsHandle,
    path: &[u8],
    shown: &mut KsRepresentation,
    room: &mut [u8],
) -> i32
    // What is shown is what the path holds at the server in the handle.
    ensures got { IsAnswered result
        → HoldsServerIn (IsGot (spelled path.now) result shown.new room.new) handle.old.held }
    // A body that is longer than the room is not shown, and its length is.
    ensures long { result ≡ SMALL_ROOM
        → HoldsServerIn (IsTooLong (spelled path.now) shown.new (length room.old)) handle.old.held }
    // To ask for a value leaves the very server in the handle.
    ensures kept { handle.new.held ≡ handle.old.held }
    // To ask for a value is refused for its path exactly where the text spells none.
    ensures refused { RefusesPath path.now result }
    // To ask for a value is refused for its path, for a body longer than the room, for want of memory or of a server in the
    // handle, and for nothing else.
    ensures why { IsRefused result → (result ≡ BAD_PATH) ⊎ (result ≡ SMALL_ROOM) ⊎ IsUsual result }
    // `get` never says of a handle with a server that it holds none.
    ensures live { HoldsServer handle.old.held → result ≢ NOT_LIVE }
{
    let path = match path_of(alloc, path) {
        Ok(path) => path,
        Err(answer) => return answer,
    };
    let Some(held) = handle.take(alloc) else {
        return NOT_LIVE;
    };
    let answer = get(held.as_ref(), &path, shown, room);
    handle.put(held);
    answer
}
