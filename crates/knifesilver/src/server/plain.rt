//! Which paths are notified in Non-confirmable messages (RFC 7641, section 4.5).
ghost use Rattle.std.specs.Prelude.{◌≡◌, ◌≢◌, ◌⊎◌, Some};
ghost use Rattle.coap_paths.specs.PathTexts.{spelled};
ghost use Rattle.coap_journal.specs.Input.{Plain};
ghost use Rattle.knifesilver.specs.Answers.{IsAnswered, IsRefused, IsUsual};
ghost use Rattle.knifesilver.specs.PathRefusals.{RefusesPath};
ghost use Rattle.knifesilver.specs.ServerCalls.{IsPlain};
ghost use Rattle.knifesilver.specs.ServerHeld.{HoldsServer, IsNoted, IsServer, Made};

use crate::answers::{BAD_PATH, NO_MEMORY, NOT_LIVE, NOTHING};
use crate::handle::KsHandle;
use crate::held::Held;
use crate::numbers::PLAIN_FULL;
use crate::path_text::path_of;
use coap_ends::PlainRefusal;
use coap_types::Path;
use std::alloc::Global;

// Makes the path plain.
fn set_plain(held: &mut Held, path: &Path) -> i32
    ensures led { IsAnswered result → Made (IsPlain path.now result) (Some held.old) (Some held.new) }
    ensures noted { IsAnswered result → IsNoted (Plain path.now) 0 (Some held.old) (Some held.new) }
    ensures kept { IsRefused result → held.new ≡ held.old }
    ensures live { IsServer held.old → result ≢ NOT_LIVE }
    ensures path { result ≢ BAD_PATH }
    ensures why { IsRefused result → IsUsual result }
{
    match held {
        Held::Server(server) => match server.set_plain(path) {
            Ok(()) => NOTHING,
            Err(PlainRefusal::Full) => PLAIN_FULL,
            Err(PlainRefusal::Memory) => NO_MEMORY,
        },
        Held::Client(_) | Held::Names(_) => NOT_LIVE,
    }
}

/// Has the notifications of the path go in Non-confirmable messages, but for one a day, an old state
/// and the end.
#[unsafe(no_mangle)]
pub extern "C" fn ks_server_set_plain(alloc: Global, handle: &mut KsHandle, path: &[u8]) -> i32
    // To make a path plain that is answered makes just that call of the server in the handle.
    ensures led { IsAnswered result → Made (IsPlain (spelled path.now) result) handle.old.held handle.new.held }
    // To make a path plain that is answered is noted, where notes are kept.
    ensures noted { IsAnswered result → IsNoted (Plain (spelled path.now)) 0 handle.old.held handle.new.held }
    // A path that isn't made plain leaves the very server in the handle.
    ensures kept { IsRefused result → handle.new.held ≡ handle.old.held }
    // To make a path plain is refused for that path exactly where the text spells none.
    ensures refused { RefusesPath path.now result }
    // To make a path plain is refused for that path, for want of memory or of a server in the handle, and for
    // nothing else.
    ensures why { IsRefused result → (result ≡ BAD_PATH) ⊎ IsUsual result }
    // `set_plain` never says of a handle with a server that it holds none.
    ensures live { HoldsServer handle.old.held → result ≢ NOT_LIVE }
{
    let path = match path_of(alloc, path) {
        Ok(path) => path,
        Err(answer) => return answer,
    };
    let Some(mut held) = handle.take(alloc) else {
        return NOT_LIVE;
    };
    let answer = set_plain(held.as_mut(), &path);
    handle.put(held);
    answer
}
