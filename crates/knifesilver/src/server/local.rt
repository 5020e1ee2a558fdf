//! What the server's own side does with its resources.
ghost use Rattle.std.specs.Prelude.{◌≡◌, ◌≢◌, ◌⊎◌, ◌+◌, ℕ, pos, Some, IfSome, IfNone};
ghost use Rattle.coap_resource.specs.Content.{refusal_number};
ghost use Rattle.coap_resource.specs.Entries.{content_of};
ghost use Rattle.coap_resource.specs.declared.refusal.StoreRefusal.TheVariants.{Memory};
ghost use Rattle.coap_server.specs.Object.Shown.{state_of};
ghost use Rattle.coap_paths.specs.PathTexts.{spelled};
ghost use Rattle.coap_journal.specs.Input.{Delay, Remove, Set};
ghost use Rattle.knifesilver.specs.Answers.{IsAnswered, IsRefused, IsUsual};
ghost use Rattle.knifesilver.specs.Formats.{format_in};
ghost use Rattle.knifesilver.specs.declared.held.Held.TheVariants.{Server};
ghost use Rattle.knifesilver.specs.PathRefusals.{RefusesPath};
ghost use Rattle.knifesilver.specs.ServerCalls.{HoldsThat, IsDelay, IsRemove, IsSet, RemoveAnswers, Updates};
ghost use Rattle.knifesilver.specs.ServerHeld.{HoldsServer, IsNoted, IsServer, IsServerIn, Made};

use crate::answers::{BAD_PATH, DONE, NO_MEMORY, NOT_LIVE, NOTHING};
use crate::crossing::format_of;
use crate::handle::KsHandle;
use crate::held::{Held, OurServer};
use crate::numbers::{DELAY_FULL, set_number};
use crate::path_text::path_of;
use coap_ends::DelayRefusal;
use coap_resource::StoreRefusal;
use coap_types::{Moment, Path};
use std::alloc::Global;

// What a refusal of the store answers.
fn refused(why: StoreRefusal) -> i32
    ensures answered { IsAnswered result → (why ≢ Memory) × (result ≡ pos (16 + refusal_number why)) }
    ensures memory { IsRefused result → why ≡ Memory }
    ensures live { result ≢ NOT_LIVE }
    ensures path { result ≢ BAD_PATH }
    ensures why { IsRefused result → result ≡ NO_MEMORY }
{
    match why {
        StoreRefusal::Memory => NO_MEMORY,
        _ => set_number(why),
    }
}

// Has the path hold the body.
fn set(
    held: &mut Held,
    now: u64,
    path: &Path,
    format: Option<u16>,
    body: &[u8],
    version: &mut u64,
) -> i32
    ensures led { IsAnswered result
        → Made (IsSet now path.now format body.now (pos 0) result version.new) (Some held.old) (Some held.new) }
    ensures noted { IsAnswered result
        → IsNoted (Set now path.now format body.now) now (Some held.old) (Some held.new) }
    ensures kept { IsRefused result → held.new ≡ held.old }
    ensures live { IsServer held.old → result ≢ NOT_LIVE }
    ensures path { result ≢ BAD_PATH }
    ensures why { IsRefused result → IsUsual result }
{
    match held {
        Held::Server(server) => match server.set(Moment(now), path, format, body) {
            Ok(number) => {
                *version = number;
                NOTHING
            }
            Err(why) => refused(why),
        },
        Held::Client(_) | Held::Names(_) => NOT_LIVE,
    }
}

/// Has the path hold the body.
#[unsafe(no_mangle)]
pub extern "C" fn ks_server_set(
    alloc: Global,
    handle: &mut KsHandle,
    now: u64,
    path: &[u8],
    format: i32,
    body: &[u8],
    version: &mut u64,
) -> i32
    // To set a value that is answered makes just that call of the server in the handle, and hands on the version.
    ensures led { IsAnswered result
        → Made (IsSet now (spelled path.now) (format_in format) body.now (pos 0) result version.new) handle.old.held
        handle.new.held }
    // To set a value that is answered is noted, where notes are kept.
    ensures noted { IsAnswered result
        → IsNoted (Set now (spelled path.now) (format_in format) body.now) now handle.old.held handle.new.held }
    // To set a value that is refused leaves the very server in the handle.
    ensures kept { IsRefused result → handle.new.held ≡ handle.old.held }
    // To set a value is refused for its path exactly where the text spells none.
    ensures refused { RefusesPath path.now result }
    // To set a value is refused for its path, for want of memory or of a server in the handle, and for nothing else.
    ensures why { IsRefused result → (result ≡ BAD_PATH) ⊎ IsUsual result }
    // `set` never says of a handle with a server that it holds none.
    ensures live { HoldsServer handle.old.held → result ≢ NOT_LIVE }
{
    let path = match path_of(alloc, path) {
        Ok(path) => path,
        Err(answer) => return answer,
    };
    let Some(mut held) = handle.take(alloc) else {
        return NOT_LIVE;
    };
    let answer = set(held.as_mut(), now, &path, format_of(format), body, version);
    handle.put(held);
    answer
}

// The version of what the path holds, where that is this body in this format.
fn version_of(server: &OurServer, path: &Path, format: Option<u16>, body: &[u8]) -> Option<u64>
    ensures same { IfSome result (λ version. HoldsThat path.now format body.now version
        (state_of content_of server.now.server)) }
    ensures other { IfNone result ((n : ℕ) → HoldsThat path.now format body.now n
        (state_of content_of server.now.server) → ⊥) }
{
    let representation = server.server.get(path)?;
    if representation.format == format && *representation.body.as_slice() == *body {
        Some(representation.version)
    } else {
        None
    }
}

// Has the path hold the body, in place of something else.
fn replace(
    server: &mut OurServer,
    now: u64,
    path: &Path,
    format: Option<u16>,
    body: &[u8],
    version: &mut u64,
) -> i32
    ensures led { IsAnswered result → Made (IsSet now path.now format body.now (pos 1) result version.new)
        (Some (Server server.old)) (Some (Server server.new)) }
    ensures noted { IsAnswered result
        → IsNoted (Set now path.now format body.now) now (Some (Server server.old)) (Some (Server server.new)) }
    ensures kept { IsRefused result → server.new ≡ server.old }
    ensures live { result ≢ NOT_LIVE }
    ensures path { result ≢ BAD_PATH }
    ensures why { IsRefused result → result ≡ NO_MEMORY }
{
    match server.set(Moment(now), path, format, body) {
        Ok(number) => {
            *version = number;
            DONE
        }
        Err(why) => refused(why),
    }
}

// Has the path hold the body, where it does not.
fn update(
    held: &mut Held,
    now: u64,
    path: &Path,
    format: Option<u16>,
    body: &[u8],
    version: &mut u64,
) -> i32
    ensures led { IsAnswered result
        → Updates now path.now format body.now result version.new (Some held.old) (Some held.new) }
    ensures held { (n : ℕ) → IsServerIn (HoldsThat path.now format body.now n) held.old → IsAnswered result }
    ensures kept { IsRefused result → held.new ≡ held.old }
    ensures live { IsServer held.old → result ≢ NOT_LIVE }
    ensures path { result ≢ BAD_PATH }
    ensures why { IsRefused result → IsUsual result }
{
    match held {
        Held::Server(server) => match version_of(server, path, format, body) {
            Some(number) => {
                *version = number;
                NOTHING
            }
            None => replace(server, now, path, format, body, version),
        },
        Held::Client(_) | Held::Names(_) => NOT_LIVE,
    }
}

/// Has the path hold the body, where it does not: 1, or 0 where it does.
#[unsafe(no_mangle)]
pub extern "C" fn ks_server_update(
    alloc: Global,
    handle: &mut KsHandle,
    now: u64,
    path: &[u8],
    format: i32,
    body: &[u8],
    version: &mut u64,
) -> i32
    // An update that is answered sets the value of the server in the handle where it differs, and else changes nothing.
    ensures led { IsAnswered result
        → Updates now (spelled path.now) (format_in format) body.now result version.new handle.old.held
        handle.new.held }
    // An update that is refused leaves the very server in the handle.
    ensures kept { IsRefused result → handle.new.held ≡ handle.old.held }
    // An update is refused for its path exactly where the text spells none.
    ensures refused { RefusesPath path.now result }
    // An update is refused for its path, for want of memory or of a server in the handle, and for nothing else.
    ensures why { IsRefused result → (result ≡ BAD_PATH) ⊎ IsUsual result }
    // `update` never says of a handle with a server that it holds none.
    ensures live { HoldsServer handle.old.held → result ≢ NOT_LIVE }
{
    let path = match path_of(alloc, path) {
        Ok(path) => path,
        Err(answer) => return answer,
    };
    let Some(mut held) = handle.take(alloc) else {
        return NOT_LIVE;
    };
    let answer = update(held.as_mut(), now, &path, format_of(format), body, version);
    handle.put(held);
    answer
}

// What a removal answers.
fn removed(done: Result<bool, StoreRefusal>) -> i32
    ensures told { RemoveAnswers result done }
    ensures answered { IsRefused result → ⊥ }
    ensures live { result ≢ NOT_LIVE }
    ensures path { result ≢ BAD_PATH }
{
    match done {
        Ok(true) => DONE,
        Ok(false) => NOTHING,
        Err(why) => set_number(why),
    }
}

// Takes away what the path holds.
fn remove(held: &mut Held, now: u64, path: &Path) -> i32
    ensures led { IsAnswered result → Made (IsRemove now path.now result) (Some held.old) (Some held.new) }
    ensures noted { IsAnswered result → IsNoted (Remove now path.now) now (Some held.old) (Some held.new) }
    ensures kept { IsRefused result → held.new ≡ held.old }
    ensures live { IsServer held.old → result ≢ NOT_LIVE }
    ensures path { result ≢ BAD_PATH }
    ensures why { IsRefused result → IsUsual result }
{
    match held {
        Held::Server(server) => match server.remove(Moment(now), path) {
            Ok(done) => removed(done),
            Err(_) => NO_MEMORY,
        },
        Held::Client(_) | Held::Names(_) => NOT_LIVE,
    }
}

/// Takes away what the path holds: 1, or 0 where it holds nothing.
#[unsafe(no_mangle)]
pub extern "C" fn ks_server_remove(
    alloc: Global,
    handle: &mut KsHandle,
    now: u64,
    path: &[u8],
) -> i32
    // A removal that is answered makes just that call of the server in the handle, and says whether the path held something.
    ensures led { IsAnswered result
        → Made (IsRemove now (spelled path.now) result) handle.old.held handle.new.held }
    // A removal that is answered is noted, where notes are kept.
    ensures noted { IsAnswered result
        → IsNoted (Remove now (spelled path.now)) now handle.old.held handle.new.held }
    // A removal that is refused leaves the very server in the handle.
    ensures kept { IsRefused result → handle.new.held ≡ handle.old.held }
    // A removal is refused for its path exactly where the text spells none.
    ensures refused { RefusesPath path.now result }
    // A removal is refused for its path, for want of memory or of a server in the handle, and for nothing else.
    ensures why { IsRefused result → (result ≡ BAD_PATH) ⊎ IsUsual result }
    // `remove` never says of a handle with a server that it holds none.
    ensures live { HoldsServer handle.old.held → result ≢ NOT_LIVE }
{
    let path = match path_of(alloc, path) {
        Ok(path) => path,
        Err(answer) => return answer,
    };
    let Some(mut held) = handle.take(alloc) else {
        return NOT_LIVE;
    };
    let answer = remove(held.as_mut(), now, &path);
    handle.put(held);
    answer
}

// Gives the path a delay.
fn set_delay(held: &mut Held, path: &Path, ms: u64) -> i32
    ensures led { IsAnswered result → Made (IsDelay path.now ms result) (Some held.old) (Some held.new) }
    ensures noted { IsAnswered result → IsNoted (Delay path.now ms) 0 (Some held.old) (Some held.new) }
    ensures kept { IsRefused result → held.new ≡ held.old }
    ensures live { IsServer held.old → result ≢ NOT_LIVE }
    ensures path { result ≢ BAD_PATH }
    ensures why { IsRefused result → IsUsual result }
{
    match held {
        Held::Server(server) => match server.set_delay(path, ms) {
            Ok(()) => NOTHING,
            Err(DelayRefusal::Full) => DELAY_FULL,
            Err(DelayRefusal::Memory) => NO_MEMORY,
        },
        Held::Client(_) | Held::Names(_) => NOT_LIVE,
    }
}

/// Has each Confirmable request of the path wait so long and be answered by a separate response.
#[unsafe(no_mangle)]
pub extern "C" fn ks_server_set_delay(
    alloc: Global,
    handle: &mut KsHandle,
    path: &[u8],
    ms: u64,
) -> i32
    // To delay a path that is answered makes just that call of the server in the handle.
    ensures led { IsAnswered result
        → Made (IsDelay (spelled path.now) ms result) handle.old.held handle.new.held }
    // To delay a path that is answered is noted, where notes are kept.
    ensures noted { IsAnswered result
        → IsNoted (Delay (spelled path.now) ms) 0 handle.old.held handle.new.held }
    // A delay that is refused leaves the very server in the handle.
    ensures kept { IsRefused result → handle.new.held ≡ handle.old.held }
    // To delay a path is refused for its path exactly where the text spells none.
    ensures refused { RefusesPath path.now result }
    // To delay a path is refused for its path, for want of memory or of a server in the handle, and for nothing else.
    ensures why { IsRefused result → (result ≡ BAD_PATH) ⊎ IsUsual result }
    // `set_delay` never says of a handle with a server that it holds none.
    ensures live { HoldsServer handle.old.held → result ≢ NOT_LIVE }
{
    let path = match path_of(alloc, path) {
        Ok(path) => path,
        Err(answer) => return answer,
    };
    let Some(mut held) = handle.take(alloc) else {
        return NOT_LIVE;
    };
    let answer = set_delay(held.as_mut(), &path, ms);
    handle.put(held);
    answer
}
