//! The server that the programs begin, and what it is to hold.
ghost use Rattle.std.specs.Prelude.{◌≡◌, ◌≢◌, ℕ, List, [], ◌∷◌, Ok, Err, Some, IfOk, IfNone, IfSome, OnOk};
ghost use Rattle.std.specs.Io.KnownBytes.{Appends};
ghost use Rattle.coap_resource.specs.Content.{Content};
ghost use Rattle.coap_resource.specs.Entries.{content_of};
ghost use Rattle.coap_resource.specs.Limits.{Limits};
ghost use Rattle.coap_server.specs.Object.Shown.{state_of};
ghost use Rattle.coap_server.specs.Led.{Led};
ghost use Rattle.coap_layer.specs.declared.setup.Setup.{Setup as SetupSpec};
ghost use Rattle.coap_server.specs.Trace.{Call, Sets};
ghost use Rattle.coap_answers.specs.Ends.{server_limits, server_limits_after};
ghost use Rattle.coap_answers.specs.Printed.{refused_text};
ghost use Rattle.coap_resource.specs.declared.refusal.StoreRefusal.TheVariants as store_refusals;
ghost use Rattle.coap_status.specs.declared.status.Status.TheVariants.{Refused};

use coap_common::{TEXT_PLAIN, largest_szx};
use coap_layer::Setup;
use coap_resource::{MAX_CHANGES_PER_WINDOW, MapStore, Store, StoreRefusal, VersionBase};
use coap_server::Server;
use coap_status::{Status, Stop};
use coap_types::{BodyLimit, MAX_SZX, Moment, Path};
use std::alloc::Global;
use std::hash::BuildHasher;
use std::io::Write;

/// A server that holds nothing, and then bodies up to this limit. It begins with this word, and remembers so
/// many messages.
pub fn fresh_server<H: BuildHasher + Drop>(
    alloc: Global,
    setup: Setup,
    limit: BodyLimit,
    hasher: H,
) -> Server<MapStore, Global, H>
    // To the server that a command begins with no call has led, with that limit and as many remembered messages as were
    // chosen.
    ensures { Led (server_limits limit) MAX_SZX setup [] (state_of content_of result) }
{
    fresh_server_after(alloc, setup, limit, VersionBase::default(), hasher)
}

/// A server that holds nothing, and then bodies up to this limit; its versions begin after this base.
pub fn fresh_server_after<H: BuildHasher + Drop>(
    alloc: Global,
    setup: Setup,
    limit: BodyLimit,
    base: VersionBase,
    hasher: H,
) -> Server<MapStore, Global, H>
    // To the server that begins after a base no call has led, with that base and limit, and as many remembered messages
    // as were chosen.
    ensures { Led (server_limits_after limit base) MAX_SZX setup [] (state_of content_of result) }
{
    let Some(store) = MapStore::new_after(alloc, MAX_CHANGES_PER_WINDOW, limit, base) else {
        unreachable!()
    };
    Server::with_setup(alloc, store, largest_szx(), setup, hasher)
}

/// Why a store refuses a change; want of memory stops the program.
pub fn refusal_of(refusal: StoreRefusal) -> Result<StoreRefusal, Stop>
    // A refusal that is told is the store's.
    ensures same { IfOk result (λ why. why ≡ refusal) }
    // Want of memory is told as no refusal of a store.
    ensures other { IfOk result (λ why. why ≢ store_refusals.Memory) }
{
    match refusal {
        StoreRefusal::Memory => Err(Stop::Memory),
        StoreRefusal::TooLarge => Ok(StoreRefusal::TooLarge),
        StoreRefusal::TooManyPaths => Ok(StoreRefusal::TooManyPaths),
        StoreRefusal::RateExceeded => Ok(StoreRefusal::RateExceeded),
        StoreRefusal::VersionsSpent => Ok(StoreRefusal::VersionsSpent),
    }
}

/// Has a server hold this text at this path; the refusal of its store where it doesn't.
pub fn hold<H: BuildHasher + Drop>(
    server: &mut Server<MapStore, Global, H>,
    path: &Path,
    body: &[u8],
) -> Result<Option<StoreRefusal>, Stop>
    // What led to the server before it was to hold something leads, with the one call that set it, to the server that
    // holds it.
    ensures holds { (limits : Limits) (setup : SetupSpec) (t : List Call)
        → Led limits MAX_SZX setup t (state_of content_of server.old)
        → IfOk result (λ refusal. IfNone refusal ((version : ℕ) × (store : Content)
        × Led limits MAX_SZX setup (Sets 0 path.now (Some TEXT_PLAIN) body.now (Ok version) store ∷ t)
        (state_of content_of server.new))) }
    // Where its store refuses that, the one call leads on that was answered so.
    ensures refused { (limits : Limits) (setup : SetupSpec) (t : List Call)
        → Led limits MAX_SZX setup t (state_of content_of server.old)
        → IfOk result (λ refusal. IfSome refusal (λ why. (store : Content)
        × Led limits MAX_SZX setup (Sets 0 path.now (Some TEXT_PLAIN) body.now (Err why) store ∷ t)
        (state_of content_of server.new))) }
{
    match server.set(Moment(0), path, Some(TEXT_PLAIN), body) {
        Ok(_) => Ok(None),
        Err(refusal) => {
            let why = refusal_of(refusal)?;
            Ok(Some(why))
        }
    }
}

/// Prints why a server does not hold what it was to hold.
pub fn tell_refusal<W: Write>(refusal: StoreRefusal, out: &mut W) -> Result<Status, Stop>
    // A refusal that is told ends with status 1.
    ensures status { IfOk result (λ status. status ≡ Refused) }
    // What is written of a refusal of a store is its number, on a line.
    ensures printed { OnOk result (Appends (W.contents out.old) (W.contents out.new) (refused_text refusal)) }
{
    let number = refusal.number();
    writeln!(out, "refused {number}")?;
    Ok(Status::Refused)
}
