//! What a server that goes on is made to hold at paths that hold nothing.
ghost use Rattle.std.specs.Prelude.{◌≡◌, None, Some, IfNone, IfOk, IfSome, true, false};
ghost use Rattle.coap_resource.specs.Content.{Held};
ghost use Rattle.coap_resource.specs.Entries.{content_of};
ghost use Rattle.coap_server.specs.Led.{Step};
ghost use Rattle.coap_server.specs.Object.Shown.{state_of};
ghost use Rattle.coap_server.specs.Trace.{Gets};
ghost use Rattle.coap_serving.specs.Kept.{HoldsEach, HoldsMissing, IsRefusedMissing, IsSetMissing, RefusesAmong};
ghost use Rattle.coap_serving.specs.Kept.{RefusesMissing};

use crate::setting_up::{BODY, PATH};
use coap_answers::refusal_of;
use coap_arguments::{Hold, ServeOptions, path_of_text};
use coap_common::TEXT_PLAIN;
use coap_ends::Server;
use coap_journaled::{JournalFile, Journaled};
use coap_resource::{MapStore, StoreRefusal};
use coap_status::Stop;
use coap_types::{Moment, Path};
use std::alloc::Global;
use std::hash::BuildHasher;

// Whether a path holds something.
fn is_held<H: BuildHasher + Drop>(server: &Server<MapStore, Global, H>, path: &Path) -> bool
    ensures held { result ≡ true → (held : Held) × Step (state_of content_of server.now)
        (Gets path.now (Some held)) (state_of content_of server.now) }
    ensures none { result ≡ false → Step (state_of content_of server.now) (Gets path.now None)
        (state_of content_of server.now) }
{
    match server.get(path) {
        Some(_) => true,
        None => false,
    }
}

// Has a server hold a body at a path that holds nothing; the refusal of its store where it doesn't.
fn hold_missing<H: BuildHasher + Drop, F: JournalFile>(
    journaled: &mut Journaled<Server<MapStore, Global, H>, F, Global>,
    at: Moment,
    path: &Path,
    body: &[u8],
) -> Result<Option<StoreRefusal>, Stop>
    ensures holds { IfOk result (λ refusal. IfNone refusal (HoldsMissing at.0 path.now body.now
        (state_of content_of journaled.old.end) (state_of content_of journaled.new.end))) }
    ensures refused { IfOk result (λ refusal. IfSome refusal (λ why. RefusesMissing at.0 path.now body.now why
        (state_of content_of journaled.old.end) (state_of content_of journaled.new.end))) }
{
    if is_held(journaled.end(), path) {
        return Ok(None);
    }
    match journaled.set(at, path, Some(TEXT_PLAIN), body) {
        Ok(_) => Ok(None),
        Err(refusal) => {
            let why = refusal_of(refusal)?;
            Ok(Some(why))
        }
    }
}

// Has a server hold each of these whose path holds nothing, in order.
fn hold_each<H: BuildHasher + Drop, F: JournalFile>(
    journaled: &mut Journaled<Server<MapStore, Global, H>, F, Global>,
    at: Moment,
    holds: &[Hold],
) -> Result<Option<StoreRefusal>, Stop>
    ensures holds { IfOk result (λ refusal. IfNone refusal (HoldsEach at.0 holds.now
        (state_of content_of journaled.old.end) (state_of content_of journaled.new.end))) }
    ensures refused { IfOk result (λ refusal. IfSome refusal (λ why. RefusesAmong at.0 holds.now why
        (state_of content_of journaled.old.end) (state_of content_of journaled.new.end))) }
{
    for held in holds {
        if let Some(refusal) = hold_missing(journaled, at, &held.path, held.body.as_slice())? {
            return Ok(Some(refusal));
        }
    }
    Ok(None)
}

/// Has a server hold its own resource and what the words name, where their paths hold nothing.
pub(crate) fn set_up_missing<H: BuildHasher + Drop, F: JournalFile>(
    alloc: Global,
    journaled: &mut Journaled<Server<MapStore, Global, H>, F, Global>,
    at: Moment,
    options: &ServeOptions,
) -> Result<Option<StoreRefusal>, Stop>
    ensures set { IfOk result (λ refusal. IfNone refusal (IsSetMissing at.0 options.now
        (state_of content_of journaled.old.end) (state_of content_of journaled.new.end))) }
    ensures refused { IfOk result (λ refusal. IfSome refusal (λ why. IsRefusedMissing at.0 options.now why
        (state_of content_of journaled.old.end) (state_of content_of journaled.new.end))) }
{
    let Ok(path) = path_of_text(alloc, PATH) else {
        return Err(Stop::Memory);
    };
    if let Some(refusal) = hold_missing(journaled, at, &path, BODY.as_bytes())? {
        return Ok(Some(refusal));
    }
    hold_each(journaled, at, options.holds.as_slice())
}
