//! Changes that a server is told of on its own side (RFC 7252, section 5.8; RFC 7641, section 4.2).
ghost use Rattle.std.specs.Prelude.{◌≡◌, ◌≢◌, ◌≤◌, Err, Some, length, max};
ghost use Rattle.coap_resource.specs.declared.refusal.StoreRefusal.{StoreRefusal as StoreRefusalSpec};
ghost use Rattle.coap_resource.specs.declared.refusal.StoreRefusal.TheVariants.{Memory};
ghost use Rattle.coap_resource.specs.Content.{put_refusal};
ghost use Rattle.coap_resource.specs.Rate.{rate_refusal};
ghost use Rattle.coap_server.specs.Led.{Step};
ghost use Rattle.coap_server.specs.Local.{RemovesBy, SetsBy};
ghost use Rattle.coap_server.specs.Trace.{Removes, Sets};
ghost use Rattle.coap_server.specs.Object.Shown.{kept_of, seen};

use crate::server::parts::Parts;
use crate::server::served::mark;
use coap_resource::{Store, StoreRefusal};
use coap_types::{Moment, Path};
use std::alloc::Allocator;
use std::hash::BuildHasher;

// Puts a body in place of what a path holds.
fn put<S: Store<A>, A: Allocator + Copy>(
    store: &mut S,
    at: Moment,
    path: &Path<A>,
    format: Option<u16>,
    body: &[u8],
) -> Result<u64, StoreRefusal>
    ensures sets { result ≢ Err Memory
        → SetsBy (put_refusal (S.content store.old) at.0 path.now (length body.now))
        (S.content store.old) at.0 path.now format body.now result (S.content store.new) }
    ensures memory { result ≡ Err Memory → store.new ≡ store.old }
    ensures refused { (why : StoreRefusalSpec) → put_refusal (S.content store.old) at.0 path.now (length body.now)
        ≡ Some why → result ≡ Err why }
{
    store.put(at, path, format, body)
}

// Takes away what a path holds: whether it held something. It takes no memory.
fn delete<S: Store<A>, A: Allocator + Copy>(
    store: &mut S,
    at: Moment,
    path: &Path<A>,
) -> Result<bool, StoreRefusal>
    ensures removes { RemovesBy ((S.content store.old).holds path.now) (rate_refusal (S.content store.old).tally at.0)
        (S.content store.old) at.0 path.now result (S.content store.new) }
{
    match store.delete(at, path) {
        Ok(version) => Ok(version.is_some()),
        Err(why) => Err(why),
    }
}

/// Puts a body in place of what a path holds, and marks its observers; answers the version. After
/// `Memory` nothing changed; after another refusal its moment has counted alone.
pub(crate) fn set_parts<S: Store<A>, A: Allocator + Copy, H: BuildHasher>(
    parts: &mut Parts<S, A, H>,
    now: Moment,
    path: &Path<A>,
    format: Option<u16>,
    body: &[u8],
) -> Result<u64, StoreRefusal>
    requires timed { parts.old.observers.clock ≤ parts.old.clock.0 }
    ensures step { result ≢ Err Memory → Step (seen S.content parts.old)
        (Sets now.0 path.now format body.now result (S.content parts.new.store)) (seen S.content parts.new) }
    ensures timed { parts.new.observers.clock ≤ parts.new.clock.0 }
    ensures memory { result ≡ Err Memory → kept_of parts.new ≡ kept_of parts.old }
    ensures refused { (why : StoreRefusalSpec) → put_refusal (S.content parts.old.store) (max parts.old.clock.0 now.0)
        path.now (length body.now) ≡ Some why → result ≡ Err why }
{
    let at = parts.clock.later(now);
    let before = parts.store.version();
    let done = put(&mut parts.store, at, path, format, body);
    if let Err(StoreRefusal::Memory) = done {
        return done;
    }
    // Nothing fails from here on.
    parts.clock = at;
    let version = parts.store.version();
    mark(&mut parts.observers, at, path, before, version);
    done
}

/// Takes away what a path holds, and marks its observers; false where it holds nothing. It takes no
/// memory.
pub(crate) fn remove_parts<S: Store<A>, A: Allocator + Copy, H: BuildHasher>(
    parts: &mut Parts<S, A, H>,
    now: Moment,
    path: &Path<A>,
) -> Result<bool, StoreRefusal>
    requires timed { parts.old.observers.clock ≤ parts.old.clock.0 }
    ensures step { Step (seen S.content parts.old)
        (Removes now.0 path.now result (S.content parts.new.store)) (seen S.content parts.new) }
    ensures timed { parts.new.observers.clock ≤ parts.new.clock.0 }
{
    let at = parts.clock.later(now);
    let before = parts.store.version();
    let done = delete(&mut parts.store, at, path);
    parts.clock = at;
    let version = parts.store.version();
    mark(&mut parts.observers, at, path, before, version);
    done
}
