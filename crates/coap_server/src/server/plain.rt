//! The paths whose observers are told in Non-confirmable messages (RFC 7641, section 4.5; that a path
//! is plain is a profile).
ghost use Rattle.std.specs.Prelude.{◌≡◌, ◌≢◌, ◌≤◌, true, false, Err, is_ok, IfOk, IsOk, OnErr, OnOk};
ghost use Rattle.coap_server.specs.Led.{Step};
ghost use Rattle.coap_server.specs.Object.Shown.{kept_of, seen};
ghost use Rattle.coap_server.specs.Plain.{is_plain, may_be_plain, plains_with};
ghost use Rattle.coap_server.specs.Trace.{Plains};
ghost use Rattle.coap_server.specs.declared.server.plain.PlainRefusal.TheVariants.{Full, Memory};
ghost use Rattle.coap_server.specs.RefusalNumbers.{plain_refusal_number};

use crate::MAX_PLAINS;
use crate::server::parts::{Parts, push_within};
use coap_resource::Store;
use coap_types::Path;
use std::alloc::{AllocError, Allocator};
use std::hash::BuildHasher;

/// Why a path is not made plain. Where both hold, the lower number is answered.
#[derive(Clone, Copy, Debug, PartialEq, Eq)]
pub enum PlainRefusal {
    /// 1: `MAX_PLAINS` other paths are plain.
    Full,
    /// 2: the allocator refused.
    Memory,
}

impl PlainRefusal {
    /// The number of the refusal, 1 or 2, in the order of the variants.
    pub fn number(self) -> u8
        // The number of a plain path's refusal is its place among the two.
        ensures { result ≡ plain_refusal_number self }
    {
        match self {
            PlainRefusal::Full => 1,
            PlainRefusal::Memory => 2,
        }
    }
}

/// Whether the path is plain.
pub(crate) fn is_plain<A: Allocator>(plains: &[Path<A>], path: &Path<A>) -> bool
    ensures { result ≡ is_plain path.now plains.now }
{
    plains.iter().any(|plain| *plain == *path)
}

/// Makes a path plain: false where it isn't, and `MAX_PLAINS` other paths are. It takes no memory where
/// they are, or the path is plain; after an `Err` nothing has changed.
pub fn give_plain<A: Allocator + Copy>(
    plains: &mut Vec<Path<A>, A>,
    path: &Path<A>,
) -> Result<bool, AllocError>
    // A path is made plain, where it is already or a place is left.
    ensures given { IfOk result (λ given. (given ≡ may_be_plain path.now plains.old.items)
        × (plains.new.items ≡ plains_with path.now given plains.old.items)) }
    // A path that can't be made plain for want of memory leaves the plain paths as they were.
    ensures err { OnErr result (plains.new.items ≡ plains.old.items) }
    // A path for which no place is left takes no memory.
    ensures full { may_be_plain path.now plains.old.items ≡ false → IsOk result }
    // A path that is plain takes no memory.
    ensures again { is_plain path.now plains.old.items ≡ true → IsOk result }
{
    if is_plain(plains, path) {
        return Ok(true);
    }
    if plains.len() >= MAX_PLAINS {
        return Ok(false);
    }
    plains.reserve(1)?;
    let path = path.clone()?;
    push_within(plains, path);
    Ok(true)
}

/// Makes a path plain. Where `MAX_PLAINS` other paths are, or it is, it takes no memory.
pub(crate) fn set_plain_parts<S: Store<A>, A: Allocator + Copy, H: BuildHasher>(
    parts: &mut Parts<S, A, H>,
    path: &Path<A>,
) -> Result<(), PlainRefusal>
    requires timed { parts.old.observers.clock ≤ parts.old.clock.0 }
    ensures step { result ≢ Err Memory
        → Step (seen S.content parts.old) (Plains path.now (is_ok result)) (seen S.content parts.new) }
    ensures timed { parts.new.observers.clock ≤ parts.new.clock.0 }
    ensures memory { result ≡ Err Memory → kept_of parts.new ≡ kept_of parts.old }
    ensures full { may_be_plain path.now parts.old.plains.items ≡ false → result ≡ Err Full }
    ensures again { is_plain path.now parts.old.plains.items ≡ true → result ≢ Err Memory }
{
    match give_plain(&mut parts.plains, path) {
        Ok(true) => Ok(()),
        Ok(false) => Err(PlainRefusal::Full),
        Err(_) => Err(PlainRefusal::Memory),
    }
}
