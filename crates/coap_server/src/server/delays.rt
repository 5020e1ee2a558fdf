//! The delays of paths (RFC 7252, section 5.2.2; that a path has one is a profile).
ghost use Rattle.std.specs.Prelude.{◌≡◌, ◌≢◌, ◌≤◌, ◌<◌, ◌++◌, ◌∷◌, [], true, false, Err, is_ok, is_some, length};
ghost use Rattle.std.specs.Prelude.{slice_get, IfSome, IfNone, IfOk, IsOk, OnErr, OnOk, vec_len, vec_capacity};
ghost use Rattle.coap_server.specs.Deferring.{delay_of, delays_with, may_delay};
ghost use Rattle.coap_server.specs.Led.{Step};
ghost use Rattle.coap_server.specs.Trace.{Delays};
ghost use Rattle.coap_server.specs.Object.Shown.{kept_of, seen};
ghost use Rattle.coap_server.specs.Turns.DelaysShown.{delays_as, delays_of_others};
ghost use Rattle.coap_server.specs.declared.server.delays.DelayRefusal.TheVariants.{Full, Memory};
ghost use Rattle.coap_server.specs.RefusalNumbers.{delay_refusal_number};

use crate::MAX_DELAYS;
use crate::server::parts::{Delay, Parts, push_within};
use coap_resource::Store;
use coap_types::Path;
use std::alloc::{AllocError, Allocator};
use std::hash::BuildHasher;

/// Why a path is given no delay. Where both hold, the lower number is answered.
#[derive(Clone, Copy, Debug, PartialEq, Eq)]
pub enum DelayRefusal {
    /// 1: `MAX_DELAYS` other paths have one.
    Full,
    /// 2: the allocator refused.
    Memory,
}

impl DelayRefusal {
    /// The number of the refusal, 1 or 2, in the order of the variants.
    pub fn number(self) -> u8
        // The number of a delay's refusal is its place among the two.
        ensures { result ≡ delay_refusal_number self }
    {
        match self {
            DelayRefusal::Full => 1,
            DelayRefusal::Memory => 2,
        }
    }
}

// How many other paths have a delay.
fn other_delays<A: Allocator>(delays: &[Delay<A>], path: &Path<A>) -> usize
    ensures { result ≡ length (delays_of_others path.now delays.now) }
{
    delays.iter().filter(|delay| delay.path != *path).count()
}

// Where the delay of the path stands.
fn delay_place<A: Allocator>(delays: &[Delay<A>], path: &Path<A>) -> Option<usize>
    ensures place { IfSome result (λ i. IfSome (slice_get delays.now i) (λ d. d.path ≡ path.now)) }
    ensures within { IfSome result (λ i. i < length delays.now) }
    ensures none { IfNone result (delays_of_others path.now delays.now ≡ delays.now) }
{
    let mut i = 0;
    'delays: while i < delays.len() {
        if delays[i].path == *path {
            return Some(i);
        }
        i += 1;
    }
    None
}

// The delays of other paths stay.
fn retain_others<A: Allocator + Copy>(delays: &mut Vec<Delay<A>, A>, path: &Path<A>)
    ensures left { delays.new.items ≡ delays_of_others path.now delays.old.items }
    ensures len { vec_len delays.new ≤ vec_len delays.old }
    ensures room { vec_capacity delays.new ≡ vec_capacity delays.old }
{
    delays.retain(|delay| delay.path != *path);
}

// The delay at this place, that of the path, makes way for another. It takes no memory.
fn replace_delay<A: Allocator + Copy>(
    delays: &mut Vec<Delay<A>, A>,
    place: usize,
    path: &Path<A>,
    ms: u64,
)
    requires within { place < length delays.old.items }
    requires place { IfSome (slice_get delays.old.items place) (λ d. d.path ≡ path.now) }
    ensures { delays_as delays.new.items ≡ delays_with path.now ms true (delays_as delays.old.items) }
{
    let delay = delays.remove(place);
    retain_others(delays, path);
    push_within(
        delays,
        Delay {
            path: delay.path,
            ms,
        },
    );
}

// A path that has no delay is given one.
fn add_delay<A: Allocator + Copy>(
    delays: &mut Vec<Delay<A>, A>,
    path: &Path<A>,
    ms: u64,
) -> Result<(), AllocError>
    requires new { delays_of_others path.now delays.old.items ≡ delays.old.items }
    ensures ok { OnOk result (delays_as delays.new.items ≡ delays_with path.now ms true (delays_as delays.old.items)) }
    ensures err { OnErr result (delays.new.items ≡ delays.old.items) }
{
    delays.reserve(1)?;
    let path = path.clone()?;
    push_within(delays, Delay { path, ms });
    Ok(())
}

/// Gives a path a delay, in place of an earlier one: false where `MAX_DELAYS` other paths have one.
/// It takes no memory where they have, or the path has one; after an `Err` nothing has changed.
pub fn give_delay<A: Allocator + Copy>(
    delays: &mut Vec<Delay<A>, A>,
    path: &Path<A>,
    ms: u64,
) -> Result<bool, AllocError>
    // A path has the delay that it is given, where it has one already or a place is left.
    ensures given { IfOk result (λ given. (given ≡ may_delay path.now (delays_as delays.old.items))
        × (delays_as delays.new.items ≡ delays_with path.now ms given (delays_as delays.old.items))) }
    // A delay that is refused memory leaves the delays as they were.
    ensures err { OnErr result (delays.new.items ≡ delays.old.items) }
    // A delay for which no place is left takes no memory.
    ensures full { may_delay path.now (delays_as delays.old.items) ≡ false → IsOk result }
    // A further delay for a path that has one takes no memory.
    ensures again { is_some (delay_of path.now (delays_as delays.old.items)) ≡ true → IsOk result }
{
    if other_delays(delays, path) >= MAX_DELAYS {
        return Ok(false);
    }
    match delay_place(delays, path) {
        Some(place) => replace_delay(delays, place, path, ms),
        None => add_delay(delays, path, ms)?,
    }
    Ok(true)
}

/// Gives a path a delay, in place of an earlier one. Where `MAX_DELAYS` other paths have one, or it
/// has one, it takes no memory.
pub(crate) fn set_delay_parts<S: Store<A>, A: Allocator + Copy, H: BuildHasher>(
    parts: &mut Parts<S, A, H>,
    path: &Path<A>,
    ms: u64,
) -> Result<(), DelayRefusal>
    requires timed { parts.old.observers.clock ≤ parts.old.clock.0 }
    ensures step { result ≢ Err Memory
        → Step (seen S.content parts.old) (Delays path.now ms (is_ok result)) (seen S.content parts.new) }
    ensures timed { parts.new.observers.clock ≤ parts.new.clock.0 }
    ensures memory { result ≡ Err Memory → kept_of parts.new ≡ kept_of parts.old }
    ensures full { may_delay path.now (delays_as parts.old.delays.items) ≡ false → result ≡ Err Full }
    ensures again { is_some (delay_of path.now (delays_as parts.old.delays.items)) ≡ true → result ≢ Err Memory }
{
    match give_delay(&mut parts.delays, path, ms) {
        Ok(true) => Ok(()),
        Ok(false) => Err(DelayRefusal::Full),
        Err(_) => Err(DelayRefusal::Memory),
    }
}
