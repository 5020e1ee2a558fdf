//! Names that are held, released and retired.
ghost use Rattle.std.specs.Prelude.{◌≡◌, ◌≢◌, Some, None, IsSome};
ghost use Rattle.std.specs.Map.{lookup};
ghost use Rattle.coap_names.specs.Tables.{keyed};
ghost use Rattle.knifesilver.specs.Answers.{IsAnswered, IsRefused, IsUsual, told};
ghost use Rattle.knifesilver.specs.NamesCalls.{IsHeld, IsReleased, IsRetired, NeedsNoHold, NeedsNoRelease};
ghost use Rattle.knifesilver.specs.NamesHeld.{Goes, HoldsNames, HoldsNamesIn, IsNames, IsNamesIn};

use crate::answers::{DONE, NO_MEMORY, NOT_LIVE, NOTHING};
use crate::crossing::{KsAddress, endpoint};
use crate::handle::KsHandle;
use crate::held::Held;
use coap_types::{Endpoint, Moment};
use std::alloc::Global;

// 1 where it was done, and else 0.
fn answer_of(done: bool) -> i32
    ensures { result ≡ told done }
{
    if done { DONE } else { NOTHING }
}

// Holds a name.
fn hold(held: &mut Held, name: &Endpoint) -> i32
    ensures led { IsAnswered result → Goes (IsHeld name.now result) (Some held.old) (Some held.new) }
    ensures kept { IsRefused result → held.new ≡ held.old }
    ensures live { IsNames held.old → result ≢ NOT_LIVE }
    ensures why { IsRefused result → IsUsual result }
    ensures quiet { IsNamesIn (NeedsNoHold name.now) held.old → IsAnswered result }
{
    match held {
        Held::Names(names) => match names.hold(name) {
            Ok(done) => answer_of(done),
            Err(_) => NO_MEMORY,
        },
        Held::Server(_) | Held::Client(_) => NOT_LIVE,
    }
}

/// Holds a name, which is not lost until it is released or retired: 1, or 0 where it is nobody's.
#[unsafe(no_mangle)]
pub extern "C" fn ks_names_hold(alloc: Global, handle: &mut KsHandle, name: &KsAddress) -> i32
    // A hold that is answered makes just that call of the table in the handle, and says whether the name is held.
    ensures led { IsAnswered result
        → Goes (IsHeld (record { ip = name.now.ip; port = name.now.port }) result) handle.old.held handle.new.held }
    // A hold that is refused leaves the very table in the handle.
    ensures kept { IsRefused result → handle.new.held ≡ handle.old.held }
    // `ks_names_hold` never says of a handle with a table that it holds none.
    ensures live { HoldsNames handle.old.held → result ≢ NOT_LIVE }
    // A hold is refused for want of memory or of a table in the handle, and for nothing else.
    ensures why { IsRefused result → IsUsual result }
    // To hold a name that is held, or nobody's, is not refused memory.
    ensures quiet { HoldsNamesIn (NeedsNoHold (record { ip = name.now.ip; port = name.now.port })) handle.old.held
        → IsAnswered result }
{
    let Some(mut held) = handle.take(alloc) else {
        return NOT_LIVE;
    };
    let answer = hold(held.as_mut(), &endpoint(name));
    handle.put(held);
    answer
}

// Holds a name no more.
fn release(held: &mut Held, now: u64, name: &Endpoint) -> i32
    ensures led { IsAnswered result → Goes (IsReleased now name.now result) (Some held.old) (Some held.new) }
    ensures kept { IsRefused result → held.new ≡ held.old }
    ensures live { IsNames held.old → result ≢ NOT_LIVE }
    ensures why { IsRefused result → IsUsual result }
    ensures quiet { IsNamesIn (NeedsNoRelease name.now) held.old → IsAnswered result }
{
    match held {
        Held::Names(names) => match names.release(Moment(now), name) {
            Ok(done) => answer_of(done),
            Err(_) => NO_MEMORY,
        },
        Held::Server(_) | Held::Client(_) => NOT_LIVE,
    }
}

/// Holds a name no more, which counts as a datagram: 1, or 0 where it was not held.
#[unsafe(no_mangle)]
pub extern "C" fn ks_names_release(
    alloc: Global,
    handle: &mut KsHandle,
    now: u64,
    name: &KsAddress,
) -> i32
    // A release that is answered makes just that call of the table in the handle, and says whether the name was held.
    ensures led { IsAnswered result → Goes (IsReleased now (record { ip = name.now.ip; port = name.now.port }) result)
        handle.old.held handle.new.held }
    // A release that is refused leaves the very table in the handle.
    ensures kept { IsRefused result → handle.new.held ≡ handle.old.held }
    // `ks_names_release` never says of a handle with a table that it holds none.
    ensures live { HoldsNames handle.old.held → result ≢ NOT_LIVE }
    // A release is refused for want of memory or of a table in the handle, and for nothing else.
    ensures why { IsRefused result → IsUsual result }
    // To release a name that is not held, or nobody's, is not refused memory.
    ensures quiet { HoldsNamesIn (NeedsNoRelease (record { ip = name.now.ip; port = name.now.port })) handle.old.held
        → IsAnswered result }
{
    let Some(mut held) = handle.take(alloc) else {
        return NOT_LIVE;
    };
    let answer = release(held.as_mut(), now, &endpoint(name));
    handle.put(held);
    answer
}

// Forgets a name.
fn retire(held: &mut Held, name: &Endpoint) -> i32
    ensures led { IsAnswered result → Goes (IsRetired name.now result) (Some held.old) (Some held.new) }
    ensures kept { IsRefused result → held.new ≡ held.old }
    ensures live { IsNames held.old → result ≢ NOT_LIVE }
    ensures why { IsRefused result → result ≡ NOT_LIVE }
{
    match held {
        Held::Names(names) => answer_of(names.retire(name)),
        Held::Server(_) | Held::Client(_) => NOT_LIVE,
    }
}

/// Forgets a name at once, of a peer that never comes again: 1, or 0 where it is nobody's.
#[unsafe(no_mangle)]
pub extern "C" fn ks_names_retire(alloc: Global, handle: &mut KsHandle, name: &KsAddress) -> i32
    // A name that is retired makes just that call of the table in the handle, and it is said whether it was somebody's.
    ensures led { IsAnswered result → Goes (IsRetired (record { ip = name.now.ip; port = name.now.port }) result)
        handle.old.held handle.new.held }
    // To retire a name, where that is refused, leaves what the handle holds.
    ensures kept { IsRefused result → handle.new.held ≡ handle.old.held }
    // `ks_names_retire` never says of a handle with a table that it holds none.
    ensures live { HoldsNames handle.old.held → result ≢ NOT_LIVE }
    // To retire a name is refused for want of a table in the handle, and for nothing else.
    ensures why { IsRefused result → result ≡ NOT_LIVE }
{
    let Some(mut held) = handle.take(alloc) else {
        return NOT_LIVE;
    };
    let answer = retire(held.as_mut(), &endpoint(name));
    handle.put(held);
    answer
}
