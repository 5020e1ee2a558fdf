//! How many peers have a name.
ghost use Rattle.std.specs.Prelude.{◌≡◌, ◌≢◌, length, pos};
ghost use Rattle.knifesilver.specs.Answers.{IsAnswered, IsRefused};
ghost use Rattle.knifesilver.specs.NamesHeld.{HoldsNames, HoldsNamesIn, IsNames, IsNamesIn};

use crate::answers::{NOT_LIVE, NOTHING};
use crate::handle::KsHandle;
use crate::held::Held;
use std::alloc::Global;

// Tells how many peers have a name.
fn count(held: &Held, taken: &mut u64) -> i32
    ensures load { IsAnswered result
        → (result ≡ pos 0) × IsNamesIn (λ s. taken.new ≡ length s.keys) held.now }
    ensures left { IsRefused result → taken.new ≡ taken.old }
    ensures live { IsNames held.now → result ≢ NOT_LIVE }
    ensures why { IsRefused result → result ≡ NOT_LIVE }
{
    match held {
        Held::Names(names) => {
            *taken = names.len() as u64;
            NOTHING
        }
        Held::Server(_) | Held::Client(_) => NOT_LIVE,
    }
}

/// How many peers have a name.
#[unsafe(no_mangle)]
pub extern "C" fn ks_names_load(alloc: Global, handle: &mut KsHandle, taken: &mut u64) -> i32
    // The number that is told is that of the keys that have a name in the table in the handle.
    ensures load { IsAnswered result
        → (result ≡ pos 0) × HoldsNamesIn (λ s. taken.new ≡ length s.keys) handle.old.held }
    // Where no number of names is told, none is written.
    ensures left { IsRefused result → taken.new ≡ taken.old }
    // To ask for the number of names leaves the very table in the handle.
    ensures kept { handle.new.held ≡ handle.old.held }
    // `ks_names_load` never says of a handle with a table that it holds none.
    ensures live { HoldsNames handle.old.held → result ≢ NOT_LIVE }
    // To ask for the number of names is refused for want of a table in the handle, and for nothing else.
    ensures why { IsRefused result → result ≡ NOT_LIVE }
{
    let Some(held) = handle.take(alloc) else {
        return NOT_LIVE;
    };
    let answer = count(held.as_ref(), taken);
    handle.put(held);
    answer
}
