//! A table of names is made and freed.
ghost use Rattle.std.specs.Prelude.{◌≡◌, ◌⊎◌, ◌↔◌, pos, [], None};
ghost use Rattle.knifesilver.specs.Answers.{IsAnswered, IsRefused};
ghost use Rattle.knifesilver.specs.NamesHeld.{HasPlaces, HoldsLed, numbering_of};

use crate::answers::{BAD_ARGUMENT, NO_MEMORY, NOTHING};
use crate::handle::KsHandle;
use crate::held::{Held, OurNames};
use crate::seed::{KsSeed, hash_of};
use coap_names::{Numbering, Places};
use std::alloc::Global;

// Which names are given.
fn numbering(this_network: bool) -> Numbering
    ensures { result ≡ numbering_of this_network }
{
    if this_network {
        Numbering::ThisNetwork
    } else {
        Numbering::Whole
    }
}

/// Makes a table in which no peer has a name; what the handle held is freed.
#[unsafe(no_mangle)]
pub extern "C" fn ks_names_new(
    alloc: Global,
    handle: &mut KsHandle,
    places: u32,
    this_network: bool,
    seed: &KsSeed,
) -> i32
    // A table that is made is one to which no call has led, with so many places and such names.
    ensures made { IsAnswered result → (result ≡ pos 0)
        × HoldsLed (record { most = places; numbering = numbering_of this_network }) [] handle.new.held }
    // A number of places is refused exactly where no table has so many.
    ensures argument { (result ≡ BAD_ARGUMENT) ↔ (HasPlaces places → ⊥) }
    // Where no table is made, the handle holds what it held.
    ensures kept { IsRefused result → handle.new.held ≡ handle.old.held }
    // No table is made for a number of places or for want of memory, and for nothing else.
    ensures why { IsRefused result → (result ≡ BAD_ARGUMENT) ⊎ (result ≡ NO_MEMORY) }
{
    let Some(most) = Places::new(places) else {
        return BAD_ARGUMENT;
    };
    let Ok(names) = OurNames::with_hasher(alloc, most, numbering(this_network), hash_of(seed))
    else {
        return NO_MEMORY;
    };
    match Box::new(alloc, Held::Names(names)) {
        Ok(held) => {
            let _before = handle.take(alloc);
            handle.put(held);
            NOTHING
        }
        Err(_) => NO_MEMORY,
    }
}

/// Frees the table; the handle is empty then, and may be freed again.
#[unsafe(no_mangle)]
pub extern "C" fn ks_names_free(alloc: Global, handle: &mut KsHandle)
    // The handle of a table that is freed holds nothing.
    ensures { handle.new.held ≡ None }
{
    let _was = handle.take(alloc);
}
