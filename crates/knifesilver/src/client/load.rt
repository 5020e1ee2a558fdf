//! How much a client has.
ghost use Rattle.std.specs.Prelude.{◌≡◌, ◌≢◌, ◌↔◌, ◌⊎◌, pos};
ghost use Rattle.knifesilver.specs.Answers.{IsAnswered, IsRefused};
ghost use Rattle.knifesilver.specs.Loads.{IsLoadOfClient};
ghost use Rattle.knifesilver.specs.ClientHeld.{HoldsClient, HoldsClientIn, IsClient, IsClientIn};

use crate::answers::{BAD_SIZE, NOT_LIVE, NOTHING};
use crate::handle::KsHandle;
use crate::held::Held;
use crate::load::{KsEndLoad, LOAD_LEN, client_load};
use coap_types::Moment;
use std::alloc::Global;

// Tells how much it has.
fn tell(held: &Held, now: u64, load: &mut KsEndLoad) -> i32
    ensures load { IsAnswered result → (result ≡ pos 0) × IsClientIn (IsLoadOfClient now load.new) held.now }
    ensures left { IsRefused result → load.new ≡ load.old }
    ensures live { IsClient held.now → result ≢ NOT_LIVE }
    ensures why { IsRefused result → result ≡ NOT_LIVE }
    ensures size { result ≢ BAD_SIZE }
{
    match held {
        Held::Client(ours) => {
            *load = client_load(ours.client.load(Moment(now)));
            NOTHING
        }
        Held::Server(_) | Held::Names(_) => NOT_LIVE,
    }
}

/// How much the client has at this moment.
#[unsafe(no_mangle)]
pub extern "C" fn ks_client_load(
    alloc: Global,
    handle: &mut KsHandle,
    now: u64,
    load: &mut KsEndLoad,
) -> i32
    // What is told of the load are the numbers of the client in the handle at that moment.
    ensures load { IsAnswered result
        → (result ≡ pos 0) × HoldsClientIn (IsLoadOfClient now load.new) handle.old.held }
    // Where a client's load is not told, nothing is written.
    ensures left { IsRefused result → load.new ≡ load.old }
    // A question for its load leaves the very client in the handle.
    ensures kept { handle.new.held ≡ handle.old.held }
    // The size of a struct for a client's load is refused exactly where it is another one.
    ensures size { (result ≡ BAD_SIZE) ↔ (load.old.size ≢ LOAD_LEN) }
    // `ks_client_load` never says of a handle with a client that it holds none.
    ensures live { HoldsClient handle.old.held → result ≢ NOT_LIVE }
    // To ask for a client's load is refused for another size or for want of a client in the handle, and for nothing
    // else.
    ensures why { IsRefused result → (result ≡ BAD_SIZE) ⊎ (result ≡ NOT_LIVE) }
{
    if load.size != LOAD_LEN {
        return BAD_SIZE;
    }
    let Some(held) = handle.take(alloc) else {
        return NOT_LIVE;
    };
    let answer = tell(held.as_ref(), now, load);
    handle.put(held);
    answer
}
