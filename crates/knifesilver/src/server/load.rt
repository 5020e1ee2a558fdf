//! How much a server has.
ghost use Rattle.std.specs.Prelude.{◌≡◌, ◌≢◌, ◌↔◌, ◌⊎◌, pos};
ghost use Rattle.knifesilver.specs.Answers.{IsAnswered, IsRefused};
ghost use Rattle.knifesilver.specs.Loads.{IsServerLoad};
ghost use Rattle.knifesilver.specs.ServerHeld.{HoldsServer, HoldsServerIn, IsServer, IsServerIn};

use crate::answers::{BAD_SIZE, NOT_LIVE, NOTHING};
use crate::handle::KsHandle;
use crate::held::Held;
use crate::load::{KsEndLoad, LOAD_LEN, server_load};
use coap_types::Moment;
use std::alloc::Global;

// Tells how much it has.
fn tell(held: &Held, now: u64, load: &mut KsEndLoad) -> i32
    ensures load { IsAnswered result → (result ≡ pos 0) × IsServerIn (IsServerLoad now load.new) held.now }
    ensures left { IsRefused result → load.new ≡ load.old }
    ensures live { IsServer held.now → result ≢ NOT_LIVE }
    ensures why { IsRefused result → result ≡ NOT_LIVE }
    ensures size { result ≢ BAD_SIZE }
{
    match held {
        Held::Server(server) => {
            *load = server_load(server.server.load(Moment(now)));
            NOTHING
        }
        Held::Client(_) | Held::Names(_) => NOT_LIVE,
    }
}

/// How much the server has at this moment.
#[unsafe(no_mangle)]
pub extern "C" fn ks_server_load(
    alloc: Global,
    handle: &mut KsHandle,
    now: u64,
    load: &mut KsEndLoad,
) -> i32
    // What is told of the load are the numbers of the server in the handle at that moment.
    ensures load { IsAnswered result
        → (result ≡ pos 0) × HoldsServerIn (IsServerLoad now load.new) handle.old.held }
    // Where a server's load is not told, nothing is written.
    ensures left { IsRefused result → load.new ≡ load.old }
    // To ask for its load leaves the very server in the handle.
    ensures kept { handle.new.held ≡ handle.old.held }
    // The size of a struct for a server's load is refused exactly where it is another one.
    ensures size { (result ≡ BAD_SIZE) ↔ (load.old.size ≢ LOAD_LEN) }
    // `ks_server_load` never says of a handle with a server that it holds none.
    ensures live { HoldsServer handle.old.held → result ≢ NOT_LIVE }
    // To ask for a server's load is refused for another size or for want of a server in the handle, and for nothing
    // else.
    ensures why { IsRefused result → (result ≡ BAD_SIZE) ⊎ (result ≡ NOT_LIVE) }
{
    if load.size != LOAD_LEN {
        return BAD_SIZE;
    }
    let Some(held) = handle.take(alloc) else {
        return NOT_LIVE;
    };
    let answer = tell(held.as_ref(), now, load);
    handle.put(held);
    answer
}
