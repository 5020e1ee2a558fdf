//! How full the tables of a server are.
ghost use Rattle.std.specs.Prelude.{◌≡◌, ◌≢◌, pos, Some};
ghost use Rattle.knifesilver_exchange.specs.Answers.{IsAnswered, IsRefused};
ghost use Rattle.knifesilver_exchange.specs.Held.{Holds, HoldsIn, IsIn};
ghost use Rattle.knifesilver_exchange.specs.Loads.{IsLoaded};

use crate::answers::{NOT_LIVE, NOTHING};
use crate::handle::KsHandle;
use crate::held::Held;
use std::alloc::Global;

/// C's `ks_load`: how many places of a server's tables are taken, as far as they tell, and how many there are.
#[repr(C)]
#[derive(Clone, Copy)]
pub struct KsLoad {
    /// So many requests are deferred.
    pub deferred: usize,
    /// So many can be deferred.
    pub most_deferred: usize,
    /// So many messages can be remembered.
    pub most_remembered: usize,
}

// Tells how full the tables are.
fn load(held: &Held, load: &mut KsLoad) -> i32
    ensures told { IsAnswered result → (result ≡ pos 0) × IsIn (IsLoaded load.new) held.now }
    ensures live { Holds (Some held.now) → result ≢ NOT_LIVE }
    ensures why { IsRefused result → result ≡ NOT_LIVE }
{
    match held {
        Held::Answerer(server) => {
            let told = server.load();
            *load = KsLoad {
                deferred: told.deferred,
                most_deferred: told.most_deferred,
                most_remembered: told.most_remembered,
            };
            NOTHING
        }
        _ => NOT_LIVE,
    }
}

/// Tells how full the tables of a server are. Nothing changes.
#[unsafe(no_mangle)]
pub extern "C" fn ks_answerer_load(alloc: Global, handle: &mut KsHandle, load: &mut KsLoad) -> i32
    // What is told of a server's tables is how many requests are deferred, of how many at most, and how many messages
    // are remembered at most.
    ensures told { IsAnswered result → (result ≡ pos 0) × HoldsIn (IsLoaded load.new) handle.old.held }
    // To ask how full its tables are leaves the very server in the handle.
    ensures kept { handle.new.held ≡ handle.old.held }
    // To ask how full its tables are is refused for want of a server in the handle, and for nothing else.
    ensures why { IsRefused result → result ≡ NOT_LIVE }
    // `load` never says of a handle with a server that it holds none.
    ensures live { Holds handle.old.held → result ≢ NOT_LIVE }
{
    let Some(held) = handle.take(alloc) else {
        return NOT_LIVE;
    };
    let answer = self::load(held.as_ref(), load);
    handle.put(held);
    answer
}
