//! A client for any request is made and freed.
ghost use Rattle.std.specs.Prelude.{◌≡◌, ◌<◌, ◌⊎◌, pos, None};
ghost use Rattle.knifesilver_exchange.specs.Answers.{IsAnswered, IsRefused};
ghost use Rattle.knifesilver_exchange.specs.Fresh.{IsFreshAsker};

use crate::answers::{BAD_REMEMBERED, NO_MEMORY, NOTHING};
use crate::crossing::{KsAddress, endpoint};
use crate::handle::KsHandle;
use crate::held::{Held, OurAsker};
use crate::seed::{KsSeed, hash_of, remembered_of};
use coap_exchange::Asker;
use coap_layer::Setup;
use coap_types::MAX_REMEMBERED;
use std::alloc::Global;

/// Makes a client of that server, for any request; what the handle held is freed.
#[unsafe(no_mangle)]
pub extern "C" fn ks_asker_new(
    alloc: Global,
    handle: &mut KsHandle,
    server: &KsAddress,
    remembered: u32,
    seed: &KsSeed,
) -> i32
    // An asker that is made is a client of that server to which nothing has happened, with its number of places and
    // its seed.
    ensures made { IsAnswered result → (result ≡ pos 0)
        × IsFreshAsker (record { ip = server.now.ip; port = server.now.port }) remembered seed.now.word
        handle.new.held }
    // Where no asker is made, the handle holds what it held.
    ensures kept { IsRefused result → handle.new.held ≡ handle.old.held }
    // No asker is made where too many messages are to be remembered, or for want of memory.
    ensures why { IsRefused result
        → ((result ≡ BAD_REMEMBERED) × (MAX_REMEMBERED < remembered)) ⊎ (result ≡ NO_MEMORY) }
{
    let Some(remembered) = remembered_of(remembered) else {
        return BAD_REMEMBERED;
    };
    let setup = Setup {
        word: seed.word,
        remembered,
    };
    let asker = Asker::with_setup(alloc, endpoint(server), setup, hash_of(seed));
    let client = OurAsker {
        asker,
        brought: None,
    };
    match Box::new(alloc, Held::Asker(client)) {
        Ok(held) => {
            let _before = handle.take(alloc);
            handle.put(held);
            NOTHING
        }
        Err(_) => NO_MEMORY,
    }
}

/// Frees the client; the handle is empty then, and may be freed again.
#[unsafe(no_mangle)]
pub extern "C" fn ks_asker_free(alloc: Global, handle: &mut KsHandle)
    // The handle of an asker that is freed holds nothing.
    ensures { handle.new.held ≡ None }
{
    let _was = handle.take(alloc);
}
