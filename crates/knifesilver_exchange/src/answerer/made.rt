//! A server is made and freed.
ghost use Rattle.std.specs.Prelude.{◌≡◌, ◌<◌, ◌⊎◌, pos, None};
ghost use Rattle.knifesilver_exchange.specs.Answers.{IsAnswered, IsRefused};
ghost use Rattle.knifesilver_exchange.specs.Fresh.{IsFresh};

use crate::answers::{BAD_REMEMBERED, NO_MEMORY, NOTHING};
use crate::handle::KsHandle;
use crate::held::Held;
use crate::seed::{KsSeed, hash_of, remembered_of};
use coap_handlers::Responder;
use coap_layer::Setup;
use coap_types::MAX_REMEMBERED;
use std::alloc::Global;

/// Makes a server whose answers the application computes; what the handle held is freed.
#[unsafe(no_mangle)]
pub extern "C" fn ks_answerer_new(
    alloc: Global,
    handle: &mut KsHandle,
    remembered: u32,
    seed: &KsSeed,
) -> i32
    // A server that is made is one to which nothing has happened, with its number of places and its seed.
    ensures made { IsAnswered result → (result ≡ pos 0) × IsFresh remembered seed.now.word handle.new.held }
    // Where no answerer is made, the handle holds what it held.
    ensures kept { IsRefused result → handle.new.held ≡ handle.old.held }
    // No server is made where too many messages are to be remembered, or for want of memory.
    ensures why { IsRefused result
        → ((result ≡ BAD_REMEMBERED) × (MAX_REMEMBERED < remembered)) ⊎ (result ≡ NO_MEMORY) }
{
    let Some(remembered) = remembered_of(remembered) else {
        return BAD_REMEMBERED;
    };
    let setup = Setup {
        word: seed.word,
        remembered,
    };
    let responder = Responder::with_setup(alloc, setup, hash_of(seed));
    match Box::new(alloc, Held::Answerer(responder)) {
        Ok(held) => {
            let _before = handle.take(alloc);
            handle.put(held);
            NOTHING
        }
        Err(_) => NO_MEMORY,
    }
}

/// Frees the server; the handle is empty then, and may be freed again.
#[unsafe(no_mangle)]
pub extern "C" fn ks_answerer_free(alloc: Global, handle: &mut KsHandle)
    // The handle of an answerer that is freed holds nothing.
    ensures { handle.new.held ≡ None }
{
    let _was = handle.take(alloc);
}
