//! A server is made and freed.
ghost use Rattle.std.specs.Prelude.{◌≡◌, ◌≢◌, ◌⊎◌, pos, None, Some, IfOk, IfErr, OnOk};
ghost use Rattle.coap_resource.specs.Base.{IsBase, base_of_word};
ghost use Rattle.knifesilver.specs.Answers.{IsAnswered, IsRefused};
ghost use Rattle.knifesilver.specs.Configs.{SaysWrongOfServer, ServesWith, chosen};
ghost use Rattle.knifesilver.specs.Fresh.{IsFreshServer};
ghost use Rattle.knifesilver.specs.ServerHeld.{notes_in};
ghost use Rattle.knifesilver.specs.declared.held.Held.TheVariants.{Server as ServerHeld};

use crate::answers::{BAD_BASE, BAD_CHANGES, NO_MEMORY, NOTHING};
use crate::config::{KsConfig, choice_of};
use crate::handle::KsHandle;
use crate::held::{Held, MapServer, OurServer};
use crate::seed::{KsSeed, hash_of};
use coap_layer::Setup;
use coap_noted::Noted;
use coap_resource::{MAX_CHANGES_PER_WINDOW, MapStore, Store, VersionBase};
use std::alloc::Global;

/// How many changes a window takes.
pub(crate) fn changes_of(changes: u32) -> u32
    ensures { result ≡ chosen MAX_CHANGES_PER_WINDOW changes }
{
    if changes == 0 {
        MAX_CHANGES_PER_WINDOW
    } else {
        changes
    }
}

// A server that holds nothing, or what is wrong with its configuration.
fn fresh_server(alloc: Global, config: &KsConfig, seed: &KsSeed) -> Result<OurServer, i32>
    ensures made { IfOk result (λ server. IsFreshServer config.now seed.now.word (Some (ServerHeld server))) }
    ensures bare { IfOk result (λ server. server.notes ≡ None) }
    ensures taken { OnOk result (ServesWith config.now) }
    ensures refused { IfErr result IsRefused }
    ensures why { IfErr result (SaysWrongOfServer config.now) }
    ensures memory { IfErr result (λ answer. answer ≢ NO_MEMORY) }
{
    let choice = match choice_of(config) {
        Ok(choice) => choice,
        Err(answer) => return Err(answer),
    };
    let Some(base) = VersionBase::new(config.base) else {
        return Err(BAD_BASE);
    };
    let changes = changes_of(config.changes);
    let Some(store) = MapStore::new_after(alloc, changes, choice.limit, base) else {
        return Err(BAD_CHANGES);
    };
    let setup = Setup {
        word: seed.word,
        remembered: choice.remembered,
    };
    let server = MapServer::with_setup(alloc, store, choice.szx, setup, hash_of(seed));
    Ok(Noted {
        server,
        notes: None,
    })
}

/// The base that 39 bits of a random word choose.
#[unsafe(no_mangle)]
pub extern "C" fn ks_base(word: u64) -> u64
    // The base that is drawn is the one that the word's last 39 bits choose.
    ensures drawn { result ≡ base_of_word word }
    // A base that is drawn is one with which a server can be made.
    ensures within { IsBase result }
{
    VersionBase::drawn(word).get()
}

/// Makes a server; what the handle held is freed.
#[unsafe(no_mangle)]
pub extern "C" fn ks_server_new(
    alloc: Global,
    handle: &mut KsHandle,
    config: &KsConfig,
    seed: &KsSeed,
) -> i32
    // A server that is made is one that begins, with the numbers of its configuration and its seed.
    ensures made { IsAnswered result → (result ≡ pos 0) × IsFreshServer config.now seed.now.word handle.new.held }
    // A server that is made so keeps no notes.
    ensures bare { IsAnswered result → notes_in handle.new.held ≡ None }
    // A server is made only with a configuration that can be taken.
    ensures taken { IsAnswered result → ServesWith config.now }
    // Where no server is made, the handle holds what it held.
    ensures kept { IsRefused result → handle.new.held ≡ handle.old.held }
    // Where no server is made, the answer says what is wrong with the configuration, or that there is no memory.
    ensures why { IsRefused result → SaysWrongOfServer config.now result ⊎ (result ≡ NO_MEMORY) }
    // Want of memory is answered for a server only where its configuration can be taken.
    ensures memory { result ≡ NO_MEMORY → ServesWith config.now }
{
    let server = match fresh_server(alloc, config, seed) {
        Ok(server) => server,
        Err(answer) => return answer,
    };
    match Box::new(alloc, Held::Server(server)) {
        Ok(held) => {
            let _before = handle.take(alloc);
            handle.put(held);
            NOTHING
        }
        Err(_) => NO_MEMORY,
    }
}

/// Frees the server; the handle is empty then, and may be freed again.
#[unsafe(no_mangle)]
pub extern "C" fn ks_server_free(alloc: Global, handle: &mut KsHandle)
    // The handle of a server that is freed holds nothing.
    ensures { handle.new.held ≡ None }
{
    let _was = handle.take(alloc);
}
