//! A client is made and freed.
ghost use Rattle.std.specs.Prelude.{◌≡◌, ◌≢◌, ◌⊎◌, pos, None, Some, IfOk, IfErr, OnOk};
ghost use Rattle.knifesilver.specs.Answers.{IsAnswered, IsRefused};
ghost use Rattle.knifesilver.specs.Configs.{CanBeTaken, SaysWrong};
ghost use Rattle.knifesilver.specs.Fresh.{IsFreshClient};
ghost use Rattle.knifesilver.specs.declared.held.Held.TheVariants.{Client as ClientHeld};

use crate::answers::{NO_MEMORY, NOTHING};
use crate::config::{KsConfig, choice_of};
use crate::crossing::{KsAddress, endpoint};
use crate::handle::KsHandle;
use crate::held::{Held, OurClient};
use crate::seed::{KsSeed, hash_of};
use coap_ends::Client;
use coap_layer::Setup;
use coap_types::Endpoint;
use std::alloc::Global;

// A client of that server, or what is wrong with its configuration.
fn fresh_client(
    alloc: Global,
    server: Endpoint,
    config: &KsConfig,
    seed: &KsSeed,
) -> Result<OurClient, i32>
    ensures made { IfOk result (λ client. IsFreshClient server config.now seed.now.word (Some (ClientHeld client))) }
    ensures taken { OnOk result (CanBeTaken config.now) }
    ensures refused { IfErr result IsRefused }
    ensures why { IfErr result (SaysWrong config.now) }
    ensures memory { IfErr result (λ answer. answer ≢ NO_MEMORY) }
{
    let choice = match choice_of(config) {
        Ok(choice) => choice,
        Err(answer) => return Err(answer),
    };
    let setup = Setup {
        word: seed.word,
        remembered: choice.remembered,
    };
    let client = Client::with_setup(
        alloc,
        server,
        choice.szx,
        choice.limit,
        setup,
        hash_of(seed),
    );
    Ok(OurClient {
        client,
        report: None,
    })
}

/// Makes a client of that server; what the handle held is freed.
#[unsafe(no_mangle)]
pub extern "C" fn ks_client_new(
    alloc: Global,
    handle: &mut KsHandle,
    server: &KsAddress,
    config: &KsConfig,
    seed: &KsSeed,
) -> i32
    // A client that is made is one that begins, with the numbers of its configuration and its seed.
    ensures made { IsAnswered result → (result ≡ pos 0) × IsFreshClient (record { ip = server.now.ip; port = server.now.port })
        config.now seed.now.word handle.new.held }
    // A client is made only with a configuration that can be taken.
    ensures taken { IsAnswered result → CanBeTaken config.now }
    // Where no client is made, the handle holds what it held.
    ensures kept { IsRefused result → handle.new.held ≡ handle.old.held }
    // Where no client is made, the answer says what is wrong with the configuration, or that there is no memory.
    ensures why { IsRefused result → SaysWrong config.now result ⊎ (result ≡ NO_MEMORY) }
    // Want of memory is answered for a client only where its configuration can be taken.
    ensures memory { result ≡ NO_MEMORY → CanBeTaken config.now }
{
    let client = match fresh_client(alloc, endpoint(server), config, seed) {
        Ok(client) => client,
        Err(answer) => return answer,
    };
    match Box::new(alloc, Held::Client(client)) {
        Ok(held) => {
            let _before = handle.take(alloc);
            handle.put(held);
            NOTHING
        }
        Err(_) => NO_MEMORY,
    }
}

/// Frees the client; the handle is empty then, and may be freed again.
#[unsafe(no_mangle)]
pub extern "C" fn ks_client_free(alloc: Global, handle: &mut KsHandle)
    // The handle of a client that is freed holds nothing.
    ensures { handle.new.held ≡ None }
{
    let _was = handle.take(alloc);
}
