//! A run whose record keeps the promise.
ghost use Rattle.std.specs.Prelude.{◌≡◌, ℕ, Err, IfOk, map};
ghost use Rattle.coap_run.specs.Run.Happening.{event_of};
ghost use Rattle.coap_run.specs.Run.Runs.{IsFirstWrong};
ghost use Rattle.coap_run.specs.declared.running.RunRefusal.TheVariants.{NotLegal};
ghost use Rattle.coap_world.specs.Kept.{IsRunOf};

use coap_resource::Store;
use coap_run::{Event, Record, RunRefusal, WorldConfig};
use std::alloc::Allocator;

/// Runs the events over a client and a server, which holds what it holds in such a store: `coap_run::run_with`, whose
/// record keeps the promise.
pub fn run_with<S: Store<A>, A: Allocator + Copy>(
    events: &[Event<A>],
    config: &WorldConfig<A>,
) -> Result<Record<A>, RunRefusal>
    // It is what the record of these events shows, each of which is legal, and that keeps the promise.
    ensures record { IfOk result (λ shown. IsRunOf config.now (map event_of events.now) shown) }
    // Its refusal names the first event that is not legal, as that of `coap_run` does.
    ensures wrong { (number : ℕ) → result ≡ Err (NotLegal number)
        → IsFirstWrong config.now (map event_of events.now) number }
{
    coap_run::run_with::<S, A>(events, config)
}

/// Runs the events over a client and a server, which holds what it holds in the default store: `coap_run::run`.
pub fn run<A: Allocator + Copy>(
    events: &[Event<A>],
    config: &WorldConfig<A>,
) -> Result<Record<A>, RunRefusal>
    // What `run` answers is what the record of these events shows, each of which is legal, and that keeps the promise.
    ensures record { IfOk result (λ shown. IsRunOf config.now (map event_of events.now) shown) }
    // So does the refusal of the default store's `run`.
    ensures wrong { (number : ℕ) → result ≡ Err (NotLegal number)
        → IsFirstWrong config.now (map event_of events.now) number }
{
    coap_run::run(events, config)
}
