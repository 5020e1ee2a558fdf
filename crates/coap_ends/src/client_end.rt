//! A client as an end.
use crate::End;
use coap_client::Client;
use coap_layer::Datagram;
use coap_types::{Endpoint, Moment};
use std::alloc::{AllocError, Allocator};
use std::hash::BuildHasher;

impl<A: Allocator + Copy, H: BuildHasher> End<A> for Client<A, H> {
    ghost use Rattle.std.specs.Prelude.{ℕ, Bool, List, Option, Some, Result};
    ghost use Rattle.coap_layer.specs.Trace.{Answer};
    ghost use Rattle.coap_exchange.specs.declared.asker.AskRefusal.{AskRefusal};
    ghost use Rattle.coap_exchange.specs.declared.asker.Event.{Event};
    ghost use Rattle.coap_exchange.specs.declared.asker.Turn.{Turn};
    ghost use Rattle.coap_client.specs.Led.{State as ClientState, Step};
    ghost use Rattle.coap_client.specs.Trace.{Feeds, NextOut, Ticks};
    ghost use Rattle.coap_client.specs.Turns.Quiet.{IsIdle, TellsNothing};
    ghost use Rattle.coap_client.specs.Turns.Due.{latest as latest_moment};
    ghost use Rattle.coap_client.specs.Turns.Work.{work as work_left};

    ghost State = { ClientState };

    ghost state = { λ c. c };

    ghost waiting = { λ s. s.layer.layer.queue };

    ghost latest = { λ s. latest_moment s };

    ghost work = { λ s now. work_left s now };

    ghost quiet_feed = { λ s now from bytes. TellsNothing s now from bytes };

    ghost quiet_tick = { λ s now. IsIdle s now };

    ghost feeds = { λ s now from bytes word n. (up : Answer) × (settled : Bool) × (event : Option Event)
        × (sent : Answer) × (token : Result (List ℕ) AskRefusal) × (kept : Bool)
        × Step s (Feeds now from bytes word up settled event sent token kept) n };

    ghost ticks = { λ s now word did n. (below : Answer) × (due : Turn) × (sent : Answer)
        × (token : Result (List ℕ) AskRefusal) × (kept : Bool)
        × Step s (Ticks now word below due sent token kept did) n };

    ghost gives = { λ s packet n. Step s (NextOut (Some packet)) n };

    fn feed(
        &mut self,
        now: Moment,
        from: Endpoint,
        bytes: &[u8],
        word: u64,
    ) -> Result<(), AllocError> {
        Client::feed(self, now, from, bytes, word)
    }

    fn tick(&mut self, now: Moment, word: u64) -> Result<bool, AllocError> {
        Client::tick(self, now, word)
    }

    fn due(&self) -> Option<Moment> {
        Client::due(self)
    }

    fn next_out(&mut self) -> Option<Datagram<A>> {
        Client::next_out(self)
    }
}
