//! A server as an end.
use crate::End;
use coap_layer::Datagram;
use coap_resource::Store;
use coap_server::Server;
use coap_types::{Endpoint, Moment};
use std::alloc::{AllocError, Allocator};
use std::hash::BuildHasher;

impl<S: Store<A>, A: Allocator + Copy, H: BuildHasher> End<A> for Server<S, A, H> {
    ghost use Rattle.std.specs.Prelude.{◌≡◌, ◌≢◌, ◌⊎◌, ℕ, max, Bool, Option, Some, []};
    ghost use Rattle.coap_codec.specs.Message.{Message};
    ghost use Rattle.coap_layer.specs.Machine.State.{answer_of, copies, made};
    ghost use Rattle.coap_layer.specs.Machine.Ups.{IsQuiet};
    ghost use Rattle.coap_layer.specs.Trace as below;
    ghost use Rattle.coap_layer.specs.Trace.{Answer};
    ghost use Rattle.coap_exchange.specs.declared.answerer.Asked.{Asked};
    ghost use Rattle.coap_exchange.specs.declared.answerer.Due.{Due};
    ghost use Rattle.coap_server.specs.Led.{State as ServerState, Step};
    ghost use Rattle.coap_server.specs.Trace.{Feeds, Handling, NextOut, Ticks};
    ghost use Rattle.coap_server.specs.Object.Shown.{state_of};
    ghost use Rattle.coap_server.specs.Turns.Idle.{IsIdle, moment};
    ghost use Rattle.coap_server.specs.Turns.WhenDue.{latest as latest_moment};
    ghost use Rattle.coap_server.specs.Turns.Work.{work as work_left};

    ghost State = { ServerState };

    ghost state = { λ s. state_of S.content s };

    ghost waiting = { λ s. s.layer.queue };

    ghost latest = { λ s. latest_moment s };

    ghost work = { λ s now. work_left s now };

    ghost quiet_feed = { λ s now from bytes. IsQuiet (made s.layer (max s.own.clock now) (below.Receive from bytes)) };

    // Nothing is to be sent; or no copy is due, but a failure.
    ghost quiet_tick = { λ s now. IsIdle s now ⊎ ((copies (moment s now) s.layer.open_cons ≡ [])
        × (answer_of s.layer (moment s now) below.Ticks ≢ below.Idle)) };

    ghost feeds = { λ s now from bytes word n. (up : Answer) × (came : Option (Asked × Message)) × (h : Handling)
        × (sent : Answer)
        × Step s (Feeds now from bytes word up came h sent) n };

    ghost ticks = { λ s now word did n. (done : Answer) × (room : Bool) × (due : Due) × (passed : ℕ) × (h : Handling)
        × (id : ℕ)
        × Step s (Ticks now word done room due passed h id did) n };

    ghost gives = { λ s packet n. Step s (NextOut (Some packet)) n };

    fn feed(
        &mut self,
        now: Moment,
        from: Endpoint,
        bytes: &[u8],
        word: u64,
    ) -> Result<(), AllocError> {
        Server::feed(self, now, from, bytes, word)
    }

    fn tick(&mut self, now: Moment, word: u64) -> Result<bool, AllocError> {
        Server::tick(self, now, word)
    }

    fn due(&self) -> Option<Moment> {
        Server::due(self)
    }

    fn next_out(&mut self) -> Option<Datagram<A>> {
        Server::next_out(self)
    }
}
