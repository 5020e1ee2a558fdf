//! The turns of an end over a link.
ghost use Rattle.std.specs.Prelude.{ℕ, Bool, true, false, ◌≡◌, ◌<◌, ◌⊎◌};
ghost use Rattle.coap_links.specs.Faults.{RaisesOrEnds};
ghost use Rattle.coap_links.specs.Turning.{Rests, TicksOut, Turns, next_word, worded};

use crate::driver::pump;
use crate::link::Link;
use crate::tally::{Tally, count_pumped, count_refused, count_word, next_word};
use coap_ends::End;
use coap_types::Moment;
use std::alloc::Allocator;

// One tick, and whether another is to follow: where it did something.
fn step<A: Allocator + Copy, E: End<A>>(end: &mut E, now: Moment, tally: &mut Tally) -> bool
    ensures further { result ≡ true → E.ticks (E.state end.old) now.0 (next_word tally.old) true (E.state end.new)
        × (tally.new ≡ worded tally.old) }
    ensures less { result ≡ true → E.work (E.state end.new) now.0 < E.work (E.state end.old) now.0 }
    ensures last { result ≡ false → Rests E.quiet_tick E.ticks
        (E.state end.old) now.0 tally.old (E.state end.new) tally.new }
{
    match end.tick(now, next_word(tally)) {
        Ok(did) => {
            count_word(tally);
            did
        }
        Err(_) => {
            count_refused(tally);
            false
        }
    }
}

// Ticks the end until nothing is due at the moment, or a tick is refused memory.
fn tick_out<A: Allocator + Copy, E: End<A>>(end: &mut E, now: Moment, tally: &mut Tally)
    ensures { TicksOut E.quiet_tick E.ticks (E.state end.old) now.0 tally.old (E.state end.new) tally.new }
{
    while step(end, now, tally) {}
}

#[tactic(auto, unfolding(crate::specs::Turning::Turns))]
/// One turn: pumps the end once, and then ticks it until nothing is due.
pub fn turn<A: Allocator + Copy, E: End<A>, L: Link>(
    end: &mut E,
    link: &mut L,
    now: Moment,
    tally: &mut Tally,
)
    // An end is pumped once and then ticked until nothing is due, or a tick is refused memory.
    ensures turns { Turns E.waiting E.gives L.sends L.receives L.fault_count E.quiet_feed E.feeds E.quiet_tick E.ticks
        (E.state end.old) link.old now.0 tally.old (E.state end.new) link.new tally.new }
    // A turn counts one receive at most that failed for what the link itself is, however many datagrams are lost.
    ensures broken { RaisesOrEnds (L.broken_count link.old) (L.broken_count link.new) }
{
    match pump(end, link, now, next_word(tally)) {
        Ok(pumped) => count_pumped(tally, pumped),
        Err(_) => count_refused(tally),
    }
    tick_out(end, now, tally);
}

/// One turn of a client.
pub fn get_turn<A: Allocator + Copy, E: End<A>, L: Link>(
    client: &mut E,
    link: &mut L,
    now: Moment,
    tally: &mut Tally,
)
    // The client of `get` has a turn as any end.
    ensures { Turns E.waiting E.gives L.sends L.receives L.fault_count E.quiet_feed E.feeds E.quiet_tick E.ticks
        (E.state client.old) link.old now.0 tally.old (E.state client.new) link.new tally.new }
{
    turn(client, link, now, tally);
}

/// One turn of a server.
pub fn serve_turn<A: Allocator + Copy, E: End<A>, L: Link>(
    server: &mut E,
    link: &mut L,
    now: Moment,
    tally: &mut Tally,
)
    // The server of `serve` has a turn as any end.
    ensures turns { Turns E.waiting E.gives L.sends L.receives L.fault_count E.quiet_feed E.feeds E.quiet_tick E.ticks
        (E.state server.old) link.old now.0 tally.old (E.state server.new) link.new tally.new }
    // However many datagrams are lost in a turn of a server, that says nothing of the link itself.
    ensures broken { RaisesOrEnds (L.broken_count link.old) (L.broken_count link.new) }
{
    turn(server, link, now, tally);
}
