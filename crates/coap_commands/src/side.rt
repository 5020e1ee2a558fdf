//! An end over a link.
ghost use Rattle.std.specs.Prelude.{◌≡◌, [], Ok, OnOk};
ghost use Rattle.coap_links.specs.Pumping.{SendsAll};
ghost use Rattle.coap_links.specs.Turning.{Turns};
ghost use Rattle.coap_wires.specs.Bearing.{borne_in_all};
ghost use Rattle.coap_commands.specs.PairTurns.{SideTurns};

use coap_ends::End;
use coap_links::{Link, Tally, fresh_tally, send_all, turn};
use coap_status::Stop;
use coap_wires::{Timekeeper, bear_in_all};
use std::alloc::Global;

/// An end, the link that it sends over, and what counts over its turns.
#[derive(Drop)]
pub struct Side<'a, E, L> {
    pub end: &'a mut E,
    link: &'a mut L,
    tally: Tally,
}

impl<'a, E: End<Global>, L: Link> Side<'a, E, L> {
    /// An end that began with this word.
    pub fn new(end: &'a mut E, link: &'a mut L, word: u64) -> Side<'a, E, L> {
        Side {
            end,
            link,
            tally: fresh_tally(word),
        }
    }

    /// One turn at the moment that the clock tells, after which what is out is sent at once, and the other end need not
    /// wait for it.
    pub fn turn<T: Timekeeper>(&mut self, time: &mut T) -> Result<(), Stop>
        // Behind a turn of an end nothing is out.
        ensures empty { OnOk result (E.waiting (E.state self.new.end.now) ≡ []) }
        // An end is turned at the moment that its clock tells.
        ensures turned { OnOk result (SideTurns T.tells
            (Turns E.waiting E.gives L.sends L.receives L.fault_count E.quiet_feed E.feeds E.quiet_tick E.ticks)
            (λ g k f m. SendsAll E.gives L.sends g k (E.waiting g) f m) E.state time.old self.old time.new self.new) }
        // An end that was turned goes on only where its program bears what failed.
        ensures borne { OnOk result (borne_in_all (L.fault_count self.new.link.now) self.new.tally ≡ Ok tt) }
    {
        let now = time.now()?;
        turn(self.end, self.link, now, &mut self.tally);
        send_all(self.end, self.link);
        bear_in_all(self.link, &self.tally)
    }
}
