//! The clock of a server that goes on.
ghost use Rattle.std.specs.Prelude.{◌≡◌, ◌+◌, ◌-◌, ◌^◌, min};

use coap_links::Timekeeper;
use coap_types::Moment;
use std::io;

/// A clock that tells the moments of a server that goes on: the first of its life, and what passed since by another
/// clock.
#[derive(Drop)]
pub struct KeptTime<T> {
    clock: T,
    begin: Moment,
    first: Moment,
}

impl<T: Timekeeper + Drop> KeptTime<T> {
    /// It tells `first` where the other clock tells `begin`.
    pub fn new(clock: T, begin: Moment, first: Moment) -> KeptTime<T>
        // A clock that goes on has the two moments that it is given.
        ensures { result ≡ record { clock = clock; begin = begin; first = first } }
    {
        KeptTime {
            clock,
            begin,
            first,
        }
    }
}

/// The moment of a server at this one of its clock.
pub fn moment_at(begin: Moment, first: Moment, now: Moment) -> Moment
    // A server that goes on counts what passed by its clock since its life began.
    ensures { result.0 ≡ min (first.0 + (now.0 - begin.0)) (2 ^ 64 - 1) }
{
    Moment(first.0.saturating_add(now.since(begin)))
}

impl<T: Timekeeper> Timekeeper for KeptTime<T> {
    ghost use Rattle.std.specs.Prelude.{◌≡◌, ◌+◌, ◌-◌, ◌^◌, ℕ, min};

    ghost tells = { λ t ms u. (now : ℕ) × T.tells t.clock now u.clock
        × (ms ≡ min (t.first.0 + (now - t.begin.0)) (2 ^ 64 - 1)) × (u.begin ≡ t.begin) × (u.first ≡ t.first) };

    fn now(&mut self) -> io::Result<Moment> {
        let now = self.clock.now()?;
        Ok(moment_at(self.begin, self.first, now))
    }
}
