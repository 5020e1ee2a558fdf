//! The clock that a program's turns read.
ghost use Rattle.std.specs.Prelude.{ℕ, ⊤, IfOk};

use coap_types::Moment;
use std::io;

/// A clock that tells moments, in milliseconds since one of its own.
pub trait Timekeeper {
    /// The clock before, the moment that it tells, and the clock after; nothing, of one of which nothing is known.
    ghost tells: { Self → ℕ → Self → Type 0 } = { λ _ _ _. ⊤ };

    /// The moment that it is.
    fn now(&mut self) -> io::Result<Moment>
        // The moment that a clock tells is one of those of its own words.
        ensures { IfOk result (λ moment. tells self.old moment.0 self.new) };
}
