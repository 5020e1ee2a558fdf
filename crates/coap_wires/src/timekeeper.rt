//! The clock that a program's turns read.
ghost use Rattle.std.specs.Prelude.{◌≡◌, ◌/◌, ◌-◌, ◌^◌, min};
ghost use Rattle.std.specs.Duration.{as_nanos};

pub use coap_links::Timekeeper;
use coap_types::Moment;
use std::io;
use std::rt::Clock;
use std::time::{Duration, Instant};

/// The milliseconds since the program began.
#[derive(Drop)]
pub struct ProgramTime<'a, R: Clock> {
    rt: &'a R,
    begin: Instant,
}

impl<'a, R: Clock> ProgramTime<'a, R> {
    /// It begins now.
    pub fn begin(rt: &'a R) -> io::Result<ProgramTime<'a, R>> {
        Ok(ProgramTime {
            rt,
            begin: Instant::now(rt)?,
        })
    }
}

impl<'a, R: Clock> ProgramTime<'a, R> {
    /// Another clock that tells the same moments.
    pub fn again(&self) -> ProgramTime<'a, R> {
        ProgramTime {
            rt: self.rt,
            begin: self.begin,
        }
    }
}

// The moment that it is once so long has passed, in milliseconds.
fn moment_after(elapsed: Duration) -> Moment
    ensures { result.0 ≡ min (as_nanos elapsed / 1_000_000) (2 ^ 64 - 1) }
{
    Moment(u64::try_from(elapsed.as_millis()).unwrap_or(u64::MAX))
}

impl<'a, R: Clock> Timekeeper for ProgramTime<'a, R> {
    fn now(&mut self) -> io::Result<Moment> {
        Ok(moment_after(self.begin.elapsed(self.rt)?))
    }
}
