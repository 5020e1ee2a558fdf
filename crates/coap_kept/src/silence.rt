//! The silence of a server before its life begins.
ghost use Rattle.std.specs.Prelude.{◌≤◌, IfOk};
ghost use Rattle.coap_kept.specs.Silence.{IsSilent, Passes};

use coap_links::{Link, MAX_DATAGRAM_LEN, Timekeeper};
use std::io;
use std::io::ErrorKind;

// Receives what came, if anything did, and drops it.
fn drop_one<L: Link>(link: &mut L)
    ensures { IsSilent L.receives link.old link.new }
{
    let mut dropped = [0; MAX_DATAGRAM_LEN];
    let _ = link.receive(&mut dropped);
}

/// Receives what comes for so many milliseconds of this clock, and drops it; answers how many they were. Nothing is
/// sent.
pub fn be_silent<L: Link, T: Timekeeper>(link: &mut L, time: &mut T, ms: u64) -> io::Result<u64>
    // A silence does nothing to a link but receive what comes.
    ensures silent { IfOk result (λ passed. IsSilent L.receives link.old link.new) }
    // A silence is over after so many milliseconds and no earlier.
    ensures long { IfOk result (λ passed. ms ≤ passed) }
    // What a silence is said to have lasted is what passed between two moments that the clock told in it.
    ensures timed { IfOk result (λ passed. Passes T.tells time.old passed time.new) }
{
    let begin = time.now()?;
    // More turns than a program lives.
    for _turn in 0..u64::MAX {
        let passed = time.now()?.since(begin);
        if passed >= ms {
            return Ok(passed);
        }
        drop_one(link);
    }
    Err(io::Error::from(ErrorKind::TimedOut))
}
