//! What follows where a registration of `observe --again` is left: the end of the program, or another registration.
ghost use Rattle.std.specs.Prelude.{◌≡◌, IfOk, OnOk};
ghost use Rattle.coap_wires.specs.Waiting.{HasPassed};
ghost use Rattle.coap_asking.specs.Watches.{WritesLast, WritesLeft, verdict, verdict_of};

use coap_ends::Report;
use coap_links::{Link, MAX_DATAGRAM_LEN, fresh_tally};
use coap_status::{Status, Stop};
use coap_types::Moment;
use coap_waits::{Outcome, outcome_text, write_outcome_now};
use coap_wires::{Timekeeper, bear_in_a_row, make_way, passed};
use std::alloc::Global;
use std::io::Write;

/// How a registration is left.
#[derive(Drop)]
pub enum Left {
    /// No value came for so long.
    Silent,
    /// By what became of it.
    Ended(Outcome),
}

/// With which status the program ends where a registration is left so, and the observation is over or not; None: the
/// path is observed anew.
pub(crate) fn verdict(left: &Left, is_over: bool) -> Option<Status>
    ensures { result ≡ verdict left.now is_over }
{
    match left {
        Left::Silent if is_over => Some(Status::Refused),
        Left::Silent => None,
        Left::Ended(outcome) => verdict_of(outcome, is_over),
    }
}

// .. where it ended with this outcome.
fn verdict_of(outcome: &Outcome, is_over: bool) -> Option<Status>
    ensures { result ≡ verdict_of outcome.now is_over }
{
    match outcome {
        Outcome::Refused(_) | Outcome::GaveUp(_) => Some(Status::Refused),
        Outcome::Reported(Report::Cancelled) => Some(Status::Done),
        Outcome::Reported(_) if is_over => Some(Status::Refused),
        Outcome::Reported(_) => None,
    }
}

// Says how a registration was left, and that the path is observed anew.
fn say_anew<E: Write>(alloc: Global, left: &Left, again: u64, err: &mut E) -> Result<(), Stop> {
    let text = match left {
        Left::Silent => format!(in alloc; "no value in {again} s")?,
        Left::Ended(outcome) => outcome_text(alloc, outcome)?,
    };
    let _ = writeln!(err, "{text}; observing anew");
    Ok(())
}

// Tells how the last registration was left: in JSON where that is wanted.
fn tell_last<T: Timekeeper, O: Write, E: Write>(
    alloc: Global,
    left: &Left,
    is_json: bool,
    time: &mut T,
    out: &mut O,
    err: &mut E,
) -> Result<(), Stop>
    ensures { OnOk result (WritesLast is_json (O.contents out.old) (O.contents out.new) left.now) }
{
    match left {
        Left::Silent => {}
        Left::Ended(outcome) if is_json => {
            make_way(err);
            write_outcome_now(alloc, outcome, time, out)?;
        }
        Left::Ended(outcome) => {
            let text = outcome_text(alloc, outcome)?;
            let _ = writeln!(err, "{text}");
        }
    }
    Ok(())
}

/// Tells how a registration was left: as the last one, where the program ends with this status, and else that the path
/// is observed anew.
pub(crate) fn tell_left<T: Timekeeper, O: Write, E: Write>(
    alloc: Global,
    left: &Left,
    verdict: Option<Status>,
    again: u64,
    is_json: bool,
    time: &mut T,
    out: &mut O,
    err: &mut E,
) -> Result<(), Stop>
    ensures { OnOk result (WritesLeft is_json verdict (O.contents out.old) (O.contents out.new) left.now) }
{
    match verdict {
        Some(_) => tell_last(alloc, left, is_json, time, out, err),
        None => say_anew(alloc, left, again, err),
    }
}

/// Waits until so many seconds have passed since this moment, and drops what comes: the moment at which they have.
pub(crate) fn pause<L: Link, T: Timekeeper>(
    link: &mut L,
    time: &mut T,
    begin: Moment,
    again: u64,
) -> Result<Moment, Stop>
    ensures { IfOk result (λ now. HasPassed again begin.0 now.0 × (before : T) × T.tells before now.0 time.new) }
{
    let mut buf = [0; MAX_DATAGRAM_LEN];
    // More turns than a program lives.
    for _turn in 0..u64::MAX {
        let now = time.now()?;
        if passed(Some(again), begin, now).is_some() {
            return Ok(now);
        }
        let _dropped = link.receive(&mut buf);
        bear_in_a_row(link, &fresh_tally(0))?;
    }
    Err(Stop::Failed)
}
