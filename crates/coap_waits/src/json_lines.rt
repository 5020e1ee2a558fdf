//! What `--json` prints: an object a line, at once.
ghost use Rattle.std.specs.Prelude.{◌≡◌, ℕ, IfOk, OnOk};
ghost use Rattle.std.specs.Io.KnownBytes.{Appends};
ghost use Rattle.coap_client.specs.Object.Shown.{shown_report};
ghost use Rattle.coap_json.specs.Objects.{IsLineOf};
ghost use Rattle.coap_json.specs.ReportObjects.{report_object};
ghost use Rattle.coap_json.specs.Objects.{WritesObject};
ghost use Rattle.coap_waits.specs.JsonLines.{outcome_object};

use crate::calling::Outcome;
use coap_ends::Report;
use coap_json::{gave_up_line, refused_line, report_line};
use coap_status::Stop;
use coap_types::Moment;
use coap_wires::Timekeeper;
use std::alloc::{AllocError, Global};
use std::io::Write;

/// Writes a line, at once.
pub fn write_line<W: Write>(line: &[u8], out: &mut W) -> Result<(), Stop>
    // What is written of a line is its bytes, and nothing else.
    ensures { OnOk result (Appends (W.contents out.old) (W.contents out.new) line.now) }
{
    out.write_all(line)?;
    out.flush()?;
    Ok(())
}

/// Writes the line of a report, which was made at this moment, at once.
pub fn write_report<W: Write>(
    alloc: Global,
    at: Moment,
    report: &Report,
    out: &mut W,
) -> Result<(), Stop>
    // What is written of a report is the line of its object, and nothing else.
    ensures { OnOk result (WritesObject (W.contents out.old) (W.contents out.new)
        (report_object at.0 (shown_report report.now))) }
{
    let line = report_line(alloc, at, report)?;
    write_line(line.as_slice(), out)
}

// The line of what became of a request.
fn outcome_line(alloc: Global, at: Moment, outcome: &Outcome) -> Result<Vec<u8>, AllocError>
    ensures { IfOk result (λ line. IsLineOf line.items (outcome_object at.0 outcome.now)) }
{
    match outcome {
        Outcome::Refused(refusal) => refused_line(alloc, at, *refusal),
        Outcome::Reported(report) => report_line(alloc, at, report),
        Outcome::GaveUp(seconds) => gave_up_line(alloc, at, *seconds),
    }
}

/// Writes the line of what became of a request at this moment, at once.
pub fn write_outcome<W: Write>(
    alloc: Global,
    at: Moment,
    outcome: &Outcome,
    out: &mut W,
) -> Result<(), Stop>
    // What is written of a request is the line of the object of what became of it, and nothing else.
    ensures { OnOk result (WritesObject (W.contents out.old) (W.contents out.new) (outcome_object at.0 outcome.now)) }
{
    let line = outcome_line(alloc, at, outcome)?;
    write_line(line.as_slice(), out)
}

/// Writes the line of what became of a request, at the moment that the clock tells.
pub fn write_outcome_now<T: Timekeeper, W: Write>(
    alloc: Global,
    outcome: &Outcome,
    time: &mut T,
    out: &mut W,
) -> Result<(), Stop>
    // What is written of a request now is the line of the object of what became of it, at the moment that the clock
    // tells.
    ensures { OnOk result ((ms : ℕ) × T.tells time.old ms time.new
        × WritesObject (W.contents out.old) (W.contents out.new) (outcome_object ms outcome.now)) }
{
    let at = time.now()?;
    write_outcome(alloc, at, outcome, out)
}
