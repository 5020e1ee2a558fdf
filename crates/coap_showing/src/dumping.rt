//! Showing the datagrams that a reader has in hex, one a line.
ghost use Rattle.std.specs.Prelude.{◌≡◌, ◌⊎◌, IfOk, IfSome, max};
ghost use Rattle.std.specs.Io.BufRead.{strip_last};
ghost use Rattle.coap_showing.specs.Dumps.{IsDumped, IsLineStatus};
ghost use Rattle.coap_answers.specs.Shown.{IsShown};
ghost use Rattle.coap_showing.specs.Dumps.{IsOfScript};
ghost use Rattle.coap_status.specs.StatusNumbers.{status_number};

use coap_answers::show;
use coap_common::STANDARD_INPUT_FILE;
use coap_status::{Status, Stop, stop_of};
use hex::FromHexError;
use std::alloc::Global;
use std::fs;
use std::io::{BufRead, BufReader, Read, Write};
use std::rt::Files;

// What ends a line.
const LINE_END: u8 = b'\n';

// What may stand before the end of a line.
const CARRIAGE_RETURN: u8 = b'\r';

// The bytes without the last one, where that is this.
fn without_last(bytes: &[u8], last: u8) -> &[u8]
    ensures { result.now ≡ strip_last last bytes.now }
{
    if !bytes.is_empty() && bytes[bytes.len() - 1] == last {
        &bytes[..bytes.len() - 1]
    } else {
        bytes
    }
}

// A line without what ends it.
fn without_end(line: &[u8]) -> &[u8]
    ensures { result.now ≡ strip_last CARRIAGE_RETURN (strip_last LINE_END line.now) }
{
    without_last(without_last(line, LINE_END), CARRIAGE_RETURN)
}

// Prints each line of a text behind a number.
fn tell_lines<W: Write>(number: u64, text: &[u8], out: &mut W) -> Result<(), Stop> {
    let lines = text.strip_suffix(b"\n").unwrap_or(text);
    for line in lines.split(|byte| *byte == LINE_END) {
        write!(out, "{number}: ")?;
        out.write_all(line)?;
        writeln!(out)?;
    }
    out.flush()?;
    Ok(())
}

/// Prints what a datagram says, behind a number.
pub(crate) fn dump_datagram<W: Write>(
    alloc: Global,
    number: u64,
    datagram: &[u8],
    out: &mut W,
) -> Result<Status, Stop>
    ensures { IfOk result (IsShown datagram.now) }
{
    let mut text = Vec::new(alloc);
    match show(alloc, datagram, &mut text) {
        Ok(status) => {
            tell_lines(number, text.as_slice(), out)?;
            Ok(status)
        }
        // What is written to memory fails for want of it.
        Err(_) => Err(Stop::Memory),
    }
}

/// Prints what the datagram says that a line has in hex, behind the number of the line.
pub fn dump_line<W: Write>(
    alloc: Global,
    number: u64,
    line: &[u8],
    out: &mut W,
) -> Result<Status, Stop>
    // A line of a dump comes to 0 where it is the hex of a message, to 1 where it is that of a datagram at fault, and
    // to 2 where it is none.
    ensures { IfOk result (IsLineStatus line.now) }
{
    match hex::decode(alloc, line) {
        Ok(datagram) => dump_datagram(alloc, number, datagram.as_slice(), out),
        Err(FromHexError::OutOfMemory) => Err(Stop::Memory),
        Err(_) => {
            tell_lines(number, b"bad hex", out)?;
            Ok(Status::Words)
        }
    }
}

// The greater of two statuses.
fn worse(one: Status, other: Status) -> Status
    ensures one_of { (result ≡ one) ⊎ (result ≡ other) }
    ensures most { status_number result ≡ max (status_number one) (status_number other) }
{
    if one.number() < other.number() {
        other
    } else {
        one
    }
}

/// Prints what the datagrams say that a reader has in hex, one a line, each behind the number of its line;
/// the status is the worst of theirs.
pub fn dump_to<I: BufRead, W: Write>(
    alloc: Global,
    input: &mut I,
    out: &mut W,
) -> Result<Status, Stop>
    // A dump is told with status 0, 1 or 2, or stops.
    ensures kinds { IfOk result IsOfScript }
    // Where it is known what a reader has, a dump ends with the worst status of its lines, of which none is left out.
    ensures worst { IfOk result (λ status. IfSome (I.remaining input.old) (λ text. IsDumped text status)) }
{
    let mut worst = Status::Done;
    // More lines than a program reads.
    for number in 1..u64::MAX {
        let mut line = Vec::new(alloc);
        match input.read_until(LINE_END, &mut line) {
            Ok(0) => return Ok(worst),
            Ok(_) => {}
            Err(error) => return Err(stop_of(&error)),
        }
        let status = dump_line(alloc, number, without_end(line.as_slice()), out)?;
        worst = worse(worst, status);
    }
    Err(Stop::Failed)
}

/// Prints what the datagrams say that standard input has.
pub fn dump<R: AllocGlobal + Files, W: Write>(rt: &R, out: &mut W) -> Result<Status, Stop>
    // Lines of hex that are shown end with status 0, 1 or 2.
    ensures kinds { IfOk result IsOfScript }
    // Where it is known what standard input has, the status is the greatest of those of its lines.
    ensures worst { IfOk result (λ status. (file : R.File) × IfSome (R.File.remaining file)
        (λ text. IsDumped text status)) }
{
    match fs::open(rt, STANDARD_INPUT_FILE) {
        Ok(file) => dump_file(rt.alloc(), file, out),
        Err(error) => Err(stop_of(&error)),
    }
}

// Prints what the datagrams say that are in a file.
fn dump_file<F: Read + Drop, W: Write>(alloc: Global, file: F, out: &mut W) -> Result<Status, Stop>
    ensures kinds { IfOk result IsOfScript }
    ensures worst { IfOk result (λ status. IfSome (F.remaining file) (λ text. IsDumped text status)) }
{
    match BufReader::new(alloc, file) {
        Ok(mut input) => dump_to(alloc, &mut input, out),
        Err(error) => Err(stop_of(&error)),
    }
}
