//! `ping`: whether somebody is at an endpoint, and how soon it answers (RFC 7252, section 4.3).
ghost use Rattle.std.specs.Prelude.{◌≡◌, ◌≤◌, ◌+◌, ◌↔◌, ℕ, Option, true, is_some, IfOk, OnOk};
ghost use Rattle.std.specs.Io.KnownBytes.{Appends};
ghost use Rattle.coap_wires.specs.Bearing.{Bears};
ghost use Rattle.coap_json.specs.Objects.{WritesObject};
ghost use Rattle.coap_asking.specs.PingLines.{ping_end_object};
ghost use Rattle.coap_asking.specs.PingLines.{TellsPings, WritesPing};
ghost use Rattle.coap_asking.specs.Printed.{ping_text};
ghost use Rattle.coap_asking.specs.Pinged.{Comes, Drops, Hears, IsGivenUp, IsNext, IsPing, MaySend, Pings};

use coap_json::{PingEnd, ping_line};
use coap_links::{Link, MAX_DATAGRAM_LEN, fresh_tally};
use coap_ping::Ping;
use coap_status::{Status, Stop};
use coap_types::{Endpoint, Moment};
use coap_waits::write_line;
use coap_wires::{Timekeeper, bear_in_all, has_lasted};
use std::alloc::Global;
use std::io::Write;

/// How long after one ping the next one begins at the earliest, in milliseconds.
pub const PING_PERIOD_MS: u64 = 1_000;

const _: () = prove!(PING_PERIOD_MS == 1_000);

/// Which pings are sent.
#[derive(Clone, Copy, Debug)]
pub struct Pinging {
    /// To whom.
    pub server: Endpoint,
    /// How many, where each is answered.
    pub count: u64,
    /// After how many seconds without an answer a ping is given up.
    pub give_up: Option<u64>,
    /// The word that picks the Message ID of the first; that of each further one is one more.
    pub word: u64,
    /// Whether it is told in JSON how each ended.
    pub json: bool,
}

// Receives a datagram, if one came; whether it answers the ping.
fn is_answered<L: Link>(ping: &Ping, link: &mut L) -> bool
    ensures { Hears L.sends L.receives ping.now link.old result link.new }
{
    let mut buf = [0; MAX_DATAGRAM_LEN];
    match link.receive(&mut buf) {
        Some((from, len)) => ping.is_answered_by(from, &buf[..len]),
        None => false,
    }
}

// Sends the ping again where it is due.
fn send_again<L: Link>(ping: &mut Ping, link: &mut L, now: Moment)
    ensures { MaySend L.sends L.receives now.0 ping.old link.old ping.new link.new }
{
    if ping.tick(now) {
        link.send(ping.to(), ping.bytes().as_slice());
    }
}

// Whether no answer is awaited any more.
fn is_given_up(ping: &Ping, give_up: Option<u64>, now: Moment) -> bool
    ensures { (result ≡ true) ↔ IsGivenUp give_up ping.now now.0 }
{
    ping.is_over(now) || has_lasted(give_up, ping.elapsed(now))
}

// Whether the pings go on, over a link that failed so often.
fn bear<L: Link>(link: &L) -> Result<(), Stop>
    ensures { OnOk result (Bears L.fault_count link.now) }
{
    bear_in_all(link, &fresh_tally(0))
}

// Awaits the answer of a ping: after how many milliseconds it came.
fn awaited<L: Link, T: Timekeeper>(
    ping: &mut Ping,
    link: &mut L,
    time: &mut T,
    give_up: Option<u64>,
) -> Result<Option<u64>, Stop>
    ensures { IfOk result (λ ms. Comes L.sends L.receives L.fault_count T.tells give_up
        time.old ping.old link.old ms time.new link.new) }
{
    // More turns than a program lives.
    for _turn in 0..u64::MAX {
        let is_answered = is_answered(ping, link);
        let now = time.now()?;
        if is_answered {
            return Ok(Some(ping.elapsed(now)));
        }
        if is_given_up(ping, give_up, now) {
            return Ok(None);
        }
        send_again(ping, link, now);
        bear(link)?;
    }
    Err(Stop::Failed)
}

// Sends a ping at this moment, with this word, and awaits its answer.
fn ping_at<L: Link, T: Timekeeper>(
    link: &mut L,
    time: &mut T,
    pinging: &Pinging,
    word: u64,
    begin: Moment,
) -> Result<Option<u64>, Stop>
    ensures { IfOk result (λ ms. IsPing L.sends L.receives L.fault_count T.tells pinging.now.give_up
        pinging.now.server word begin.0 time.old link.old ms time.new link.new) }
{
    let mut ping = Ping::begin(begin, pinging.server, word);
    link.send(ping.to(), ping.bytes().as_slice());
    awaited(&mut ping, link, time, pinging.give_up)
}

// Waits until a second has passed since this moment, and drops what comes: the moment at which it has.
fn pause<L: Link, T: Timekeeper>(link: &mut L, time: &mut T, begin: Moment) -> Result<Moment, Stop>
    ensures { IfOk result (λ now. (begin.0 + PING_PERIOD_MS ≤ now.0) × (before : T) × T.tells before now.0 time.new
        × Drops L.sends L.receives L.fault_count T.tells link.old link.new) }
{
    let mut buf = [0; MAX_DATAGRAM_LEN];
    // More turns than a program lives.
    for _turn in 0..u64::MAX {
        let now = time.now()?;
        if now.since(begin) >= PING_PERIOD_MS {
            return Ok(now);
        }
        let _dropped = link.receive(&mut buf);
        bear(link)?;
    }
    Err(Stop::Failed)
}

// Says how a ping ended.
fn tell<O: Write>(answer: Option<u64>, out: &mut O) -> Result<(), Stop>
    ensures { OnOk result (Appends (O.contents out.old) (O.contents out.new) (ping_text answer)) }
{
    match answer {
        Some(ms) => writeln!(out, "reset {ms} ms")?,
        None => writeln!(out, "timeout")?,
    }
    out.flush()?;
    Ok(())
}

// Says in JSON at this moment how a ping ended that began at that one.
fn tell_in_json<O: Write>(
    alloc: Global,
    answer: Option<u64>,
    begin: Moment,
    now: Moment,
    out: &mut O,
) -> Result<(), Stop>
    ensures { OnOk result (WritesObject (O.contents out.old) (O.contents out.new)
        (ping_end_object begin.0 now.0 answer)) }
{
    let line = match answer {
        Some(ms) => ping_line(alloc, now, PingEnd::Reset, ms)?,
        None => ping_line(alloc, now, PingEnd::Timeout, now.since(begin))?,
    };
    write_line(line.as_slice(), out)
}

// Says how a ping ended that began at this moment, in JSON where that is wanted.
fn tell_as<T: Timekeeper, O: Write>(
    alloc: Global,
    answer: Option<u64>,
    is_json: bool,
    begin: Moment,
    time: &mut T,
    out: &mut O,
) -> Result<(), Stop>
    ensures { OnOk result (WritesPing is_json (O.contents out.old) (O.contents out.new) answer) }
{
    if is_json {
        let now = time.now()?;
        tell_in_json(alloc, answer, begin, now, out)
    } else {
        tell(answer, out)
    }
}

// Sends the ping of this number, from 0, at this moment, and says how it ended.
fn ping_and_tell<L: Link, T: Timekeeper, O: Write>(
    alloc: Global,
    link: &mut L,
    time: &mut T,
    pinging: &Pinging,
    number: u64,
    begin: Moment,
    out: &mut O,
) -> Result<bool, Stop>
    ensures next { IfOk result (λ answered. IsNext L.sends L.receives L.fault_count T.tells pinging.now.give_up
        pinging.now.server pinging.now.word number begin.0 link.old answered link.new) }
    ensures told { IfOk result (λ answered. (ms : Option ℕ) × (is_some ms ≡ answered)
        × WritesPing pinging.now.json (O.contents out.old) (O.contents out.new) ms) }
{
    let word = pinging.word.wrapping_add(number);
    let answer = ping_at(link, time, pinging, word, begin)?;
    tell_as(alloc, answer, pinging.json, begin, time, out)?;
    Ok(answer.is_some())
}

/// Sends pings, each of which begins a second after the one before, and says of each how soon it was answered. It ends
/// once as many were as are wanted, or with the first that is not.
pub fn ping_over<L: Link, T: Timekeeper, O: Write>(
    alloc: Global,
    link: &mut L,
    time: &mut T,
    pinging: &Pinging,
    out: &mut O,
) -> Result<Status, Stop>
    // Only the Reset of a ping, from where that went to, answers it; it is sent again exactly where a copy of a
    // Confirmable message is due by its clock, and given up at the first moment of that after 93 s, or as many as are
    // chosen. The status is 0 where each is answered, and else 1.
    ensures pings { IfOk result (λ status. Pings L.sends L.receives L.fault_count T.tells pinging.now.give_up
        pinging.now.server pinging.now.word pinging.now.count link.old status link.new) }
    // How each ping ended is written on a line, in JSON where that is wanted, and nothing else; and the status is 0
    // exactly where as many lines as pings were wanted say that one was answered.
    ensures told { IfOk result (TellsPings pinging.now.json pinging.now.count
        (O.contents out.old) (O.contents out.new)) }
{
    if pinging.count == 0 {
        return Ok(Status::Done);
    }
    let mut begin = time.now()?;
    for number in 0..pinging.count {
        if !ping_and_tell(alloc, link, time, pinging, number, begin, out)? {
            return Ok(Status::Refused);
        }
        if number + 1 == pinging.count {
            return Ok(Status::Done);
        }
        let next = pause(link, time, begin)?;
        begin = next;
    }
    Err(Stop::Failed)
}
