//! The turns of a server over a link.
ghost use Rattle.std.specs.Prelude.{◌≡◌, IfOk, OnOk};
ghost use Rattle.std.specs.Io.KnownBytes.{Appends};
ghost use Rattle.coap_links.specs.Pumping.{SendsAll};
ghost use Rattle.coap_links.specs.Turning.{Turns};
ghost use Rattle.coap_wires.specs.Bearing.{BearsServing, borne_serving};
ghost use Rattle.coap_serving.specs.Printed.{served_text};
ghost use Rattle.coap_wires.specs.Serves.{Feeds, Serves};
ghost use Rattle.coap_status.specs.declared.status.Status.TheVariants.{Done};

use coap_ends::End;
use coap_links::{Link, Tally, fresh_tally, send_all, serve_turn};
use coap_status::{Status, Stop};
use coap_types::Moment;
use coap_wires::{Timekeeper, bear_serving};
use std::alloc::Allocator;
use std::io::Write;

/// A turn of a server of so many datagrams, which stops where more failed than the program bears.
pub(crate) fn serve_once<A: Allocator + Copy, E: End<A>, L: Link>(
    server: &mut E,
    link: &mut L,
    now: Moment,
    tally: &mut Tally,
    count: u64,
) -> Result<(), Stop>
    ensures turned { Turns E.waiting E.gives L.sends L.receives L.fault_count E.quiet_feed E.feeds E.quiet_tick
        E.ticks (E.state server.old) link.old now.0 tally.old (E.state server.new) link.new tally.new }
    ensures borne { result ≡ borne_serving count (L.fault_count link.new) (L.broken_count link.new) tally.new }
{
    serve_turn(server, link, now, tally);
    bear_serving(link, tally, count)
}

// Takes turns until so many datagrams were fed.
fn serve_until<A: Allocator + Copy, E: End<A>, L: Link, T: Timekeeper>(
    server: &mut E,
    link: &mut L,
    time: &mut T,
    count: u64,
    word: u64,
) -> Result<(), Stop>
    ensures { IfOk result (λ _. Feeds T.tells
        (Turns E.waiting E.gives L.sends L.receives L.fault_count E.quiet_feed E.feeds E.quiet_tick E.ticks)
        (BearsServing L.fault_count L.broken_count count) count word
        time.old (E.state server.old) link.old time.new (E.state server.new) link.new) }
{
    let mut tally = fresh_tally(word);
    // More turns than a program lives.
    for _turn in 0..u64::MAX {
        if tally.fed >= count {
            return Ok(());
        }
        let now = time.now()?;
        serve_once(server, link, now, &mut tally, count)?;
    }
    Err(Stop::Failed)
}

/// Serves until so many datagrams were fed, sends what is out then, and prints the number. The
/// word is the one that the server began with.
pub fn serve_over<A: Allocator + Copy, E: End<A>, L: Link, T: Timekeeper, W: Write>(
    server: &mut E,
    link: &mut L,
    time: &mut T,
    count: u64,
    word: u64,
    out: &mut W,
) -> Result<Status, Stop>
    // A `serve` over any link ends with status 0, or stops: it ends after turns alone, each at the moment that its
    // clock tells, once so many datagrams were fed and no later, and has sent what was out then. It goes on only where
    // it bears what failed.
    ensures serves { IfOk result (λ status. (status ≡ Done) × Serves T.tells
        (Turns E.waiting E.gives L.sends L.receives L.fault_count E.quiet_feed E.feeds E.quiet_tick E.ticks)
        (BearsServing L.fault_count L.broken_count count)
        (λ g k f m. SendsAll E.gives L.sends g k (E.waiting g) f m) count word
        time.old (E.state server.old) link.old time.new (E.state server.new) link.new) }
    // What it prints is how many datagrams were to be fed, and nothing else.
    ensures printed { OnOk result (Appends (W.contents out.old) (W.contents out.new) (served_text count)) }
{
    serve_until(server, link, time, count, word)?;
    send_all(server, link);
    writeln!(out, "served {count}")?;
    Ok(Status::Done)
}
