//! The turns of a server that goes on from a journal.
ghost use Rattle.std.specs.Prelude.{◌≡◌, [], IfNone, IfOk, OnOk, Option};
ghost use Rattle.std.specs.Io.KnownBytes.{Appends};
ghost use Rattle.coap_journaled.specs.declared.journaled.CommitError.{CommitError as CommitErrorSpec};
ghost use Rattle.coap_links.specs.Pumping.{SendsAll};
ghost use Rattle.coap_links.specs.Turning.{Turns};
ghost use Rattle.coap_resource.specs.Entries.{content_of};
ghost use Rattle.coap_server.specs.Led.{State};
ghost use Rattle.coap_server.specs.Object.Shown.{state_of};
ghost use Rattle.coap_wires.specs.Bearing.{BearsServing};
ghost use Rattle.coap_serving.specs.Kept.{IsGoneOn};
ghost use Rattle.coap_serving.specs.Printed.{served_text};
ghost use Rattle.coap_serving.specs.Served.{FedFrom};
ghost use Rattle.coap_wires.specs.Serves.{Feeds, Serves};
ghost use Rattle.coap_status.specs.declared.status.Status.TheVariants.{Done};

use crate::changes::{ChangeTeller, TellingEnd};
use crate::missing_paths::set_up_missing;
use crate::serve_command::warn;
use crate::serving::serve_once;
use coap_answers::tell_refusal;
use coap_arguments::ServeOptions;
use coap_common::put_away;
use coap_ends::{End, Server};
use coap_journaled::{CommitError, JournalFile, Journaled};
use coap_kept::{Kept, KeptServer, KeptTime};
use coap_links::{Link, fresh_tally, send_all};
use coap_resource::MapStore;
use coap_status::{Status, Stop};
use coap_types::Moment;
use coap_wires::Timekeeper;
use std::alloc::{Allocator, Global};
use std::hash::BuildHasher;
use std::io::Write;

// An end that commits its inputs.
trait Committing {
    // Why the last commit failed, if it did.
    ghost failed: { Self → Option CommitErrorSpec };

    // Why the last commit failed, if it did.
    fn failure(&self) -> Option<CommitError>
        // The failure is the one that the end's own words have.
        ensures { result ≡ failed self.now };
}

impl<E: End<A>, F: JournalFile, A: Allocator + Copy, C> Committing
    for TellingEnd<Kept<E, F, A>, C> {
    ghost failed = { λ s. s.end.failure };

    fn failure(&self) -> Option<CommitError> {
        self.end.failure()
    }
}

// Takes turns until so many datagrams were fed, or an input isn't kept, and says why then.
fn keep_until<A: Allocator + Copy, E: End<A> + Committing, L: Link, T: Timekeeper>(
    server: &mut E,
    link: &mut L,
    time: &mut T,
    count: u64,
    word: u64,
) -> Result<Option<CommitError>, Stop>
    ensures feeds { IfOk result (λ failure. IfNone failure (Feeds T.tells
        (Turns E.waiting E.gives L.sends L.receives L.fault_count E.quiet_feed E.feeds E.quiet_tick E.ticks)
        (BearsServing L.fault_count L.broken_count count) count word
        time.old (E.state server.old) link.old time.new (E.state server.new) link.new)) }
    ensures why { IfOk result (λ failure. failure ≡ E.failed server.new) }
{
    let mut tally = fresh_tally(word);
    // More turns than a program lives.
    for _turn in 0..u64::MAX {
        if let Some(why) = server.failure() {
            return Ok(Some(why));
        }
        if tally.fed >= count {
            return Ok(None);
        }
        let now = time.now()?;
        serve_once(server, link, now, &mut tally, count)?;
    }
    Err(Stop::Failed)
}

// The same, and then sends what is out.
fn keep_serving<A: Allocator + Copy, E: End<A> + Committing, L: Link, T: Timekeeper>(
    server: &mut E,
    link: &mut L,
    time: &mut T,
    count: u64,
    word: u64,
) -> Result<Option<CommitError>, Stop>
    ensures serves { IfOk result (λ failure. IfNone failure (Serves T.tells
        (Turns E.waiting E.gives L.sends L.receives L.fault_count E.quiet_feed E.feeds E.quiet_tick E.ticks)
        (BearsServing L.fault_count L.broken_count count)
        (λ g k f m. SendsAll E.gives L.sends g k (E.waiting g) f m) count word
        time.old (E.state server.old) link.old time.new (E.state server.new) link.new)) }
    ensures sent { E.waiting (E.state server.new) ≡ [] }
{
    let ended = keep_until(server, link, time, count, word);
    send_all(server, link);
    ended
}

// Says why a server with a journal has ended.
fn tell_failure<E: Write>(name: &str, why: CommitError, err: &mut E) -> Result<Status, Stop>
    ensures { IfOk result (λ _. ⊥) }
{
    let _ = writeln!(err, "{name}: {why}: what came since counts as lost");
    Err(Stop::Failed)
}

// Serves with this server until so many datagrams were fed, and puts it away.
fn serve_kept<H: BuildHasher + Drop, F, C, L, T, W, E>(
    journaled: Journaled<Server<MapStore, Global, H>, F, Global>,
    changes: Option<C>,
    link: &mut L,
    time: &mut T,
    turns: (u64, u64),
    name: &str,
    out: &mut W,
    err: &mut E,
) -> Result<Status, Stop>
where
    F: JournalFile + Drop,
    C: ChangeTeller<Global> + Drop,
    L: Link,
    T: Timekeeper,
    W: Write,
    E: Write,
    ensures serves { IfOk result (λ status. (status ≡ Done)
        × (last : State) × FedFrom turns.0 (state_of content_of journaled.end) last) }
    ensures printed { OnOk result (Appends (W.contents out.old) (W.contents out.new) (served_text turns.0)) }
{
    let (count, word) = turns;
    let mut server = TellingEnd::new(Kept::new(journaled), changes);
    let ended = keep_serving(&mut server, link, time, count, word);
    put_away(server);
    match ended? {
        None => {
            writeln!(out, "served {count}")?;
            Ok(Status::Done)
        }
        Some(why) => tell_failure(name, why, err),
    }
}

// Sets a server up that goes on, and serves with it.
fn go_on_with<H: BuildHasher + Drop, F, C, L, T, W, E>(
    alloc: Global,
    journaled: Journaled<Server<MapStore, Global, H>, F, Global>,
    first: Moment,
    options: &ServeOptions,
    changes: Option<C>,
    link: &mut L,
    time: &mut T,
    turns: (u64, u64),
    name: &str,
    out: &mut W,
    err: &mut E,
) -> Result<Status, Stop>
where
    F: JournalFile + Drop,
    C: ChangeTeller<Global> + Drop,
    L: Link,
    T: Timekeeper,
    W: Write,
    E: Write,
    ensures { IfOk result (IsGoneOn (W.contents out.old) (W.contents out.new) turns.0
        options.now first.0 (state_of content_of journaled.end)) }
{
    let mut journaled = journaled;
    match set_up_missing(alloc, &mut journaled, first, options) {
        Ok(None) => serve_kept(journaled, changes, link, time, turns, name, out, err),
        Ok(Some(refusal)) => {
            put_away(journaled);
            tell_refusal(refusal, out)
        }
        Err(stop) => {
            put_away(journaled);
            Err(stop)
        }
    }
}

/// Serves with a server that goes on, by the clock of the program.
pub(crate) fn go_on_kept<H: BuildHasher + Drop, S, V, C, L, T, W, E>(
    alloc: Global,
    kept: KeptServer<H, S, V>,
    serving: (u16, u64),
    options: &ServeOptions,
    changes: Option<C>,
    link: &mut L,
    time: T,
    word: u64,
    name: &str,
    out: &mut W,
    err: &mut E,
) -> Result<Status, Stop>
where
    S: Timekeeper + Drop,
    V: Write + Drop,
    C: ChangeTeller<Global> + Drop,
    L: Link,
    T: Timekeeper + Drop,
    W: Write,
    E: Write,
    ensures { IfOk result (IsGoneOn (W.contents out.old) (W.contents out.new) serving.1
        options.now kept.first.0 (state_of content_of kept.journaled.end)) }
{
    let (port, count) = serving;
    warn(options, port, err);
    let mut clock = time;
    let begin = clock.now()?;
    let first = kept.first;
    let mut time = KeptTime::new(clock, begin, first);
    let turns = (count, word);
    go_on_with(
        alloc,
        kept.journaled,
        first,
        options,
        changes,
        link,
        &mut time,
        turns,
        name,
        out,
        err,
    )
}
