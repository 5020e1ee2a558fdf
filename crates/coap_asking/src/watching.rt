//! Observing a path, and observing it anew where nothing comes for long or the server ended that (RFC 7641).
ghost use Rattle.std.specs.Prelude.{◌≡◌, ℕ, Bool, List, [], Option, Result, Ok, IfOk};
ghost use Rattle.std.specs.declared.alloc.Global.{Global};
ghost use Rattle.coap_client.specs.Led.{State, Step};
ghost use Rattle.coap_client.specs.Trace.{Observes as observes};
ghost use Rattle.coap_client.specs.declared.client.report.Report as R;
ghost use Rattle.coap_waits.specs.Terms.{asked_terms, setup_of, sizes_of};
ghost use Rattle.coap_asking.specs.Watches.{Follows, IsFollowed, IsLeft, IsLeftBy, IsRegistered, IsRegisteredNext};
ghost use Rattle.coap_waits.specs.Linked.{IsRunOver, RunsOver};
ghost use Rattle.coap_asking.specs.Observes.{Decides};
ghost use Rattle.coap_asking.specs.Watches.{Watches, verdict};
ghost use Rattle.coap_asking.specs.declared.anew.Left.{Left as LeftSpec};
ghost use Rattle.coap_asking.specs.declared.anew.Left.TheVariants as lefts;
ghost use Rattle.coap_waits.specs.declared.calling.Outcome.TheVariants.{Reported};
ghost use Rattle.coap_client.specs.declared.refusals.CallRefusal.{CallRefusal as CallRefusalSpec};

use crate::anew::{Left, pause, tell_left, verdict};
use crate::leaving::{Heard, last_report, left_at};
use crate::observe::{is_over, register};
use coap_arguments::AskOptions;
use coap_common::put_away;
use coap_ends::{CallId, Client};
use coap_links::{Link, fresh_tally, send_all};
use coap_status::{Status, Stop};
use coap_types::{Endpoint, Moment, Path};
use coap_waits::{Connection, Outcome, Terms, fresh_client, turn_now};
use coap_wires::{Counting, LinkSource, Timekeeper};
use std::alloc::Global;
use std::hash::BuildHasher;
use std::io::Write;

/// What is observed, and how.
#[derive(Clone, Copy)]
pub struct Watching<'p, 'o> {
    /// Where the resource is.
    pub path: &'p Path,
    /// After how many seconds without a value it is observed anew.
    pub again: u64,
    /// How it is observed, and for how long.
    pub options: &'o AskOptions,
    /// The word that the first client begins with; that of each further one is one more.
    pub word: u64,
}

// Turns the client, which was called to observe with the moment that was heard last, until the observation is left.
fn awaited<H: BuildHasher, L: Link, T: Timekeeper, E: Write, W: Write>(
    alloc: Global,
    client: &mut Client<Global, H>,
    connection: &mut Connection<'_, '_, '_, L, T, E>,
    id: CallId,
    watching: &Watching<'_, '_>,
    word: u64,
    heard: &mut Heard,
    out: &mut W,
) -> Result<Left, Stop>
    ensures left { IfOk result (λ ended. IsLeft watching.now.options.now watching.now.again heard.old.since.0 id.0
        heard.old.last.0 heard.old.values client.old (W.contents out.old) ended heard.new.values
        (W.contents out.new)) }
    ensures since { IfOk result (λ _. heard.new.since ≡ heard.old.since) }
    ensures over { IfOk result (λ _. RunsOver L.sends L.receives L.fault_count word client.old
        connection.old.link.now client.new connection.new.link.now) }
    ensures sent { (report : R.Report Global) → result ≡ Ok (lefts.Ended (Reported report))
        → client.new.layer.layer.queue ≡ [] }
{
    let mut tally = fresh_tally(word);
    // More turns than a program lives.
    for _turn in 0..u64::MAX {
        let now = turn_now(client, connection, Counting::InARow, &mut tally)?;
        if let Some(report) = last_report(
            alloc,
            client,
            id,
            watching.options,
            heard,
            now,
            out,
            connection.err,
        )? {
            send_all(client, connection.link);
            return Ok(Left::Ended(Outcome::Reported(report)));
        }
        if let Some(left) = left_at(
            client,
            connection.link,
            id,
            watching,
            *heard,
            now,
            &mut tally,
        ) {
            return Ok(left);
        }
    }
    Err(Stop::Failed)
}

// Has a client observe the path, at the moment that was heard last, until that is left.
fn registered<H: BuildHasher, L: Link, T: Timekeeper, E: Write, W: Write>(
    alloc: Global,
    client: &mut Client<Global, H>,
    connection: &mut Connection<'_, '_, '_, L, T, E>,
    watching: &Watching<'_, '_>,
    word: u64,
    heard: &mut Heard,
    out: &mut W,
) -> Result<Left, Stop>
    ensures left { IfOk result (λ ended. (answer : Result ℕ CallRefusalSpec) × (s : State)
        × Step client.old (observes heard.old.last.0 watching.now.path.now answer) s
        × IsLeftBy watching.now.options.now watching.now.again heard.old.since.0 heard.old.last.0 heard.old.values
        answer s (W.contents out.old) ended heard.new.values (W.contents out.new)) }
    ensures since { IfOk result (λ _. heard.new.since ≡ heard.old.since) }
    ensures over { IfOk result (λ _. RunsOver L.sends L.receives L.fault_count word client.old
        connection.old.link.now client.new connection.new.link.now) }
{
    match register(client, heard.last, watching.path)? {
        Ok(id) => awaited(alloc, client, connection, id, watching, word, heard, out),
        Err(refusal) => Ok(Left::Ended(Outcome::Refused(refusal))),
    }
}

// Has a client of its own observe the path, which begins with this word.
fn observed_once<H: BuildHasher + Drop, L: Link, T: Timekeeper, E: Write, W: Write>(
    alloc: Global,
    connection: &mut Connection<'_, '_, '_, L, T, E>,
    server: Endpoint,
    hasher: H,
    watching: &Watching<'_, '_>,
    word: u64,
    heard: &mut Heard,
    out: &mut W,
) -> Result<Left, Stop>
    ensures left { IfOk result (λ ended. IsRegistered server (sizes_of (asked_terms word watching.now.options.now))
        (setup_of (asked_terms word watching.now.options.now)) watching.now.path.now watching.now.options.now
        watching.now.again heard.old.since.0 heard.old.last.0 heard.old.values (W.contents out.old) ended
        heard.new.values (W.contents out.new)) }
    ensures since { IfOk result (λ _. heard.new.since ≡ heard.old.since) }
    ensures over { IfOk result (λ _. IsRunOver L.sends L.receives L.fault_count server
        (sizes_of (asked_terms word watching.now.options.now)) (setup_of (asked_terms word watching.now.options.now))
        connection.old.link.now connection.new.link.now) }
{
    let terms = Terms::of(watching.options, word);
    let mut client = fresh_client(
        alloc,
        server,
        terms.setup(),
        terms.size,
        terms.limit,
        hasher,
    );
    let left = registered(alloc, &mut client, connection, watching, word, heard, out);
    put_away(client);
    left
}

// With which status the program ends where a registration is left so, at the moment that the clock tells; None: the
// path is observed anew.
fn verdict_now<T: Timekeeper>(
    watching: &Watching<'_, '_>,
    left: &Left,
    heard: Heard,
    time: &mut T,
) -> Result<Option<Status>, Stop>
    ensures { IfOk result (λ verdicted. (now : ℕ) × T.tells time.old now time.new × (is_over : Bool)
        × Decides watching.now.options.now heard.since.0 heard.values now is_over
        × (verdicted ≡ verdict left.now is_over)) }
{
    let now = time.now()?;
    let is_over = is_over(watching.options, heard.since, heard.values, now);
    Ok(verdict(left, is_over))
}

// What follows a registration that began at this moment: the end of the program with this status; or, where there is
// none, another registration once so many seconds have passed, at the moment that is heard last then.
fn follow<L: Link, T: Timekeeper, E: Write>(
    connection: &mut Connection<'_, '_, '_, L, T, E>,
    watching: &Watching<'_, '_>,
    begin: Moment,
    heard: &mut Heard,
    verdict: Option<Status>,
) -> Result<Option<Status>, Stop>
    ensures follows { IfOk result (λ ended. (ended ≡ verdict)
        × Follows watching.now.again begin.0 verdict heard.new.last.0) }
    ensures values { heard.new.values ≡ heard.old.values }
    ensures since { heard.new.since ≡ heard.old.since }
{
    if verdict.is_some() {
        return Ok(verdict);
    }
    let next = pause(connection.link, connection.time, begin, watching.again)?;
    heard.last = next;
    Ok(None)
}

// Has a client of its own observe the path, and says how that is left: the status with which the program ends, or None
// where the path is observed anew, at the moment that is heard last then.
fn observed_and_told<H: BuildHasher + Drop, L: Link, T: Timekeeper, E: Write, W: Write>(
    alloc: Global,
    connection: &mut Connection<'_, '_, '_, L, T, E>,
    server: Endpoint,
    hasher: H,
    watching: &Watching<'_, '_>,
    word: u64,
    heard: &mut Heard,
    out: &mut W,
) -> Result<Option<Status>, Stop>
    ensures next { IfOk result (λ ended. (left : LeftSpec) × (values : ℕ) × (held : Option (List ℕ))
        × IsRegistered server (sizes_of (asked_terms word watching.now.options.now))
        (setup_of (asked_terms word watching.now.options.now)) watching.now.path.now watching.now.options.now
        watching.now.again heard.old.since.0 heard.old.last.0 heard.old.values (W.contents out.old) left values held
        × IsFollowed watching.now.options.now watching.now.again heard.old.since.0 heard.old.last.0 left values ended
        heard.new.values heard.new.last.0 held (W.contents out.new)) }
    ensures since { IfOk result (λ _. heard.new.since ≡ heard.old.since) }
{
    let begin = heard.last;
    let left = observed_once(
        alloc, connection, server, hasher, watching, word, heard, out,
    )?;
    let verdict = verdict_now(watching, &left, *heard, connection.time)?;
    let told = tell_left(
        alloc,
        &left,
        verdict,
        watching.again,
        watching.options.json,
        connection.time,
        out,
        connection.err,
    );
    put_away(left);
    told?;
    follow(connection, watching, begin, heard, verdict)
}

// The same, over a link of its own, after so many others.
fn observed_next<S: LinkSource, H: BuildHasher + Drop, T: Timekeeper, E: Write, W: Write>(
    alloc: Global,
    source: &S,
    time: &mut T,
    err: &mut E,
    hasher: H,
    watching: &Watching<'_, '_>,
    number: u64,
    heard: &mut Heard,
    out: &mut W,
) -> Result<Option<Status>, Stop>
    ensures next { IfOk result (λ ended. (left : LeftSpec) × (values : ℕ) × (held : Option (List ℕ))
        × IsRegisteredNext (S.reaches source.now) watching.now.word watching.now.path.now watching.now.options.now
        watching.now.again heard.old.since.0 number heard.old.last.0 heard.old.values (W.contents out.old) left values
        held
        × IsFollowed watching.now.options.now watching.now.again heard.old.since.0 heard.old.last.0 left values ended
        heard.new.values heard.new.last.0 held (W.contents out.new)) }
    ensures since { IfOk result (λ _. heard.new.since ≡ heard.old.since) }
{
    let word = watching.word.wrapping_add(number);
    let (link, server) = source.open()?;
    let mut link = link;
    let mut connection = Connection::new(&mut link, time, err);
    let ended = observed_and_told(
        alloc,
        &mut connection,
        server,
        hasher,
        watching,
        word,
        heard,
        out,
    );
    put_away(link);
    ended
}

/// Observes what a server holds at a path, and prints each value on a line of `out`. Where no value came for so long,
/// or the server ended the observation, a client of its own, at an endpoint of its own, observes it anew, so many
/// seconds after the registration before or later; standard error says why. It ends as an observation does that is not
/// made anew, but where the server ends that.
pub fn watch_over<S: LinkSource, T: Timekeeper, H: BuildHasher + Copy + Drop, O: Write, E: Write>(
    alloc: Global,
    source: &S,
    time: &mut T,
    err: &mut E,
    hasher: H,
    watching: &Watching<'_, '_>,
    out: &mut O,
) -> Result<Status, Stop>
    // Each client was called to observe the path, and then only to cancel that, once it was over by the options or no
    // value had come for so long; a further one only where the one before was left so, or with another last report than
    // that it is cancelled, and so many seconds after it. The status is 0 where it was reported last that it is
    // cancelled, and else 1. Each value that came before that is written once, whole, and nothing else but how the last
    // one ended, in JSON where that is wanted.
    ensures { IfOk result (Watches (O.contents out.old) (O.contents out.new)
        (S.reaches source.now) watching.now.word watching.now.path.now
        watching.now.options.now watching.now.again) }
{
    let since = time.now()?;
    let mut heard = Heard {
        since,
        values: 0,
        last: since,
    };
    // More registrations than a program lives.
    for number in 0..u64::MAX {
        let ended = observed_next(
            alloc, source, time, err, hasher, watching, number, &mut heard, out,
        )?;
        if let Some(status) = ended {
            return Ok(status);
        }
    }
    Err(Stop::Failed)
}
