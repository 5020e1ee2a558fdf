//! Observing a resource, and printing its values (RFC 7641).
ghost use Rattle.std.specs.Prelude.{◌≡◌, ◌↔◌, ◌+◌, ◌≤◌, ◌∷◌, ℕ, List, [], true, false, Some, IfNone, IfOk, IfSome};
ghost use Rattle.std.specs.Prelude.{Ok, Option, OnOk};
ghost use Rattle.std.specs.declared.alloc.Global.{Global};
ghost use Rattle.std.specs.Io.KnownBytes.{Appends};
ghost use Rattle.coap_types.specs.declared.endpoint.Endpoint.{Endpoint as EndpointSpec};
ghost use Rattle.coap_block.specs.Sizes.{Sizes};
ghost use Rattle.coap_layer.specs.declared.setup.Setup.{Setup as SetupSpec};
ghost use Rattle.coap_client.specs.Led.{Led, State, Step};
ghost use Rattle.coap_client.specs.Object.Shown.{number_of, shown_report};
ghost use Rattle.coap_client.specs.Trace.{Call, Cancels, Report as ReportSpec, is_value};
ghost use Rattle.coap_client.specs.Trace.{Observes as observes};
ghost use Rattle.coap_client.specs.declared.client.report.Report as R;
ghost use Rattle.coap_client.specs.declared.refusals.CancelRefusal.{CancelRefusal as CancelRefusalSpec};
ghost use Rattle.coap_arguments.specs.declared.orders.AskOptions.{AskOptions as OptionsSpec};
ghost use Rattle.coap_waits.specs.Asks.{Turned, takes_report};
ghost use Rattle.coap_waits.specs.JsonLines.{WritesEnd};
ghost use Rattle.coap_waits.specs.Linked.{IsRunOver, PassesNothing, RunsOver};
ghost use Rattle.coap_asking.specs.JsonValues.{WritesTook, WritesValue, form_of};
ghost use Rattle.coap_asking.specs.Observes.{HasAll, IsLate, IsOver, ObserveBecomes, ObserveComes, Observed};
ghost use Rattle.coap_asking.specs.Observes.{HasGivenUp};
ghost use Rattle.coap_asking.specs.ObservedTurns.{IsObserved, Observes, ObservesFrom};
ghost use Rattle.coap_asking.specs.Observes.{observed_status};
ghost use Rattle.coap_asking.specs.Printed.{line_of};
ghost use Rattle.coap_waits.specs.Terms.{asked_terms, setup_of, sizes_of};
ghost use Rattle.coap_wires.specs.Waiting.{HasPassed};
ghost use Rattle.coap_asking.specs.Watches.{IsNoEnd, TakesReport, counted_with};
ghost use Rattle.coap_waits.specs.declared.calling.Outcome.TheVariants.{Reported};

use coap_arguments::AskOptions;
use coap_common::put_away;
use coap_ends::{CallId, CallRefusal, Client, Report};
use coap_links::{Link, fresh_tally, send_all};
use coap_print::hex_or_dash;
use coap_status::{Status, Stop};
use coap_types::{Endpoint, Moment, Path};
use coap_waits::{
    Connection, Outcome, Terms, fresh_client, next_report_of, outcome_text, turn_now,
    write_outcome_now, write_report,
};
use coap_wires::{Counting, MS_PER_SECOND, Timekeeper, make_way, passed};
use std::alloc::Global;
use std::hash::BuildHasher;
use std::io::Write;

// Whether so many values are as many as are wanted.
fn has_all(times: Option<u64>, values: u64) -> bool
    ensures { (result ≡ true) ↔ HasAll times values }
{
    match times {
        Some(times) => times <= values,
        None => false,
    }
}

/// Whether so many seconds have passed.
pub(crate) fn is_late(seconds: Option<u64>, begin: Moment, now: Moment) -> bool
    ensures { (result ≡ true) ↔ IsLate seconds begin.0 now.0 }
{
    match seconds {
        Some(seconds) => seconds <= now.since(begin) / MS_PER_SECOND,
        None => false,
    }
}

/// Whether an observation that began at this moment is over, after so many values.
pub(crate) fn is_over(options: &AskOptions, begin: Moment, values: u64, now: Moment) -> bool
    ensures { (result ≡ true) ↔ IsOver options.now begin.0 values now.0 }
{
    has_all(options.times, values) || is_late(options.seconds, begin, now)
}

/// How a value is printed.
#[derive(Clone, Copy, Debug)]
pub(crate) enum Form {
    /// Its bytes as they are.
    Bytes,
    /// Its bytes in hex.
    Hex,
    /// The line of its report in JSON, at this moment.
    Json(Moment),
}

impl Form {
    /// The form that the options say, at this moment.
    pub(crate) fn of(options: &AskOptions, now: Moment) -> Form
        ensures { result ≡ form_of options.now now }
    {
        if options.json {
            Form::Json(now)
        } else if options.hex {
            Form::Hex
        } else {
            Form::Bytes
        }
    }
}

/// Prints a value on a line, at once; whether the report is one. One that comes when the observation is
/// over isn't printed.
pub(crate) fn print_value<W: Write, E: Write>(
    alloc: Global,
    report: &Report,
    is_over: bool,
    form: Form,
    out: &mut W,
    err: &mut E,
) -> Result<bool, Stop>
    ensures value { IfOk result (λ is. is ≡ is_value (shown_report report.now)) }
    ensures written { OnOk result (WritesValue form is_over (W.contents out.old) (W.contents out.new)
        (shown_report report.now)) }
{
    let Report::Value(_, fetched) = report else {
        return Ok(false);
    };
    if is_over {
        return Ok(true);
    }
    make_way(err);
    match form {
        Form::Bytes => print_line(alloc, fetched.body.as_slice(), false, out)?,
        Form::Hex => print_line(alloc, fetched.body.as_slice(), true, out)?,
        Form::Json(at) => write_report(alloc, at, report, out)?,
    }
    Ok(true)
}

/// Prints bytes on a line, at once.
pub(crate) fn print_line<W: Write>(
    alloc: Global,
    bytes: &[u8],
    is_hex: bool,
    out: &mut W,
) -> Result<(), Stop>
    ensures { OnOk result (Appends (W.contents out.old) (W.contents out.new) (line_of is_hex bytes.now)) }
{
    if is_hex {
        let text = hex_or_dash(alloc, bytes)?;
        writeln!(out, "{text}")?;
    } else {
        out.write_all(bytes)?;
        writeln!(out)?;
    }
    out.flush()?;
    Ok(())
}

// Takes the next report of the observation: prints and counts it where it is a value, and else answers it, as it
// is the last one.
fn last_report<H: BuildHasher, W: Write, E: Write>(
    alloc: Global,
    client: &mut Client<Global, H>,
    id: CallId,
    values: &mut u64,
    is_over: bool,
    form: Form,
    out: &mut W,
    err: &mut E,
) -> Result<Option<Report>, Stop>
    ensures last { IfOk result (λ last. IfSome last (λ report. Step client.old
        (takes_report id.0 (shown_report report)) client.new × (is_value (shown_report report) ≡ false)
        × (values.new ≡ values.old)
        × WritesValue form is_over (W.contents out.old) (W.contents out.new) (shown_report report))) }
    ensures counted { IfOk result (λ last. IfNone last ((took : Option ReportSpec)
        × TakesReport id.0 took client.old client.new × IsNoEnd took
        × (values.new ≡ counted_with values.old took)
        × WritesTook form is_over (W.contents out.old) (W.contents out.new) took)) }
    ensures more { (options : OptionsSpec) (begin : ℕ) (s : State) → Observed options begin id.0 s values.old client.old
        → IfOk result (λ last. IfNone last (Observed options begin id.0 s values.new client.new)) }
    ensures own { Turned PassesNothing client.old client.new }
{
    let Some(report) = next_report_of(client, id) else {
        return Ok(None);
    };
    if print_value(alloc, &report, is_over, form, out, err)? {
        *values = values.saturating_add(1);
        return Ok(None);
    }
    Ok(Some(report))
}

// Cancels the observation where it is over (RFC 7641, section 3.6). That is refused, and tried again later, while the
// registration is not answered; and where it is cancelled already.
fn cancel_at_end<H: BuildHasher>(
    client: &mut Client<Global, H>,
    id: CallId,
    options: &AskOptions,
    begin: Moment,
    values: u64,
    now: Moment,
)
    ensures observed { (s : State) → Observed options.now begin.0 id.0 s values client.old
        → Observed options.now begin.0 id.0 s values client.new }
    ensures cancels { IsOver options.now begin.0 values now.0 → (answer : Option CancelRefusalSpec)
        × Step client.old (Cancels now.0 id.0 answer) client.new }
    ensures goes_on { (IsOver options.now begin.0 values now.0 → ⊥) → client.new ≡ client.old }
    ensures own { Turned PassesNothing client.old client.new }
{
    if is_over(options, begin, values, now) {
        let _answer = client.cancel(now, id);
    }
}

// After how many seconds it is given up, where they have passed and no value came.
fn given_up(options: &AskOptions, begin: Moment, values: u64, now: Moment) -> Option<u64>
    ensures some { IfSome result (λ seconds. (options.now.give_up ≡ Some seconds) × (values ≡ 0)
        × HasPassed seconds begin.0 now.0) }
    ensures none { IfNone result (HasGivenUp options.now begin.0 values now.0 → ⊥) }
{
    if values > 0 {
        return None;
    }
    passed(options.give_up, begin, now)
}

// Turns the client until it reports for the last time of this observation, which began at this moment,
// and sends what is out then; or until so many seconds have passed without a value.
fn awaited<H: BuildHasher, L: Link, T: Timekeeper, E: Write, W: Write>(
    alloc: Global,
    client: &mut Client<Global, H>,
    connection: &mut Connection<'_, '_, '_, L, T, E>,
    id: CallId,
    begin: Moment,
    options: &AskOptions,
    word: u64,
    out: &mut W,
) -> Result<Outcome, Stop>
    ensures comes { IfOk result (ObserveComes options.now begin.0 id.0 client.old) }
    ensures over { IfOk result (λ _. RunsOver L.sends L.receives L.fault_count word client.old
        connection.old.link.now client.new connection.new.link.now) }
    ensures sent { (report : R.Report Global) → result ≡ Ok (Reported report) → client.new.layer.layer.queue ≡ [] }
    ensures written { IfOk result (λ outcome. IsObserved options.now begin.0 id.0 client.old
        (W.contents out.old) outcome
        (W.contents out.new)) }
{
    let mut tally = fresh_tally(word);
    let mut values = 0;
    // More turns than a program lives.
    for _turn in 0..u64::MAX {
        let now = turn_now(client, connection, Counting::InARow, &mut tally)?;
        let is_over = is_over(options, begin, values, now);
        if let Some(report) = last_report(
            alloc,
            client,
            id,
            &mut values,
            is_over,
            Form::of(options, now),
            out,
            connection.err,
        )? {
            send_all(client, connection.link);
            return Ok(Outcome::Reported(report));
        }
        if let Some(seconds) = given_up(options, begin, values, now) {
            return Ok(Outcome::GaveUp(seconds));
        }
        cancel_at_end(client, id, options, begin, values, now);
    }
    Err(Stop::Failed)
}

/// Hands a client the observation of a path: its number, or the refusal where the client does not take it.
pub(crate) fn register<H: BuildHasher>(
    client: &mut Client<Global, H>,
    now: Moment,
    path: &Path,
) -> Result<Result<CallId, CallRefusal>, Stop>
    ensures step { IfOk result (λ answer. Step client.old (observes now.0 path.now (number_of answer)) client.new) }
    ensures led { IfOk result (λ answer. (server : EndpointSpec) (sizes : Sizes) (w : SetupSpec) (t : List Call)
        → Led server sizes w t client.old
        → Led server sizes w (observes now.0 path.now (number_of answer) ∷ t) client.new) }
{
    match client.observe(now, path.clone()?) {
        Ok(id) => Ok(Ok(id)),
        Err(CallRefusal::Memory) => Err(Stop::Memory),
        Err(refusal) => Ok(Err(refusal)),
    }
}

// What becomes of an observation, where the client was asked for nothing before.
fn outcome_of<H: BuildHasher, L: Link, T: Timekeeper, E: Write, W: Write>(
    alloc: Global,
    client: &mut Client<Global, H>,
    connection: &mut Connection<'_, '_, '_, L, T, E>,
    path: &Path,
    options: &AskOptions,
    word: u64,
    out: &mut W,
) -> Result<Outcome, Stop>
    ensures becomes { IfOk result (λ outcome. (server : EndpointSpec) (sizes : Sizes) (w : SetupSpec)
        → Led server sizes w [] client.old → ObserveBecomes server sizes w path.now options.now outcome) }
    ensures written { IfOk result (λ outcome. ObservesFrom client.old path.now options.now (W.contents out.old) outcome
        (W.contents out.new)) }
    ensures over { IfOk result (λ _. RunsOver L.sends L.receives L.fault_count word client.old
        connection.old.link.now client.new connection.new.link.now) }
    ensures sent { (report : R.Report Global) → result ≡ Ok (Reported report) → client.new.layer.layer.queue ≡ [] }
{
    let begin = connection.time.now()?;
    match register(client, begin, path)? {
        Ok(id) => awaited(alloc, client, connection, id, begin, options, word, out),
        Err(refusal) => Ok(Outcome::Refused(refusal)),
    }
}

// Says how an observation ended, on standard error.
fn say<E: Write>(alloc: Global, outcome: &Outcome, err: &mut E) -> Result<(), Stop> {
    let text = outcome_text(alloc, outcome)?;
    let _ = writeln!(err, "{text}");
    Ok(())
}

// Tells how an observation ended: in JSON on a line of its own, where that is wanted.
fn tell<T: Timekeeper, O: Write, E: Write>(
    alloc: Global,
    is_json: bool,
    outcome: &Outcome,
    time: &mut T,
    out: &mut O,
    err: &mut E,
) -> Result<Status, Stop>
    ensures status { IfOk result (λ status. status ≡ observed_status outcome.now) }
    ensures written { OnOk result (WritesEnd is_json (O.contents out.old) (O.contents out.new) outcome.now) }
{
    if is_json {
        make_way(err);
        write_outcome_now(alloc, outcome, time, out)?;
    } else {
        say(alloc, outcome, err)?;
    }
    if let Outcome::Reported(Report::Cancelled) = outcome {
        return Ok(Status::Done);
    }
    Ok(Status::Refused)
}

// Observes, and says how it ended.
fn observe_and_tell<H: BuildHasher, L: Link, T: Timekeeper, O: Write, E: Write>(
    alloc: Global,
    client: &mut Client<Global, H>,
    connection: &mut Connection<'_, '_, '_, L, T, E>,
    path: &Path,
    options: &AskOptions,
    word: u64,
    out: &mut O,
) -> Result<Status, Stop>
    ensures observes { IfOk result (λ status. (server : EndpointSpec) (sizes : Sizes) (w : SetupSpec)
        → Led server sizes w [] client.old → Observes (O.contents out.old) (O.contents out.new) server sizes w path.now
        options.now status) }
    ensures over { IfOk result (λ _. RunsOver L.sends L.receives L.fault_count word client.old
        connection.old.link.now client.new connection.new.link.now) }
{
    let outcome = outcome_of(alloc, client, connection, path, options, word, out)?;
    tell(
        alloc,
        options.json,
        &outcome,
        connection.time,
        out,
        connection.err,
    )
}

/// Observes what a server holds at a path, and prints each value on a line of `out`, and on standard error how it
/// ended. It ends after as many values, or seconds, as the options say, and with neither when the server
/// ends it. The client begins with this word, and by the terms of the options.
pub fn observe_over<L: Link, T: Timekeeper, H: BuildHasher + Drop, O: Write, E: Write>(
    alloc: Global,
    connection: &mut Connection<'_, '_, '_, L, T, E>,
    server: Endpoint,
    hasher: H,
    path: &Path,
    options: &AskOptions,
    word: u64,
    out: &mut O,
) -> Result<Status, Stop>
    // A client of this server, which remembers as many messages as the options say, was called to observe the path, and
    // then only to cancel that, once it was over by the options; the status is 0 where it was reported last that it is
    // cancelled, and else 1. Each value that came before that is written once, whole, and nothing else but how it
    // ended, in JSON where that is wanted. It is given up in the first turn after as many seconds as may pass without
    // a value.
    ensures observes { IfOk result (Observes (O.contents out.old) (O.contents out.new) server
        (sizes_of (asked_terms word options.now)) (setup_of (asked_terms word options.now)) path.now options.now) }
    // What a client that observes is fed came over its link, in turns, and all that it gives out is sent over it.
    ensures over { IfOk result (λ _. IsRunOver L.sends L.receives L.fault_count server
        (sizes_of (asked_terms word options.now)) (setup_of (asked_terms word options.now)) connection.old.link.now
        connection.new.link.now) }
{
    let terms = Terms::of(options, word);
    let mut client = fresh_client(
        alloc,
        server,
        terms.setup(),
        terms.size,
        terms.limit,
        hasher,
    );
    let ended = observe_and_tell(alloc, &mut client, connection, path, options, word, out);
    put_away(client);
    ended
}
